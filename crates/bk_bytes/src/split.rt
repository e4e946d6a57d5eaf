//! The first field of a slice, and the bytes after it.
#![tactic(auto, unfolding(crate::specs::Field::number_of))]

ghost use Rattle.std.specs.List.{list_all};
ghost use Rattle.std.specs.Prelude.{◌==◌, ◌≡◌, ℕ, ◌+◌, ◌^◌, ◌<◌, ◌≤◌, List, ◌++◌, length};
ghost use Rattle.bk_bytes.specs.Codec.{Gives, number_at, run_at, text_at, zeros_at, string_at};

use byteorder::{ByteOrder, LittleEndian};

/// The first `n` bytes and the rest, or `None` where there are fewer.
pub fn split_run(bytes: &[u8], n: usize) -> Option<(&[u8], &[u8])>
    ensures { Gives (λ x. (x.0.now, x.1.now)) result (run_at n bytes.now) }
{
    bytes.split_at_checked(n)
}

/// The first byte and the rest, or `None` where there is none.
pub fn split_u8(bytes: &[u8]) -> Option<(u8, &[u8])>
    ensures { Gives (λ x. (x.0, x.1.now)) result (number_at 1 bytes.now) }
{
    let (first, rest) = bytes.split_first()?;
    Some((*first, rest))
}

/// The number in the first 2 bytes and the rest, or `None` where there are fewer.
pub fn split_u16(bytes: &[u8]) -> Option<(u16, &[u8])>
    ensures { Gives (λ x. (x.0, x.1.now)) result (number_at 2 bytes.now) }
{
    if bytes.len() < 2 {
        return None;
    }
    Some((LittleEndian::read_u16(bytes), &bytes[2..]))
}

/// The number in the first 4 bytes and the rest, or `None` where there are fewer.
pub fn split_u32(bytes: &[u8]) -> Option<(u32, &[u8])>
    ensures { Gives (λ x. (x.0, x.1.now)) result (number_at 4 bytes.now) }
{
    if bytes.len() < 4 {
        return None;
    }
    Some((LittleEndian::read_u32(bytes), &bytes[4..]))
}

/// The number in the first 8 bytes and the rest, or `None` where there are fewer.
pub fn split_u64(bytes: &[u8]) -> Option<(u64, &[u8])>
    ensures { Gives (λ x. (x.0, x.1.now)) result (number_at 8 bytes.now) }
{
    if bytes.len() < 8 {
        return None;
    }
    Some((LittleEndian::read_u64(bytes), &bytes[8..]))
}

/// The number in the first 16 bytes and the rest, or `None` where there are fewer.
pub fn split_u128(bytes: &[u8]) -> Option<(u128, &[u8])>
    ensures { Gives (λ x. (x.0, x.1.now)) result (number_at 16 bytes.now) }
{
    if bytes.len() < 16 {
        return None;
    }
    Some((LittleEndian::read_u128(bytes), &bytes[16..]))
}

/// A length of 2 bytes, so many bytes, and the rest, or `None` where the bytes end before.
#[tactic(auto, unfolding(crate::specs::Codec::text_at))]
pub fn split_text(bytes: &[u8]) -> Option<(&[u8], &[u8])>
    ensures { Gives (λ x. (x.0.now, x.1.now)) result (text_at 2 bytes.now) }
{
    let (len, rest) = split_u16(bytes)?;
    split_run(rest, usize::from(len))
}

/// What follows `n` zero bytes, or `None` where the bytes don't begin with so many.
#[tactic(auto, unfolding(crate::specs::Codec::zeros_at))]
pub fn split_zeros(bytes: &[u8], n: usize) -> Option<&[u8]>
    ensures { Gives (λ x. (tt, x.now)) result (zeros_at n bytes.now) }
{
    let (front, rest) = split_run(bytes, n)?;
    if !are_zero(front) {
        return None;
    }
    Some(rest)
}

fn are_zero(bytes: &[u8]) -> bool
    ensures { result ≡ list_all (λ b. b == 0) bytes.now }
{
    bytes.iter().all(|b| *b == 0)
}

/// A text in UTF-8 of `least` to `most` bytes behind its length in 2 bytes, and the rest, or `None`
/// where the bytes don't begin with one.
#[tactic(auto, unfolding(crate::specs::Codec::string_at))]
pub fn split_str(bytes: &[u8], least: usize, most: usize) -> Option<(&str, &[u8])>
    ensures { Gives (λ x. (x.0.now, x.1.now)) result (string_at least most bytes.now) }
{
    let (text, rest) = split_text(bytes)?;
    if text.len() < least || most < text.len() {
        return None;
    }
    match std::str::from_utf8(text) {
        Ok(text) => Some((text, rest)),
        Err(_) => None,
    }
}
