//! Numbers at a place of a slice.
#![tactic(auto, unfolding(crate::specs::Field::number_of, crate::specs::Field::bytes_of))]

ghost use Rattle.std.specs.Prelude.{◌≡◌, ℕ, ◌+◌, ◌^◌, ◌<◌, ◌≤◌, List, ◌++◌, length, drop, SomeIff};
ghost use Rattle.bk_bytes.specs.Field.{AreBytes, number_of, bytes_of, with_field};

use byteorder::{ByteOrder, LittleEndian};

/// The number in the 2 bytes of `b` from `at` on, or `None` where `b` ends before them.
pub fn get_u16(b: &[u8], at: usize) -> Option<u16>
    ensures { SomeIff result (at + 2 ≤ length b.now) (number_of 2 (drop at b.now)) }
{
    let (_, rest) = b.split_at_checked(at)?;
    if rest.len() < 2 {
        return None;
    }
    Some(LittleEndian::read_u16(rest))
}

/// The number in the 4 bytes of `b` from `at` on, or `None` where `b` ends before them.
pub fn get_u32(b: &[u8], at: usize) -> Option<u32>
    ensures { SomeIff result (at + 4 ≤ length b.now) (number_of 4 (drop at b.now)) }
{
    let (_, rest) = b.split_at_checked(at)?;
    if rest.len() < 4 {
        return None;
    }
    Some(LittleEndian::read_u32(rest))
}

/// The number in the 8 bytes of `b` from `at` on, or `None` where `b` ends before them.
pub fn get_u64(b: &[u8], at: usize) -> Option<u64>
    ensures { SomeIff result (at + 8 ≤ length b.now) (number_of 8 (drop at b.now)) }
{
    let (_, rest) = b.split_at_checked(at)?;
    if rest.len() < 8 {
        return None;
    }
    Some(LittleEndian::read_u64(rest))
}

/// The number in the 16 bytes of `b` from `at` on, or `None` where `b` ends before them.
pub fn get_u128(b: &[u8], at: usize) -> Option<u128>
    ensures { SomeIff result (at + 16 ≤ length b.now) (number_of 16 (drop at b.now)) }
{
    let (_, rest) = b.split_at_checked(at)?;
    if rest.len() < 16 {
        return None;
    }
    Some(LittleEndian::read_u128(rest))
}

/// Writes `v` into the 2 bytes of `b` from `at` on, and leaves all others.
pub fn put_u16(b: &mut [u8], at: usize, v: u16)
    requires { at + 2 ≤ length b.old }
    ensures { b.new ≡ with_field b.old at (bytes_of 2 v) }
{
    LittleEndian::write_u16(&mut b[at..], v);
}

/// Writes `v` into the 4 bytes of `b` from `at` on, and leaves all others.
pub fn put_u32(b: &mut [u8], at: usize, v: u32)
    requires { at + 4 ≤ length b.old }
    ensures { b.new ≡ with_field b.old at (bytes_of 4 v) }
{
    LittleEndian::write_u32(&mut b[at..], v);
}

/// Writes `v` into the 8 bytes of `b` from `at` on, and leaves all others.
pub fn put_u64(b: &mut [u8], at: usize, v: u64)
    requires { at + 8 ≤ length b.old }
    ensures { b.new ≡ with_field b.old at (bytes_of 8 v) }
{
    LittleEndian::write_u64(&mut b[at..], v);
}

/// Writes `v` into the 16 bytes of `b` from `at` on, and leaves all others.
pub fn put_u128(b: &mut [u8], at: usize, v: u128)
    requires { at + 16 ≤ length b.old }
    ensures { b.new ≡ with_field b.old at (bytes_of 16 v) }
{
    LittleEndian::write_u128(&mut b[at..], v);
}

/// A field of any width is its number, and the bytes of that number are the field.
pub fn field_law()
    ensures number { (n x : ℕ) (rest : List ℕ) → x < 256 ^ n → number_of n (bytes_of n x ++ rest) ≡ x }
    ensures field { (bytes : List ℕ) → AreBytes bytes → bytes_of (length bytes) (number_of (length bytes) bytes) ≡ bytes }
    ensures range { (n : ℕ) (bytes : List ℕ) → AreBytes bytes → number_of n bytes < 256 ^ n }
{}
