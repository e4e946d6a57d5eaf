//! The numbers in texts: those of pages, and that of a mark.

ghost use Rattle.std.specs.Prelude.{◌≡◌, ◌≤◌, length, IfOk};
ghost use Rattle.std.specs.List.{prefix_len};
ghost use Rattle.std.specs.Option.{option_map};
ghost use Rattle.bk_token.specs.Bytes.{is_blank};
ghost use Rattle.bk_media_forms.specs.Pages as spec;

use bk_items::PageName;
use bk_parse::push;
use bk_token::{decimal, digits_len};
use std::alloc::{AllocError, Global};

#[tactic(auto, unfolding(crate::specs::Pages::digits_value))]
fn digits_value(digits: &[u8]) -> Option<u64>
    ensures { result ≡ spec.digits_value digits.now }
{
    match digits {
        [] => None,
        [_, ..] => decimal(digits),
    }
}

#[tactic(auto, unfolding(crate::specs::Pages::number_at))]
fn number_at(bytes: &[u8]) -> Option<(u64, &[u8])>
    ensures { option_map (λ x. (x.0, x.1.now)) result ≡ spec.number_at bytes.now }
{
    let len = digits_len(bytes);
    let value = digits_value(&bytes[..len])?;
    Some((value, &bytes[len..]))
}

fn byte_at(byte: u8, bytes: &[u8]) -> Option<&[u8]>
    ensures { option_map (λ x. x.now) result ≡ spec.byte_at byte bytes.now }
{
    match bytes {
        [first, rest @ ..] if *first == byte => Some(rest),
        _ => None,
    }
}

#[tactic(auto, unfolding(crate::specs::Pages::page_at))]
fn page_at(bytes: &[u8]) -> Option<(PageName, &[u8])>
    ensures { option_map (λ x. (x.0, x.1.now)) result ≡ spec.page_at bytes.now }
{
    let (file, rest) = number_at(bytes)?;
    let rest = byte_at(b':', rest)?;
    let (page, rest) = number_at(rest)?;
    Some((PageName { file, page }, rest))
}

fn blanks_len(bytes: &[u8]) -> usize
    ensures value { result ≡ prefix_len is_blank bytes.now }
    ensures within { result ≤ length bytes.now }
{
    bytes.iter().take_while(|b| bk_token::is_blank(**b)).count()
}

fn behind_blanks(bytes: &[u8]) -> &[u8]
    ensures { result.now ≡ spec.behind_blanks bytes.now }
{
    &bytes[blanks_len(bytes)..]
}

#[tactic(auto, unfolding(crate::specs::Pages::comma_at))]
fn comma_at(bytes: &[u8]) -> Option<&[u8]>
    ensures { option_map (λ x. x.now) result ≡ spec.comma_at bytes.now }
{
    let rest = byte_at(b',', behind_blanks(bytes))?;
    Some(behind_blanks(rest))
}

/// The pages that a text lists, none where it isn't a list of pages. It fails only where memory runs out.
#[tactic(auto, unfolding(crate::specs::Pages::pages_of, crate::specs::Pages::pages_from))]
pub fn pages_of(alloc: Global, bytes: &[u8]) -> Result<Option<Vec<PageName>>, AllocError>
    ensures { IfOk result (λ pages. option_map (λ v. v.items) pages ≡ spec.pages_of bytes.now) }
{
    let mut found = Vec::new(alloc);
    let mut rest = bytes;
    let mut left = bytes;
    while let [_, more @ ..] = left {
        let Some((page, after)) = page_at(rest) else {
            return Ok(None);
        };
        push(&mut found, page)?;
        if after.is_empty() {
            return Ok(Some(found));
        }
        let Some(next) = comma_at(after) else {
            return Ok(None);
        };
        rest = next;
        left = more;
    }
    Ok(None)
}

#[tactic(auto, unfolding(crate::specs::Pages::lsn_at))]
fn lsn_at(bytes: &[u8]) -> Option<&[u8]>
    ensures { option_map (λ x. x.now) result ≡ spec.lsn_at bytes.now }
{
    let rest = byte_at(b'l', bytes)?;
    let rest = byte_at(b's', rest)?;
    let rest = byte_at(b'n', rest)?;
    byte_at(b':', rest)
}

/// The log sequence number that a mark's text says: `lsn:` and decimal digits up to 2^62. None of any other text.
#[tactic(auto, unfolding(crate::specs::Pages::lsn_of))]
pub fn lsn_of(bytes: &[u8]) -> Option<u64>
    ensures { result ≡ spec.lsn_of bytes.now }
{
    let (lsn, rest) = number_at(lsn_at(bytes)?)?;
    if rest.is_empty() && lsn <= 1 << 62 {
        Some(lsn)
    } else {
        None
    }
}
