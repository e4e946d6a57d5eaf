//! Reading a header.

ghost use Rattle.std.specs.Prelude.{◌≡◌, ◌++◌, ℕ, List, IfOk, MatchOption};
ghost use Rattle.bk_world.specs.declared.header.Header.{Header};
ghost use Rattle.bk_header.specs.Reading.{header_form};
ghost use Rattle.bk_reading.specs.Reading.{Reads};
ghost use Rattle.bk_header.specs.Spelling.{spelling};
ghost use Rattle.bk_header.specs.Conditions.{IsHeader};
ghost use Rattle.bk_header.specs.Found.{BeginsWith, IsNoHeader};

use crate::fixed::split_fixed;
use crate::lists::read_lists;
use crate::making::make;
use bk_reading::Unread;
use bk_world::Header;
use std::alloc::{AllocError, Global};

#[tactic(auto, unfolding(crate::specs::Reading::header_form))]
fn read_header(alloc: Global, bytes: &[u8]) -> Result<(Header, &[u8]), Unread>
    ensures { Reads (λ x. (x.0, x.1.now)) result (header_form.reading bytes.now) }
{
    let Some((fixed, rest)) = split_fixed(bytes) else {
        return Err(Unread::Unspelled);
    };
    let (lists, rest) = read_lists(alloc, rest)?;
    match make(fixed, lists) {
        Some(header) => Ok((header, rest)),
        None => Err(Unread::Unspelled),
    }
}

/// The header at the front of `b`, and how many bytes it has, or `None` exactly where no front of `b` is
/// a header.
pub fn decode(alloc: Global, b: &[u8]) -> Result<Option<(Header, usize)>, AllocError>
    ensures { IfOk result (λ found. MatchOption found (IsNoHeader b.now) (λ x. BeginsWith b.now x.0 x.1)) }
{
    match read_header(alloc, b) {
        Ok((header, rest)) => Ok(Some((header, b.len() - rest.len()))),
        Err(Unread::Unspelled) => Ok(None),
        Err(Unread::NoMemory) => Err(AllocError),
    }
}

/// A header has one spelling, and none is a proper front of another's.
pub fn header_law()
    ensures { (h other : Header) (a b : List ℕ) → IsHeader h → IsHeader other → spelling h ++ a ≡ spelling other ++ b → (h ≡ other) × (a ≡ b) }
{}
