//! Reading a record at a glance.

ghost use Rattle.std.specs.Prelude.{◌≡◌, ◌≤◌, ◌<◌, List, ℕ, length, drop, true, IfSome, IsNone};
ghost use Rattle.bk_bytes.specs.Field.{number_of};
ghost use Rattle.bk_ids.specs.declared.record.Rec.{Rec};
ghost use Rattle.bk_record.specs.Skims.{IsWrite, Shows};
ghost use Rattle.bk_record.specs.Spelling.{spelling, BeginsWith};

use crate::reading::split_record;
use crate::view::RecRef;
use bk_bytes::{get_u32, get_u64};
use bk_ids::Lsn;

// How many bytes the spelling of a write has, and the number of its kind, which stands behind its length.
const WRITE_LEN: usize = 288;

const WRITE_KIND: u32 = 4;

/// A record at a glance.
#[derive(Clone, Copy, Debug, PartialEq, Eq)]
pub enum Skimmed<'a> {
    /// A write with this number, of the transaction with this first record. Its cells weren't read.
    Write { lsn: Lsn, begin: Lsn },
    /// Any other record.
    Other(RecRef<'a>),
}

// The number of the kind of the record that stands at the front.
fn kind_of(bytes: &[u8]) -> u32
    ensures { 8 ≤ length bytes.now → result ≡ number_of 4 (drop 4 bytes.now) }
{
    get_u32(bytes, 4).unwrap_or(0)
}

// The number of the record that stands at the front.
fn lsn_of(bytes: &[u8]) -> Lsn
    ensures { 16 ≤ length bytes.now → result ≡ number_of 8 (drop 8 bytes.now) }
{
    get_u64(bytes, 8).unwrap_or(0)
}

// The number of the first record of its transaction.
fn begin_of(bytes: &[u8]) -> Lsn
    ensures { 24 ≤ length bytes.now → result ≡ number_of 8 (drop 16 bytes.now) }
{
    get_u64(bytes, 16).unwrap_or(0)
}

// Whether the record that stands at the front is a write.
fn is_write(bytes: &[u8]) -> bool
    ensures some { result ≡ true → 288 ≤ length bytes.now }
    ensures is { result ≡ true → (r : Rec) (after : List ℕ) → BeginsWith bytes.now r after → IsWrite r.body × (length (spelling r) ≡ 288) }
{
    bytes.len() >= WRITE_LEN && kind_of(bytes) == WRITE_KIND
}

/// The record that begins at this place, in bytes from a log's start, and where the next one begins. The cells of a write aren't read: bytes that look like the front of a write's spelling are
/// taken for one. `None` is answered only where no record is spelled there.
pub fn skim_at(bytes: &[u8], at: usize) -> Option<(Skimmed<'_>, usize)>
    requires { at ≤ length bytes.now }
    ensures inside { IfSome result (λ x. (at < x.1) × (x.1 ≤ length bytes.now)) }
    ensures shows { (r : Rec) (after : List ℕ) → BeginsWith (drop at bytes.now) r after → IfSome result (λ x. Shows x.0 r × (drop x.1 bytes.now ≡ after)) }
    ensures none { IsNone result → (r : Rec) (after : List ℕ) → BeginsWith (drop at bytes.now) r after → ⊥ }
{
    let rest = &bytes[at..];
    if is_write(rest) {
        let write = Skimmed::Write {
            lsn: lsn_of(rest),
            begin: begin_of(rest),
        };
        return Some((write, at + WRITE_LEN));
    }
    let (record, after) = split_record(rest)?;
    Some((Skimmed::Other(record), bytes.len() - after.len()))
}
