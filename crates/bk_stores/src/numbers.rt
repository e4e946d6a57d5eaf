// Whether the stores of a record have numbers of their own.
ghost use Rattle.std.specs.Prelude.{◌≡◌, ◌<◌, ℕ, Some, true, length, slice_get, MatchBool};
ghost use Rattle.bk_master.specs.declared.record.Entry.{Entry as Entries};
ghost use Rattle.bk_stores.specs.Standing.{AreDifferent, AreNumbered, LieBelow, LieUnder};

use bk_master::{Entry, Record, Unfinished};

// Whether each entry's store has a number below this one.
fn lie_below(entries: &[Entry], next: u32) -> bool
    ensures below { result ≡ true → LieBelow entries.now next }
    ensures all { LieBelow entries.now next → result ≡ true }
{
    for entry in entries {
        if entry.store >= next {
            return false;
        }
    }
    true
}

// Whether each store that is being made or removed has a number below this one.
fn lie_under(unfinished: &[Unfinished], next: u32) -> bool
    ensures under { result ≡ true → LieUnder unfinished.now next }
    ensures all { LieUnder unfinished.now next → result ≡ true }
{
    for it in unfinished {
        if it.store >= next {
            return false;
        }
    }
    true
}

// Whether an entry before the one at a place has its number.
fn has_before(entries: &[Entry], i: usize) -> bool
    requires { i < length entries.now }
    ensures { MatchBool result ((j : ℕ) × (e : Entries) × (f : Entries) × (j < i) × (slice_get entries.now j ≡ Some e) × (slice_get entries.now i ≡ Some f) × (e.store ≡ f.store)) ((j : ℕ) (e f : Entries) → j < i → slice_get entries.now j ≡ Some e → slice_get entries.now i ≡ Some f → e.store ≡ f.store → ⊥) }
{
    for j in 0..i {
        if entries[j].store == entries[i].store {
            return true;
        }
    }
    false
}

// Whether no two entries' stores have one number.
fn are_different(entries: &[Entry]) -> bool
    ensures different { result ≡ true → AreDifferent entries.now }
    ensures all { AreDifferent entries.now → result ≡ true }
{
    for i in 0..entries.len() {
        if has_before(entries, i) {
            return false;
        }
    }
    true
}

/// Whether each store of a record has a number of its own below the next one, and what is being made or removed has one below it too.
pub(crate) fn are_numbered(record: &Record) -> bool
    ensures numbered { result ≡ true → AreNumbered «record».now }
    ensures all { LieBelow «record».now.databases «record».now.next → LieUnder «record».now.unfinished «record».now.next → AreDifferent «record».now.databases → result ≡ true }
{
    let entries = record.databases.as_slice();
    let next = record.next;
    lie_below(entries, next)
        && lie_under(record.unfinished.as_slice(), next)
        && are_different(entries)
}
