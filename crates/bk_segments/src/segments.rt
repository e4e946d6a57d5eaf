// The segments of a log that count.
ghost use Rattle.std.specs.Prelude.{◌≡◌, ◌≢◌, ◌≤◌, ◌<◌, ◌+◌, ◌++◌, ◌∷◌, [], ℕ, Some, length, drop, slice_get, vec_len, vec_capacity, string_bytes, IfOk, OnOk};
ghost use Rattle.bk_segments.specs.Files.{segment_file, BeginsAt, IsAdded};
ghost use Rattle.bk_segments.specs.SegmentLaws.{Below};

use crate::names::segment_name;
use std::alloc::{AllocError, Global};

/// A segment that counts.
pub struct Segment {
    /// The name of its file.
    pub name: String,
    /// The number of its first record.
    pub first: u64,
}

impl Drop for Segment {
    fn drop(self) {
        let Segment { name: _, first: _ } = self;
    }
}

/// The segment of this number, whose first record has the number `first`.
pub fn new_segment(alloc: Global, db: u32, n: u64, first: u64) -> Result<Segment, AllocError>
    ensures name { IfOk result (λ s. string_bytes s.name ≡ segment_file db n) }
    ensures first { IfOk result (λ s. s.first ≡ first) }
{
    let name = segment_name(alloc, db, n)?;
    Ok(Segment { name, first })
}

/// Adds the segment of this number, whose first record has the number `first`.
pub fn add_segment(
    alloc: Global,
    db: u32,
    n: u64,
    first: u64,
    segments: &mut Vec<Segment>,
) -> Result<(), AllocError>
    ensures added { OnOk result (IsAdded segments.old.items segments.new.items db n first) }
    ensures len { OnOk result (vec_len segments.new ≡ vec_len segments.old + 1) }
{
    let segment = new_segment(alloc, db, n, first)?;
    segments.push(segment)?;
    Ok(())
}

/// Adds a segment behind the others, for which there is room.
pub fn push_segment(segments: &mut Vec<Segment>, segment: Segment)
    requires { vec_len segments.old < vec_capacity segments.old }
    ensures items { segments.new.items ≡ segments.old.items ++ segment ∷ [] }
    ensures len { vec_len segments.new ≡ vec_len segments.old + 1 }
{
    match segments.push(segment) {
        Ok(()) => {}
        Err(_) => unreachable!(),
    }
}

/// Leaves out the first segments, so many of them.
pub fn drop_segments(segments: &mut Vec<Segment>, count: usize)
    requires { count ≤ vec_len segments.old }
    ensures items { segments.new.items ≡ drop count segments.old.items }
    ensures len { vec_len segments.new + count ≡ vec_len segments.old }
{
    let rest = segments.len() - count;
    segments.rotate_left(count);
    segments.truncate(rest);
}

/// The number of the first record of a segment.
pub fn first_of(segments: &[Segment], i: usize) -> u64
    requires { i < length segments.now }
    ensures { BeginsAt segments.now i result }
{
    segments[i].first
}

// The index of this segment if it begins at the number or below it, and else the other one.
fn last_below(segments: &[Segment], to: u64, count: usize, i: usize) -> usize
    requires inside { i < length segments.now }
    requires least { 1 ≤ i }
    ensures { Below segments.now to count i → Below segments.now to result (i + 1) }
{
    if first_of(segments, i) <= to {
        i
    } else {
        count
    }
}

/// How many segments lie wholly below a number: the one behind them, if there is one, begins at it or below it.
pub fn count_below(segments: &[Segment], to: u64) -> usize
    ensures some { result ≢ 0 → result < length segments.now }
    ensures first { (n : ℕ) → result ≢ 0 → BeginsAt segments.now result n → n ≤ to }
    ensures rest { (i n : ℕ) → result < i → BeginsAt segments.now i n → to < n }
{
    let mut count = 0;
    for i in 1..segments.len() {
        count = last_below(segments, to, count, i);
    }
    count
}
