//! Texts of times, and the milliseconds from 1970-01-01 00:00:00 UTC that they mean.
#![tactic(auto)]

ghost use Rattle.std.specs.String.{string_bytes};
ghost use Rattle.bk_time.specs.Texts.{IsTextOf};
ghost use Rattle.bk_time.specs.Times.{time_of};
ghost use Rattle.bk_time.specs.Times as spec;
ghost use Rattle.std.specs.Prelude.{◌≡◌, ◌≤◌, IfOk};

mod clock;
mod date;
mod digits;
mod print;

use std::alloc::{AllocError, Global};

/// The milliseconds from 1970-01-01 00:00:00 UTC that a text means, none where it is no time. A time is
/// `YYYY-MM-DD`, which a space or `T` and `hh:mm:ss` may follow, and these one to three digits behind a point;
/// or `Mon d, yyyy h:mm AM` and its like, with or without seconds. Years are 1970 to 9999.
#[tactic(auto, unfolding(crate::specs::Times::time_of))]
pub fn read_time(t: &str) -> Option<u64>
    ensures { result ≡ time_of t.now }
{
    let bytes = t.as_bytes();
    match numeric(bytes) {
        Some(ms) => Some(ms),
        None => english(bytes),
    }
}

/// The text `YYYY-MM-DD hh:mm:ss.mmm` of so many milliseconds from 1970-01-01 00:00:00 UTC. It fails only where
/// memory runs out.
pub fn time_text(alloc: Global, ms: u64) -> Result<String, AllocError>
    requires { ms ≤ 253402300799999 }
    ensures text { IfOk result (λ s. IsTextOf ms (string_bytes s)) }
    ensures read { IfOk result (λ s. time_of (string_bytes s) ≡ Some ms) }
{
    print::text(alloc, print::moment_of(ms))
}

#[tactic(auto, unfolding(crate::specs::Times::numeric))]
fn numeric(bytes: &[u8]) -> Option<u64>
    ensures value { result ≡ spec.numeric bytes.now }
{
    let (start, rest) = date::date(bytes)?;
    let time = clock::behind_date(rest)?;
    Some(start + time)
}

#[tactic(auto, unfolding(crate::specs::Times::english))]
fn english(bytes: &[u8]) -> Option<u64>
    ensures { result ≡ spec.english bytes.now }
{
    let (start, rest) = date::english_date(bytes)?;
    let rest = digits::byte(b' ', rest)?;
    let time = clock::english_clock(rest)?;
    Some(start + time)
}
