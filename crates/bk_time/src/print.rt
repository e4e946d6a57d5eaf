//! The text of a time.

ghost use Rattle.std.specs.Prelude.{◌≡◌, ◌<◌, ◌≤◌, ◌*◌, ◌≤ℤ◌, pos, IsTrue, IfOk};
ghost use Rattle.std.specs.String.{string_bytes};
ghost use Rattle.jiff_core.specs.DateTime.{civil_nanos};
ghost use Rattle.bk_time.specs.Texts.{IsMoment, ArePartsOf, spelled_date, spelled_clock, spelled};
ghost use Rattle.bk_time.specs.Times.{two_figures, three_figures, four_figures, is_date, is_clock};

use jiff::{SignedDuration, civil};
use std::alloc::{AllocError, Global};

/// A date and a time of day.
#[derive(Clone, Copy)]
pub struct Moment {
    pub year: u16,
    pub month: u8,
    pub day: u8,
    pub hour: u8,
    pub minute: u8,
    pub second: u8,
    pub millisecond: u16,
}

fn civil_of(ms: u64) -> civil::DateTime
    requires { ms ≤ 253402300799999 }
    ensures { civil_nanos result ≡ pos (ms * 1_000_000) }
{
    civil::datetime(1970, 1, 1, 0, 0, 0, 0).saturating_add(SignedDuration::from_millis(ms as i64))
}

fn parts_of(at: civil::DateTime) -> Moment
    requires { pos 1970 ≤ℤ at.date.year }
    ensures { ArePartsOf at result }
{
    Moment {
        year: at.year() as u16,
        month: at.month() as u8,
        day: at.day() as u8,
        hour: at.hour() as u8,
        minute: at.minute() as u8,
        second: at.second() as u8,
        millisecond: at.millisecond() as u16,
    }
}

pub fn moment_of(ms: u64) -> Moment
    requires { ms ≤ 253402300799999 }
    ensures { IsMoment ms result }
{
    parts_of(civil_of(ms))
}

#[tactic(auto, using(crate::proofs::FigureLemmas::padded_two))]
fn two(alloc: Global, n: u8) -> Result<String, AllocError>
    requires { n < 100 }
    ensures { IfOk result (λ s. string_bytes s ≡ two_figures n) }
{
    format!(in alloc; "{n:02}")
}

#[tactic(auto, using(crate::proofs::FigureLemmas::padded_three))]
fn three(alloc: Global, n: u16) -> Result<String, AllocError>
    requires { n < 1000 }
    ensures { IfOk result (λ s. string_bytes s ≡ three_figures n) }
{
    format!(in alloc; "{n:03}")
}

#[tactic(auto, using(crate::proofs::FigureLemmas::decimal_four))]
fn four(alloc: Global, n: u16) -> Result<String, AllocError>
    requires low { 1000 ≤ n }
    requires high { n < 10000 }
    ensures { IfOk result (λ s. string_bytes s ≡ four_figures n) }
{
    format!(in alloc; "{n}")
}

#[tactic(auto, unfolding(crate::specs::Texts::spelled_date))]
fn date_text(alloc: Global, m: Moment) -> Result<String, AllocError>
    requires { IsTrue (is_date m.year m.month m.day) }
    ensures { IfOk result (λ s. string_bytes s ≡ spelled_date m) }
{
    let year = four(alloc, m.year)?;
    let month = two(alloc, m.month)?;
    let day = two(alloc, m.day)?;
    format!(in alloc; "{year}-{month}-{day}")
}

#[tactic(auto, unfolding(crate::specs::Texts::spelled_clock))]
fn clock_text(alloc: Global, m: Moment) -> Result<String, AllocError>
    requires clock { IsTrue (is_clock m.hour m.minute m.second) }
    requires millisecond { m.millisecond < 1000 }
    ensures { IfOk result (λ s. string_bytes s ≡ spelled_clock m) }
{
    let hour = two(alloc, m.hour)?;
    let minute = two(alloc, m.minute)?;
    let second = two(alloc, m.second)?;
    let millisecond = three(alloc, m.millisecond)?;
    format!(in alloc; "{hour}:{minute}:{second}.{millisecond}")
}

#[tactic(auto, unfolding(crate::specs::Texts::spelled))]
pub fn text(alloc: Global, m: Moment) -> Result<String, AllocError>
    requires date { IsTrue (is_date m.year m.month m.day) }
    requires clock { IsTrue (is_clock m.hour m.minute m.second) }
    requires millisecond { m.millisecond < 1000 }
    ensures { IfOk result (λ s. string_bytes s ≡ spelled m) }
{
    let date = date_text(alloc, m)?;
    let clock = clock_text(alloc, m)?;
    format!(in alloc; "{date} {clock}")
}
