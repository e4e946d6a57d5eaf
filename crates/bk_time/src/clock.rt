//! Times of day.

ghost use Rattle.std.specs.Prelude.{◌≡◌, ◌<◌, ◌≤◌, ◌-◌, IfSome, IsTrue};
ghost use Rattle.std.specs.Char.{is_ascii_digit};
ghost use Rattle.bk_time.specs.Reading.{Gives};
ghost use Rattle.bk_time.specs.Times as spec;

use crate::digits::{byte, one_or_two_digits, two_digits};

// The milliseconds of a day.
const DAY: u64 = 86_400_000;

#[tactic(auto, unfolding(crate::specs::Times::since_midnight))]
fn since_midnight(hour: u16, minute: u16, second: u16, millisecond: u64) -> Option<u64>
    requires { millisecond < 1000 }
    ensures value { result ≡ spec.since_midnight hour minute second millisecond }
    ensures small { IfSome result (λ ms. ms < DAY) }
{
    if hour < 24 && minute < 60 && second < 60 {
        let minutes = u64::from(hour) * 60 + u64::from(minute);
        let seconds = minutes * 60 + u64::from(second);
        Some(seconds * 1000 + millisecond)
    } else {
        None
    }
}

fn digit(b: u8) -> u64
    requires { IsTrue (is_ascii_digit b) }
    ensures value { result ≡ b - 48 }
    ensures small { result < 10 }
{
    u64::from(b - b'0')
}

#[tactic(auto, unfolding(crate::specs::Times::thousandths))]
fn thousandths(bytes: &[u8]) -> Option<u64>
    ensures value { result ≡ spec.thousandths bytes.now }
    ensures small { IfSome result (λ ms. ms < 1000) }
{
    match bytes {
        [a] if a.is_ascii_digit() => Some(digit(*a) * 100),
        [a, b] if a.is_ascii_digit() && b.is_ascii_digit() => {
            Some(digit(*a) * 100 + digit(*b) * 10)
        }
        [a, b, c] if a.is_ascii_digit() && b.is_ascii_digit() && c.is_ascii_digit() => {
            Some(digit(*a) * 100 + digit(*b) * 10 + digit(*c))
        }
        _ => None,
    }
}

#[tactic(auto, unfolding(crate::specs::Times::fraction))]
fn fraction(bytes: &[u8]) -> Option<u64>
    ensures value { result ≡ spec.fraction bytes.now }
    ensures small { IfSome result (λ ms. ms < 1000) }
{
    match bytes {
        [] => Some(0),
        [b'.', rest @ ..] => thousandths(rest),
        _ => None,
    }
}

#[tactic(auto, unfolding(crate::specs::Times::clock))]
fn clock(bytes: &[u8]) -> Option<u64>
    ensures value { result ≡ spec.clock bytes.now }
    ensures small { IfSome result (λ ms. ms < DAY) }
{
    let (hour, rest) = two_digits(bytes)?;
    let rest = byte(b':', rest)?;
    let (minute, rest) = two_digits(rest)?;
    let rest = byte(b':', rest)?;
    let (second, rest) = two_digits(rest)?;
    let millisecond = fraction(rest)?;
    since_midnight(hour, minute, second, millisecond)
}

#[tactic(auto, unfolding(crate::specs::Times::behind_date))]
pub fn behind_date(bytes: &[u8]) -> Option<u64>
    ensures value { result ≡ spec.behind_date bytes.now }
    ensures small { IfSome result (λ ms. ms < DAY) }
{
    match bytes {
        [] => Some(0),
        [b' ' | b'T', rest @ ..] => clock(rest),
        _ => None,
    }
}

#[tactic(auto, unfolding(crate::specs::Times::seconds))]
fn seconds(bytes: &[u8]) -> Option<(u16, &[u8])>
    ensures { Gives (λ x. (x.0, x.1.now)) result (spec.seconds bytes.now) }
{
    match bytes {
        [b':', rest @ ..] => two_digits(rest),
        _ => Some((0, bytes)),
    }
}

#[tactic(auto, unfolding(crate::specs::Times::half))]
fn half(word: &[u8]) -> Option<u16>
    ensures value { result ≡ spec.half word.now }
    ensures small { IfSome result (λ hour. hour ≤ 12) }
{
    if word.eq_ignore_ascii_case(b"AM") {
        Some(0)
    } else if word.eq_ignore_ascii_case(b"PM") {
        Some(12)
    } else {
        None
    }
}

#[tactic(auto, unfolding(crate::specs::Times::hour_of_day))]
fn hour_of_day(hour: u16, half: u16) -> Option<u16>
    requires { half ≤ 12 }
    ensures { result ≡ spec.hour_of_day hour half }
{
    if 1 <= hour && hour <= 12 {
        Some(hour % 12 + half)
    } else {
        None
    }
}

#[tactic(auto, unfolding(crate::specs::Times::english_clock))]
pub fn english_clock(bytes: &[u8]) -> Option<u64>
    ensures value { result ≡ spec.english_clock bytes.now }
    ensures small { IfSome result (λ ms. ms < DAY) }
{
    let (twelfth, rest) = one_or_two_digits(bytes)?;
    let rest = byte(b':', rest)?;
    let (minute, rest) = two_digits(rest)?;
    let (second, rest) = seconds(rest)?;
    let rest = byte(b' ', rest)?;
    let half = half(rest)?;
    let hour = hour_of_day(twelfth, half)?;
    since_midnight(hour, minute, second, 0)
}
