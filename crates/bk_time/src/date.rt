//! Dates.

ghost use Rattle.std.specs.Prelude.{◌≡◌, ◌≤◌, ◌<◌, ◌*◌, ◌≤ℤ◌, pos, unsigned_abs, IfSome};
ghost use Rattle.jiff_core.specs.Date.{epoch_day};
ghost use Rattle.bk_time.specs.Reading.{Gives, IsDateOf};
ghost use Rattle.bk_time.specs.Times as spec;

use crate::digits::{byte, four_digits, one_or_two_digits, two_digits};
use jiff::civil;

// The last midnight that there is: that of 9999-12-31.
const LAST_MIDNIGHT: u64 = 253_402_214_400_000;

// The milliseconds from 1970-01-01 to a date.
fn since_1970(date: civil::Date) -> u64
    requires { pos 1970 ≤ℤ date.year }
    ensures value { result ≡ unsigned_abs (epoch_day date) * 86_400_000 }
    ensures small { result ≤ LAST_MIDNIGHT }
{
    let since = date.duration_since(civil::date(1970, 1, 1));
    since.as_millis() as u64
}

fn date_of(year: u16, month: u16, day: u16) -> Option<civil::Date>
    ensures { IsDateOf year month day result }
{
    if year < 1970 || year > 9999 || month > 12 || day > 31 {
        return None;
    }
    match civil::Date::new(year as i16, month as i8, day as i8) {
        Ok(date) => Some(date),
        Err(_) => None,
    }
}

#[tactic(auto, unfolding(crate::specs::Times::midnight, crate::specs::Times::days))]
fn midnight(year: u16, month: u16, day: u16) -> Option<u64>
    ensures value { result ≡ spec.midnight year month day }
    ensures small { IfSome result (λ ms. ms ≤ LAST_MIDNIGHT) }
{
    match date_of(year, month, day) {
        Some(date) => Some(since_1970(date)),
        None => None,
    }
}

#[tactic(auto, unfolding(crate::specs::Times::date))]
pub fn date(bytes: &[u8]) -> Option<(u64, &[u8])>
    ensures value { Gives (λ x. (x.0, x.1.now)) result (spec.date bytes.now) }
    ensures small { IfSome result (λ x. x.0 ≤ LAST_MIDNIGHT) }
{
    let (year, rest) = four_digits(bytes)?;
    let rest = byte(b'-', rest)?;
    let (month, rest) = two_digits(rest)?;
    let rest = byte(b'-', rest)?;
    let (day, rest) = two_digits(rest)?;
    let start = midnight(year, month, day)?;
    Some((start, rest))
}

fn same_word(a: &[u8], b: &[u8]) -> bool
    ensures { result ≡ spec.same_word a.now b.now }
{
    a.eq_ignore_ascii_case(b)
}

#[tactic(auto, unfolding(crate::specs::Times::late_month))]
fn late_month(word: &[u8]) -> Option<u16>
    ensures { result ≡ spec.late_month word.now }
{
    if same_word(word, b"JUL") {
        Some(7)
    } else if same_word(word, b"AUG") {
        Some(8)
    } else if same_word(word, b"SEP") {
        Some(9)
    } else if same_word(word, b"OCT") {
        Some(10)
    } else if same_word(word, b"NOV") {
        Some(11)
    } else if same_word(word, b"DEC") {
        Some(12)
    } else {
        None
    }
}

#[tactic(auto, unfolding(crate::specs::Times::month_number))]
fn month_number(word: &[u8]) -> Option<u16>
    ensures { result ≡ spec.month_number word.now }
{
    if same_word(word, b"JAN") {
        Some(1)
    } else if same_word(word, b"FEB") {
        Some(2)
    } else if same_word(word, b"MAR") {
        Some(3)
    } else if same_word(word, b"APR") {
        Some(4)
    } else if same_word(word, b"MAY") {
        Some(5)
    } else if same_word(word, b"JUN") {
        Some(6)
    } else {
        late_month(word)
    }
}

#[tactic(auto, unfolding(crate::specs::Times::month))]
fn month(bytes: &[u8]) -> Option<(u16, &[u8])>
    ensures { Gives (λ x. (x.0, x.1.now)) result (spec.month bytes.now) }
{
    match bytes {
        [a, b, c, rest @ ..] => {
            let number = month_number(&[*a, *b, *c])?;
            Some((number, rest))
        }
        _ => None,
    }
}

#[tactic(auto, unfolding(crate::specs::Times::english_date))]
pub fn english_date(bytes: &[u8]) -> Option<(u64, &[u8])>
    ensures value { Gives (λ x. (x.0, x.1.now)) result (spec.english_date bytes.now) }
    ensures small { IfSome result (λ x. x.0 ≤ LAST_MIDNIGHT) }
{
    let (month, rest) = month(bytes)?;
    let rest = byte(b' ', rest)?;
    let (day, rest) = one_or_two_digits(rest)?;
    let rest = byte(b',', rest)?;
    let rest = byte(b' ', rest)?;
    let (year, rest) = four_digits(rest)?;
    let start = midnight(year, month, day)?;
    Some((start, rest))
}
