//! How far a word, digits, a line, a comment and a quote go.

ghost use Rattle.std.specs.Prelude.{◌≡◌, ℕ, ◌≤◌, ◌<◌, ◌+◌, ◌-◌, ◌*◌, ◌^◌, length, reverse, IfSome, SomeIff, count_by, false};
ghost use Rattle.std.specs.Char as char;
ghost use Rattle.std.specs.List.{prefix_len};
ghost use Rattle.bk_token.specs.Bytes as class;
ghost use Rattle.bk_token.specs.Pieces as spec;
ghost use Rattle.bk_token.specs.Reading as reading;

use crate::opening::{is_blank, is_word_byte};

pub fn word_len(bytes: &[u8]) -> usize
    ensures value { result ≡ prefix_len class.is_word_byte bytes.now }
    ensures within { result ≤ length bytes.now }
{
    bytes.iter().take_while(|b| is_word_byte(**b)).count()
}

/// How many decimal digits stand in front.
pub fn digits_len(bytes: &[u8]) -> usize
    ensures value { result ≡ prefix_len char.is_ascii_digit bytes.now }
    ensures within { result ≤ length bytes.now }
{
    bytes.iter().take_while(|b| b.is_ascii_digit()).count()
}

pub fn line_len(bytes: &[u8]) -> usize
    ensures value { result ≡ prefix_len class.is_within_line bytes.now }
    ensures within { result ≤ length bytes.now }
{
    bytes.iter().take_while(|b| **b != b'\n').count()
}

/// How many line feeds there are.
pub fn line_feeds(bytes: &[u8]) -> usize
    ensures { result ≡ count_by class.is_line_feed bytes.now }
{
    bytes.iter().filter(|b| **b == b'\n').count()
}

/// How many more bytes belong to a block comment that is open.
pub fn open_comment_len(bytes: &[u8]) -> usize
    ensures value { result ≡ reading.comment_from 0 0 bytes.now }
    ensures within { result ≤ length bytes.now }
{
    let mut outer = 0usize;
    let mut last = 0u8;
    let mut rest = bytes;
    while let [b, after @ ..] = rest {
        rest = after;
        if last == b'/' && *b == b'*' {
            outer += 1;
            last = 0;
        } else if last == b'*' && *b == b'/' {
            if outer == 0 {
                return bytes.len() - rest.len();
            }
            outer -= 1;
            last = 0;
        } else {
            last = *b;
        }
    }
    bytes.len()
}

/// How many bytes there are up to and with the closing quote, if it stands on this line.
pub fn closing(close: u8, bytes: &[u8]) -> Option<usize>
    ensures value { result ≡ reading.closing close false 0 bytes.now }
    ensures within { IfSome result (λ len. len ≤ length bytes.now) }
{
    let mut is_second = false;
    let mut at = 0;
    let mut rest = bytes;
    while let [b, after @ ..] = rest {
        if is_second && *b != close {
            return Some(at);
        }
        if !is_second && *b == b'\n' {
            return None;
        }
        is_second = !is_second && *b == close;
        at += 1;
        rest = after;
    }
    if is_second { Some(at) } else { None }
}

fn with_digit(value: Option<u64>, digit: u8) -> Option<u64>
    ensures { (d : ℕ) → SomeIff value (d < 2 ^ 64) d → SomeIff result (d * 10 + (digit - 48) < 2 ^ 64) (d * 10 + (digit - 48)) }
{
    value?
        .checked_mul(10)?
        .checked_add(u64::from(digit.saturating_sub(b'0')))
}

/// The value of decimal digits, if it is below 2 ^ 64.
pub fn decimal(digits: &[u8]) -> Option<u64>
    ensures { SomeIff result (spec.decimal digits.now < 2 ^ 64) (spec.decimal digits.now) }
{
    let mut value = Some(0u64);
    for digit in digits {
        value = with_digit(value, *digit);
    }
    value
}

/// Only blanks stand up to the end of the line.
pub fn is_blank_line(bytes: &[u8]) -> bool
    ensures { result ≡ spec.is_blank_line bytes.now }
{
    let mut rest = bytes;
    while let [b, after @ ..] = rest {
        if *b == b'\n' {
            return true;
        }
        if !is_blank(*b) {
            return false;
        }
        rest = after;
    }
    true
}

/// Only blanks stand before this place on its line.
pub fn is_blank_so_far(before: &[u8]) -> bool
    ensures { result ≡ spec.is_blank_line (reverse before.now) }
{
    let mut rest = before;
    while let [front @ .., b] = rest {
        if *b == b'\n' {
            return true;
        }
        if !is_blank(*b) {
            return false;
        }
        rest = front;
    }
    true
}

/// Nothing stands before this place on its line.
pub fn begins_line(before: &[u8]) -> bool
    ensures { result ≡ spec.begins_line before.now }
{
    match before {
        [] => true,
        [.., b] => *b == b'\n',
    }
}
