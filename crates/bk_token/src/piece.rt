//! One piece of a script: what is passed over, or a token.

ghost use Rattle.std.specs.Prelude.{◌≡◌, ℕ, List, [], ◌∷◌, ◌+◌, ◌≤◌, ◌<◌, length, take, drop, MatchOption, MatchBool, IsUtf8, true, false, ◌==◌, if◌then◌else◌};
ghost use Rattle.bk_token.specs.Pieces as spec;
ghost use Rattle.bk_token.specs.Bytes.{begins, is_within_line, is_word_byte};
ghost use Rattle.bk_token.specs.Pieces.{IsUnclosed};
ghost use Rattle.std.specs.Char.{is_ascii_digit};
ghost use Rattle.bk_token.specs.Reading.{Cuts, CutsBy, CutsClosed, CutsQuotation};

use crate::opening::{Opening, opening_of};
use crate::runs::{
    begins_line, closing, decimal, digits_len, is_blank_line, is_blank_so_far, line_len,
    open_comment_len, word_len,
};
use crate::token::Kind;

/// A piece: its kind, none for what is passed over, and how many bytes it has.
#[derive(Clone, Copy, Debug)]
pub struct Piece {
    pub kind: Option<Kind>,
    pub len: usize,
}

fn passed(len: usize) -> Piece
    ensures { (result.kind ≡ None) × (result.len ≡ len) }
{
    Piece { kind: None, len }
}

fn token(kind: Kind, len: usize) -> Piece
    ensures { (result.kind ≡ Some kind) × (result.len ≡ len) }
{
    Piece {
        kind: Some(kind),
        len,
    }
}

fn is_utf8(bytes: &[u8]) -> bool
    ensures { MatchBool result (IsUtf8 bytes.now) (¬ IsUtf8 bytes.now) }
{
    match str::from_utf8(bytes) {
        Ok(_) => true,
        Err(_) => false,
    }
}

/// How many bytes the text or the name in quotes has that opens with these bytes of the front.
fn closed_len(front: usize, close: u8, bytes: &[u8]) -> Option<usize>
    requires some { 0 < front }
    requires fits { front ≤ length bytes.now }
    requires within_line { (close == 10) ≡ false }
    ensures { MatchOption result (IsUnclosed (take front bytes.now) close bytes.now) (CutsClosed (take front bytes.now) close bytes.now) }
{
    let len = front + closing(close, &bytes[front..])?;
    if is_utf8(&bytes[..len]) {
        Some(len)
    } else {
        None
    }
}

fn quotation(kind: Kind, front: usize, close: u8, bytes: &[u8]) -> Piece
    requires some { 0 < front }
    requires fits { front ≤ length bytes.now }
    requires within_line { (close == 10) ≡ false }
    requires begins { begins is_within_line bytes.now ≡ true }
    ensures { CutsQuotation kind (take front bytes.now) close bytes.now result.len result.kind }
{
    match closed_len(front, close, bytes) {
        Some(len) => token(kind, len),
        None => token(Kind::Bad, line_len(bytes)),
    }
}

fn is_go(before: &[u8], word: &[u8], rest: &[u8]) -> bool
    ensures { result ≡ spec.is_go before.now word.now rest.now }
{
    word.eq_ignore_ascii_case(b"GO") && is_blank_so_far(before) && is_blank_line(rest)
}

fn word_kind(before: &[u8], word: &[u8], rest: &[u8]) -> Kind
    ensures { result ≡ (if spec.is_go before.now word.now rest.now then Kind.Go else Kind.Word) }
{
    if is_go(before, word, rest) {
        Kind::Go
    } else {
        Kind::Word
    }
}

fn word(before: &[u8], bytes: &[u8]) -> Piece
    requires { begins is_word_byte bytes.now ≡ true }
    ensures { CutsBy Opening.Letter before.now bytes.now result.len result.kind }
{
    let len = word_len(bytes);
    token(word_kind(before, &bytes[..len], &bytes[len..]), len)
}

fn number_kind(digits: &[u8]) -> Kind
    ensures { result ≡ spec.number_kind digits.now }
{
    match decimal(digits) {
        Some(value) => Kind::Number(value),
        None => Kind::Bad,
    }
}

fn number(bytes: &[u8]) -> Piece
    requires { begins is_ascii_digit bytes.now ≡ true }
    ensures { (before : List ℕ) → CutsBy Opening.Digit before bytes.now result.len result.kind }
{
    let len = digits_len(bytes);
    token(number_kind(&bytes[..len]), len)
}

fn colon(before: &[u8]) -> Piece
    ensures { (bytes : List ℕ) → 0 < length bytes → CutsBy Opening.ColonByte before.now bytes result.len result.kind }
{
    let kind = if begins_line(before) {
        Kind::Colon
    } else {
        Kind::Bad
    };
    token(kind, 1)
}

fn block_comment(bytes: &[u8]) -> Piece
    requires { take 2 bytes.now ≡ 47 ∷ 42 ∷ [] }
    ensures { (before : List ℕ) → CutsBy Opening.SlashComment before bytes.now result.len result.kind }
{
    passed(2 + open_comment_len(&bytes[2..]))
}

fn line_comment(bytes: &[u8]) -> Piece
    requires { begins is_within_line bytes.now ≡ true }
    ensures { (before : List ℕ) → CutsBy Opening.DashComment before bytes.now result.len result.kind }
{
    passed(line_len(bytes))
}

/// The piece at the front of the bytes, with the bytes that stand before it.
pub fn first_piece(before: &[u8], bytes: &[u8]) -> Piece
    requires { 0 < length bytes.now }
    ensures { Cuts before.now bytes.now result.len result.kind }
{
    match opening_of(bytes) {
        Opening::Blank => passed(1),
        Opening::DashComment => line_comment(bytes),
        Opening::SlashComment => block_comment(bytes),
        Opening::Letter => word(before, bytes),
        Opening::Digit => number(bytes),
        Opening::Quote => quotation(Kind::Text, 1, b'\'', bytes),
        Opening::NationalQuote => quotation(Kind::Text, 2, b'\'', bytes),
        Opening::Bracket => quotation(Kind::Quoted, 1, b']', bytes),
        Opening::DoubleQuote => quotation(Kind::Quoted, 1, b'"', bytes),
        Opening::ColonByte => colon(before),
        Opening::SignByte => token(Kind::Sign(bytes[0]), 1),
        Opening::Other => token(Kind::Bad, 1),
    }
}
