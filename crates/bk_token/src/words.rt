//! Words, names and texts.

ghost use Rattle.std.specs.Prelude.{◌≡◌, ◌<◌, ◌-◌, IfOk, map, length, slice_range};
ghost use Rattle.std.specs.List.{list_any};
ghost use Rattle.std.specs.Option.{option_map};
ghost use Rattle.std.specs.String.{string_bytes};
ghost use Rattle.std.specs.Str.{str_eq_ignore_ascii_case};
ghost use Rattle.bk_token.specs.Bytes as class;
ghost use Rattle.bk_token.specs.Tokens.{bytes_of};
ghost use Rattle.bk_token.specs.Contents as spec;

use crate::plain::between;
use crate::token::{Kind, Token};
use std::alloc::{AllocError, Global};

/// The words that no name may be.
pub const RESERVED: [&[u8]; 24] = [
    b"ALTER",
    b"BACKUP",
    b"BEGIN",
    b"BULK",
    b"CHECKPOINT",
    b"COMMIT",
    b"CREATE",
    b"DELETE",
    b"DROP",
    b"FROM",
    b"GO",
    b"INSERT",
    b"INTO",
    b"ON",
    b"RESTORE",
    b"ROLLBACK",
    b"SELECT",
    b"SET",
    b"TO",
    b"UPDATE",
    b"USE",
    b"VALUES",
    b"WHERE",
    b"WITH",
];

/// The bytes of a token of this script: of its span, those that the script has.
pub fn bytes_of<'a>(src: &'a [u8], token: &Token) -> &'a [u8]
    ensures { result.now ≡ bytes_of src.now token.now }
{
    between(src, token.start, token.end)
}

fn same_word(a: &[u8], b: &[u8]) -> bool
    ensures { result ≡ str_eq_ignore_ascii_case a.now b.now }
{
    a.eq_ignore_ascii_case(b)
}

/// The token is this word, in any case.
#[tactic(auto, unfolding(crate::specs::Contents::is_word))]
pub fn is_word(src: &[u8], token: &Token, keyword: &[u8]) -> bool
    ensures { result ≡ spec.is_word src.now token.now keyword.now }
{
    token.kind == Kind::Word && same_word(bytes_of(src, token), keyword)
}

fn is_among(word: &[u8], words: &[&[u8]]) -> bool
    ensures { result ≡ list_any (λ w. str_eq_ignore_ascii_case word.now w.now) words.entry.now }
{
    let mut rest = words;
    while let [first, after @ ..] = rest {
        if same_word(word, first) {
            return true;
        }
        rest = after;
    }
    false
}

/// The word is one that no name may be, in any case.
#[tactic(auto, unfolding(crate::specs::Contents::is_reserved))]
pub fn is_reserved(word: &[u8]) -> bool
    ensures { result ≡ spec.is_reserved word.now }
{
    is_among(word, &RESERVED)
}

// The bytes behind the front and before the last.
fn inside(bytes: &[u8], front: usize) -> &[u8]
    ensures { result.now ≡ slice_range bytes.now front (length bytes.now - 1) }
{
    between(bytes, front, bytes.len().saturating_sub(1))
}

fn folded(alloc: Global, close: u8, bytes: &[u8]) -> Result<Vec<u8>, AllocError>
    ensures { IfOk result (λ v. v.items ≡ spec.folded close bytes.now) }
{
    let mut content = Vec::new(alloc);
    let mut rest = bytes;
    while let [b, after @ ..] = rest {
        content.push(*b)?;
        rest = match after {
            [second, behind @ ..] if *b == close && *second == close => behind,
            _ => after,
        };
    }
    Ok(content)
}

fn as_text(bytes: Vec<u8>) -> Option<String>
    ensures { option_map string_bytes result ≡ spec.as_text bytes.items }
{
    match String::from_utf8(bytes) {
        Ok(text) => Some(text),
        Err(_) => None,
    }
}

/// The content of a text, none of another token: without the N, the quotes around it, and each second
/// quote within. It fails only where memory runs out.
pub fn text_of(alloc: Global, src: &[u8], token: &Token) -> Result<Option<String>, AllocError>
    ensures { IfOk result (λ text. option_map string_bytes text ≡ spec.text_of src.now token.now) }
{
    if token.kind != Kind::Text {
        return Ok(None);
    }
    Ok(as_text(text_content(alloc, bytes_of(src, token))?))
}

#[tactic(auto, unfolding(crate::specs::Contents::text_content))]
fn text_content(alloc: Global, bytes: &[u8]) -> Result<Vec<u8>, AllocError>
    ensures { IfOk result (λ v. v.items ≡ spec.text_content bytes.now) }
{
    let front = if bytes.first() == Some(&b'N') { 2 } else { 1 };
    folded(alloc, b'\'', inside(bytes, front))
}

fn closing_quote(bytes: &[u8]) -> u8
    ensures { result ≡ spec.closing_quote bytes.now }
{
    match bytes {
        [b'[', ..] => b']',
        _ => b'"',
    }
}

#[tactic(auto, unfolding(crate::specs::Contents::quoted_content))]
fn quoted_content(alloc: Global, bytes: &[u8]) -> Result<Vec<u8>, AllocError>
    ensures { IfOk result (λ v. v.items ≡ spec.quoted_content bytes.now) }
{
    folded(alloc, closing_quote(bytes), inside(bytes, 1))
}

fn word_name(alloc: Global, bytes: &[u8]) -> Result<Option<String>, AllocError>
    ensures { IfOk result (λ name. option_map string_bytes name ≡ spec.name_by Kind.Word bytes.now) }
{
    if is_reserved(bytes) {
        return Ok(None);
    }
    Ok(as_text(Vec::from_slice(alloc, bytes)?))
}

/// The name that the token is, none where it is none: a word that isn't reserved, or the content of a
/// name in brackets or double quotes. It fails only where memory runs out.
pub fn name_of(alloc: Global, src: &[u8], token: &Token) -> Result<Option<String>, AllocError>
    ensures { IfOk result (λ name. option_map string_bytes name ≡ spec.name_of src.now token.now) }
{
    match token.kind {
        Kind::Word => word_name(alloc, bytes_of(src, token)),
        Kind::Quoted => Ok(as_text(quoted_content(alloc, bytes_of(src, token))?)),
        _ => Ok(None),
    }
}
