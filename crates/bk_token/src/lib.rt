//! Cuts a script into tokens.
#![tactic(auto)]

ghost use Rattle.std.specs.Prelude.{◌≡◌, ℕ, List, IfOk, OnOk, All, ◌+◌, ◌++◌, ◌<◌, ◌^◌, min};
ghost use Rattle.bk_token.specs.Tokens.{AreTokens, SpansRise, IsItsSlice, bytes_of};
ghost use Rattle.bk_token.specs.Contents.{SaysBy};
ghost use Rattle.bk_token.specs.Reading.{as_token};
ghost use Rattle.bk_token.specs.declared.token.Token.{Token as TokenOf};

mod opening;
mod piece;
mod place;
mod plain;
mod runs;
mod token;
mod words;

pub use opening::is_blank;
use piece::{Piece, first_piece};
pub use place::{Place, next_token};
pub use plain::{all_blank, is_plain};
pub use runs::{decimal, digits_len, line_feeds};
use std::alloc::{AllocError, Global};
pub use token::{Kind, Token};
pub use words::{RESERVED, bytes_of, is_reserved, is_word, name_of, text_of};

/// The line behind so many line feeds, from 1. All lines from 4,294,967,295 on count as that one.
pub fn line_number(feeds: usize) -> u32
    ensures { result ≡ min (feeds + 1) 4294967295 }
{
    u32::try_from(feeds).map_or(u32::MAX, |feeds| feeds.saturating_add(1))
}

fn add(found: &mut Vec<Token>, piece: Piece, start: usize, feeds: usize) -> Result<(), AllocError>
    requires { start + piece.len < 2 ^ 64 }
    ensures { OnOk result (found.new.items ≡ found.old.items ++ as_token piece.kind start (start + piece.len) (min (feeds + 1) 4294967295)) }
{
    if let Some(kind) = piece.kind {
        let (end, line) = (start + piece.len, line_number(feeds));
        found.push(Token {
            kind,
            start,
            end,
            line,
        })?;
    }
    Ok(())
}

/// The tokens of a script. It fails only where memory runs out.
pub fn tokens(alloc: Global, src: &[u8]) -> Result<Vec<Token>, AllocError>
    ensures list { IfOk result (λ v. AreTokens src.now v.items) }
    ensures spans { IfOk result (λ v. SpansRise 0 src.now v.items) }
    ensures slices { IfOk result (λ v. All (IsItsSlice src.now) v.items) }
{
    let mut found = Vec::new(alloc);
    let mut at = 0;
    let mut feeds = 0;
    while at < src.len() {
        let piece = first_piece(&src[..at], &src[at..]);
        let end = at + piece.len;
        add(&mut found, piece, at, feeds)?;
        feeds += line_feeds(&src[at..end]);
        at = end;
    }
    Ok(found)
}

/// Bytes have exactly one token list.
pub fn one_token_list()
    ensures one { (src : List ℕ) (ts us : List TokenOf) → AreTokens src ts → AreTokens src us → ts ≡ us }
    ensures some { (src : List ℕ) → (ts : List TokenOf) × AreTokens src ts }
{}

/// The spans of tokens rise, and lie within the bytes.
pub fn spans_rise()
    ensures { (src : List ℕ) (ts : List TokenOf) → AreTokens src ts → SpansRise 0 src ts }
{}

/// The bytes of each token are a piece of its kind.
pub fn slices()
    ensures { (src : List ℕ) (ts : List TokenOf) → AreTokens src ts → All (IsItsSlice src) ts }
{}

/// What a text or a name in quotes says is what its bytes spell.
pub fn contents()
    ensures { (src : List ℕ) (ts : List TokenOf) → AreTokens src ts → All (λ t. SaysBy t.kind (bytes_of src t)) ts }
{}
