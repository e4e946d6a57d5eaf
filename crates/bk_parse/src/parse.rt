//! The parts that forms are made of.

ghost use Rattle.std.specs.Prelude.{◌≡◌, ◌++◌, ◌∷◌, [], length, drop, OnOk};
ghost use Rattle.bk_ids.specs.Name.{same_name};
ghost use Rattle.bk_parse.specs.Parse.{Parses};
ghost use Rattle.bk_parse.specs.Parse as spec;

use crate::stop::Stop;
use bk_ids::Text;
use bk_token::{Kind, Token, is_word, name_of, text_of};
use std::alloc::{AllocError, Global};

/// The form can't go on at the first of these tokens, or at the end.
pub fn stuck(tokens: &[Token]) -> Stop
    ensures { result ≡ Stop.At (length tokens.now) }
{
    Stop::At { left: tokens.len() }
}

/// The next token is this keyword, in any case.
pub fn next_is(src: &[u8], tokens: &[Token], word: &[u8]) -> bool
    ensures { result ≡ spec.next_is src.now tokens.now word.now }
{
    match tokens {
        [token, ..] => is_word(src, token, word),
        [] => false,
    }
}

/// The next token is this sign.
pub fn next_sign(tokens: &[Token], byte: u8) -> bool
    ensures { result ≡ spec.next_sign tokens.now byte }
{
    match tokens {
        [token, ..] => token.kind == Kind::Sign(byte),
        [] => false,
    }
}

/// The tokens behind the first.
pub fn behind(tokens: &[Token]) -> &[Token]
    ensures { result.now ≡ drop 1 tokens.now }
{
    match tokens {
        [_, rest @ ..] => rest,
        [] => tokens,
    }
}

/// Reads this keyword, in any case, and gives the tokens behind it.
#[tactic(auto, unfolding(crate::specs::Parse::keyword))]
pub fn keyword<'t>(src: &[u8], word: &[u8], tokens: &'t [Token]) -> Result<&'t [Token], Stop>
    ensures { Parses (λ x. x.now) result (spec.keyword src.now word.now tokens.now) }
{
    if next_is(src, tokens, word) {
        Ok(behind(tokens))
    } else {
        Err(stuck(tokens))
    }
}

/// The tokens behind this keyword, if it comes next; else all.
#[tactic(auto, unfolding(crate::specs::Parse::skip))]
pub fn skip<'t>(src: &[u8], word: &[u8], tokens: &'t [Token]) -> &'t [Token]
    ensures { result.now ≡ spec.skip src.now word.now tokens.now }
{
    if next_is(src, tokens, word) {
        behind(tokens)
    } else {
        tokens
    }
}

/// Reads this sign, and gives the tokens behind it.
#[tactic(auto, unfolding(crate::specs::Parse::sign))]
pub fn sign(byte: u8, tokens: &[Token]) -> Result<&[Token], Stop>
    ensures { Parses (λ x. x.now) result (spec.sign byte tokens.now) }
{
    if next_sign(tokens, byte) {
        Ok(behind(tokens))
    } else {
        Err(stuck(tokens))
    }
}

/// Reads a number.
#[tactic(auto, unfolding(crate::specs::Parse::number))]
pub fn number(tokens: &[Token]) -> Result<(u64, &[Token]), Stop>
    ensures { Parses (λ x. (x.0, x.1.now)) result (spec.number tokens.now) }
{
    match tokens {
        [] => Err(stuck(tokens)),
        [token, rest @ ..] => match token.kind {
            Kind::Number(n) => Ok((n, rest)),
            _ => Err(stuck(tokens)),
        },
    }
}

/// Reads a number from low to high.
#[tactic(auto, unfolding(crate::specs::Parse::number_in))]
pub fn number_in(low: u64, high: u64, tokens: &[Token]) -> Result<(u64, &[Token]), Stop>
    ensures { Parses (λ x. (x.0, x.1.now)) result (spec.number_in low high tokens.now) }
{
    let (n, rest) = number(tokens)?;
    if low <= n && n <= high {
        Ok((n, rest))
    } else {
        Err(stuck(tokens))
    }
}

/// Reads a name that isn't empty, with quotes or without.
#[tactic(auto, unfolding(crate::specs::Parse::name))]
pub fn name<'t>(alloc: Global, src: &[u8], tokens: &'t [Token]) -> Result<(Text, &'t [Token]), Stop>
    ensures { Parses (λ x. (x.0, x.1.now)) result (spec.name src.now tokens.now) }
{
    let [token, rest @ ..] = tokens else {
        return Err(stuck(tokens));
    };
    let Some(name) = name_of(alloc, src, token)? else {
        return Err(stuck(tokens));
    };
    if name.is_empty() {
        return Err(stuck(tokens));
    }
    Ok((Text::new(name), rest))
}

/// The texts are the same, in any ASCII case.
pub fn same_text(a: &str, b: &str) -> bool
    ensures { result ≡ same_name a.now b.now }
{
    a.eq_ignore_ascii_case(b)
}

/// Reads a name that the grammar fixes, with quotes or without, in any case.
#[tactic(auto, unfolding(crate::specs::Parse::fixed))]
pub fn fixed<'t>(
    alloc: Global,
    src: &[u8],
    word: &str,
    tokens: &'t [Token],
) -> Result<&'t [Token], Stop>
    ensures { Parses (λ x. x.now) result (spec.fixed src.now word.now tokens.now) }
{
    let (name, rest) = name(alloc, src, tokens)?;
    if same_text(name.as_str(), word) {
        Ok(rest)
    } else {
        Err(stuck(tokens))
    }
}

/// Reads a text.
#[tactic(auto, unfolding(crate::specs::Parse::text))]
pub fn text<'t>(alloc: Global, src: &[u8], tokens: &'t [Token]) -> Result<(Text, &'t [Token]), Stop>
    ensures { Parses (λ x. (x.0, x.1.now)) result (spec.text src.now tokens.now) }
{
    let [token, rest @ ..] = tokens else {
        return Err(stuck(tokens));
    };
    let Some(text) = text_of(alloc, src, token)? else {
        return Err(stuck(tokens));
    };
    Ok((Text::new(text), rest))
}

/// Reads a text that isn't empty.
#[tactic(auto, unfolding(crate::specs::Parse::filled_text))]
pub fn filled_text<'t>(
    alloc: Global,
    src: &[u8],
    tokens: &'t [Token],
) -> Result<(Text, &'t [Token]), Stop>
    ensures { Parses (λ x. (x.0, x.1.now)) result (spec.filled_text src.now tokens.now) }
{
    let (text, rest) = text(alloc, src, tokens)?;
    if text.as_str().is_empty() {
        Err(stuck(tokens))
    } else {
        Ok((text, rest))
    }
}

/// Reads `=` and a text.
#[tactic(auto, unfolding(crate::specs::Parse::equal_text))]
pub fn equal_text<'t>(
    alloc: Global,
    src: &[u8],
    tokens: &'t [Token],
) -> Result<(Text, &'t [Token]), Stop>
    ensures { Parses (λ x. (x.0, x.1.now)) result (spec.equal_text src.now tokens.now) }
{
    text(alloc, src, sign(b'=', tokens)?)
}

/// Reads `=` and a text that isn't empty.
#[tactic(auto, unfolding(crate::specs::Parse::equal_filled))]
pub fn equal_filled<'t>(
    alloc: Global,
    src: &[u8],
    tokens: &'t [Token],
) -> Result<(Text, &'t [Token]), Stop>
    ensures { Parses (λ x. (x.0, x.1.now)) result (spec.equal_filled src.now tokens.now) }
{
    filled_text(alloc, src, sign(b'=', tokens)?)
}

/// Reads `=` and a number.
#[tactic(auto, unfolding(crate::specs::Parse::equal_number))]
pub fn equal_number<'t>(tokens: &'t [Token]) -> Result<(u64, &'t [Token]), Stop>
    ensures { Parses (λ x. (x.0, x.1.now)) result (spec.equal_number tokens.now) }
{
    number(sign(b'=', tokens)?)
}

/// Adds a value to a list.
pub fn push<T: Drop>(found: &mut Vec<T>, value: T) -> Result<(), AllocError>
    ensures { OnOk result (found.new.items ≡ found.old.items ++ value ∷ []) }
{
    found.push(value)?;
    Ok(())
}
