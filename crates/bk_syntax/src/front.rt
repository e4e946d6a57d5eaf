//! What stands in front of tokens.

ghost use Rattle.std.specs.Prelude.{◌≡◌, ◌∷◌, [], List, IfOk, true, false};
ghost use Rattle.bk_token.specs.declared.token.Token.{Token as TokenOf};
ghost use Rattle.bk_syntax.specs.Items as items_spec;
ghost use Rattle.bk_syntax.specs.Limits as limits_spec;
ghost use Rattle.bk_syntax.specs.Reader.{IsInFront};

use crate::limits::{is_long, is_wide};
use crate::statement::line_or_statement;
use bk_items::ScriptItem;
use bk_parse::Stop;
use bk_token::{Token, line_feeds, line_number};
use std::alloc::{AllocError, Global};

fn let_go(_item: ScriptItem) {}

fn measured(tokens: &[Token], rest: &[Token], item: ScriptItem) -> ScriptItem
    ensures { result ≡ items_spec.measured tokens.now rest.now item }
{
    if is_wide(tokens, rest) || is_long(&item) {
        let_go(item);
        ScriptItem::TooLong
    } else {
        item
    }
}

fn from_place(left: usize, tokens: &[Token]) -> &[Token]
    ensures { result.now ≡ items_spec.from_place left tokens.now }
{
    &tokens[tokens.len().saturating_sub(left)..]
}

// The line of the last byte, from 1.
fn last_line(src: &[u8]) -> u32
    ensures { result ≡ items_spec.line_at src.now [] }
{
    line_number(line_feeds(&src[..src.len().saturating_sub(1)]))
}

fn line_at(src: &[u8], tokens: &[Token]) -> u32
    ensures { result ≡ items_spec.line_at src.now tokens.now }
{
    match tokens {
        [token, ..] => token.line,
        [] => last_line(src),
    }
}

/// What stands in front of tokens.
#[derive(Debug, Drop)]
pub enum Front {
    /// That isn't known before more tokens are read.
    Wants,
    /// An item, behind which so many tokens are left.
    Read { item: ScriptItem, left: usize },
    /// Where so many tokens are left, on this line, nothing can go on.
    Stuck { left: usize, there: u32 },
}

/// What stands in front of these tokens, the first of which is no end of a statement. They are all that there are, or not.
pub fn front_of(
    alloc: Global,
    src: &[u8],
    first: &Token,
    tokens: &[Token],
    whole: bool,
) -> Result<Front, AllocError>
    requires first { (others : List TokenOf) × (tokens.now ≡ first.now ∷ others) }
    requires no_end { limits_spec.ends first.now.kind ≡ false }
    ensures { IfOk result (λ front. IsInFront src.now first.now.line tokens.now (λ more. whole ≡ true → more ≡ []) (whole ≡ false) front) }
{
    match line_or_statement(alloc, src, tokens) {
        Ok((item, rest)) => {
            let left = rest.len();
            if whole || left > 1 {
                let item = measured(tokens, rest, item);
                Ok(Front::Read { item, left })
            } else {
                let_go(item);
                Ok(Front::Wants)
            }
        }
        Err(Stop::NoMemory) => Err(AllocError),
        Err(Stop::At { left }) => {
            if whole || left > 1 {
                let there = line_at(src, from_place(left, tokens));
                let left = left.min(tokens.len().saturating_sub(1));
                Ok(Front::Stuck { left, there })
            } else {
                Ok(Front::Wants)
            }
        }
    }
}
