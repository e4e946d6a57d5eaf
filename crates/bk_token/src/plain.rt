//! Scripts without comments.

ghost use Rattle.std.specs.Prelude.{◌≡◌, slice_range, drop};
ghost use Rattle.std.specs.List.{list_all};
ghost use Rattle.bk_token.specs.Bytes as class;
ghost use Rattle.bk_token.specs.Contents as spec;

use crate::opening::is_blank;
use crate::token::Token;

/// All of the bytes are blanks: spaces, tabs, carriage returns, line feeds.
pub fn all_blank(bytes: &[u8]) -> bool
    ensures { result ≡ list_all class.is_blank bytes.now }
{
    bytes.iter().all(|b| is_blank(*b))
}

pub fn between(src: &[u8], start: usize, end: usize) -> &[u8]
    ensures { result.now ≡ slice_range src.now start end }
{
    let start = start.min(src.len());
    let end = end.min(src.len());
    if start < end { &src[start..end] } else { &[] }
}

/// Every byte that lies in no token is a blank: no comment stands among the tokens.
pub fn is_plain(src: &[u8], tokens: &[Token]) -> bool
    ensures { result ≡ spec.is_plain src.now tokens.now }
{
    let mut from = 0;
    let mut rest = tokens;
    while let [token, after @ ..] = rest {
        if !all_blank(between(src, from, token.start)) {
            return false;
        }
        from = token.end;
        rest = after;
    }
    all_blank(between(src, from, src.len()))
}
