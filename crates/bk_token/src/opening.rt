//! What bytes open with.

ghost use Rattle.std.specs.Prelude.{◌≡◌};
ghost use Rattle.bk_token.specs.Bytes as class;
ghost use Rattle.bk_token.specs.Pieces.{opening, opening_mark};
ghost use Rattle.bk_token.specs.Reading.{Opens};

/// What bytes open with, by the first of them or the first two.
#[derive(Clone, Copy, Debug, PartialEq, Eq)]
pub enum Opening {
    Blank,
    DashComment,
    SlashComment,
    Letter,
    Digit,
    Quote,
    NationalQuote,
    Bracket,
    DoubleQuote,
    ColonByte,
    SignByte,
    Other,
}

/// The byte is a space, a tab, a carriage return or a line feed.
pub fn is_blank(b: u8) -> bool
    ensures { result ≡ class.is_blank b }
{
    b == b' ' || b == b'\t' || b == b'\r' || b == b'\n'
}

fn begins_word(b: u8) -> bool
    ensures { result ≡ class.begins_word b }
{
    b.is_ascii_alphabetic() || b == b'_'
}

pub fn is_word_byte(b: u8) -> bool
    ensures { result ≡ class.is_word_byte b }
{
    b.is_ascii_alphanumeric() || b == b'_' || b == b'$' || b == b'#' || b == b'@'
}

fn is_sign(b: u8) -> bool
    ensures { result ≡ class.is_sign b }
{
    b == b'('
        || b == b')'
        || b == b','
        || b == b'.'
        || b == b'='
        || b == b'*'
        || b == b';'
        || b == b'%'
}

#[tactic(auto, unfolding(crate::specs::Pieces::opening_mark))]
fn opening_mark_of(b: u8) -> Opening
    ensures { result ≡ opening_mark b }
{
    match b {
        b'\'' => Opening::Quote,
        b'[' => Opening::Bracket,
        b'"' => Opening::DoubleQuote,
        b':' => Opening::ColonByte,
        _ if is_sign(b) => Opening::SignByte,
        _ => Opening::Other,
    }
}

#[tactic(auto, unfolding(crate::specs::Pieces::opening))]
pub fn opening_of(bytes: &[u8]) -> Opening
    ensures value { result ≡ opening bytes.now }
    ensures opens { Opens result bytes.now }
{
    match bytes {
        [] => Opening::Other,
        [b, ..] if is_blank(*b) => Opening::Blank,
        [b'-', b'-', ..] => Opening::DashComment,
        [b'/', b'*', ..] => Opening::SlashComment,
        [b'N', b'\'', ..] => Opening::NationalQuote,
        [b, ..] if begins_word(*b) => Opening::Letter,
        [b, ..] if b.is_ascii_digit() => Opening::Digit,
        [b, ..] => opening_mark_of(*b),
    }
}
