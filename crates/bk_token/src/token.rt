//! Tokens, as plain numbers.

/// What a token is.
#[derive(Clone, Copy, Debug, PartialEq, Eq)]
pub enum Kind {
    /// A letter or `_`, and letters, digits, `_`, `$`, `#`, `@`: a keyword or a name.
    Word,
    /// A name in `[..]` or `".."`.
    Quoted,
    /// A text, `'..'` or `N'..'`.
    Text,
    /// Decimal digits, with their value.
    Number(u64),
    /// One of the bytes `( ) , . = * ; %`.
    Sign(u8),
    /// The word GO, alone on its line.
    Go,
    /// A colon that is the first byte of its line.
    Colon,
    /// What is no token of the grammar.
    Bad,
}

/// A token: its kind, and where it stands.
#[derive(Clone, Copy, Debug, PartialEq, Eq)]
pub struct Token {
    pub kind: Kind,
    /// The place of its first byte in the script.
    pub start: usize,
    /// The place behind its last byte.
    pub end: usize,
    /// The line of its first byte, from 1. All lines from 4,294,967,295 on count as that one.
    pub line: u32,
}
