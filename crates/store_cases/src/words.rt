// The words of a command.
use bk_ids::Name;
use std::alloc::{AllocError, Global};

/// The word of this number; an empty one where there is none.
pub(crate) fn word<'a>(words: &[&'a str], i: usize) -> &'a str {
    words.get(i).copied().unwrap_or("")
}

/// The number that the word of this number spells; 0 where it spells none.
pub(crate) fn number(words: &[&str], i: usize) -> u64 {
    word(words, i).parse().unwrap_or(0)
}

/// The number below 2^32 that the word of this number spells; a greater one is taken modulo that.
pub(crate) fn number32(words: &[&str], i: usize) -> u32 {
    (number(words, i) % 0x1_0000_0000) as u32
}

/// The name that a word spells, where it has at most 64 bytes; `-` for an empty word.
pub(crate) fn name_of(alloc: Global, word: &str) -> Result<Name, AllocError> {
    let text = if word.is_empty() { "-" } else { word };
    Name::new(alloc, text).map_err(|_| AllocError)
}
