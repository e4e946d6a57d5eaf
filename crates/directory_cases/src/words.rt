// The words of a command, and of an answer.
use std::alloc::{AllocError, Global};

// The word of this number; an empty one where there is none.
pub fn word<'a>(words: &[&'a str], i: usize) -> &'a str {
    words.get(i).copied().unwrap_or("")
}

// The number that a word spells; 0 where it spells none.
pub fn number(word: &str) -> u64 {
    word.parse().unwrap_or(0)
}

// Bytes that were read, with their number before them.
pub fn shown(alloc: Global, bytes: &[u8]) -> Result<String, AllocError> {
    let count = bytes.len();
    match std::str::from_utf8(bytes) {
        Ok("") => String::from_str(alloc, "nothing"),
        Ok(text) => format!(in alloc; "{count} {text}"),
        Err(_) => format!(in alloc; "{count} bytes"),
    }
}
