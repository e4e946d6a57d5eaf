//! The words of a command, with one blank between two.

/// The word at a place, counted from 0, or an empty one where there are fewer.
pub(crate) fn word(command: &str, i: usize) -> &str {
    command.split(' ').nth(i).unwrap_or("")
}

/// The number at a place, or 0 where none stands there.
pub(crate) fn number(command: &str, i: usize) -> u64 {
    word(command, i).parse().unwrap_or(0)
}

/// The same as an index.
pub(crate) fn index(command: &str, i: usize) -> usize {
    number(command, i) as usize
}
