// The words of a command, and the bytes that they spell.
use std::alloc::{AllocError, Global};

/// The word at this place, from 0, or an empty one.
pub fn word<'a>(words: &[&'a str], i: usize) -> &'a str {
    words.get(i).copied().unwrap_or("")
}

/// The number at this place, in decimal digits, or behind `0x` in hexadecimal ones; 0 where none stands there.
pub fn number(words: &[&str], i: usize) -> u64 {
    let word = word(words, i);
    match word.strip_prefix("0x") {
        Some(digits) => u64::from_str_radix(digits, 16).unwrap_or(0),
        None => word.parse().unwrap_or(0),
    }
}

// Appends the bytes of some digits so often.
fn append_digits(
    alloc: Global,
    digits: &str,
    times: u64,
    out: &mut Vec<u8>,
) -> Result<(), AllocError> {
    let Ok(bytes) = hex::decode(alloc, digits) else {
        return Err(AllocError);
    };
    for _ in 0..times {
        out.extend_from_slice(&bytes)?;
    }
    Ok(())
}

// Appends what a word spells: behind `'` its text, else the bytes of its digits, so often as a number behind `*` says.
fn append_word(alloc: Global, word: &str, out: &mut Vec<u8>) -> Result<(), AllocError> {
    if let Some(text) = word.strip_prefix("'") {
        return out.extend_from_slice(text.as_bytes());
    }
    match word.split_once("*") {
        Some((digits, times)) => append_digits(alloc, digits, times.parse().unwrap_or(0), out),
        None => append_digits(alloc, word, 1, out),
    }
}

/// Appends what the words from this place on spell.
pub fn append_words(
    alloc: Global,
    words: &[&str],
    from: usize,
    out: &mut Vec<u8>,
) -> Result<(), AllocError> {
    for word in words.get(from..).unwrap_or(&[]) {
        append_word(alloc, word, out)?;
    }
    Ok(())
}

/// The bytes, with those of the word at place 3 over those at the place that the word before it says, where there are so many.
pub fn changed(alloc: Global, words: &[&str], bytes: &[u8]) -> Result<Vec<u8>, AllocError> {
    let mut copy = bytes.to_vec(alloc)?;
    let mut new = Vec::new(alloc);
    append_word(alloc, word(words, 3), &mut new)?;
    overwrite(&mut copy, number(words, 2) as usize, &new);
    Ok(copy)
}

fn overwrite(bytes: &mut [u8], at: usize, new: &[u8]) {
    if let Some(rest) = bytes.get_mut(at..) {
        if let Some(part) = rest.get_mut(..new.len()) {
            part.copy_from_slice(new);
        }
    }
}
