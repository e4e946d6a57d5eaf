// The words of a command.
use std::alloc::{AllocError, Global};

// The word of this number; an empty one where there is none.
pub(crate) fn word<'a>(words: &[&'a str], i: usize) -> &'a str {
    words.get(i).copied().unwrap_or("")
}

// The number that the word of this number spells; 0 where it spells none.
pub(crate) fn number(words: &[&str], i: usize) -> u64 {
    word(words, i).parse().unwrap_or(0)
}

// The number below 65,536 that the word of this number spells; a greater one is taken modulo that.
pub(crate) fn number16(words: &[&str], i: usize) -> u16 {
    (number(words, i) % 0x1_0000) as u16
}

// The number below 2^32 that the word of this number spells; a greater one is taken modulo that.
pub(crate) fn number32(words: &[&str], i: usize) -> u32 {
    (number(words, i) % 0x1_0000_0000) as u32
}

// The bytes that a word spells: its parts, with `+` between, one behind the other.
pub(crate) fn bytes(alloc: Global, word: &str) -> Result<Vec<u8>, AllocError> {
    let mut all = Vec::new(alloc);
    for part in word.split('+') {
        append(alloc, &mut all, part)?;
    }
    Ok(all)
}

// Appends what a part spells: `hex:00ff` those bytes, `zeros:3` so many, anything else itself.
fn append(alloc: Global, all: &mut Vec<u8>, part: &str) -> Result<(), AllocError> {
    if let Some(digits) = part.strip_prefix("hex:") {
        return match hex::decode(alloc, digits) {
            Ok(decoded) => all.extend_from_slice(&decoded),
            Err(_) => Err(AllocError),
        };
    }
    match part.strip_prefix("zeros:") {
        Some(length) => append_zeros(all, length.parse().unwrap_or(0)),
        None => all.extend_from_slice(part.as_bytes()),
    }
}

fn append_zeros(all: &mut Vec<u8>, length: u64) -> Result<(), AllocError> {
    for _ in 0..length {
        all.push(0)?;
    }
    Ok(())
}

// Shows bytes: visible ASCII as itself, else in hex; `-` where there are none, and their number alone where there are more
// than 40.
pub(crate) fn show(alloc: Global, bytes: &[u8], out: &mut String) -> Result<(), AllocError> {
    if bytes.is_empty() {
        return out.push_str("-");
    }
    if bytes.len() > 40 {
        return write!(out, "{} bytes", bytes.len());
    }
    match std::str::from_utf8(bytes) {
        Ok(text) if text.bytes().all(|b| b.is_ascii_graphic()) => out.push_str(text),
        _ => {
            let digits = hex::encode(alloc, bytes)?;
            out.push_str(digits.as_str())
        }
    }
}
