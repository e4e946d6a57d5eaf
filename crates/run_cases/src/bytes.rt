// Bytes as words: `ascii=T` is a text alone, `text=T` one with its length before it in 16 bits, `u64=N`, `u32=N` and `u16=N` are numbers of that
// many bits, low byte first, `zeros=N` is that many zeros, and any other word is pairs of hexadecimal digits.

use crate::trouble::Trouble;
use hex::FromHexError;
use std::alloc::{AllocError, Global};

// How many bytes stand in a line.
const LINE_BYTES: usize = 32;

fn append_hex(alloc: Global, out: &mut Vec<u8>, digits: &str) -> Result<(), Trouble> {
    match hex::decode(alloc, digits) {
        Ok(bytes) => append(out, &bytes),
        Err(FromHexError::OutOfMemory) => Err(Trouble::NoMemory),
        Err(_) => Err(Trouble::NoForm),
    }
}

fn append(out: &mut Vec<u8>, bytes: &[u8]) -> Result<(), Trouble> {
    out.extend_from_slice(bytes)?;
    Ok(())
}

// A number in so many bytes, low byte first. What doesn't fit is left out.
fn append_number(out: &mut Vec<u8>, len: usize, number: u64) -> Result<(), Trouble> {
    let bytes = number.to_le_bytes();
    append(out, bytes.get(..len).unwrap_or(&[]))
}

fn append_text(out: &mut Vec<u8>, text: &str) -> Result<(), Trouble> {
    append_number(out, 2, text.len() as u64)?;
    append(out, text.as_bytes())
}

fn append_zeros(out: &mut Vec<u8>, count: u64) -> Result<(), Trouble> {
    for _ in 0..count {
        out.push(0)?;
    }
    Ok(())
}

fn append_word(alloc: Global, out: &mut Vec<u8>, word: &str) -> Result<(), Trouble> {
    let Some((kind, value)) = word.split_once('=') else {
        return append_hex(alloc, out, word);
    };
    match kind {
        "ascii" => append(out, value.as_bytes()),
        "text" => append_text(out, value),
        "zeros" => append_zeros(out, number(value)?),
        "u64" => append_number(out, 8, number(value)?),
        "u32" => append_number(out, 4, number(value)?),
        "u16" => append_number(out, 2, number(value)?),
        _ => Err(Trouble::NoForm),
    }
}

/// The number that a word writes in decimal digits.
pub fn number(word: &str) -> Result<u64, Trouble> {
    word.parse().ok().ok_or(Trouble::NoForm)
}

/// The bytes that words write.
pub fn bytes(alloc: Global, words: &str) -> Result<Vec<u8>, Trouble> {
    let mut out = Vec::new(alloc);
    for word in words.split_whitespace() {
        append_word(alloc, &mut out, word)?;
    }
    Ok(out)
}

/// Appends bytes as hexadecimal digits, 32 bytes a line.
pub fn show_bytes(alloc: Global, bytes: &[u8], out: &mut String) -> Result<(), AllocError> {
    for line in bytes.chunks(LINE_BYTES) {
        let digits = hex::encode(alloc, line)?;
        out.push_str(&digits)?;
        out.push('\n')?;
    }
    Ok(())
}
