// What all of some bytes spell.
use crate::words::{changed, word};
use crate::{headers, records};
use bk_bytes::Cell;
use std::alloc::{AllocError, Global};

// The cell that 128 bytes spell, and whether they are its image.
fn show_cell(bytes: &[u8], out: &mut String) -> Result<(), AllocError> {
    let Ok(image) = <[u8; 128]>::try_from(bytes) else {
        return out.push_str("no image\n");
    };
    match Cell::read(&image) {
        Some(cell) => {
            let is_so = cell.image() == image;
            writeln!(out, "{cell:?} {is_so}")
        }
        None => out.push_str("none\n"),
    }
}

/// What the bytes spell: a `cell`, a `header`, or log records.
pub fn show(alloc: Global, kind: &str, bytes: &[u8], out: &mut String) -> Result<(), AllocError> {
    match kind {
        "cell" => show_cell(bytes, out),
        "header" => headers::show(alloc, bytes, out),
        _ => records::show(alloc, bytes, out),
    }
}

/// What they spell with other bytes at a place: the kind, the place, those bytes; further words are a remark.
pub fn show_with(
    alloc: Global,
    words: &[&str],
    bytes: &[u8],
    out: &mut String,
) -> Result<(), AllocError> {
    let bytes = changed(alloc, words, bytes)?;
    show(alloc, word(words, 1), &bytes, out)
}
