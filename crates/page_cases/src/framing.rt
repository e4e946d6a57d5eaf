//! Commands on frames. A byte that they write is the last one of its page.

use crate::words::{index, number, word};
use bk_frames::{Frames, PAGE_BYTES};
use bk_page::format_page;
use std::alloc::{AllocError, Global};

const LAST: usize = PAGE_BYTES - 1;

pub(crate) fn answer_frames(
    alloc: Global,
    frames: &mut Frames,
    command: &str,
    out: &mut String,
) -> Result<(), AllocError> {
    match word(command, 1) {
        "new" => *frames = Frames::new(alloc, index(command, 2))?,
        "format" => format_all(frames),
        "write" => write(frames, index(command, 3), (number(command, 2) % 256) as u8),
        _ => return show_bytes(frames, out),
    }
    Ok(())
}

fn write(frames: &mut Frames, i: usize, byte: u8) {
    if i < frames.len() {
        frames.page_mut(i)[LAST] = byte;
    }
}

// Formats each page as that of its index, in file 1.
fn format_all(frames: &mut Frames) {
    for (i, page) in frames.as_mut_slice().iter_mut().enumerate() {
        format_page(page, 1, u32::try_from(i).unwrap_or(0));
    }
}

// The bytes, page by page.
fn show_bytes(frames: &Frames, out: &mut String) -> Result<(), AllocError> {
    out.push_str("bytes")?;
    for page in frames.as_slice() {
        write!(out, " {}", page[LAST])?;
    }
    out.push('\n')
}
