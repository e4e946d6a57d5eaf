//! Commands on one page of the frames.

ghost use Rattle.std.specs.Prelude.{◌<◌};

use crate::words::{index, number, word};
use bk_frames::{Frames, Page};
use bk_page::{
    Cell, check, format_page, page_digests, page_lsn, read_cell, seal_digest, set_page_lsn,
    write_cell,
};
use std::alloc::{AllocError, Global};
use std::thread::Threads;

pub(crate) fn answer_page(
    frames: &mut Frames,
    command: &str,
    out: &mut String,
) -> Result<(), AllocError> {
    let i = index(command, 2);
    if i >= frames.len() {
        return out.push_str("no such page\n");
    }
    match word(command, 1) {
        "bytes" | "cell" | "used" | "check" => return show(frames.page(i), command, out),
        "format" | "lsn" | "write" | "byte" | "seal" => change(frames.page_mut(i), command),
        _ => return out.push_str("no such command\n"),
    }
    Ok(())
}

fn show(page: &Page, command: &str, out: &mut String) -> Result<(), AllocError> {
    match word(command, 1) {
        "bytes" => show_bytes(page, index(command, 3), index(command, 4), out),
        "cell" => show_cell(read_cell(page, slot_in(command)), out),
        "used" => show_used(page, out),
        _ => show_check(page, out),
    }
}

fn change(page: &mut Page, command: &str) {
    match word(command, 1) {
        "format" => format(page, command),
        "lsn" => set_page_lsn(page, number(command, 3)),
        "write" => write_cell(page, slot_in(command), &image_in(command)),
        "byte" => set_byte(page, index(command, 3), (number(command, 4) % 256) as u8),
        _ => seal_digest(page),
    }
}

// The slot that a command names, modulo 63.
fn slot_in(command: &str) -> u16
    ensures { result < 63 }
{
    (number(command, 3) % 63) as u16
}

// The cell that a command names: free, or the table, the key and the value of a row.
fn image_in(command: &str) -> [u8; 128] {
    let value = word(command, 6).as_bytes();
    if word(command, 4) == "free" || value.len() > 112 {
        return Cell::Free.image();
    }
    Cell::Used {
        table: word(command, 4).parse().unwrap_or(0),
        key: number(command, 5),
        value,
    }
    .image()
}

fn format(page: &mut Page, command: &str) {
    let file = word(command, 3).parse().unwrap_or(0);
    let number = word(command, 4).parse().unwrap_or(0);
    format_page(page, file, number);
}

fn set_byte(page: &mut Page, at: usize, byte: u8) {
    if at < page.len() {
        page[at] = byte;
    }
}

fn show_bytes(bytes: &[u8], from: usize, to: usize, out: &mut String) -> Result<(), AllocError> {
    match bytes.get(from..to) {
        Some(bytes) => show_hex(bytes, out),
        None => out.push_str("no such bytes\n"),
    }
}

fn show_hex(bytes: &[u8], out: &mut String) -> Result<(), AllocError> {
    for byte in bytes {
        write!(out, "{byte:02x}")?;
    }
    out.push('\n')
}

pub(crate) fn show_cell(cell: Option<Cell<'_>>, out: &mut String) -> Result<(), AllocError> {
    match cell {
        None => out.push_str("no cell\n"),
        Some(Cell::Free) => out.push_str("free\n"),
        Some(Cell::Used { table, key, value }) => {
            write!(out, "table {table} key {key} value x")?;
            show_hex(value, out)
        }
    }
}

// The page's LSN, and each used cell: its slot and its key.
fn show_used(page: &Page, out: &mut String) -> Result<(), AllocError> {
    write!(out, "lsn {}:", page_lsn(page))?;
    for slot in 0..63 {
        if let Some(Cell::Used { key, .. }) = read_cell(page, slot) {
            write!(out, " {slot}={key}")?;
        }
    }
    out.push('\n')
}

fn show_check(page: &Page, out: &mut String) -> Result<(), AllocError> {
    match check(page) {
        Ok(()) => out.push_str("sound\n"),
        Err(error) => {
            writeln!(out, "{error}")?;
            show_hex(&error.stored, out)?;
            show_hex(&error.found, out)
        }
    }
}

// The digest of each page.
pub(crate) fn show_digests<R: Threads + Sync>(
    rt: &R,
    alloc: Global,
    frames: &Frames,
    out: &mut String,
) -> Result<(), AllocError> {
    for digest in &page_digests(rt, alloc, frames)? {
        show_hex(digest, out)?;
    }
    Ok(())
}
