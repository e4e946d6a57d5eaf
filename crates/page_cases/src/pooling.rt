//! Commands on a pool. A byte that they write is the last one of its frame.

use crate::words::{index, number, word};
use bk_frames::PAGE_BYTES;
use bk_pool::{Claim, Pool};
use std::alloc::{AllocError, Global};

const LAST: usize = PAGE_BYTES - 1;

pub(crate) fn answer_pool(
    alloc: Global,
    pool: &mut Pool,
    command: &str,
    out: &mut String,
) -> Result<(), AllocError> {
    match word(command, 1) {
        "new" => *pool = Pool::new(alloc, index(command, 2))?,
        "clean" => pool.clean(),
        "dirty" => mark(pool, index(command, 2)),
        "write" => write(pool, index(command, 2), (number(command, 3) % 256) as u8),
        "show" => return show(pool, out),
        "byte" => return tell_byte(pool, index(command, 2), out),
        "put" => return put(pool, command, out),
        "find" | "claim" => return answer_page(pool, command, out),
        _ => return out.push_str("no such command\n"),
    }
    Ok(())
}

fn mark(pool: &mut Pool, i: usize) {
    if i >= pool.len() {
        return;
    }
    if let Some((_file, _page)) = pool.page(i) {
        pool.dirty(i);
    }
}

fn write(pool: &mut Pool, i: usize, byte: u8) {
    let frames = pool.frames();
    if i < frames.len() {
        frames.page_mut(i)[LAST] = byte;
    }
}

// The file and the number of the page that a command names from the word of this number on.
fn page_in(command: &str, at: usize) -> (u16, u32) {
    let file = word(command, at).parse().unwrap_or(0);
    let page = word(command, at.saturating_add(1)).parse().unwrap_or(0);
    (file, page)
}

// Puts a page that lies in no frame in one that isn't dirty.
fn put(pool: &mut Pool, command: &str, out: &mut String) -> Result<(), AllocError> {
    let i = index(command, 2);
    let (file, page) = page_in(command, 3);
    if let Some(i) = pool.find(file, page) {
        return writeln!(out, "found in {i}");
    }
    if i >= pool.len() {
        return out.push_str("no frame\n");
    }
    if pool.is_dirty(i) {
        return out.push_str("dirty\n");
    }
    pool.put(i, file, page);
    writeln!(out, "put in {i}")
}

fn answer_page(pool: &mut Pool, command: &str, out: &mut String) -> Result<(), AllocError> {
    let (file, page) = page_in(command, 2);
    if let Some(i) = pool.find(file, page) {
        return writeln!(out, "found in {i}");
    }
    if word(command, 1) == "find" || pool.len() == 0 {
        return out.push_str("in no frame\n");
    }
    match pool.claim(file, page) {
        Claim::Free(i) => writeln!(out, "free {i}"),
        Claim::Spill(i, file, page) => writeln!(out, "spill {i}: file {file} page {page}"),
    }
}

// The byte of a frame, as the pool lends it to be read.
fn tell_byte(pool: &mut Pool, i: usize, out: &mut String) -> Result<(), AllocError> {
    if i >= pool.frames().len() {
        return out.push_str("no frame\n");
    }
    let byte = pool.frame(i)[LAST];
    writeln!(out, "{byte}")
}

// What lies in each frame, whether it is dirty, and its byte.
fn show(pool: &mut Pool, out: &mut String) -> Result<(), AllocError> {
    for i in 0..pool.len() {
        show_frame(pool, i, out)?;
    }
    Ok(())
}

fn show_frame(pool: &mut Pool, i: usize, out: &mut String) -> Result<(), AllocError> {
    if i >= pool.len() {
        return Ok(());
    }
    match pool.page(i) {
        Some((file, page)) => write!(out, "{file}:{page}")?,
        None => out.push_str("none")?,
    }
    if pool.is_dirty(i) {
        out.push_str(" dirty")?;
    }
    show_byte(pool, i, out)
}

fn show_byte(pool: &mut Pool, i: usize, out: &mut String) -> Result<(), AllocError> {
    let frames = pool.frames();
    if i < frames.len() {
        let byte = frames.page(i)[LAST];
        return writeln!(out, " {byte}");
    }
    out.push_str("\n")
}
