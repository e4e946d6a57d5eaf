// Calls on the device itself.
use crate::words::{bytes, number, word};
use bk_device::{Device, Failed};
use std::alloc::{AllocError, Global};
use trials::Untold;

fn show_done(done: Result<(), Failed>, out: &mut String) -> Result<(), AllocError> {
    match done {
        Ok(()) => out.push_str("ok"),
        Err(error) => write!(out, "{error}"),
    }
}

// Whether these bytes stand at a place of a file.
fn holds(device: &mut Untold, name: &str, at: u64, wanted: &[u8]) -> Result<bool, AllocError> {
    let mut there = [0u8; 1];
    for (i, byte) in wanted.iter().enumerate() {
        let place = at.saturating_add(i as u64);
        let is_there = device
            .read(name, place, &mut there)
            .is_ok_and(|count| count == 1);
        if !is_there || there[0] != *byte {
            return Ok(false);
        }
    }
    Ok(true)
}

fn show_len(device: &mut Untold, name: &str, out: &mut String) -> Result<(), AllocError> {
    match device.len(name) {
        Ok(Some(len)) => write!(out, "{len}"),
        Ok(None) => out.push_str("none"),
        Err(error) => write!(out, "{error}"),
    }
}

// `holds NAME AT BYTES` and `write NAME AT BYTES`.
fn with_bytes(
    alloc: Global,
    device: &mut Untold,
    words: &[&str],
    out: &mut String,
) -> Result<(), AllocError> {
    let (name, at) = (word(words, 1), number(words, 2));
    let content = bytes(alloc, word(words, 3))?;
    if word(words, 0) == "write" {
        return show_done(device.write(name, at, &content), out);
    }
    let is_so = holds(device, name, at, &content)?;
    write!(out, "{is_so}")
}

// `restart keep` or `restart lose`: a crash after which what wasn't synced is there, or is gone.
fn restart(device: &mut Untold, how: &str, out: &mut String) -> Result<(), AllocError> {
    device.restart(how == "keep");
    out.push_str("ok")
}

// Those, `len NAME`, `sync NAME`, `cut NAME LENGTH`, `remove NAME`, and `damage NAME AT`.
pub(crate) fn call(
    alloc: Global,
    device: &mut Untold,
    words: &[&str],
    out: &mut String,
) -> Result<(), AllocError> {
    let name = word(words, 1);
    match word(words, 0) {
        "len" => show_len(device, name, out),
        "holds" | "write" => with_bytes(alloc, device, words, out),
        "sync" => show_done(device.sync(name), out),
        "cut" => show_done(device.cut(name, number(words, 2)), out),
        "remove" => show_done(device.remove(name), out),
        "damage" => write!(out, "{}", device.damage(name, number(words, 2))),
        "restart" => restart(device, name, out),
        _ => out.push_str("no such command"),
    }
}
