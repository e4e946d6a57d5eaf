// Commands on a device with media, and what a crash leaves of them.
use crate::sets;
use crate::words::{number, word};
use bk_device::Device;
use bk_volume::{Medium, medium_file};
use std::alloc::{AllocError, Global};
use trials::Untold;

// No task has so many calls.
const CALLS: u64 = 100;

/// `at-each-call ..`, `file PATH`, `damage PATH PLACE`, and what is done with a medium. `bytes` are those of a set or of a file.
pub fn put(
    alloc: Global,
    device: &mut Untold,
    words: &[&str],
    bytes: &[u8],
    out: &mut String,
) -> Result<(), AllocError> {
    match word(words, 0) {
        "at-each-call" => {
            let task = words.get(1..).unwrap_or(&[]);
            at_each(alloc, device, task, bytes, out)
        }
        "damage" | "file" => on_file(alloc, device, words, bytes),
        _ => sets::run(alloc, device, words, bytes, out),
    }
}

// Another byte stands at a place of the medium's file, or these bytes are its file.
fn on_file(
    alloc: Global,
    device: &mut Untold,
    words: &[&str],
    bytes: &[u8],
) -> Result<(), AllocError> {
    let name = medium_file(alloc, word(words, 1))?;
    if word(words, 0) == "damage" {
        device.damage(&name, number(words, 2));
        return Ok(());
    }
    device.lose(&name);
    device.write(&name, 0, bytes).map_err(|_| AllocError)
}

// Does a task again and again on such a device, on which each call in turn fails. A line says how a crash then leaves the
// medium, where it isn't the line before. The last line is the answer once no call fails.
fn at_each(
    alloc: Global,
    device: &Untold,
    words: &[&str],
    set: &[u8],
    out: &mut String,
) -> Result<(), AllocError> {
    let mut last = String::new(alloc);
    for n in 1..CALLS {
        let (said, left) = at_call(alloc, device, n, words, set)?;
        if said.as_str() != "the device has failed\n" {
            return out.push_str(said.as_str());
        }
        if left.as_str() != last.as_str() {
            out.push_str(left.as_str())?;
        }
        last = left;
    }
    Ok(())
}

// What a task answers where a call fails, and how a crash then leaves the medium.
fn at_call(
    alloc: Global,
    device: &Untold,
    n: u64,
    words: &[&str],
    set: &[u8],
) -> Result<(String, String), AllocError> {
    let mut device = device.copy()?;
    device.fail_at(n)?;
    let mut said = String::new(alloc);
    sets::run(alloc, &mut device, words, set, &mut said)?;
    let left = left(alloc, word(words, 1), &mut device)?;
    Ok((said, left))
}

// The medium after a crash that keeps what is pending, and after one that loses it.
fn left(alloc: Global, path: &str, device: &mut Untold) -> Result<String, AllocError> {
    let mut out = String::new(alloc);
    let mut kept = device.copy()?;
    show_medium(alloc, &mut kept, path, &mut out)?;
    out.push_str(", ")?;
    device.restart(false);
    show_medium(alloc, device, path, &mut out)?;
    out.push('\n')?;
    Ok(out)
}

// How many sets the medium has, or why it is none.
fn show_medium(
    alloc: Global,
    device: &mut Untold,
    path: &str,
    out: &mut String,
) -> Result<(), AllocError> {
    match Medium::load(alloc, device, path) {
        Ok(medium) => write!(out, "{} sets", medium.count()),
        Err(error) => write!(out, "{error}"),
    }
}
