// Calls on a layer, and the same where each call on the device in turn fails.
use crate::words::word;
use crate::{control, gate, log, master, side};
use std::alloc::{AllocError, Global};
use trials::Untold;

// No call on a layer makes so many calls on the device.
const CALLS: u64 = 500;

// Opens the files of a layer, makes the call that the words behind their name say, and shows what they hold then, or why it failed.
pub(crate) fn run(
    alloc: Global,
    device: &mut Untold,
    words: &[&str],
    out: &mut String,
) -> Result<(), AllocError> {
    match word(words, 0) {
        "control" => control::run(alloc, device, words, out),
        "gate" => gate::run(alloc, device, words, out),
        "log" => log::run(alloc, device, words, out),
        "master" => master::run(alloc, device, words, out),
        "side" => side::run(alloc, device, words, out),
        _ => out.push_str("no such layer"),
    }
}

// What a call says where a call on the device fails, what is found then, and what is found where all that wasn't synced is gone.
fn outcome(alloc: Global, start: &Untold, words: &[&str], call: u64) -> Result<String, AllocError> {
    let mut device = start.copy()?;
    device.fail_at(call)?;
    let mut out = String::new(alloc);
    run(alloc, &mut device, words, &mut out)?;
    let found = words.get(..2).unwrap_or(&[]);
    out.push_str(" / ")?;
    run(alloc, &mut device.copy()?, found, &mut out)?;
    out.push_str(" / ")?;
    device.restart(false);
    run(alloc, &mut device, found, &mut out)?;
    Ok(out)
}

// The outcome with a fault at each call, until none is met; a line with its number where it isn't the one before.
pub(crate) fn at_each_call(
    alloc: Global,
    start: &Untold,
    words: &[&str],
    out: &mut String,
) -> Result<(), AllocError> {
    let mut last = String::new(alloc);
    for call in 1..CALLS {
        let next = outcome(alloc, start, words, call)?;
        if next.as_str() != last.as_str() {
            if !last.is_empty() {
                out.push('\n')?;
            }
            write!(out, "{call}: {next}")?;
        }
        if !next.as_str().starts_with("the device has failed") {
            return Ok(());
        }
        last = next;
    }
    Ok(())
}
