// Calls on a device, and what they answer.
use crate::words::{number, shown, word};
use bk_device::{Device, Failed};
use bk_system::FileDevice;
use std::alloc::{AllocError, Global};
use std::fs::File;
use std::rt::Files;

// `write NAME AT TEXT`, `cut NAME LENGTH`, `sync NAME`, `remove NAME` or `tell TEXT`.
fn change<R: Files<File = File> + Print>(
    device: &mut FileDevice<'_, R>,
    words: &[&str],
) -> Result<(), Failed> {
    let name = word(words, 1);
    let place = number(word(words, 2));
    match word(words, 0) {
        "write" => device.write(name, place, word(words, 3).as_bytes()),
        "cut" => device.cut(name, place),
        "sync" => device.sync(name),
        "remove" => device.remove(name),
        _ => {
            device.tell(name.as_bytes())?;
            device.tell(b"\n")
        }
    }
}

// `len NAME`: its length in bytes.
fn length<R: Files<File = File> + Print>(
    alloc: Global,
    device: &mut FileDevice<'_, R>,
    name: &str,
) -> Result<String, AllocError> {
    match device.len(name) {
        Ok(Some(length)) => format!(in alloc; "{length}"),
        Ok(None) => String::from_str(alloc, "absent"),
        Err(Failed) => String::from_str(alloc, "fault"),
    }
}

// `read NAME AT ROOM`: how many bytes, and these.
fn read<R: Files<File = File> + Print>(
    alloc: Global,
    device: &mut FileDevice<'_, R>,
    words: &[&str],
) -> Result<String, AllocError> {
    let mut room = vec![in alloc; 0u8; number(word(words, 3)) as usize]?;
    match device.read(word(words, 1), number(word(words, 2)), &mut room) {
        Ok(count) => shown(alloc, &room[..count]),
        Err(Failed) => String::from_str(alloc, "fault"),
    }
}

// What a call answers: `done` where it answers nothing else, and `fault` where it fails.
pub fn call<R: Files<File = File> + Print>(
    alloc: Global,
    device: &mut FileDevice<'_, R>,
    words: &[&str],
) -> Result<String, AllocError> {
    match word(words, 0) {
        "len" => length(alloc, device, word(words, 1)),
        "read" => read(alloc, device, words),
        _ => {
            let done = change(device, words);
            let said = if done.is_ok() { "done" } else { "fault" };
            String::from_str(alloc, said)
        }
    }
}
