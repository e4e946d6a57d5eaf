// Files of letters: the alphabet, again and again.
ghost use Rattle.std.specs.Prelude.{◌≤◌, length};

use bk_device::{Device, Failed};
use bk_system::FileDevice;
use std::alloc::{AllocError, Global};
use std::fs::File;
use std::rt::Files;

// The letter at this place.
fn letter(place: u64) -> u8 {
    b'a' + (place % 26) as u8
}

// Whether these are the letters from this place on.
fn are_letters(bytes: &[u8], place: u64) -> bool {
    bytes
        .iter()
        .zip(place..u64::MAX)
        .all(|(byte, place)| *byte == letter(place))
}

// Writes a file of so many letters.
pub fn fill<R: Files<File = File> + Print>(
    alloc: Global,
    device: &mut FileDevice<'_, R>,
    name: &str,
    length: u64,
) -> Result<String, AllocError> {
    let bytes: Vec<u8> = (0..length).map(letter).collect(alloc)?;
    let done = device.write(name, 0, &bytes);
    String::from_str(alloc, if done.is_ok() { "done" } else { "fault" })
}

// How many letters a file begins with, as pieces of this size show them.
fn count_letters<R: Files<File = File> + Print>(
    device: &mut FileDevice<'_, R>,
    name: &str,
    piece: &mut [u8],
) -> Result<u64, Failed> {
    let mut place = 0u64;
    for _ in 0..u64::MAX {
        let count = device.read(name, place, piece)?;
        if count == 0 || !are_letters(&piece[..count], place) {
            break;
        }
        place = place.saturating_add(count as u64);
    }
    Ok(place)
}

// Reads a file in pieces of so many bytes.
pub fn read_in_pieces<R: Files<File = File> + Print>(
    alloc: Global,
    device: &mut FileDevice<'_, R>,
    name: &str,
    size: u64,
) -> Result<String, AllocError> {
    let mut piece = vec![in alloc; 0u8; size as usize]?;
    match count_letters(device, name, &mut piece) {
        Ok(count) => format!(in alloc; "{count} letters"),
        Err(Failed) => String::from_str(alloc, "fault"),
    }
}

fn name_of(alloc: Global, i: u64) -> Result<String, AllocError> {
    format!(in alloc; "file-{i}")
}

// Writes as many files, each as long as its number, from 1.
fn fill_many<R: Files<File = File> + Print>(
    alloc: Global,
    device: &mut FileDevice<'_, R>,
    count: u64,
) -> Result<(), AllocError> {
    for i in 1..=count {
        let name = name_of(alloc, i)?;
        fill(alloc, device, &name, i)?;
        if device.sync(&name).is_err() {
            break;
        }
    }
    Ok(())
}

// How many of these files are as they were written.
pub fn many<R: Files<File = File> + Print>(
    alloc: Global,
    device: &mut FileDevice<'_, R>,
    count: u64,
) -> Result<String, AllocError> {
    fill_many(alloc, device, count)?;
    let mut well = 0u64;
    let mut piece = [0u8; 8];
    for i in 1..=count {
        let name = name_of(alloc, i)?;
        if count_letters(device, &name, &mut piece) == Ok(i) {
            well = well.saturating_add(1);
        }
    }
    format!(in alloc; "{well} files as written")
}
