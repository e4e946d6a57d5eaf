// The data files `a` and `b` of a database, and its side file.
ghost use Rattle.std.specs.Prelude.{◌≡◌, false, IfOk, OnOk};

use crate::words::{number, number16, number32, word};
use bk_frames::Page;
use bk_ids::Text;
use bk_page::{format_page, seal_digest};
use bk_side::{Side, SideError};
use std::alloc::{AllocError, Global};
use trials::Untold;

fn paths(alloc: Global) -> Result<Vec<Text>, AllocError> {
    let mut paths = Vec::new(alloc);
    paths.push(Text::new(String::from_str(alloc, "a")?))?;
    paths.push(Text::new(String::from_str(alloc, "b")?))?;
    Ok(paths)
}

fn open(alloc: Global, device: &mut Untold, db: u32) -> Result<Side, SideError>
    ensures { IfOk result (λ s. s.failed ≡ false) }
{
    let paths = paths(alloc)?;
    Side::load(alloc, device, db, &paths)
}

// The page of a file and a number, with this byte as its last one.
fn page(file: u16, number: u32, byte: u8) -> Page {
    let mut page = [0u8; 8192];
    format_page(&mut page, file, number);
    page[8191] = byte;
    seal_digest(&mut page);
    page
}

// Adds the page that three words from this one on spell: its file, its number and its last byte.
fn add(device: &mut Untold, side: &mut Side, words: &[&str], at: usize) -> Result<(), SideError>
    requires { side.old.failed ≡ false }
    ensures { OnOk result (side.new.failed ≡ false) }
{
    let words = words.get(at..).unwrap_or(&[]);
    let (file, place) = (number16(words, 0), number32(words, 1));
    let bytes = page(file, place, (number(words, 2) % 256) as u8);
    side.add(device, file, place, &bytes)?;
    Ok(())
}

// Writes a batch of two pages.
fn put(device: &mut Untold, side: &mut Side, words: &[&str]) -> Result<(), SideError>
    requires { side.old.failed ≡ false }
    ensures { OnOk result (side.new.failed ≡ false) }
{
    add(device, side, words, 3)?;
    add(device, side, words, 6)?;
    side.apply(device)?;
    Ok(())
}

// `make FILE PAGES`, `remove FILE`, `put FILE PAGE BYTE FILE PAGE BYTE`, or nothing.
fn call(device: &mut Untold, side: &mut Side, words: &[&str]) -> Result<(), SideError>
    requires { side.old.failed ≡ false }
    ensures { OnOk result (side.new.failed ≡ false) }
{
    let file = number16(words, 3);
    match word(words, 2) {
        "make" if side.has_file(file) => side.make(device, file, number32(words, 4))?,
        "remove" if side.has_file(file) => side.remove(device, file)?,
        "put" => put(device, side, words)?,
        _ => {}
    }
    Ok(())
}

fn opened(alloc: Global, device: &mut Untold, words: &[&str]) -> Result<Side, SideError> {
    let mut side = open(alloc, device, number32(words, 1))?;
    call(device, &mut side, words)?;
    Ok(side)
}

// The last byte of each of the first pages of a data file; `-` for one that isn't there, or doesn't store its digest.
fn show_file(
    device: &mut Untold,
    side: &Side,
    file: u16,
    out: &mut String,
) -> Result<(), AllocError> {
    let mut page = [0u8; 8192];
    write!(out, "{file}:")?;
    for number in 0..3 {
        match side.read(device, file, number, &mut page) {
            Ok(true) => write!(out, " {}", page[8191])?,
            Ok(false) => out.push_str(" -")?,
            Err(error) => write!(out, " {error}")?,
        }
    }
    Ok(())
}

pub(crate) fn run(
    alloc: Global,
    device: &mut Untold,
    words: &[&str],
    out: &mut String,
) -> Result<(), AllocError> {
    match opened(alloc, device, words) {
        Ok(side) => {
            let mut device = device.copy()?;
            show_file(&mut device, &side, 1, out)?;
            out.push_str(" ")?;
            show_file(&mut device, &side, 2, out)
        }
        Err(error) => write!(out, "{error}"),
    }
}
