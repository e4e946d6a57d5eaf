// Sets on media, over a device in memory.
ghost use Rattle.std.specs.Prelude.{◌≡◌, ◌≢◌, false, OnOk};
ghost use Rattle.bk_header.specs.Conditions.{KeepsConditions};
ghost use Rattle.bk_ids.specs.declared.guid.Guid.{Guid};
ghost use Rattle.bk_volume.specs.Names.{staging_file};

use crate::records;
use crate::words::{number, word};
use bk_body::{Front, read_front};
use bk_bytes::{get_u16, get_u32, get_u64};
use bk_header::keeps;
use bk_ids::Digest;
use bk_reading::Unread;
use bk_volume::{Medium, SetError, Staged, StoredSet, WriteError, name_law};
use std::alloc::{AllocError, Global};
use trials::Untold;

// An extent of a set has so many bytes, the first of which are its file and number.
const EXTENT: usize = 65_542;

const HEAD: usize = 6;

const PAGE: usize = 8192;

// No set has more tables.
const MOST_TABLES: usize = 64;

/// `make`, `add`, `load`, `empty` or `read`, and a path: a medium is made, the set that the bytes spell is added to it, it is
/// opened, all its sets are taken away, or the set at the position behind the path is read.
pub fn run(
    alloc: Global,
    device: &mut Untold,
    words: &[&str],
    set: &[u8],
    out: &mut String,
) -> Result<(), AllocError> {
    let path = word(words, 1);
    match word(words, 0) {
        "make" => make(alloc, device, path, out),
        "add" => add(alloc, device, path, set, out),
        "load" | "empty" | "read" => opened(alloc, device, words, out),
        _ => out.push_str("no such command\n"),
    }
}

fn show_count(medium: &Medium, out: &mut String) -> Result<(), AllocError>
    requires { medium.now.failed ≡ false }
{
    writeln!(out, "{} sets", medium.count())
}

fn make(
    alloc: Global,
    device: &mut Untold,
    path: &str,
    out: &mut String,
) -> Result<(), AllocError> {
    match Medium::make(alloc, device, path) {
        Ok(medium) => show_count(&medium, out),
        Err(error) => writeln!(out, "{error}"),
    }
}

// What is done with a medium that is opened.
fn opened(
    alloc: Global,
    device: &mut Untold,
    words: &[&str],
    out: &mut String,
) -> Result<(), AllocError> {
    let mut medium = match Medium::load(alloc, device, word(words, 1)) {
        Ok(medium) => medium,
        Err(error) => return writeln!(out, "{error}"),
    };
    match word(words, 0) {
        "empty" => empty(device, &mut medium, out),
        "read" => read(alloc, device, &medium, number(words, 2) as usize, out),
        _ => show_count(&medium, out),
    }
}

fn empty(device: &mut Untold, medium: &mut Medium, out: &mut String) -> Result<(), AllocError>
    requires { medium.old.failed ≡ false }
{
    match medium.empty(device) {
        Ok(()) => show_count(medium, out),
        Err(_) => out.push_str("the device has failed\n"),
    }
}

// Adds an extent to a set that is being written.
fn add_extent(device: &mut Untold, staged: &mut Staged, extent: &[u8]) -> Result<(), WriteError>
    requires fit { staged.old.failed ≡ false }
    requires first { staged.old.log ≡ 0 }
    ensures fit { OnOk result (staged.new.failed ≡ false) }
    ensures first { OnOk result (staged.new.log ≡ 0) }
    ensures name { staged.new.name ≡ staged.old.name }
{
    let (Some(file), Some(number)) = (get_u16(extent, 0), get_u32(extent, 2)) else {
        return Ok(());
    };
    let pages = extent.get(HEAD..).unwrap_or(&[]);
    if pages.len() != 65_536 || staged.extents() == u32::MAX {
        return Ok(());
    }
    staged.add_extent(device, file, number, pages)?;
    Ok(())
}

// Adds so many extents, and behind their bytes the log, which follows its length.
fn add_parts(
    device: &mut Untold,
    staged: &mut Staged,
    count: usize,
    bytes: &[u8],
) -> Result<(), WriteError>
    requires fit { staged.old.failed ≡ false }
    requires first { staged.old.log ≡ 0 }
    ensures fit { OnOk result (staged.new.failed ≡ false) }
    ensures name { staged.new.name ≡ staged.old.name }
{
    let (extents, rest) = bytes
        .split_at_checked(EXTENT.saturating_mul(count))
        .unwrap_or((&[], &[]));
    for extent in extents.chunks_exact(EXTENT) {
        add_extent(device, staged, extent)?;
    }
    let end = rest.len().saturating_sub(32);
    let log = rest.get(8..end).unwrap_or(&[]);
    staged.add_log(device, log)?;
    Ok(())
}

// Writes a set into a file of its own, and seals it on the medium.
fn seal_parts(
    alloc: Global,
    device: &mut Untold,
    medium: &mut Medium,
    staged: &mut Staged,
    front: &Front,
    bytes: &[u8],
) -> Result<(), WriteError>
    requires whole { medium.old.failed ≡ false }
    requires fit { staged.old.failed ≡ false }
    requires first { staged.old.log ≡ 0 }
    requires apart { staged.old.name ≢ medium.old.name }
    requires keeps { KeepsConditions front.now.header }
    ensures whole { OnOk result (medium.new.failed ≡ false) }
{
    add_parts(device, staged, front.extents as usize, bytes)?;
    let tables = front.tables.as_slice();
    if tables.len() > MOST_TABLES {
        return Ok(());
    }
    medium.seal_set(alloc, device, &*staged, &front.header, tables)
}

// Adds a set to a medium: its parts are written into a file of their own, which is removed then.
fn add_to(
    alloc: Global,
    device: &mut Untold,
    medium: &mut Medium,
    front: &Front,
    bytes: &[u8],
) -> Result<(), WriteError>
    requires whole { medium.old.failed ≡ false }
    requires apart { (set : Guid) → staging_file set ≢ medium.old.name }
    requires keeps { KeepsConditions front.now.header }
    ensures whole { OnOk result (medium.new.failed ≡ false) }
{
    let mut staged = Staged::begin(alloc, device, front.header.set)?;
    let sealed = seal_parts(alloc, device, medium, &mut staged, front, bytes);
    let removed = staged.remove(device);
    sealed?;
    removed?;
    Ok(())
}

// Adds a set with this front, behind which these bytes stand.
fn add_front(
    alloc: Global,
    device: &mut Untold,
    path: &str,
    front: &Front,
    bytes: &[u8],
    out: &mut String,
) -> Result<(), AllocError> {
    if !keeps(&front.header) {
        return out.push_str("no set\n");
    }
    name_law();
    let mut medium = match Medium::load(alloc, device, path) {
        Ok(medium) => medium,
        Err(error) => return writeln!(out, "{error}"),
    };
    match add_to(alloc, device, &mut medium, front, bytes) {
        Ok(()) => show_count(&medium, out),
        Err(error) => writeln!(out, "{error}"),
    }
}

fn add(
    alloc: Global,
    device: &mut Untold,
    path: &str,
    set: &[u8],
    out: &mut String,
) -> Result<(), AllocError> {
    match read_front(alloc, set) {
        Ok((front, bytes)) => {
            let done = add_front(alloc, device, path, &front, bytes, out);
            drop(front);
            done
        }
        Err(Unread::Unspelled) => out.push_str("no set\n"),
        Err(Unread::NoMemory) => Err(AllocError),
    }
}

// The number of the last change of each of an extent's pages.
fn show_pages(pages: &[u8], out: &mut String) -> Result<(), AllocError> {
    for page in pages.chunks_exact(PAGE) {
        let number = get_u64(page, 0).unwrap_or(0);
        write!(out, " {number}")?;
    }
    out.push('\n')
}

// The file and the number of the extent at an index, and its pages' numbers.
fn show_extent(
    alloc: Global,
    device: &mut Untold,
    medium: &Medium,
    set: &StoredSet,
    i: u32,
    out: &mut String,
) -> Result<(), AllocError> {
    let mut pages = vec![in alloc; 0u8; 65_536]?;
    let Ok(Some((file, extent))) = medium.extent_at(device, set, i, &mut pages) else {
        return out.push_str("no extent\n");
    };
    write!(out, "extent {file} {extent}")?;
    show_pages(&pages, out)
}

fn show_extents(
    alloc: Global,
    device: &mut Untold,
    medium: &Medium,
    set: &StoredSet,
    out: &mut String,
) -> Result<(), AllocError> {
    for i in 0..set.extents() {
        show_extent(alloc, device, medium, set, i, out)?;
    }
    Ok(())
}

// The database, the tables, the extents and the log of a set.
fn show_set(
    alloc: Global,
    device: &mut Untold,
    medium: &Medium,
    set: &StoredSet,
    out: &mut String,
) -> Result<(), AllocError> {
    writeln!(out, "{:?} {:?}", set.header().database, set.tables())?;
    show_extents(alloc, device, medium, set, out)?;
    match medium.log_of(alloc, device, set) {
        Ok(log) => records::show(alloc, &log, out),
        Err(error) => writeln!(out, "{error}"),
    }
}

// The two digests of a set that is damaged.
fn show_digests(
    alloc: Global,
    stored: [u8; 32],
    found: [u8; 32],
    out: &mut String,
) -> Result<(), AllocError> {
    let stored = Digest { bytes: stored }.text(alloc)?;
    let found = Digest { bytes: found }.text(alloc)?;
    writeln!(out, "stored {stored}\nfound {found}")
}

// What stands at a position.
fn read(
    alloc: Global,
    device: &mut Untold,
    medium: &Medium,
    position: usize,
    out: &mut String,
) -> Result<(), AllocError>
    requires { medium.now.failed ≡ false }
{
    match medium.open_set(alloc, device, position) {
        Ok(set) => {
            let done = show_set(alloc, device, medium, &set, out);
            drop(set);
            done
        }
        Err(SetError::Damaged { stored, found }) => show_digests(alloc, stored, found, out),
        Err(error) => writeln!(out, "{error}"),
    }
}
