// What a set on a medium holds.
use bk_device::Trouble;
use bk_page::{Cell, Page, page_lsn, read_cell};
use bk_record::cursor;
use bk_volume::{LoadError, Medium, SetError, StoredSet};
use std::alloc::{AllocError, Global};
use trials::Untold;

// An extent has so many bytes.
const EXTENT: usize = 65_536;

/// Why a medium couldn't be opened, as a call on databases tells it.
pub(crate) fn unloaded(error: LoadError) -> Trouble {
    match error {
        LoadError::Missing | LoadError::NotMedia => Trouble::Broken,
        LoadError::Fault => Trouble::Fault,
        LoadError::NoMemory => Trouble::NoMemory,
    }
}

/// Why a set couldn't be opened, as a call on databases tells it.
pub(crate) fn unopened(error: SetError) -> Trouble {
    match error {
        SetError::Fault => Trouble::Fault,
        SetError::NoMemory => Trouble::NoMemory,
        _ => Trouble::Broken,
    }
}

// The number of the last record that changed a page, and its used cells: each slot with its key.
fn show_page(page: &Page, out: &mut String) -> Result<(), AllocError> {
    let lsn = page_lsn(page);
    if lsn == 0 {
        return Ok(());
    }
    write!(out, "page at {lsn}:")?;
    for slot in 0..63 {
        if let Some(Cell::Used { key, .. }) = read_cell(page, slot) {
            write!(out, " {slot}={key}")?;
        }
    }
    out.push('\n')
}

// The pages of an extent that a record changed.
fn show_pages(extent: &[u8], out: &mut String) -> Result<(), AllocError> {
    for page in extent.chunks_exact(8192) {
        if let Some(page) = page.first_chunk() {
            show_page(page, out)?;
        }
    }
    Ok(())
}

// The extent at an index: its file, its number and its pages.
fn show_extent(
    alloc: Global,
    device: &mut Untold,
    medium: &Medium,
    set: &StoredSet,
    i: u32,
    out: &mut String,
) -> Result<(), AllocError> {
    let mut extent = vec![in alloc; 0u8; EXTENT]?;
    let Ok(Some((file, number))) = medium.extent_at(device, set, i, &mut extent) else {
        return out.push_str("no extent\n");
    };
    writeln!(out, "extent {file} {number}")?;
    show_pages(&extent, out)
}

fn show_extents(
    alloc: Global,
    device: &mut Untold,
    medium: &Medium,
    set: &StoredSet,
    out: &mut String,
) -> Result<(), AllocError> {
    for i in 0..set.extents() {
        show_extent(alloc, device, medium, set, i, out)?;
    }
    Ok(())
}

// The numbers of the log's records.
fn show_log(log: &[u8], out: &mut String) -> Result<(), AllocError> {
    out.push_str("log")?;
    for record in cursor(log) {
        match record {
            Ok(record) => write!(out, " {}", record.lsn)?,
            Err(bad) => write!(out, " {bad}")?,
        }
    }
    out.push('\n')
}

/// The first set on the medium at a path: its extents, and its log.
pub(crate) fn show_set(
    alloc: Global,
    device: &mut Untold,
    path: &str,
    out: &mut String,
) -> Result<(), AllocError> {
    let Ok(medium) = Medium::load(alloc, device, path) else {
        return out.push_str("no medium\n");
    };
    let Ok(set) = medium.open_set(alloc, device, 1) else {
        return out.push_str("no set\n");
    };
    let done = show_extents(alloc, device, &medium, &set, out);
    let log = medium.log_of(alloc, device, &set);
    drop(set);
    done?;
    match log {
        Ok(log) => show_log(&log, out),
        Err(error) => writeln!(out, "{error}"),
    }
}
