// Sets that are made of hosted databases.
ghost use Rattle.std.specs.Prelude.{◌≡◌, ◌<◌, ◌^◌, false, length, IfOk, OnOk};
ghost use Rattle.bk_hosting.specs.Copying.{HaveExtents};
ghost use Rattle.bk_hosting.specs.Hosting.{IsReady};
ghost use Rattle.bk_volume.specs.Names.{staging_file};

use crate::headers::header_of;
use crate::shown::store_at;
use bk_copying::data_extents;
use bk_device::Trouble;
use bk_header::keeps;
use bk_hosting::Hosting;
use bk_ids::{ExtentId, Sequence};
use bk_store::copy_tables;
use bk_volume::{Medium, Staged, WriteError, name_law};
use bk_world::{Header, TableSpec};
use std::alloc::{AllocError, Global};
use trials::Untold;

// No set has more tables.
const MOST_TABLES: usize = 64;

// The data extents of the database at this place.
fn extents(alloc: Global, hosting: &Hosting, at: usize) -> Result<Vec<ExtentId>, AllocError>
    requires ready { IsReady hosting.now }
    requires inside { at < length hosting.now.states }
    ensures there { IfOk result (λ extents. HaveExtents hosting.now.stores.slots at extents.items) }
    ensures few { IfOk result (λ extents. length extents.items < 2 ^ 28) }
{
    match hosting.store(at) {
        Some(store) => data_extents(alloc, store.files()),
        None => Ok(Vec::new(alloc)),
    }
}

// Its tables.
fn tables(alloc: Global, hosting: &Hosting, at: usize) -> Result<Sequence<TableSpec>, AllocError>
    requires ready { IsReady hosting.now }
    requires inside { at < length hosting.now.states }
{
    match hosting.store(at) {
        Some(store) => copy_tables(alloc, store.shown().tables()),
        None => Ok(Sequence::new(Vec::new(alloc))),
    }
}

// Copies the database's extents and its log into a set that was begun.
fn copy(
    alloc: Global,
    device: &mut Untold,
    hosting: &mut Hosting,
    at: usize,
    staged: &mut Staged,
    header: &Header,
) -> Result<(), Trouble>
    requires ready { IsReady hosting.old }
    requires inside { at < length hosting.old.states }
    requires begun { staged.old ≡ record { name = staging_file header.now.set; extents = 0; log = 0; failed = false } }
    ensures ready { OnOk result (IsReady hosting.new) }
    ensures whole { OnOk result (staged.new.failed ≡ false) }
    ensures name { OnOk result (staged.new.name ≡ staging_file header.now.set) }
{
    name_law();
    let extents = extents(alloc, hosting, at)?;
    hosting.copy_extents(alloc, device, at, staged, &extents)?;
    hosting.copy_log(alloc, device, at, staged, header.first, header.last)?;
    Ok(())
}

// Seals a set on a medium that is made at a path.
fn seal(
    alloc: Global,
    device: &mut Untold,
    staged: &Staged,
    header: &Header,
    tables: &[TableSpec],
    path: &str,
) -> Result<(), WriteError>
    requires whole { staged.now.failed ≡ false }
    requires name { staged.now.name ≡ staging_file header.now.set }
{
    name_law();
    let mut medium = Medium::make(alloc, device, path)?;
    if !keeps(header) || tables.len() > MOST_TABLES {
        return Err(WriteError::NoMemory);
    }
    medium.seal_set(alloc, device, staged, header, tables)
}

// Writes the set into a file of its own, seals it, and removes that file.
fn back_up_as(
    alloc: Global,
    device: &mut Untold,
    hosting: &mut Hosting,
    at: usize,
    header: &Header,
    path: &str,
) -> Result<(), Trouble>
    requires ready { IsReady hosting.old }
    requires inside { at < length hosting.old.states }
    ensures ready { OnOk result (IsReady hosting.new) }
{
    let tables = tables(alloc, hosting, at)?;
    let mut staged = Staged::begin(alloc, device, header.set)?;
    copy(alloc, device, hosting, at, &mut staged, header)?;
    seal(alloc, device, &staged, header, tables.as_slice(), path)?;
    staged.remove(device)?;
    Ok(())
}

/// `backup AT PATH`: a full set of the database, from its latest checkpoint to its end, on a medium that is made at the path.
pub(crate) fn back_up(
    alloc: Global,
    device: &mut Untold,
    hosting: &mut Hosting,
    at: usize,
    path: &str,
) -> Result<(), Trouble>
    requires ready { IsReady hosting.old }
    requires inside { at < length hosting.old.states }
    ensures ready { OnOk result (IsReady hosting.new) }
{
    let Some(store) = store_at(hosting, at) else {
        return Ok(());
    };
    let header = header_of(alloc, store, hosting.state(at).points.checkpoint)?;
    let done = back_up_as(alloc, device, hosting, at, &header, path);
    drop(header);
    done
}
