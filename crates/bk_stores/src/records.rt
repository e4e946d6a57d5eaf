// The records that are put while stores are made and removed.
ghost use Rattle.std.specs.Prelude.{◌≡◌, ◌<◌, ◌∷◌, ◌++◌, ◌+◌, ◌^◌, [], Some, length, map, slice_get, IfErr, IfOk, IsErrOf};
ghost use Rattle.bk_device.specs.Troubles.{IsPassing};
ghost use Rattle.bk_device.specs.declared.trouble.Trouble.TheVariants.{Fault};
ghost use Rattle.bk_master.specs.declared.record.Entry.{Entry as Entries};
ghost use Rattle.bk_stores.specs.Records.{begun, left_out, owned, rested, swapped, unfinished_at};

use bk_device::Trouble;
use bk_facts::DataFile;
use bk_ids::{Guid, Sequence, Text};
use bk_master::{Entry, Own, Record, Unfinished};
use bk_world::FileSpec;
use std::alloc::{AllocError, Global};

/// The paths of data files, in their order.
pub fn paths_of(alloc: Global, files: &[FileSpec]) -> Result<Vec<Text>, AllocError>
    ensures { IfOk result (λ paths. paths.items ≡ map (λ f. f.path) files.now) }
{
    let mut paths = Vec::new(alloc);
    for file in files {
        paths.push(file.path.copy(alloc)?)?;
    }
    Ok(paths)
}

/// The paths of a store's data files, in their order.
pub fn data_paths(alloc: Global, files: &[DataFile]) -> Result<Vec<Text>, AllocError>
    ensures { IfOk result (λ paths. paths.items ≡ map (λ f. f.path) files.now) }
{
    let mut paths = Vec::new(alloc);
    for file in files {
        paths.push(file.path.copy(alloc)?)?;
    }
    Ok(paths)
}

// Paths of their own.
fn copy_paths(alloc: Global, paths: &[Text]) -> Result<Vec<Text>, AllocError>
    ensures { IfOk result (λ copy. copy.items ≡ paths.now) }
{
    let mut copy = Vec::new(alloc);
    for path in paths {
        copy.push(path.copy(alloc)?)?;
    }
    Ok(copy)
}

// The path of the medium that is being made, of its own.
fn copy_making(alloc: Global, making: &Option<Text>) -> Result<Option<Text>, AllocError>
    ensures { IfOk result (λ copy. copy ≡ making.now) }
{
    match making {
        Some(path) => Ok(Some(path.copy(alloc)?)),
        None => Ok(None),
    }
}

// The sets that are being copied, of their own.
fn copy_sets(alloc: Global, sets: &[Guid]) -> Result<Vec<Guid>, AllocError>
    ensures { IfOk result (λ copy. copy.items ≡ sets.now) }
{
    let mut copy = Vec::new(alloc);
    for set in sets {
        copy.push(*set)?;
    }
    Ok(copy)
}

// What a record keeps beside its databases, of its own.
fn copy_own(alloc: Global, own: &Own) -> Result<Own, AllocError>
    ensures { IfOk result (λ copy. copy ≡ own.now) }
{
    Ok(Own {
        number: own.number,
        counter: own.counter,
        making: copy_making(alloc, &own.making)?,
        staging: own.staging,
        copying: Sequence::new(copy_sets(alloc, own.copying.as_slice())?),
    })
}

// A store that is being made or removed, of its own.
fn copy_one(alloc: Global, it: &Unfinished) -> Result<Unfinished, AllocError>
    ensures { IfOk result (λ copy. copy ≡ it.now) }
{
    Ok(Unfinished {
        store: it.store,
        paths: Sequence::new(copy_paths(alloc, it.paths.as_slice())?),
    })
}

// Stores that are being made or removed, of their own.
fn copy_unfinished(alloc: Global, unfinished: &[Unfinished]) -> Result<Vec<Unfinished>, AllocError>
    ensures { IfOk result (λ copy. copy.items ≡ unfinished.now) }
{
    let mut copy = Vec::new(alloc);
    for it in unfinished {
        copy.push(copy_one(alloc, it)?)?;
    }
    Ok(copy)
}

// One store that is being made or removed.
fn one_unfinished(
    alloc: Global,
    store: u32,
    paths: &[Text],
) -> Result<Sequence<Unfinished>, AllocError>
    ensures { IfOk result (λ us. us ≡ unfinished_at store paths.now ∷ []) }
{
    let paths = Sequence::new(copy_paths(alloc, paths)?);
    let mut unfinished = Vec::new(alloc);
    unfinished.push(Unfinished { store, paths })?;
    Ok(Sequence::new(unfinished))
}

// Entries of their own.
fn copy_entries(alloc: Global, entries: &[Entry]) -> Result<Vec<Entry>, AllocError>
    ensures { IfOk result (λ copy. copy.items ≡ entries.now) }
{
    entries.to_vec(alloc)
}

/// The number of the store of the database at this place.
pub(crate) fn store_at(old: &Record, at: usize) -> u32
    requires { at < length old.now.databases }
    ensures { (e : Entries) × (slice_get old.now.databases at ≡ Some e) × (e.store ≡ result) }
{
    old.databases.as_slice()[at].store
}

// The record of the same instance with these parts.
fn with_parts(
    alloc: Global,
    old: &Record,
    next: u32,
    databases: Vec<Entry>,
    unfinished: Sequence<Unfinished>,
) -> Result<Record, AllocError>
    ensures { IfOk result (λ r. r ≡ record old.now { next = next; databases = databases.items; unfinished = unfinished }) }
{
    Ok(Record {
        own: copy_own(alloc, &old.own)?,
        next,
        databases: Sequence::new(databases),
        unfinished,
    })
}

/// The record that names the store of the next number as one that is being made, with data files at these paths.
pub(crate) fn begin_record(alloc: Global, old: &Record, paths: &[Text]) -> Result<Record, Trouble>
    ensures begun { IfOk result (λ r. r ≡ begun old.now paths.now) }
    ensures few { IfOk result (λ r. old.now.next < 2 ^ 32) }
    ensures small { IfOk result (λ r. r.next < 2 ^ 32) }
    ensures trouble { IfErr result IsPassing }
    ensures no_fault { IsErrOf result Fault → ⊥ }
{
    let Some(next) = old.next.checked_add(1) else {
        return Err(Trouble::NoMemory);
    };
    let unfinished = one_unfinished(alloc, old.next, paths)?;
    let databases = copy_entries(alloc, old.databases.as_slice())?;
    let r = with_parts(alloc, old, next, databases, unfinished)?;
    Ok(r)
}

/// The record with one entry more, under which nothing is being made or removed.
pub(crate) fn added_record(alloc: Global, old: &Record, entry: Entry) -> Result<Record, AllocError>
    ensures { IfOk result (λ r. r ≡ rested old.now (old.now.databases ++ entry ∷ [])) }
{
    let mut databases = copy_entries(alloc, old.databases.as_slice())?;
    databases.push(entry)?;
    with_parts(
        alloc,
        old,
        old.next,
        databases,
        Sequence::new(Vec::new(alloc)),
    )
}

/// The record without the entry at a place, which names its store as one that is being removed, with data files at these paths.
pub(crate) fn left_record(
    alloc: Global,
    old: &Record,
    at: usize,
    store: u32,
    paths: &[Text],
) -> Result<Record, AllocError>
    requires { at < length old.now.databases }
    ensures { IfOk result (λ r. r ≡ left_out old.now at store paths.now) }
{
    let unfinished = one_unfinished(alloc, store, paths)?;
    let mut databases = copy_entries(alloc, old.databases.as_slice())?;
    databases.remove(at);
    with_parts(alloc, old, old.next, databases, unfinished)
}

/// The record under which nothing is being made or removed.
pub(crate) fn rested_record(alloc: Global, old: &Record) -> Result<Record, AllocError>
    ensures { IfOk result (λ r. r ≡ rested old.now old.now.databases) }
{
    let databases = copy_entries(alloc, old.databases.as_slice())?;
    with_parts(
        alloc,
        old,
        old.next,
        databases,
        Sequence::new(Vec::new(alloc)),
    )
}

/// The record in which another store is that of the database at a place, and the one that was is named as one that is being removed, with data files at these paths.
pub(crate) fn swapped_record(
    alloc: Global,
    old: &Record,
    at: usize,
    entry: Entry,
    store: u32,
    paths: &[Text],
) -> Result<Record, AllocError>
    requires { at < length old.now.databases }
    ensures { IfOk result (λ r. r ≡ swapped old.now at entry store paths.now) }
{
    let unfinished = one_unfinished(alloc, store, paths)?;
    let mut databases = copy_entries(alloc, old.databases.as_slice())?;
    databases[at] = entry;
    with_parts(alloc, old, old.next, databases, unfinished)
}

/// The record with another own part.
pub(crate) fn owned_record(alloc: Global, old: &Record, own: Own) -> Result<Record, AllocError>
    ensures { IfOk result (λ r. r ≡ owned old.now own) }
{
    let databases = copy_entries(alloc, old.databases.as_slice())?;
    let unfinished = copy_unfinished(alloc, old.unfinished.as_slice())?;
    Ok(Record {
        own,
        next: old.next,
        databases: Sequence::new(databases),
        unfinished: Sequence::new(unfinished),
    })
}
