// Copies of what databases are made with.
ghost use Rattle.std.specs.Prelude.{◌≡◌, map, IfOk, OnOk};
ghost use Rattle.bk_hosted.specs.Hosted.{set_storage};
ghost use Rattle.bk_storage.specs.Storage.{IsStorage, KeepsStorage};

use bk_ids::Sequence;
use bk_kept::{copy_file, copy_groups};
use bk_storage::append_storage;
use bk_world::{Creation, FileSpec, Header, HeaderFile, Storage};
use std::alloc::{AllocError, Global};

// Data files of their own.
fn copy_files(alloc: Global, files: &[FileSpec]) -> Result<Sequence<FileSpec>, AllocError>
    ensures { IfOk result (λ copy. copy ≡ files.now) }
{
    let mut copy = Vec::new(alloc);
    for file in files {
        copy.push(copy_file(alloc, file)?)?;
    }
    Ok(Sequence::new(copy))
}

// The data files of a set's database.
fn files_of(alloc: Global, files: &[HeaderFile]) -> Result<Sequence<FileSpec>, AllocError>
    ensures { IfOk result (λ specs. specs ≡ map (λ file. file.spec) files.now) }
{
    let mut specs = Vec::new(alloc);
    for file in files {
        specs.push(copy_file(alloc, &file.spec)?)?;
    }
    Ok(Sequence::new(specs))
}

// Filegroups, files and log of their own.
fn copy_storage(alloc: Global, storage: &Storage) -> Result<Storage, AllocError>
    ensures { IfOk result (λ copy. copy ≡ storage.now) }
{
    let groups = copy_groups(alloc, storage.groups.as_slice())?;
    let files = copy_files(alloc, storage.files.as_slice())?;
    Ok(Storage {
        groups,
        files,
        log_name: storage.log_name.copy(alloc)?,
        log_path: storage.log_path.copy(alloc)?,
    })
}

/// The filegroups, files and log of a set's database.
pub(crate) fn storage_of(alloc: Global, header: &Header) -> Result<Storage, AllocError>
    ensures { IfOk result (λ storage. storage ≡ set_storage header.now) }
{
    let groups = copy_groups(alloc, header.groups.as_slice())?;
    let files = files_of(alloc, header.files.as_slice())?;
    Ok(Storage {
        groups,
        files,
        log_name: header.log_name.copy(alloc)?,
        log_path: header.log_path.copy(alloc)?,
    })
}

// Whether memory suffices to spell filegroups, files and log: they have a spelling.
fn spell(alloc: Global, storage: &Storage) -> Result<(), AllocError>
    requires { KeepsStorage storage.now }
    ensures { OnOk result (IsStorage storage.now) }
{
    let mut bytes = Vec::new(alloc);
    append_storage(&mut bytes, storage)?;
    Ok(())
}

/// What a database is made with, of its own.
pub(crate) fn copy_creation(alloc: Global, creation: &Creation) -> Result<Creation, AllocError>
    requires { KeepsStorage creation.now.storage }
    ensures copy { IfOk result (λ copy. copy ≡ creation.now) }
    ensures fits { OnOk result (IsStorage creation.now.storage) }
{
    spell(alloc, &creation.storage)?;
    let storage = copy_storage(alloc, &creation.storage)?;
    Ok(Creation {
        name: creation.name.copy(alloc)?,
        family: creation.family,
        branch: creation.branch,
        time: creation.time,
        storage,
    })
}
