//! The job of a full backup: what its set is to hold, and where.

ghost use Rattle.std.specs.Prelude.{◌≡◌, ◌++◌, map, IfOk, OnOk};
ghost use Rattle.bk_kept.specs.Keeps.{database_of};
ghost use Rattle.bk_machine.specs.statements.Backup as backup;

use crate::backing_up::is_on;
use bk_ids::{ExtentId, Guid, Sequence, Text};
use bk_items::BackupOptions;
use bk_kept::DatabaseView;
use bk_machine::Job;
use bk_world::{FileSpec, SetKind};
use std::alloc::{AllocError, Global};

// The numbers of data files.
fn numbers_of(alloc: Global, files: &[FileSpec]) -> Result<Sequence<u16>, AllocError>
    ensures { IfOk result (λ numbers. numbers ≡ map (λ f. f.number) files.now) }
{
    let mut numbers = Vec::new(alloc);
    for file in files {
        numbers.push(file.number)?;
    }
    Ok(Sequence::new(numbers))
}

// So many extents more, those of a data file.
fn push_extents(extents: &mut Vec<ExtentId>, file: u16, count: u32) -> Result<(), AllocError>
    ensures { OnOk result (extents.new.items ≡ extents.old.items ++ backup.extents_from file 1 count) }
{
    for i in 0..count {
        extents.push(ExtentId {
            file,
            extent: i + 1,
        })?;
    }
    Ok(())
}

// The data extents of data files, file by file.
fn all_extents(alloc: Global, files: &[FileSpec]) -> Result<Sequence<ExtentId>, AllocError>
    ensures { IfOk result (λ extents. extents ≡ backup.all_extents files.now) }
{
    let mut extents = Vec::new(alloc);
    for file in files {
        push_extents(&mut extents, file.number, file.extents)?;
    }
    Ok(Sequence::new(extents))
}

// The name of a set, empty where none is given.
fn set_name(alloc: Global, name: &Option<Text>) -> Result<Text, AllocError>
    ensures { IfOk result (λ text. text ≡ backup.set_name name.now) }
{
    match name {
        Some(name) => name.copy(alloc),
        None => Ok(Text::new(String::new(alloc))),
    }
}

// The job of a full backup, by its options, of a database whose checkpoint is its end, to the medium at a path.
pub(crate) fn full_job(
    alloc: Global,
    database: &DatabaseView<'_>,
    options: &BackupOptions,
    disk: &Text,
    set: Guid,
    time: u64,
) -> Result<Job, AllocError>
    ensures { IfOk result (λ job. job ≡ backup.full_job (database_of database.now) options.now disk.now set time) }
{
    let end = database.shown.end();
    let files = database.files.as_slice();
    Ok(Job {
        set,
        kind: SetKind::Full,
        files: numbers_of(alloc, files)?,
        copy_only: false,
        checksums: is_on(options.checksum),
        name: set_name(alloc, &options.name)?,
        expiry: None,
        start: time,
        medium: disk.copy(alloc)?,
        first: database.least_begin(end),
        checkpoint: end,
        left: all_extents(alloc, files)?,
    })
}
