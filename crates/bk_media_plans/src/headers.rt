//! The header of the set that a job finishes.

ghost use Rattle.std.specs.Prelude.{◌≡◌, ◌<◌, ◌+◌, ◌^◌, true, map, IfOk, IsErrOf};
ghost use Rattle.bk_header.specs.Conditions.{KeepsConditions};
ghost use Rattle.bk_machine.specs.World.{World};
ghost use Rattle.bk_machine.specs.statements.Backup as backup;
ghost use Rattle.bk_media_plans.specs.Backups.{IsFullHeader, IsSetHeader};
ghost use Rattle.bk_media_plans.specs.Sets.{MayFinish, MayMakeSet};
ghost use Rattle.bk_shown.specs.declared.error.TakeError.TheVariants.{Unfit};

use bk_header::keeps;
use bk_ids::{Lsn, Sequence};
use bk_kept::{DatabaseView, copy_file, copy_groups};
use bk_machine::Job;
use bk_shown::TakeError;
use bk_world::{Base, FileSpec, Header, HeaderFile};
use std::alloc::{AllocError, Global};

// The data files of a database as a full set's header names them.
fn header_files(alloc: Global, files: &[FileSpec]) -> Result<Sequence<HeaderFile>, AllocError>
    ensures { IfOk result (λ named. named ≡ map (λ file. record { spec = file; in_set = true }) files.now) }
{
    let mut named = Vec::new(alloc);
    for file in files {
        let spec = copy_file(alloc, file)?;
        named.push(HeaderFile { spec, in_set: true })?;
    }
    Ok(Sequence::new(named))
}

// The number of a base's checkpoint, 0 where there is none.
fn base_lsn(base: Option<Base>) -> Lsn
    ensures { result ≡ backup.base_lsn base }
{
    match base {
        Some(base) => base.lsn,
        None => 0,
    }
}

// The header of the set that a job finishes at a time, of its database as it is then, whose stamp comes just below `last`.
pub(crate) fn set_header(
    alloc: Global,
    database: &DatabaseView<'_>,
    job: &Job,
    last: Lsn,
    time: u64,
) -> Result<Header, AllocError>
    ensures { IfOk result (IsSetHeader database.now job.now last time) }
{
    Ok(Header {
        version: 1,
        kind: job.kind,
        model: database.shown.model(),
        copy_only: job.copy_only,
        bulk: false,
        begins_chain: false,
        checksums: job.checksums,
        set: job.set,
        family: database.family,
        first: job.first,
        checkpoint: job.checkpoint,
        last,
        database_backup: base_lsn(database.base),
        base: None,
        start: job.start,
        finish: time,
        expiry: job.expiry,
        database: database.name.copy(alloc)?,
        name: job.name.copy(alloc)?,
        path: database.path.copy(alloc)?,
        groups: copy_groups(alloc, database.groups.as_slice())?,
        files: header_files(alloc, database.files.as_slice())?,
        log_name: database.log_name.copy(alloc)?,
        log_path: database.log_path.copy(alloc)?,
    })
}

// That header, where it keeps the conditions of a set. `Unfit` comes only where the database or the job fits no set.
pub(crate) fn kept_header(
    alloc: Global,
    database: &DatabaseView<'_>,
    job: &Job,
    last: Lsn,
    time: u64,
) -> Result<Header, TakeError>
    ensures header { IfOk result (IsSetHeader database.now job.now last time) }
    ensures keeps { IfOk result KeepsConditions }
    ensures unfit { IsErrOf result Unfit → (w : World) → MayMakeSet w database.now job.now last time → ⊥ }
{
    let header = set_header(alloc, database, job, last, time)?;
    if keeps(&header) {
        Ok(header)
    } else {
        drop(header);
        Err(TakeError::Unfit)
    }
}

// The header of the set of a job that finishes at its start: its stamp comes right behind the checkpoint at the database's end. `Unfit` comes only where the database or the job fits no set.
pub(crate) fn full_header(
    alloc: Global,
    database: &DatabaseView<'_>,
    job: &Job,
) -> Result<Header, TakeError>
    requires { database.now.shown.«end» + 2 < 2 ^ 64 }
    ensures header { IfOk result (IsFullHeader database.now job.now) }
    ensures keeps { IfOk result KeepsConditions }
    ensures unfit { IsErrOf result Unfit → (w : World) → MayFinish w database.now job.now → ⊥ }
{
    kept_header(alloc, database, job, database.shown.end() + 2, job.start)
}
