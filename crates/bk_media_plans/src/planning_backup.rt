//! The plan of a full backup, and of one that only starts.

ghost use Rattle.std.specs.Prelude.{◌≡◌, ◌<◌, ◌+◌, ◌∷◌, ◌++◌, [], ◌^◌, true, false, IfOk, IsErrOf, OnOk};
ghost use Rattle.bk_items.specs.declared.item.ScriptItem.TheVariants as script;
ghost use Rattle.bk_machine.specs.Checks as checks;
ghost use Rattle.bk_kept.specs.Keeps.{Sees, database_of};
ghost use Rattle.bk_machine.specs.Sound.{IsSound};
ghost use Rattle.bk_machine.specs.World.{World};
ghost use Rattle.bk_machine.specs.statements.Backup.{ShowsRoom, full_job};
ghost use Rattle.bk_plans.specs.declared.parts.Part.TheVariants.{JobBegun};
ghost use Rattle.bk_media_plans.specs.Sets.{MayFinish};
ghost use Rattle.bk_shown.specs.declared.error.TakeError.TheVariants.{Unfit};
ghost use Rattle.bk_media_plans.specs.Backups.{BasesOne, HasRoom, IsBackup, IsBackupPlan, IsBackupReply, IsStamp, IsStartPlan, MarksOne, NotesOne, PlansChecked, PlansJob, SealsOne, StampsOne, draws_part, position_behind};
ghost use Rattle.bk_plans.specs.Planned.{IsRefusedBy};
ghost use Rattle.bk_plans.specs.Planning.{KeepsPlan, Plans};
ghost use Rattle.bk_world.specs.Medium.{medium_at};

use crate::backing_up::{Backing, check_backup};
use crate::headers::{full_header, set_header};
use crate::jobs::full_job;
use bk_acts::StoredAct;
use bk_ids::{Body, Guid, Sequence, Text};
use bk_items::{BackupOptions, UnitName};
use bk_kept::{DatabaseView, InstanceView, copy_transactions};
use bk_machine::{
    HistoryRow, Job, acts_keep_worlds_sound, statements_do_what_they_may, what_is_said_comes_last,
};
use bk_plans::{Part, Plan, Refusal, logged, marked, refused, said_time, say_one};
use bk_shown::TakeError;
use bk_world::{BackupRow, Reply, Rule};
use std::alloc::{AllocError, Global};

// One part more.
fn push(parts: &mut Vec<Part>, part: Part) -> Result<(), AllocError>
    ensures { OnOk result (parts.new.items ≡ parts.old.items ++ part ∷ []) }
{
    parts.push(part)?;
    Ok(())
}

// The part by which a set's GUID is drawn: its medium is made where none is, or it comes behind so many sets.
fn drawing(alloc: Global, disk: &Text, sets: Option<u64>) -> Result<Part, AllocError>
    ensures { IfOk result (λ part. part ≡ draws_part sets disk.now) }
{
    match sets {
        Some(_) => Ok(Part::SetDrawn),
        None => Ok(Part::MediumMade {
            path: disk.copy(alloc)?,
        }),
    }
}

// One part more: the set's GUID is drawn.
fn push_draw(
    alloc: Global,
    parts: &mut Vec<Part>,
    disk: &Text,
    sets: Option<u64>,
) -> Result<(), AllocError>
    ensures { OnOk result (parts.new.items ≡ parts.old.items ++ draws_part sets disk.now ∷ []) }
{
    let part = drawing(alloc, disk, sets)?;
    push(parts, part)
}

// One part more: the database marks a checkpoint at its end.
fn push_mark(
    alloc: Global,
    parts: &mut Vec<Part>,
    database: &DatabaseView<'_>,
    time: u64,
) -> Result<(), AllocError>
    ensures { OnOk result (MarksOne database.now time parts.old.items parts.new.items) }
{
    let act = marked(alloc, database, time)?;
    push(parts, Part::Stored(act))
}

// The act by which a database says the stamp of a set, behind a checkpoint at its end.
fn stamp_act(
    alloc: Global,
    database: &DatabaseView<'_>,
    set: Guid,
    time: u64,
) -> Result<StoredAct, AllocError>
    requires { database.now.shown.«end» + 1 < 2 ^ 64 }
    ensures { IfOk result (IsStamp database.now set time) }
{
    let lsn = database.shown.end() + 1;
    let records = say_one(alloc, lsn, 0, Body::Stamp { time, set })?;
    match copy_transactions(alloc, database.transactions.as_slice()) {
        Ok(transactions) => logged(alloc, database, transactions, records),
        Err(error) => {
            drop(records);
            Err(error)
        }
    }
}

// One part more: the database says the stamp of the set.
fn push_stamp(
    alloc: Global,
    parts: &mut Vec<Part>,
    database: &DatabaseView<'_>,
    set: Guid,
    time: u64,
) -> Result<(), AllocError>
    requires { database.now.shown.«end» + 1 < 2 ^ 64 }
    ensures { OnOk result (StampsOne database.now set time parts.old.items parts.new.items) }
{
    let act = stamp_act(alloc, database, set, time)?;
    push(parts, Part::Stored(act))
}

// One part more: the set of a job is sealed on its medium. `Unfit` comes only where the database or the job fits no set.
fn push_set(
    alloc: Global,
    parts: &mut Vec<Part>,
    database: &DatabaseView<'_>,
    job: &Job,
) -> Result<(), TakeError>
    requires { database.now.shown.«end» + 2 < 2 ^ 64 }
    ensures seals { OnOk result (SealsOne database.now job.now parts.old.items parts.new.items) }
    ensures unfit { IsErrOf result Unfit → (w : World) → MayFinish w database.now job.now → ⊥ }
{
    let path = job.medium.copy(alloc)?;
    let header = full_header(alloc, database, job)?;
    push(parts, Part::SetSealed { path, header })?;
    Ok(())
}

// How many sets a medium has at most.
const MOST_SETS: u64 = 65_535;

// The position of the next set on a medium that has room for one, from 1.
pub(crate) fn next_position(sets: Option<u64>) -> u32
    ensures { HasRoom sets → result ≡ position_behind sets }
{
    match sets {
        Some(sets) => sets.min(MOST_SETS) as u32 + 1,
        None => 1,
    }
}

// One part more: the set's row comes to backupset. `Unfit` comes only where the database or the job fits no set.
fn push_row(
    alloc: Global,
    parts: &mut Vec<Part>,
    database: &DatabaseView<'_>,
    sets: Option<u64>,
    job: &Job,
) -> Result<(), TakeError>
    requires { database.now.shown.«end» + 2 < 2 ^ 64 }
    ensures notes { OnOk result (NotesOne database.now sets job.now parts.old.items parts.new.items) }
    ensures unfit { IsErrOf result Unfit → (w : World) → MayFinish w database.now job.now → ⊥ }
{
    let header = full_header(alloc, database, job)?;
    let row = BackupRow {
        position: next_position(sets),
        header,
    };
    push(
        parts,
        Part::Noted {
            row: HistoryRow::Backup(row),
        },
    )?;
    Ok(())
}

// One part more: the database is based on the set.
fn push_base(
    alloc: Global,
    parts: &mut Vec<Part>,
    database: &DatabaseView<'_>,
    job: &Job,
) -> Result<(), AllocError>
    requires { database.now.shown.«end» + 2 < 2 ^ 64 }
    ensures { OnOk result (BasesOne database.now job.now parts.old.items parts.new.items) }
{
    let name = database.name.copy(alloc)?;
    let last = database.shown.end() + 2;
    let header = set_header(alloc, database, job, last, job.start)?;
    push(parts, Part::Stored(StoredAct::Based { name, header }))
}

// The parts of a backup of a database by which the set of a job is made at once. `Unfit` comes only where the database or the job fits no set.
fn backup_parts(
    alloc: Global,
    database: &DatabaseView<'_>,
    sets: Option<u64>,
    job: &Job,
) -> Result<Vec<Part>, TakeError>
    requires left { checks.used_up database.now.shown.«end» ≡ false }
    ensures parts { IfOk result (λ parts. IsBackup database.now sets job.now parts.items) }
    ensures unfit { IsErrOf result Unfit → (w : World) → MayFinish w database.now job.now → ⊥ }
{
    let mut parts = Vec::new(alloc);
    push_draw(alloc, &mut parts, &job.medium, sets)?;
    push_mark(alloc, &mut parts, database, job.start)?;
    push_stamp(alloc, &mut parts, database, job.set, job.start)?;
    push_set(alloc, &mut parts, database, job)?;
    push_row(alloc, &mut parts, database, sets, job)?;
    push_base(alloc, &mut parts, database, job)?;
    Ok(parts)
}

// The reply to a backup of a database.
fn reply_to(database: &DatabaseView<'_>, sets: Option<u64>, job: &Job) -> Reply
    requires { database.now.shown.«end» + 2 < 2 ^ 64 }
    ensures { IsBackupReply database.now sets job.now result }
{
    Reply::SetMade {
        position: next_position(sets),
        first: job.first,
        checkpoint: job.checkpoint,
        last: database.shown.end() + 2,
    }
}

// The plan of a backup that is done at once. `Unfit` comes only where the database or the job fits no set.
fn backup(
    alloc: Global,
    database: &DatabaseView<'_>,
    sets: Option<u64>,
    job: &Job,
) -> Result<Plan, TakeError>
    requires path { checks.is_path job.now.medium ≡ true }
    requires left { checks.used_up database.now.shown.«end» ≡ false }
    ensures parts { IfOk result (IsBackupPlan database.now sets job.now) }
    ensures keeps { IfOk result KeepsPlan }
    ensures unfit { IsErrOf result Unfit → (w : World) → MayFinish w database.now job.now → ⊥ }
{
    let parts = backup_parts(alloc, database, sets, job)?;
    let reply = reply_to(database, sets, job);
    Ok(Plan::Parts { parts, reply })
}

// One part more: the backup of the database starts by this job.
fn push_job(
    alloc: Global,
    parts: &mut Vec<Part>,
    database: &DatabaseView<'_>,
    job: &Job,
) -> Result<(), AllocError>
    ensures { OnOk result (parts.new.items ≡ parts.old.items ++ JobBegun database.now.name job.now ∷ []) }
{
    let name = database.name.copy(alloc)?;
    let job = job.copy(alloc)?;
    push(parts, Part::JobBegun { name, job })
}

// The plan of a backup that only starts, behind which the session's next one doesn't.
fn start(
    alloc: Global,
    database: &DatabaseView<'_>,
    sets: Option<u64>,
    job: &Job,
) -> Result<Plan, AllocError>
    requires path { checks.is_path job.now.medium ≡ true }
    ensures parts { IfOk result (IsStartPlan database.now sets job.now) }
    ensures keeps { IfOk result KeepsPlan }
{
    let mut parts = Vec::new(alloc);
    push_draw(alloc, &mut parts, &job.medium, sets)?;
    push_mark(alloc, &mut parts, database, job.start)?;
    push_job(alloc, &mut parts, database, job)?;
    Ok(Plan::Readied {
        parts,
        starts: false,
        reply: Reply::JobStarted,
    })
}

// The plan of a backup by this job, which only starts, or is done at once. `Unfit` comes only where the database or the job fits no set.
fn plan_job(
    alloc: Global,
    database: &DatabaseView<'_>,
    sets: Option<u64>,
    job: &Job,
    starts: bool,
) -> Result<Plan, TakeError>
    requires path { checks.is_path job.now.medium ≡ true }
    requires left { checks.used_up database.now.shown.«end» ≡ false }
    ensures plans { IfOk result (PlansJob starts database.now sets job.now) }
    ensures keeps { IfOk result KeepsPlan }
    ensures unfit { IsErrOf result Unfit → (w : World) → MayFinish w database.now job.now → ⊥ }
{
    if starts {
        Ok(start(alloc, database, sets, job)?)
    } else {
        backup(alloc, database, sets, job)
    }
}

// The plan of a backup that is checked, at a time. `Unfit` comes only where the database or the set's name fits no set.
fn plan_checked(
    kept: &InstanceView<'_>,
    alloc: Global,
    backing: &Backing<'_>,
    disk: &Text,
    options: &BackupOptions,
    time: u64,
) -> Result<Plan, TakeError>
    requires path { checks.is_path disk.now ≡ true }
    requires left { checks.used_up backing.now.database.now.shown.«end» ≡ false }
    ensures plans { IfOk result (PlansChecked kept.now backing.now.database.now backing.now.sets (full_job (database_of backing.now.database.now) options.now disk.now (record { high = kept.now.number; low = kept.now.counter }) time)) }
    ensures keeps { IfOk result KeepsPlan }
    ensures unfit { IsErrOf result Unfit → (w : World) → MayFinish w backing.now.database.now (full_job (database_of backing.now.database.now) options.now disk.now (record { high = kept.now.number; low = kept.now.counter }) time) → ⊥ }
{
    let set = Guid {
        high: kept.number,
        low: kept.counter,
    };
    let database = backing.database;
    let job = full_job(alloc, database, options, disk, set, time)?;
    let plan = plan_job(alloc, database, backing.sets, &job, kept.starts());
    drop(job);
    plan
}

// The plan of a backup that is refused.
fn refusing(refusal: Refusal) -> Result<Plan, TakeError>
    ensures rule { IfOk result (IsRefusedBy refusal) }
    ensures fit { IsErrOf result Unfit → ⊥ }
    ensures keeps { IfOk result KeepsPlan }
{
    Ok(refused(refusal)?)
}

/// What `BACKUP DATABASE` on this line comes to at `now`, in milliseconds since 1970-01-01 00:00:00 UTC, where `room` was found at
/// the path of its medium: how many sets are there, `None` for no medium, or the rule by which it is refused. `Unfit` comes only
/// where the database fits no set: it is that of no sound world.
pub fn plan_backup(
    kept: &InstanceView<'_>,
    alloc: Global,
    line: u32,
    database: &Text,
    units: &Sequence<UnitName>,
    disk: &Text,
    options: &BackupOptions,
    room: Result<Option<u64>, Rule>,
    now: u64,
) -> Result<Plan, TakeError>
    ensures plans { IfOk result (Plans kept.now (λ w. ShowsRoom (medium_at w.media disk.now) room)
        (record { item = script.BackupDatabase database.now units.now disk.now options.now; line = line }) now) }
    ensures keeps { IfOk result KeepsPlan }
    ensures unfit { IsErrOf result Unfit → (w : World) → IsSound w → Sees w kept.now → ShowsRoom (medium_at w.media disk.now) room → ⊥ }
{
    statements_do_what_they_may();
    acts_keep_worlds_sound();
    what_is_said_comes_last();
    match check_backup(kept, alloc, line, database, units, disk, options, room) {
        Ok(backing) => {
            let time = said_time(backing.database, now);
            plan_checked(kept, alloc, &backing, disk, options, time)
        }
        Err(refusal) => refusing(refusal),
    }
}
