//! The plan of `:wait`: the end of the backup of the current database.

ghost use Rattle.std.specs.Prelude.{◌≡◌, ◌<◌, ◌+◌, ◌^◌, ℕ, true, Some, IfOk};
ghost use Rattle.std.specs.Option.{option_map};
ghost use Rattle.bk_acts.specs.Conditions.{KeepRecords};
ghost use Rattle.bk_acts.specs.Meaning.{Spell};
ghost use Rattle.bk_header.specs.Conditions.{KeepsConditions};
ghost use Rattle.bk_items.specs.declared.item.ScriptItem.TheVariants as script;
ghost use Rattle.bk_kept.specs.Keeps.{Sees};
ghost use Rattle.bk_machine.specs.Checks as checks;
ghost use Rattle.bk_machine.specs.World.{World};
ghost use Rattle.bk_machine.specs.Writes.{current_job};
ghost use Rattle.bk_media_plans.specs.Backups.{HasRoom, IsSetHeader};
ghost use Rattle.bk_media_plans.specs.Waits.{HasSets, IsFinish, IsFinishPlan, IsRefusedWait, KeepsFinish, KeepsWait, PlansWait};
ghost use Rattle.bk_world.specs.declared.reply.Reply.TheVariants.{SetMade};
ghost use Rattle.bk_world.specs.Records.{stamped};
ghost use Rattle.bk_world.specs.Says.{alone};

use crate::headers::kept_header;
use crate::planning_backup::next_position;
use crate::wait_plan::{Finish, WaitPlan};
use bk_ids::{Body, Rec, Sequence, Text};
use bk_kept::{InstanceView, copy_transactions};
use bk_machine::statements_do_what_they_may;
use bk_plans::{Refusal, Running, is_path, job_or_refuse, said_time, say_one};
use bk_world::{BackupRow, Header, Reply};
use std::alloc::{AllocError, Global};

// Numbers from here on, 2^62, are never given.
const LAST_NUMBER: u64 = 1 << 62;

/// The path of the medium of the current session's current database's backup, if one runs.
pub fn job_medium<'a>(kept: &'a InstanceView<'a>) -> Option<&'a Text>
    ensures { (w : World) → Sees w kept.now → option_map (λ path. path.now) result ≡ option_map (λ job. job.medium) (current_job w) }
{
    let job = kept.job()?;
    Some(&job.medium)
}

// The stamp of the set of a backup that ends at a time, as the record that its database says at its end.
fn stamp_of(alloc: Global, running: &Running<'_>, time: u64) -> Result<Sequence<Rec>, AllocError>
    ensures says { IfOk result (λ records. Spell records running.now.database.now.shown.«end» (alone (stamped time running.now.job.now.set))) }
    ensures keep { IfOk result KeepRecords }
{
    let database = running.database;
    let set = running.job.set;
    say_one(alloc, database.shown.end(), 0, Body::Stamp { time, set })
}

// The header of its set. Where the backup fits no set, memory is said to be wanting: no statement starts such a one.
fn header_at(alloc: Global, running: &Running<'_>, time: u64) -> Result<Header, AllocError>
    requires { running.now.database.now.shown.«end» < 2 ^ 62 }
    ensures header { IfOk result (IsSetHeader running.now.database.now running.now.job.now (running.now.database.now.shown.«end» + 1) time) }
    ensures keeps { IfOk result KeepsConditions }
{
    let database = running.database;
    let last = database.shown.end() + 1;
    match kept_header(alloc, database, running.job, last, time) {
        Ok(header) => Ok(header),
        Err(_) => Err(AllocError),
    }
}

// Its row of backupset, where so many sets are on its medium.
fn row_at(
    alloc: Global,
    running: &Running<'_>,
    sets: u64,
    time: u64,
) -> Result<BackupRow, AllocError>
    requires { running.now.database.now.shown.«end» < 2 ^ 62 }
    ensures position { IfOk result (λ row. HasRoom (Some sets) → row.position ≡ sets + 1) }
    ensures header { IfOk result (λ row. IsSetHeader running.now.database.now running.now.job.now (running.now.database.now.shown.«end» + 1) time row.header) }
    ensures keeps { IfOk result (λ row. KeepsConditions row.header) }
{
    let header = header_at(alloc, running, time)?;
    Ok(BackupRow {
        position: next_position(Some(sets)),
        header,
    })
}

// The reply to its end.
fn reply_at(running: &Running<'_>, sets: u64) -> Reply
    requires { running.now.database.now.shown.«end» < 2 ^ 62 }
    ensures { HasRoom (Some sets) → result ≡ SetMade (sets + 1) running.now.job.now.first running.now.job.now.checkpoint (running.now.database.now.shown.«end» + 1) }
{
    let database = running.database;
    Reply::SetMade {
        position: next_position(Some(sets)),
        first: running.job.first,
        checkpoint: running.job.checkpoint,
        last: database.shown.end() + 1,
    }
}

// How the backup ends at a time, where so many sets are on its medium.
fn finish_at(
    alloc: Global,
    running: &Running<'_>,
    sets: u64,
    time: u64,
) -> Result<Finish, AllocError>
    requires path { checks.is_path running.now.job.now.medium ≡ true }
    requires left { running.now.database.now.shown.«end» < 2 ^ 62 }
    ensures is { IfOk result (IsFinish running.now.database.now running.now.job.now sets time) }
    ensures keeps { IfOk result KeepsFinish }
{
    let database = running.database;
    Ok(Finish {
        name: database.name.copy(alloc)?,
        path: running.job.medium.copy(alloc)?,
        transactions: copy_transactions(alloc, database.transactions.as_slice())?,
        records: stamp_of(alloc, running, time)?,
        header: header_at(alloc, running, time)?,
        base: header_at(alloc, running, time)?,
        row: row_at(alloc, running, sets, time)?,
        reply: reply_at(running, sets),
    })
}

// The plan of that. Where the database has no number left, or the medium's path is none, memory is said to be wanting: no statement starts such a backup.
fn finishing(
    alloc: Global,
    running: &Running<'_>,
    sets: u64,
    time: u64,
) -> Result<WaitPlan, AllocError>
    ensures is { IfOk result (IsFinishPlan running.now.database.now running.now.job.now sets time) }
    ensures keeps { IfOk result KeepsWait }
{
    let database = running.database;
    if database.shown.end() >= LAST_NUMBER || !is_path(running.job.medium.as_str()) {
        return Err(AllocError);
    }
    let finish = finish_at(alloc, running, sets, time)?;
    Ok(WaitPlan::Finishes { finish })
}

// The plan of `:wait` that is refused.
fn refusing_wait(refusal: Refusal) -> Result<WaitPlan, AllocError>
    ensures rule { IfOk result (IsRefusedWait refusal) }
    ensures keeps { IfOk result KeepsWait }
{
    match refusal {
        Refusal::Broken(rule) => Ok(WaitPlan::Refused { rule }),
        Refusal::NoMemory => Err(AllocError),
    }
}

/// What `:wait` on any line comes to at `now`, in milliseconds since 1970-01-01 00:00:00 UTC, where `sets` sets are on the medium of the backup that runs in the current
/// database, and there is room for one more. Where that backup fits no set, memory is said to be wanting.
pub fn plan_wait(
    kept: &InstanceView<'_>,
    alloc: Global,
    sets: u64,
    now: u64,
) -> Result<WaitPlan, AllocError>
    ensures plans { IfOk result (λ plan. (line : ℕ) → PlansWait kept.now (λ w. HasSets w sets) sets (record { item = script.Wait; line = line }) now plan) }
    ensures keeps { IfOk result KeepsWait }
{
    statements_do_what_they_may();
    match job_or_refuse(kept) {
        Ok(running) => {
            let time = said_time(running.database, now);
            finishing(alloc, &running, sets, time)
        }
        Err(refusal) => refusing_wait(refusal),
    }
}
