// What statements come to over what an engine has in memory.
ghost use Rattle.std.specs.Prelude.{◌≡◌, ℕ, true, IfOk, IsErrOf};
ghost use Rattle.std.specs.Option.{option_map};
ghost use Rattle.bk_engine.specs.Stands.{IsReady};
ghost use Rattle.bk_engine.specs.Viewing.{Remembers};
ghost use Rattle.bk_executing.specs.Planned.{IsPlanned, IsRestorePlanned, IsWaitPlanned};
ghost use Rattle.bk_items.specs.declared.item.ScriptItem.TheVariants as script;
ghost use Rattle.bk_machine.specs.Sound.{IsSound};
ghost use Rattle.bk_machine.specs.World.{World};
ghost use Rattle.bk_machine.specs.Writes.{current_job};
ghost use Rattle.bk_machine.specs.statements.Backup.{ShowsRoom};
ghost use Rattle.bk_machine.specs.statements.Restore.{position_of};
ghost use Rattle.bk_media_plans.specs.Found.{FindsSet};
ghost use Rattle.bk_media_plans.specs.Restoring as request;
ghost use Rattle.bk_media_plans.specs.RestorePlans.{KeepsRestore};
ghost use Rattle.bk_media_plans.specs.Waits.{KeepsWait};
ghost use Rattle.bk_kept.specs.Keeps.{Sees};
ghost use Rattle.bk_plans.specs.Planning.{KeepsPlan, Plans, ReadsNoMedium};
ghost use Rattle.bk_world.specs.Medium.{medium_at};

use bk_device::Trouble;
use bk_engine::Engine;
use bk_ids::{Sequence, Text};
use bk_items::{BackupOptions, RestoreOptions, RestoredUnits, ScriptEntry, UnitName};
use bk_kept::{InstanceView, leave_numbers};
use bk_media_plans::{
    RestorePlan, SetView, WaitPlan, job_medium, plan_backup, plan_restore, plan_wait,
};
use bk_planning::plan;
use bk_plans::Plan;
use bk_shown::TakeError;
use bk_world::Rule;
use std::alloc::{AllocError, Global};

// What a statement comes to over what is seen, that reads no medium. Where a database leaves no numbers the call ends as if memory were wanting.
fn plan_seen(
    seen: &InstanceView<'_>,
    alloc: Global,
    statement: &ScriptEntry,
    now: u64,
) -> Result<Plan, AllocError>
    ensures plans { IfOk result (λ plan. ReadsNoMedium statement.now.item → Plans seen.now (λ w. Unit {0}) statement.now now plan) }
    ensures keeps { IfOk result KeepsPlan }
{
    if !leave_numbers(seen) {
        return Err(AllocError);
    }
    plan(seen, alloc, statement, now)
}

/// What a statement comes to at `now`, in milliseconds since 1970-01-01 00:00:00 UTC, that reads no medium.
pub(crate) fn plan_kept(
    engine: &Engine,
    statement: &ScriptEntry,
    now: u64,
) -> Result<Plan, AllocError>
    requires ready { IsReady engine.now }
    ensures plans { IfOk result (λ plan. ReadsNoMedium statement.now.item → IsPlanned engine.now (λ w. Unit {0}) statement.now now plan) }
    ensures keeps { IfOk result KeepsPlan }
{
    let ends = engine.ends(engine.alloc())?;
    let seen = engine.view(engine.alloc(), &ends)?;
    plan_seen(&seen, engine.alloc(), statement, now)
}

/// What `BACKUP DATABASE` on this line comes to at `now`, where its medium has this room. `Broken` comes only where the database fits no set: the engine stands for no world.
pub(crate) fn plan_kept_backup(
    engine: &Engine,
    line: u32,
    database: &Text,
    units: &Sequence<UnitName>,
    disk: &Text,
    options: &BackupOptions,
    room: Result<Option<u64>, Rule>,
    now: u64,
) -> Result<Plan, Trouble>
    requires ready { IsReady engine.now }
    ensures plans { IfOk result (IsPlanned engine.now (λ w. ShowsRoom (medium_at w.media disk.now) room)
        (record { item = script.BackupDatabase database.now units.now disk.now options.now; line = line }) now) }
    ensures keeps { IfOk result KeepsPlan }
    ensures broken { IsErrOf result Trouble.Broken → (w : World) → IsSound w → Remembers engine.now w → ShowsRoom (medium_at w.media disk.now) room → ⊥ }
    ensures no_fault { IsErrOf result Trouble.Fault → ⊥ }
{
    let alloc = engine.alloc();
    let ends = engine.ends(alloc)?;
    let seen = engine.view(alloc, &ends)?;
    match plan_backup(
        &seen, alloc, line, database, units, disk, options, room, now,
    ) {
        Ok(plan) => Ok(plan),
        Err(TakeError::Unfit) => Err(Trouble::Broken),
        Err(TakeError::NoMemory) => Err(Trouble::NoMemory),
    }
}

/// What `RESTORE DATABASE` on this line comes to, which is built, by the set of its medium that it chooses, or the rule by which that is refused. `Broken` comes only where the set keeps not what every set keeps, its log
/// isn't what its path shows, or leaves no numbers for what its recovery says: in no world that finds this set there.
pub(crate) fn plan_kept_restore(
    engine: &Engine,
    line: u32,
    database: &Text,
    units: &RestoredUnits,
    disk: &Option<Text>,
    options: &RestoreOptions,
    set: Result<SetView<'_>, Rule>,
    now: u64,
) -> Result<RestorePlan, Trouble>
    requires ready { IsReady engine.now }
    requires built { request.is_built database.now units.now disk.now options.now ≡ true }
    ensures plans { IfOk result (IsRestorePlanned engine.now (FindsSet (position_of options.now.file) disk.now set.entry) options.now set.entry
        (record { item = script.RestoreDatabase database.now units.now disk.now options.now; line = line }) now) }
    ensures keeps { IfOk result (KeepsRestore options.now set.entry) }
    ensures broken { IsErrOf result Trouble.Broken → (w : World) → IsSound w → Remembers engine.now w → FindsSet (position_of options.now.file) disk.now set.entry w → ⊥ }
    ensures no_fault { IsErrOf result Trouble.Fault → ⊥ }
{
    let alloc = engine.alloc();
    let ends = engine.ends(alloc)?;
    let seen = engine.view(alloc, &ends)?;
    match plan_restore(&seen, alloc, line, database, units, disk, options, set, now) {
        Ok(plan) => Ok(plan),
        Err(TakeError::Unfit) => Err(Trouble::Broken),
        Err(TakeError::NoMemory) => Err(Trouble::NoMemory),
    }
}

// The path of the medium of the backup that runs in the current database that is seen, if one runs.
fn path_seen(seen: &InstanceView<'_>, alloc: Global) -> Result<Option<Text>, AllocError>
    ensures { IfOk result (λ path. (w : World) → Sees w seen.now → path ≡ option_map (λ job. job.medium) (current_job w)) }
{
    match job_medium(seen) {
        Some(path) => Ok(Some(path.copy(alloc)?)),
        None => Ok(None),
    }
}

/// The path of the medium of the backup that runs in the current database, if one runs.
pub(crate) fn job_path(engine: &Engine) -> Result<Option<Text>, AllocError>
    requires ready { IsReady engine.now }
    ensures { IfOk result (λ path. (w : World) → Remembers engine.now w → path ≡ option_map (λ job. job.medium) (current_job w)) }
{
    let ends = engine.ends(engine.alloc())?;
    let seen = engine.view(engine.alloc(), &ends)?;
    path_seen(&seen, engine.alloc())
}

/// What `:wait` on any line comes to at `now`, in milliseconds since 1970-01-01 00:00:00 UTC, where so many sets are on the medium of the backup that runs in the current database.
pub(crate) fn plan_kept_wait(engine: &Engine, sets: u64, now: u64) -> Result<WaitPlan, AllocError>
    requires ready { IsReady engine.now }
    ensures plans { IfOk result (λ plan. (line : ℕ) → IsWaitPlanned engine.now sets (record { item = script.Wait; line = line }) now plan) }
    ensures keeps { IfOk result KeepsWait }
{
    let ends = engine.ends(engine.alloc())?;
    let seen = engine.view(engine.alloc(), &ends)?;
    plan_wait(&seen, engine.alloc(), sets, now)
}
