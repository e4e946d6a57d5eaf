//! Plans of `RESTORE DATABASE`.

ghost use Rattle.std.specs.Prelude.{◌≡◌, ◌+◌, ℕ, true, nat_le, Ok, IfOk, IsErrOf, MatchOption};
ghost use Rattle.std.specs.List.{list_all};
ghost use Rattle.bk_items.specs.declared.item.ScriptItem.TheVariants as script;
ghost use Rattle.bk_machine.specs.statements.Restore as restore;
ghost use Rattle.bk_kept.specs.Keeps.{Sees};
ghost use Rattle.bk_machine.specs.Machine.{May};
ghost use Rattle.bk_machine.specs.Outcome.{refused};
ghost use Rattle.bk_machine.specs.Sound.{IsSound};
ghost use Rattle.bk_machine.specs.World.{World};
ghost use Rattle.bk_media_plans.specs.Restoring as request;
ghost use Rattle.bk_media_plans.specs.Found.{FindsSet, IsFit, KeepsFound, under};
ghost use Rattle.bk_media_plans.specs.RestorePlans.{KeepsRestore, PlansRestore};
ghost use Rattle.bk_media_plans.specs.Restoring.{EndsRecovery, IsKnown, IsRefusedRestore, LeavesRecovery, RestoresWhole};
ghost use Rattle.bk_machine.specs.Checks as checks;
ghost use Rattle.bk_shown.specs.declared.error.TakeError.TheVariants.{Unfit};

use crate::moving::moved;
use crate::restore_plan::RestorePlan;
use crate::restoring::check_set;
use crate::set_view::{SetView, is_fit};
use bk_ids::{Guid, Lsn, Name, Sequence, Text};
use bk_items::{Ending, FileMove, RestoreOptions, RestoredUnits};
use bk_kept::InstanceView;
use bk_machine::{recoveries_undo_what_is_pending, sets_that_stay, statements_do_what_they_may};
use bk_plans::{LATEST, Refusal, is_name, is_path, name_in, outside};
use bk_record::Records;
use bk_shown::{TakeError, pending_in, placed_logs};
use bk_world::{Header, RestoreKind, RestoreRow, Rule};
use std::alloc::{AllocError, Global};

// Numbers from here on, 2^62, are never given.
const LAST_NUMBER: u64 = 1 << 62;

// Whether a restore ends with a recovery.
fn is_recovery(ending: &Option<Ending>) -> bool
    ensures { result ≡ restore.is_recovery ending.now }
{
    match ending {
        None => true,
        Some(ending) => matches!(ending, Ending::Recovery),
    }
}

// Whether a file is moved by its name to a path.
fn is_move(file: &FileMove) -> bool
    ensures { result ≡ restore.is_move file.now }
{
    is_name(file.name.as_str()) && is_path(file.path.as_str())
}

// Whether each file is moved by its name to a path.
fn are_moves(moves: &Sequence<FileMove>) -> bool
    ensures { result ≡ list_all restore.is_move moves.now }
{
    moves.as_slice().iter().all(is_move)
}

// Whether at most FILE, MOVE, RECOVERY and REPLACE are there, beside CHECKSUM and options without effect.
fn is_plain(o: &RestoreOptions) -> bool
    ensures { result ≡ restore.is_plain o.now }
{
    is_recovery(&o.ending) && o.stop.is_none() && !o.partial && are_moves(&o.moves)
}

// Whether a restore lists no units.
fn lists_none(units: &RestoredUnits) -> bool
    ensures { result ≡ restore.lists_none units.now }
{
    match units {
        RestoredUnits::Named { units } => units.as_slice().is_empty(),
        RestoredUnits::Pages { .. } => false,
    }
}

// Whether a restore is built: a whole one, of a name and from a path.
fn is_built(
    database: &Text,
    units: &RestoredUnits,
    disk: &Option<Text>,
    options: &RestoreOptions,
) -> bool
    ensures { result ≡ request.is_built database.now units.now disk.now options.now }
{
    match disk {
        Some(path) => {
            (lists_none(units) && is_plain(options))
                && is_name(database.as_str())
                && is_path(path.as_str())
        }
        None => false,
    }
}

/// The rule by which a `RESTORE DATABASE` on this line that isn't built is refused in every world, `None` where it is built.
pub fn unbuilt_restore(
    line: u32,
    database: &Text,
    units: &RestoredUnits,
    disk: &Option<Text>,
    options: &RestoreOptions,
) -> Option<Rule>
    ensures { MatchOption result
        (request.is_built database.now units.now disk.now options.now ≡ true)
        (λ rule. (w : World) (now : ℕ) → May w (record { item = script.RestoreDatabase database.now units.now disk.now options.now; line = line }) now (refused rule)) }
{
    if is_built(database, units, disk, options) {
        return None;
    }
    Some(Rule::NotBuilt { line })
}

// Whether numbers from here on are left for a recovery that undoes so many writes: one for each, and one to name the branch.
fn are_left(at: Lsn, writes: usize) -> bool
    ensures { result ≡ nat_le (at + (writes + 1)) checks.last_number }
{
    at < LAST_NUMBER && (writes as u64) < LAST_NUMBER - at
}

// The number of the last record of the recovery behind a set's log, which undoes all that is pending and then names its branch. `Unfit` comes only where that is no end of a log with all that is
// pending, or leaves no numbers for it.
fn last_of(alloc: Global, log: &Records, at: Lsn) -> Result<Lsn, TakeError>
    ensures ends { IfOk result (EndsRecovery log.now at) }
    ensures unfit { IsErrOf result Unfit → LeavesRecovery log.now at → ⊥ }
{
    let writes = pending_in(alloc, log)?;
    let count = writes.len();
    if !are_left(at, count) {
        return Err(TakeError::Unfit);
    }
    Ok(at + count as u64)
}

// The name of the database that is restored: as it is known, or as it is asked for.
fn known_name(kept: &InstanceView<'_>, alloc: Global, asked: &Text) -> Result<Name, AllocError>
    requires { checks.is_name asked.now ≡ true }
    ensures { IfOk result (IsKnown kept.now asked.now) }
{
    match kept.named(asked.as_str()) {
        Some(database) => database.name.copy(alloc),
        None => name_in(alloc, asked),
    }
}

// The row of restorehistory of a restore of a database at `now`, by the header of its set.
fn row_by(
    alloc: Global,
    name: &Name,
    options: &RestoreOptions,
    header: &Header,
    now: u64,
) -> Result<RestoreRow, AllocError>
    ensures { IfOk result (λ row. row ≡ request.row_by now name.now options.now header.now) }
{
    Ok(RestoreRow {
        time: now.min(LATEST).max(header.finish),
        database: name.copy(alloc)?,
        set: header.set,
        kind: RestoreKind::Set(header.kind),
        replace: options.replace,
        recovery: is_recovery(&options.ending),
        stop: None,
    })
}

// The plan that brings up what is asked for at `now` by a set under this header, on the next GUID. `Unfit` comes only where the set doesn't keep under it what every set keeps, or leaves no recovery.
fn bringing_up(
    kept: &InstanceView<'_>,
    alloc: Global,
    asked: &Text,
    options: &RestoreOptions,
    set: &SetView<'_>,
    header: Header,
    now: u64,
) -> Result<RestorePlan, TakeError>
    requires { checks.is_name asked.now ≡ true }
    ensures whole { IfOk result (RestoresWhole kept.now asked.now now options.now (under header set.now)) }
    ensures unfit { IsErrOf result Unfit → KeepsFound (under header set.now) → LeavesRecovery set.now.log header.last → ⊥ }
    ensures fits { IfOk result (λ plan. IsFit (under header set.now)) }
{
    if !is_fit(alloc, &header, set)? {
        drop(header);
        return Err(TakeError::Unfit);
    }
    let last = last_of(alloc, set.log, header.last)?;
    let name = known_name(kept, alloc, asked)?;
    let row = row_by(alloc, &name, options, &header, now)?;
    let branch = Guid {
        high: kept.number,
        low: kept.counter,
    };
    Ok(RestorePlan::BringsUp {
        name,
        branch,
        last,
        header,
        row,
    })
}

// The plan of a restore that is refused.
fn refusing_restore(refusal: Refusal) -> Result<RestorePlan, TakeError>
    ensures rule { IfOk result (IsRefusedRestore refusal) }
    ensures fit { IsErrOf result Unfit → ⊥ }
{
    match refusal {
        Refusal::Broken(rule) => Ok(RestorePlan::Refused { rule }),
        Refusal::NoMemory => Err(TakeError::NoMemory),
    }
}

// What a restore that is built comes to outside of a transaction, by the set of its medium that it chooses.
fn restore_set(
    kept: &InstanceView<'_>,
    alloc: Global,
    line: u32,
    database: &Text,
    units: &RestoredUnits,
    disk: &Option<Text>,
    options: &RestoreOptions,
    set: &SetView<'_>,
    now: u64,
) -> Result<RestorePlan, TakeError>
    requires built { request.is_built database.now units.now disk.now options.now ≡ true }
    requires out { (w : World) → Sees w kept.now → checks.outside w ≡ Ok tt }
    ensures plans { IfOk result (PlansRestore kept.now (FindsSet (restore.position_of options.now.file) disk.now (Ok set.now)) options.now (Ok set.now)
        (record { item = script.RestoreDatabase database.now units.now disk.now options.now; line = line }) now) }
    ensures unfit { IsErrOf result Unfit → (w : World) → IsSound w → FindsSet (restore.position_of options.now.file) disk.now (Ok set.now) w → ⊥ }
    ensures keeps { IfOk result (KeepsRestore options.now (Ok set.now)) }
{
    sets_that_stay();
    statements_do_what_they_may();
    recoveries_undo_what_is_pending();
    placed_logs();
    let header = moved(alloc, options.moves.as_slice(), set.header)?;
    match check_set(kept, alloc, database, options, set.header, &header) {
        Ok(()) => bringing_up(kept, alloc, database, options, set, header, now),
        Err(refusal) => {
            drop(header);
            refusing_restore(refusal)
        }
    }
}

/// What `RESTORE DATABASE` on this line comes to, which is built, by the set at its position on its medium, or the rule by which
/// that is refused. `Unfit` comes only where the set doesn't keep what every set keeps, where its log isn't what its path shows, or where it leaves
/// no numbers for what its recovery says: in no sound world that finds the set there.
pub fn plan_restore(
    kept: &InstanceView<'_>,
    alloc: Global,
    line: u32,
    database: &Text,
    units: &RestoredUnits,
    disk: &Option<Text>,
    options: &RestoreOptions,
    set: Result<SetView<'_>, Rule>,
    now: u64,
) -> Result<RestorePlan, TakeError>
    requires built { request.is_built database.now units.now disk.now options.now ≡ true }
    ensures plans { IfOk result (PlansRestore kept.now (FindsSet (restore.position_of options.now.file) disk.now set.entry) options.now set.entry
        (record { item = script.RestoreDatabase database.now units.now disk.now options.now; line = line }) now) }
    ensures keeps { IfOk result (KeepsRestore options.now set.entry) }
    ensures unfit { IsErrOf result Unfit → (w : World) → IsSound w → FindsSet (restore.position_of options.now.file) disk.now set.entry w → ⊥ }
{
    match outside(kept) {
        Ok(()) => match set {
            Ok(set) => restore_set(kept, alloc, line, database, units, disk, options, &set, now),
            Err(rule) => Ok(RestorePlan::Refused { rule }),
        },
        Err(refusal) => {
            drop(set);
            refusing_restore(refusal)
        }
    }
}
