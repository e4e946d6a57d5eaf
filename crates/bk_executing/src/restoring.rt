// RESTORE DATABASE.
ghost use Rattle.std.specs.Prelude.{◌≡◌, ℕ, List, [], ◌∷◌, ◌++◌, None, Ok, Err, true, IfOk, OnOk, OnErr, IsErrOf};
ghost use Rattle.bk_archive.specs.Opened.{IsOpened};
ghost use Rattle.bk_archive.specs.Media.{IsMediumFile};
ghost use Rattle.bk_body.specs.Body.{Body};
ghost use Rattle.bk_device.specs.Calls.{ChangesNothing, contents};
ghost use Rattle.bk_device.specs.Counts.{HasCause};
ghost use Rattle.bk_device.specs.Effects.{Effect};
ghost use Rattle.bk_engine.specs.Bringing.{IsSetOn, MovesOnly};
ghost use Rattle.bk_engine.specs.Stands.{IsOurs, IsReady, NamesSet, StandsFor, own_in};
ghost use Rattle.bk_engine.specs.Touched.{IsPath, NoMedium, TouchesOnly};
ghost use Rattle.bk_executing.specs.Executing.{Executed, Failed};
ghost use Rattle.bk_executing.specs.Restoring.{found_under};
ghost use Rattle.bk_header.specs.Conditions.{IsHeader};
ghost use Rattle.bk_items.specs.declared.item.ScriptItem.TheVariants as script;
ghost use Rattle.bk_machine.specs.Acts.{Act, done_all, noted};
ghost use Rattle.bk_machine.specs.World.{World};
ghost use Rattle.bk_machine.specs.declared.history_row.HistoryRow.TheVariants as history;
ghost use Rattle.bk_machine.specs.statements.Restore as restore;
ghost use Rattle.bk_media_plans.specs.RestorePlans.{AreOfRestore, KeepsSet};
ghost use Rattle.bk_media_plans.specs.Restoring as request;
ghost use Rattle.bk_plans.specs.Planning.{KeepsRow};
ghost use Rattle.bk_restarts.specs.Crashes.{CutIn};
ghost use Rattle.bk_stores.specs.Standing.{AreStanding};
ghost use Rattle.bk_volume.specs.Stored.{IsOf};
ghost use Rattle.bk_world.specs.Medium.{medium_at};

use crate::following::follow;
use crate::parking::known_set;
use crate::planning::plan_kept_restore;
use bk_archive::{OpenedSet, open_set};
use bk_device::{Device, Trouble};
use bk_engine::Engine;
use bk_ids::{Guid, Lsn, Name, Text};
use bk_items::{RestoreOptions, RestoredUnits};
use bk_machine::{HistoryRow, statements_do_what_they_may};
use bk_media_plans::{RestorePlan, SetView, position_of, unbuilt_restore};
use bk_plans::Plan;
use bk_record::{Records, log_law};
use bk_side::name_law;
use bk_volume::ReadError;
use bk_world::{Header, Reply, RestoreRow, Rule};
use std::thread::Threads;

// The path of a medium, empty where none is named.
fn path_of(disk: &Option<Text>) -> &str
    ensures { result.now ≡ restore.disk_path disk.now }
{
    match disk {
        Some(path) => path.as_str(),
        None => "",
    }
}

// The log of a set that was opened. Changes nothing. `Broken` comes only where it isn't that of a set.
fn read_log<D: Device>(engine: &Engine, dev: &mut D, opened: &OpenedSet) -> Result<Records, Trouble>
    ensures log { D.tells → (body : Body) → IsOf (contents ((D.disk dev.old).files opened.now.medium.name)) body opened.now.set → IfOk result (λ log. log ≡ body.log) }
    ensures broken { D.tells → IsErrOf result Trouble.Broken → (body : Body) → IsOf (contents ((D.disk dev.old).files opened.now.medium.name)) body opened.now.set → ⊥ }
    ensures effect { D.tells → ChangesNothing (D.disk dev.old) (D.disk dev.new) }
    ensures cause { HasCause D.disk_faults D.tell_faults dev.old dev.new (IsErrOf result Trouble.Fault) }
{
    log_law();
    let bytes = match opened.medium.log_of(engine.alloc(), dev, &opened.set) {
        Ok(bytes) => bytes,
        Err(ReadError::Fault) => return Err(Trouble::Fault),
        Err(ReadError::NoMemory) => return Err(Trouble::NoMemory),
    };
    match Records::new(bytes) {
        Ok(log) => Ok(log),
        Err(_) => Err(Trouble::Broken),
    }
}

// The set that was opened takes the place of the database of this name, under this header, and brings it up on this branch. A crash leaves what it may leave inside of the acts of the restore.
fn bring_up<R: Threads + Sync, D: Device>(
    engine: &mut Engine,
    rt: &R,
    dev: &mut D,
    opened: &OpenedSet,
    name: &Name,
    header: &Header,
    branch: Guid,
    last: Lsn,
) -> Result<(), Trouble>
    requires ready { IsReady engine.old }
    requires none { (own_in engine.old).staging ≡ None }
    requires medium { IsMediumFile opened.now.medium.name }
    requires moves { MovesOnly opened.now.set.header header.now }
    requires is_header { IsHeader header.now }
    requires keeps { KeepsSet header.now opened.now.set.tables }
    requires standing { D.tells → AreStanding (D.disk dev.old) engine.old.hosting.stores }
    ensures ready { OnOk result (IsReady engine.new) }
    ensures own { OnOk result (NamesSet None engine.old engine.new) }
    ensures standing { D.tells → OnOk result (AreStanding (D.disk dev.new) engine.new.hosting.stores) }
    ensures does { D.tells → (w : World) (log : List ℕ) (acts : List Act) → StandsFor (D.disk dev.old) engine.old w → IsSetOn (D.disk dev.old).files opened.now.medium.name opened.now.set
        → AreOfRestore w (found_under header.now opened.now.set log) name.now branch last acts → OnOk result (StandsFor (D.disk dev.new) engine.new (done_all w acts)) }
    ensures crash { D.tells → (w : World) (log : List ℕ) (acts : List Act) → StandsFor (D.disk dev.old) engine.old w → IsSetOn (D.disk dev.old).files opened.now.medium.name opened.now.set
        → AreOfRestore w (found_under header.now opened.now.set log) name.now branch last acts → Effect IsOurs (CutIn w acts) (D.disk dev.old) (D.disk dev.new) }
    ensures touches { D.tells → TouchesOnly NoMedium (D.disk dev.old) (D.disk dev.new) }
    ensures broken { D.tells → IsErrOf result Trouble.Broken → (w : World) (log : List ℕ) (acts : List Act) → StandsFor (D.disk dev.old) engine.old w → IsSetOn (D.disk dev.old).files opened.now.medium.name opened.now.set
        → AreOfRestore w (found_under header.now opened.now.set log) name.now branch last acts → ⊥ }
    ensures cause { HasCause D.disk_faults D.tell_faults dev.old dev.new (IsErrOf result Trouble.Fault) }
{
    name_law();
    engine.at_rest(dev);
    let known = known_set(engine.alloc(), name, header, opened.set.tables())?;
    engine.park(dev, known, header)?;
    engine.bring_up(
        rt,
        dev,
        name.as_str(),
        &opened.medium,
        &opened.set,
        header,
        branch,
        last,
    )
}

// So it is brought up, and behind that this row comes to restorehistory. A crash leaves what it may leave inside of all these acts.
fn bring_up_noted<R: Threads + Sync, D: Device>(
    engine: &mut Engine,
    rt: &R,
    dev: &mut D,
    opened: &OpenedSet,
    name: &Name,
    header: &Header,
    branch: Guid,
    last: Lsn,
    row: RestoreRow,
) -> Result<(), Trouble>
    requires ready { IsReady engine.old }
    requires none { (own_in engine.old).staging ≡ None }
    requires medium { IsMediumFile opened.now.medium.name }
    requires moves { MovesOnly opened.now.set.header header.now }
    requires is_header { IsHeader header.now }
    requires keeps { KeepsSet header.now opened.now.set.tables }
    requires keeps_row { KeepsRow (history.Restore row) }
    requires standing { D.tells → AreStanding (D.disk dev.old) engine.old.hosting.stores }
    ensures ready { OnOk result (IsReady engine.new) }
    ensures own { OnOk result (NamesSet None engine.old engine.new) }
    ensures standing { D.tells → OnOk result (AreStanding (D.disk dev.new) engine.new.hosting.stores) }
    ensures does { D.tells → (w : World) (log : List ℕ) (acts : List Act) → StandsFor (D.disk dev.old) engine.old w → IsSetOn (D.disk dev.old).files opened.now.medium.name opened.now.set
        → AreOfRestore w (found_under header.now opened.now.set log) name.now branch last acts → OnOk result (StandsFor (D.disk dev.new) engine.new (done_all w (acts ++ noted (history.Restore row) ∷ []))) }
    ensures crash { D.tells → (w : World) (log : List ℕ) (acts : List Act) → StandsFor (D.disk dev.old) engine.old w → IsSetOn (D.disk dev.old).files opened.now.medium.name opened.now.set
        → AreOfRestore w (found_under header.now opened.now.set log) name.now branch last acts → Effect IsOurs (CutIn w (acts ++ noted (history.Restore row) ∷ [])) (D.disk dev.old) (D.disk dev.new) }
    ensures touches { D.tells → TouchesOnly NoMedium (D.disk dev.old) (D.disk dev.new) }
    ensures broken { D.tells → IsErrOf result Trouble.Broken → (w : World) (log : List ℕ) (acts : List Act) → StandsFor (D.disk dev.old) engine.old w → IsSetOn (D.disk dev.old).files opened.now.medium.name opened.now.set
        → AreOfRestore w (found_under header.now opened.now.set log) name.now branch last acts → ⊥ }
    ensures cause { HasCause D.disk_faults D.tell_faults dev.old dev.new (IsErrOf result Trouble.Fault) }
{
    bring_up(engine, rt, dev, opened, name, header, branch, last)?;
    let row = HistoryRow::Restore(row);
    engine.note(dev, &row)
}

// Restores by the set that was opened on the medium.
fn restore_set<R: Threads + Sync, D: Device>(
    engine: &mut Engine,
    rt: &R,
    dev: &mut D,
    line: u32,
    database: &Text,
    units: &RestoredUnits,
    disk: &Option<Text>,
    options: &RestoreOptions,
    opened: &OpenedSet,
    now: u64,
) -> Result<Reply, Trouble>
    requires ready { IsReady engine.old }
    requires none { (own_in engine.old).staging ≡ None }
    requires built { request.is_built database.now units.now disk.now options.now ≡ true }
    requires medium { IsMediumFile opened.now.medium.name }
    requires opened { D.tells → (w : World) → StandsFor (D.disk dev.old) engine.old w → IsOpened w (restore.disk_path disk.now) (restore.position_of options.now.file) ((D.disk dev.old).files opened.now.medium.name) opened.now.set }
    requires standing { D.tells → AreStanding (D.disk dev.old) engine.old.hosting.stores }
    ensures ready { OnOk result (IsReady engine.new) }
    ensures own { OnOk result (NamesSet None engine.old engine.new) }
    ensures standing { D.tells → OnOk result (AreStanding (D.disk dev.new) engine.new.hosting.stores) }
    ensures executed { IfOk result (λ reply. Executed D.tells engine.old (D.disk dev.old) (record { item = script.RestoreDatabase database.now units.now disk.now options.now; line = line }) now reply engine.new (D.disk dev.new)) }
    ensures failed { OnErr result (Failed D.tells engine.old (D.disk dev.old) (record { item = script.RestoreDatabase database.now units.now disk.now options.now; line = line }) now (D.disk dev.new)) }
    ensures touches { D.tells → TouchesOnly NoMedium (D.disk dev.old) (D.disk dev.new) }
    ensures broken { D.tells → IsErrOf result Trouble.Broken → (w : World) → StandsFor (D.disk dev.old) engine.old w → ⊥ }
    ensures cause { HasCause D.disk_faults D.tell_faults dev.old dev.new (IsErrOf result Trouble.Fault) }
{
    statements_do_what_they_may();
    let log = read_log(engine, dev, opened)?;
    let view = SetView {
        header: opened.set.header(),
        tables: opened.set.tables(),
        log: &log,
    };
    let plan = plan_kept_restore(engine, line, database, units, disk, options, Ok(view), now)?;
    match plan {
        RestorePlan::Refused { rule } => follow(engine, dev, Plan::Refused { rule }),
        RestorePlan::BringsUp {
            name,
            branch,
            last,
            header,
            row,
        } => {
            bring_up_noted(engine, rt, dev, opened, &name, &header, branch, last, row)?;
            Ok(Reply::Recovered { at: header.last })
        }
    }
}

// Refuses by the rule by which the set of the medium is refused that is chosen, or by one that comes before it.
fn refuse<D: Device>(
    engine: &mut Engine,
    dev: &mut D,
    line: u32,
    database: &Text,
    units: &RestoredUnits,
    disk: &Option<Text>,
    options: &RestoreOptions,
    rule: Rule,
    now: u64,
) -> Result<Reply, Trouble>
    requires ready { IsReady engine.old }
    requires none { (own_in engine.old).staging ≡ None }
    requires built { request.is_built database.now units.now disk.now options.now ≡ true }
    requires refused { D.tells → (w : World) → StandsFor (D.disk dev.old) engine.old w → restore.set_at (restore.position_of options.now.file) (medium_at w.media (restore.disk_path disk.now)) ≡ Err rule }
    requires standing { D.tells → AreStanding (D.disk dev.old) engine.old.hosting.stores }
    ensures ready { OnOk result (IsReady engine.new) }
    ensures own { OnOk result (NamesSet None engine.old engine.new) }
    ensures standing { D.tells → OnOk result (AreStanding (D.disk dev.new) engine.new.hosting.stores) }
    ensures executed { IfOk result (λ reply. Executed D.tells engine.old (D.disk dev.old) (record { item = script.RestoreDatabase database.now units.now disk.now options.now; line = line }) now reply engine.new (D.disk dev.new)) }
    ensures failed { OnErr result (Failed D.tells engine.old (D.disk dev.old) (record { item = script.RestoreDatabase database.now units.now disk.now options.now; line = line }) now (D.disk dev.new)) }
    ensures touches { D.tells → TouchesOnly NoMedium (D.disk dev.old) (D.disk dev.new) }
    ensures broken { D.tells → IsErrOf result Trouble.Broken → (w : World) → StandsFor (D.disk dev.old) engine.old w → ⊥ }
    ensures cause { HasCause D.disk_faults D.tell_faults dev.old dev.new (IsErrOf result Trouble.Fault) }
{
    statements_do_what_they_may();
    let plan = plan_kept_restore(engine, line, database, units, disk, options, Err(rule), now)?;
    match plan {
        RestorePlan::Refused { rule } => follow(engine, dev, Plan::Refused { rule }),
        RestorePlan::BringsUp { .. } => Err(Trouble::NoMemory),
    }
}

/// `RESTORE DATABASE` on this line.
pub(crate) fn restore<R: Threads + Sync, D: Device>(
    engine: &mut Engine,
    rt: &R,
    dev: &mut D,
    line: u32,
    database: &Text,
    units: &RestoredUnits,
    disk: &Option<Text>,
    options: &RestoreOptions,
    now: u64,
) -> Result<Reply, Trouble>
    requires ready { IsReady engine.old }
    requires none { (own_in engine.old).staging ≡ None }
    requires standing { D.tells → AreStanding (D.disk dev.old) engine.old.hosting.stores }
    ensures ready { OnOk result (IsReady engine.new) }
    ensures own { OnOk result (NamesSet None engine.old engine.new) }
    ensures standing { D.tells → OnOk result (AreStanding (D.disk dev.new) engine.new.hosting.stores) }
    ensures executed { IfOk result (λ reply. Executed D.tells engine.old (D.disk dev.old) (record { item = script.RestoreDatabase database.now units.now disk.now options.now; line = line }) now reply engine.new (D.disk dev.new)) }
    ensures failed { OnErr result (Failed D.tells engine.old (D.disk dev.old) (record { item = script.RestoreDatabase database.now units.now disk.now options.now; line = line }) now (D.disk dev.new)) }
    ensures touches { D.tells → TouchesOnly IsPath (D.disk dev.old) (D.disk dev.new) }
    ensures broken { D.tells → IsErrOf result Trouble.Broken → (w : World) → StandsFor (D.disk dev.old) engine.old w → ⊥ }
    ensures cause { HasCause D.disk_faults D.tell_faults dev.old dev.new (IsErrOf result Trouble.Fault) }
{
    statements_do_what_they_may();
    if let Some(rule) = unbuilt_restore(line, database, units, disk, options) {
        return follow(engine, dev, Plan::Refused { rule });
    }
    match open_set(
        engine.alloc(),
        dev,
        path_of(disk),
        position_of(options.file),
    )? {
        Ok(opened) => restore_set(
            engine, rt, dev, line, database, units, disk, options, &opened, now,
        ),
        Err(rule) => refuse(engine, dev, line, database, units, disk, options, rule, now),
    }
}
