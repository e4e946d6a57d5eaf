// `:wait`: a backup that ran beside the sessions ends.
ghost use Rattle.std.specs.Prelude.{◌≡◌, ℕ, List, ◌++◌, Some, Ok, None, IfErr, IfOk, IsErrOf, OnOk, OnErr};
ghost use Rattle.bk_archive.specs.Media.{KeepsMedia};
ghost use Rattle.bk_device.specs.Calls.{ChangesNothing};
ghost use Rattle.bk_device.specs.Counts.{HasCause};
ghost use Rattle.bk_device.specs.Effects.{Effect};
ghost use Rattle.bk_device.specs.Troubles.{IsPassing};
ghost use Rattle.bk_engine.specs.Jobs.{CutsEnding, IsFinishing};
ghost use Rattle.bk_engine.specs.Stands.{IsOurs, IsReady, NamesSet, StandsFor, own_in};
ghost use Rattle.bk_engine.specs.Touched.{IsAt, IsPath, NoMedium, TouchesOnly};
ghost use Rattle.bk_executing.specs.Executing.{Executed, Failed};
ghost use Rattle.bk_executing.specs.Waiting.{Ended, MayEnd, basing_row, sealing_of, stamp_of};
ghost use Rattle.bk_header.specs.Conditions.{KeepsConditions};
ghost use Rattle.bk_items.specs.declared.item.ScriptItem.TheVariants as script;
ghost use Rattle.bk_machine.specs.Acts.{Act, done_all};
ghost use Rattle.bk_machine.specs.World.{World};
ghost use Rattle.bk_machine.specs.statements.Backup.{ShowsRoom};
ghost use Rattle.bk_media_plans.specs.Waits.{AreFinishing, HasSets, KeepsFinish};
ghost use Rattle.bk_restarts.specs.Crashes.{CutIn};
ghost use Rattle.bk_stores.specs.Standing.{AreStanding};
ghost use Rattle.bk_volume.specs.Staging.{IsStaged};
ghost use Rattle.bk_world.specs.Medium.{medium_at};

use crate::following::follow;
use crate::planning::{job_path, plan_kept_wait};
use bk_archive::room_at;
use bk_carried::job_headers_are_of_databases;
use bk_device::{Device, Trouble};
use bk_engine::{Engine, Finishing};
use bk_ids::Name;
use bk_kept::copy_transactions;
use bk_machine::{
    HistoryRow, acts_keep_worlds_sound, statements_do_what_they_may, what_is_said_comes_last,
};
use bk_media_plans::{Finish, WaitPlan};
use bk_plans::Plan;
use bk_sealing::seal_finishing;
use bk_world::{BackupRow, Header, Reply};
use std::alloc::Global;

// How many sets are on the medium at a path, which has room for one more. Where it hasn't, or there is none, the call ends as if memory were wanting.
fn sets_at<D: Device>(alloc: Global, dev: &mut D, path: &str) -> Result<u64, Trouble>
    ensures sets { D.tells → (w : World) → KeepsMedia w None (D.disk dev.old).files → IfOk result (λ sets. ShowsRoom (medium_at w.media path.now) (Ok (Some sets))) }
    ensures effect { D.tells → ChangesNothing (D.disk dev.old) (D.disk dev.new) }
    ensures trouble { IfErr result IsPassing }
    ensures cause { HasCause D.disk_faults D.tell_faults dev.old dev.new (IsErrOf result Trouble.Fault) }
{
    match room_at(alloc, dev, path)? {
        Ok(Some(sets)) => Ok(sets),
        _ => Err(Trouble::NoMemory),
    }
}

// How many sets are on the medium of the current database's backup, 0 where none runs.
fn count_sets<D: Device>(engine: &Engine, dev: &mut D) -> Result<u64, Trouble>
    requires ready { IsReady engine.now }
    ensures sets { D.tells → (w : World) → StandsFor (D.disk dev.old) engine.now w → IfOk result (HasSets w) }
    ensures effect { D.tells → ChangesNothing (D.disk dev.old) (D.disk dev.new) }
    ensures trouble { IfErr result IsPassing }
    ensures cause { HasCause D.disk_faults D.tell_faults dev.old dev.new (IsErrOf result Trouble.Fault) }
{
    match job_path(engine)? {
        Some(path) => sets_at(engine.alloc(), dev, path.as_str()),
        None => Ok(0),
    }
}

// The backup runs no more, and says its stamp. Gives its set, of which the rest isn't copied yet. A crash leaves what it may leave inside of these acts.
fn say_stamp<D: Device>(
    engine: &mut Engine,
    dev: &mut D,
    finish: &Finish,
) -> Result<Finishing, Trouble>
    requires ready { IsReady engine.old }
    requires none { (own_in engine.old).staging ≡ None }
    requires keeps { KeepsFinish finish.now }
    requires standing { D.tells → AreStanding (D.disk dev.old) engine.old.hosting.stores }
    ensures ready { OnOk result (IsReady engine.new) }
    ensures own { IfOk result (λ f. NamesSet (Some f.set) engine.old engine.new) }
    ensures set { IfOk result (λ f. IsFinishing engine.new f) }
    ensures staged { D.tells → IfOk result (λ f. IsStaged (D.disk dev.new) f.staged) }
    ensures standing { D.tells → OnOk result (AreStanding (D.disk dev.new) engine.new.hosting.stores) }
    ensures ended { D.tells → (w : World) (may : MayEnd w finish.now) → StandsFor (D.disk dev.old) engine.old w → IfOk result (λ f. Ended w finish.now may (D.disk dev.new) engine.new f) }
    ensures crash { D.tells → (w : World) → StandsFor (D.disk dev.old) engine.old w → MayEnd w finish.now → Effect IsOurs (CutsEnding w finish.now.name (stamp_of finish.now) finish.now.transactions) (D.disk dev.old) (D.disk dev.new) }
    ensures touches { D.tells → TouchesOnly NoMedium (D.disk dev.old) (D.disk dev.new) }
    ensures trouble { IfErr result IsPassing }
    ensures cause { HasCause D.disk_faults D.tell_faults dev.old dev.new (IsErrOf result Trouble.Fault) }
{
    engine.at_rest(dev);
    let transactions = copy_transactions(engine.alloc(), finish.transactions.as_slice())?;
    let finishing = engine.finish_set(
        dev,
        finish.name.as_str(),
        finish.records.as_slice(),
        transactions,
    )?;
    Ok(finishing)
}

// The backup runs no more, says its stamp, and its set is sealed. A crash leaves what it may leave inside of these acts.
fn seal_finished<D: Device>(
    engine: &mut Engine,
    dev: &mut D,
    finish: &Finish,
) -> Result<(), Trouble>
    requires ready { IsReady engine.old }
    requires none { (own_in engine.old).staging ≡ None }
    requires keeps { KeepsFinish finish.now }
    requires standing { D.tells → AreStanding (D.disk dev.old) engine.old.hosting.stores }
    ensures ready { OnOk result (IsReady engine.new) }
    ensures own { OnOk result (NamesSet None engine.old engine.new) }
    ensures standing { D.tells → OnOk result (AreStanding (D.disk dev.new) engine.new.hosting.stores) }
    ensures does { D.tells → (w : World) → StandsFor (D.disk dev.old) engine.old w → MayEnd w finish.now → OnOk result (StandsFor (D.disk dev.new) engine.new (done_all w (sealing_of finish.now))) }
    ensures crash { D.tells → (w : World) → StandsFor (D.disk dev.old) engine.old w → MayEnd w finish.now → Effect IsOurs (CutIn w (sealing_of finish.now)) (D.disk dev.old) (D.disk dev.new) }
    ensures touches { D.tells → TouchesOnly (IsAt finish.now.path) (D.disk dev.old) (D.disk dev.new) }
    ensures trouble { IfErr result IsPassing }
    ensures cause { HasCause D.disk_faults D.tell_faults dev.old dev.new (IsErrOf result Trouble.Fault) }
{
    let finishing = say_stamp(engine, dev, finish)?;
    seal_finishing(engine, dev, &finish.path, &finish.header, finishing)
}

// The row of the set comes to backupset, and the database of this name is based on the set. A crash leaves what it may leave inside of these acts.
fn base_finished<D: Device>(
    engine: &mut Engine,
    dev: &mut D,
    name: &Name,
    row: BackupRow,
    base: &Header,
) -> Result<(), Trouble>
    requires ready { IsReady engine.old }
    requires none { (own_in engine.old).staging ≡ None }
    requires keeps { KeepsConditions row.header }
    requires standing { D.tells → AreStanding (D.disk dev.old) engine.old.hosting.stores }
    ensures ready { OnOk result (IsReady engine.new) }
    ensures own { OnOk result (NamesSet None engine.old engine.new) }
    ensures standing { D.tells → OnOk result (AreStanding (D.disk dev.new) engine.new.hosting.stores) }
    ensures does { D.tells → (w : World) → StandsFor (D.disk dev.old) engine.old w → OnOk result (StandsFor (D.disk dev.new) engine.new (done_all w (basing_row name.now row base.now))) }
    ensures crash { D.tells → (w : World) → StandsFor (D.disk dev.old) engine.old w → Effect IsOurs (CutIn w (basing_row name.now row base.now)) (D.disk dev.old) (D.disk dev.new) }
    ensures touches { D.tells → TouchesOnly NoMedium (D.disk dev.old) (D.disk dev.new) }
    ensures trouble { IfErr result IsPassing }
    ensures cause { HasCause D.disk_faults D.tell_faults dev.old dev.new (IsErrOf result Trouble.Fault) }
{
    let row = HistoryRow::Backup(row);
    engine.note(dev, &row)?;
    engine.base(dev, name.as_str(), base)
}

// The backup ends, and its reply is given. A crash leaves what it may leave inside of its acts.
fn end_backup<D: Device>(engine: &mut Engine, dev: &mut D, finish: Finish) -> Result<Reply, Trouble>
    requires ready { IsReady engine.old }
    requires none { (own_in engine.old).staging ≡ None }
    requires keeps { KeepsFinish finish }
    requires standing { D.tells → AreStanding (D.disk dev.old) engine.old.hosting.stores }
    ensures ready { OnOk result (IsReady engine.new) }
    ensures own { OnOk result (NamesSet None engine.old engine.new) }
    ensures standing { D.tells → OnOk result (AreStanding (D.disk dev.new) engine.new.hosting.stores) }
    ensures replies { IfOk result (λ reply. reply ≡ finish.reply) }
    ensures does { D.tells → (w : World) (now sets : ℕ) (acts : List Act) → StandsFor (D.disk dev.old) engine.old w → AreFinishing w now sets finish acts → OnOk result (StandsFor (D.disk dev.new) engine.new (done_all w acts)) }
    ensures crash { D.tells → (w : World) (now sets : ℕ) (acts : List Act) → StandsFor (D.disk dev.old) engine.old w → AreFinishing w now sets finish acts → Effect IsOurs (CutIn w acts) (D.disk dev.old) (D.disk dev.new) }
    ensures touches { D.tells → TouchesOnly (IsAt finish.path) (D.disk dev.old) (D.disk dev.new) }
    ensures sound { IsErrOf result Trouble.Broken → ⊥ }
    ensures cause { HasCause D.disk_faults D.tell_faults dev.old dev.new (IsErrOf result Trouble.Fault) }
{
    acts_keep_worlds_sound();
    job_headers_are_of_databases();
    what_is_said_comes_last();
    seal_finished(engine, dev, &finish)?;
    let row = finish.row;
    base_finished(engine, dev, &finish.name, row, &finish.base)?;
    Ok(finish.reply)
}

/// `:wait` on any line.
pub(crate) fn wait<D: Device>(engine: &mut Engine, dev: &mut D, now: u64) -> Result<Reply, Trouble>
    requires ready { IsReady engine.old }
    requires none { (own_in engine.old).staging ≡ None }
    requires standing { D.tells → AreStanding (D.disk dev.old) engine.old.hosting.stores }
    ensures ready { OnOk result (IsReady engine.new) }
    ensures own { OnOk result (NamesSet None engine.old engine.new) }
    ensures standing { D.tells → OnOk result (AreStanding (D.disk dev.new) engine.new.hosting.stores) }
    ensures executed { (line : ℕ) → IfOk result (λ reply. Executed D.tells engine.old (D.disk dev.old) (record { item = script.Wait; line = line }) now reply engine.new (D.disk dev.new)) }
    ensures failed { (line : ℕ) → OnErr result (Failed D.tells engine.old (D.disk dev.old) (record { item = script.Wait; line = line }) now (D.disk dev.new)) }
    ensures touches { D.tells → TouchesOnly IsPath (D.disk dev.old) (D.disk dev.new) }
    ensures sound { IsErrOf result Trouble.Broken → ⊥ }
    ensures cause { HasCause D.disk_faults D.tell_faults dev.old dev.new (IsErrOf result Trouble.Fault) }
{
    statements_do_what_they_may();
    let sets = count_sets(engine, dev)?;
    let plan = plan_kept_wait(engine, sets, now)?;
    match plan {
        WaitPlan::Refused { rule } => follow(engine, dev, Plan::Refused { rule }),
        WaitPlan::Finishes { finish } => end_backup(engine, dev, finish),
    }
}
