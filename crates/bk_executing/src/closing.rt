// How a run ends.
ghost use Rattle.std.specs.Prelude.{◌≡◌, ℕ, List, [], ◌∷◌, None, map, IfOk, IfSome, IfErr, OnOk, IsErrOf};
ghost use Rattle.bk_acts.specs.Conditions.{KeepsAct};
ghost use Rattle.bk_device.specs.Calls.{ChangesNothing};
ghost use Rattle.bk_device.specs.Counts.{HasCause};
ghost use Rattle.bk_device.specs.Effects.{Effect};
ghost use Rattle.bk_device.specs.Troubles.{IsPassing};
ghost use Rattle.bk_engine.specs.Loading.{Leaves};
ghost use Rattle.bk_engine.specs.Stands.{IsOurs, IsReady, NamesSet, StandsFor, own_in};
ghost use Rattle.bk_engine.specs.Touched.{NoMedium, TouchesOnly};
ghost use Rattle.bk_engine.specs.Viewing.{Remembers};
ghost use Rattle.bk_executing.specs.Closing.{CutsClosing, CutsEnd, DropsJobs, RollsAll, RollsFirst, RollsSeen};
ghost use Rattle.bk_kept.specs.Keeps.{database_of};
ghost use Rattle.bk_machine.specs.Acts.{Act, done, done_all};
ghost use Rattle.bk_machine.specs.Closing as closing;
ghost use Rattle.bk_machine.specs.Closing.{AreClosing, IsFirst};
ghost use Rattle.bk_machine.specs.Sound.{AreIdle};
ghost use Rattle.bk_machine.specs.World.{Held, World, ended};
ghost use Rattle.bk_machine.specs.statements.Rollback.{rolls_back};
ghost use Rattle.bk_restarts.specs.Crashes.{CutIn};
ghost use Rattle.bk_stores.specs.Standing.{AreStanding};

use crate::doing::do_act;
use bk_acts::StoredAct;
use bk_asked::first_held;
use bk_device::{Device, Trouble};
use bk_engine::Engine;
use bk_kept::{InstanceView, leave_numbers};
use bk_machine::{runs_are_closed, runs_are_closed_one_by_one};
use bk_planning::rollback_act;
use std::alloc::{AllocError, Global};

// How many transactions are open that are seen.
fn count_seen(seen: &InstanceView<'_>) -> u128
    ensures { result ≡ closing.count_open (map database_of seen.now.databases.items) }
{
    let mut count: u128 = 0;
    for database in &seen.databases {
        count += database.transactions.as_slice().len() as u128;
    }
    count
}

// How many transactions are open.
fn count_open(engine: &Engine) -> Result<u128, AllocError>
    requires ready { IsReady engine.now }
    ensures { IfOk result (λ count. (w : World) → Remembers engine.now w → count ≡ closing.count_open w.databases) }
{
    let ends = engine.ends(engine.alloc())?;
    let seen = engine.view(engine.alloc(), &ends)?;
    let count = count_seen(&seen);
    Ok(count)
}

// The act that rolls the first open transaction back that is seen, if one is open. Where a database leaves no numbers the call ends as if memory were wanting.
fn rolling_back_seen(
    alloc: Global,
    seen: &InstanceView<'_>,
) -> Result<Option<StoredAct>, AllocError>
    ensures act { IfOk result (RollsSeen seen.now) }
    ensures keeps { IfOk result (λ act. IfSome act KeepsAct) }
{
    runs_are_closed_one_by_one();
    if !leave_numbers(seen) {
        return Err(AllocError);
    }
    match first_held(seen) {
        Some(held) => Ok(Some(rollback_act(alloc, held.database, held.transaction)?)),
        None => Ok(None),
    }
}

// The act that rolls the first open transaction back, if one is open.
fn rolling_back(engine: &Engine) -> Result<Option<StoredAct>, AllocError>
    requires ready { IsReady engine.now }
    ensures act { IfOk result (RollsFirst engine.now) }
    ensures keeps { IfOk result (λ act. IfSome act KeepsAct) }
{
    let ends = engine.ends(engine.alloc())?;
    let seen = engine.view(engine.alloc(), &ends)?;
    rolling_back_seen(engine.alloc(), &seen)
}

// No backup runs any more. A crash leaves the world before it.
fn drop_jobs<D: Device>(engine: &mut Engine, dev: &mut D) -> Result<(), Trouble>
    requires ready { IsReady engine.old }
    requires none { (own_in engine.old).staging ≡ None }
    requires standing { D.tells → AreStanding (D.disk dev.old) engine.old.hosting.stores }
    ensures ready { OnOk result (IsReady engine.new) }
    ensures own { OnOk result (NamesSet None engine.old engine.new) }
    ensures standing { D.tells → OnOk result (AreStanding (D.disk dev.new) engine.new.hosting.stores) }
    ensures drops { D.tells → (w : World) → StandsFor (D.disk dev.old) engine.old w → OnOk result (DropsJobs w (D.disk dev.old) engine.new (D.disk dev.new)) }
    ensures crash { D.tells → (w : World) → StandsFor (D.disk dev.old) engine.old w → CutsClosing w (D.disk dev.old) (D.disk dev.new) }
    ensures still { D.tells → (w : World) → StandsFor (D.disk dev.old) engine.old w → AreIdle w → (dev.new ≡ dev.old) × OnOk result (engine.new ≡ engine.old) }
    ensures touches { D.tells → TouchesOnly NoMedium (D.disk dev.old) (D.disk dev.new) }
    ensures trouble { IfErr result IsPassing }
    ensures cause { HasCause D.disk_faults D.tell_faults dev.old dev.new (IsErrOf result Trouble.Fault) }
{
    runs_are_closed_one_by_one();
    engine.drop_sets(dev)?;
    Ok(())
}

// Rolls the first open transaction back, if one is open.
fn roll_back<D: Device>(engine: &mut Engine, dev: &mut D) -> Result<(), Trouble>
    requires ready { IsReady engine.old }
    requires standing { D.tells → AreStanding (D.disk dev.old) engine.old.hosting.stores }
    ensures ready { OnOk result (IsReady engine.new) }
    ensures own { OnOk result (NamesSet (own_in engine.old).staging engine.old engine.new) }
    ensures standing { D.tells → OnOk result (AreStanding (D.disk dev.new) engine.new.hosting.stores) }
    ensures rolls { D.tells → (w : World) (held : Held) → StandsFor (D.disk dev.old) engine.old w → IsFirst w held → OnOk result (StandsFor (D.disk dev.new) engine.new (done w (rolls_back w held))) }
    ensures crash { D.tells → (w : World) (held : Held) → StandsFor (D.disk dev.old) engine.old w → IsFirst w held → Effect IsOurs (CutIn w (rolls_back w held ∷ [])) (D.disk dev.old) (D.disk dev.new) }
    ensures touches { D.tells → TouchesOnly NoMedium (D.disk dev.old) (D.disk dev.new) }
    ensures trouble { IfErr result IsPassing }
    ensures cause { HasCause D.disk_faults D.tell_faults dev.old dev.new (IsErrOf result Trouble.Fault) }
{
    runs_are_closed_one_by_one();
    engine.at_rest(dev);
    let Some(act) = rolling_back(engine)? else {
        return Ok(());
    };
    let done = do_act(engine, dev, &act);
    drop(act);
    done
}

// Rolls all open transactions back, by rising session.
fn roll_all_back<D: Device>(engine: &mut Engine, dev: &mut D) -> Result<(), Trouble>
    requires ready { IsReady engine.old }
    requires standing { D.tells → AreStanding (D.disk dev.old) engine.old.hosting.stores }
    ensures ready { OnOk result (IsReady engine.new) }
    ensures own { OnOk result (NamesSet (own_in engine.old).staging engine.old engine.new) }
    ensures standing { D.tells → OnOk result (AreStanding (D.disk dev.new) engine.new.hosting.stores) }
    ensures rolls { D.tells → (w : World) → StandsFor (D.disk dev.old) engine.old w → OnOk result (RollsAll w (D.disk dev.old) engine.new (D.disk dev.new)) }
    ensures crash { D.tells → (w : World) → StandsFor (D.disk dev.old) engine.old w → CutsClosing w (D.disk dev.old) (D.disk dev.new) }
    ensures still { D.tells → (w : World) → StandsFor (D.disk dev.old) engine.old w → AreIdle w → (dev.new ≡ dev.old) × OnOk result (engine.new ≡ engine.old) }
    ensures touches { D.tells → TouchesOnly NoMedium (D.disk dev.old) (D.disk dev.new) }
    ensures trouble { IfErr result IsPassing }
    ensures cause { HasCause D.disk_faults D.tell_faults dev.old dev.new (IsErrOf result Trouble.Fault) }
{
    runs_are_closed_one_by_one();
    engine.at_rest(dev);
    let count = count_open(engine)?;
    for _round in 0..count {
        roll_back(engine, dev)?;
    }
    Ok(())
}

/// Ends the run: backups that run are dropped, what is open is rolled back, by rising session, its sessions are closed, and no GUID stays reserved. Where no backup runs, nothing is open and no GUID reserved, nothing is
/// changed. A crash leaves a front of this, or the world behind it in which the run has ended. The engine isn't used again.
///
/// `Broken` comes only where the engine stands for no world.
pub fn close<D: Device>(engine: &mut Engine, dev: &mut D) -> Result<(), Trouble>
    requires ready { IsReady engine.old }
    requires none { (own_in engine.old).staging ≡ None }
    requires standing { D.tells → AreStanding (D.disk dev.old) engine.old.hosting.stores }
    ensures standing { D.tells → OnOk result (AreStanding (D.disk dev.new) engine.new.hosting.stores) }
    ensures closes { D.tells → (number : ℕ) (w : World) → StandsFor (D.disk dev.old) engine.old w → OnOk result ((acts : List Act) × AreClosing w acts × Leaves number (D.disk dev.new) (ended (done_all w acts)) × Effect IsOurs (CutsEnd number w acts) (D.disk dev.old) (D.disk dev.new)) }
    ensures crash { D.tells → (number : ℕ) (w : World) → StandsFor (D.disk dev.old) engine.old w → (acts : List Act) × AreClosing w acts × Effect IsOurs (CutsEnd number w acts) (D.disk dev.old) (D.disk dev.new) }
    ensures still { D.tells → (own_in engine.old).counter ≡ engine.old.drawn → (w : World) → StandsFor (D.disk dev.old) engine.old w → AreIdle w → ChangesNothing (D.disk dev.old) (D.disk dev.new) }
    ensures touches { D.tells → TouchesOnly NoMedium (D.disk dev.old) (D.disk dev.new) }
    ensures broken { D.tells → IsErrOf result Trouble.Broken → (w : World) → StandsFor (D.disk dev.old) engine.old w → ⊥ }
    ensures cause { HasCause D.disk_faults D.tell_faults dev.old dev.new (IsErrOf result Trouble.Fault) }
{
    runs_are_closed();
    runs_are_closed_one_by_one();
    drop_jobs(engine, dev)?;
    roll_all_back(engine, dev)?;
    engine.close(dev)
}
