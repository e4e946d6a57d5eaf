// Statements.
ghost use Rattle.std.specs.Prelude.{◌≡◌, None, IfOk, OnOk, OnErr, IsErrOf};
ghost use Rattle.bk_device.specs.Counts.{HasCause};
ghost use Rattle.bk_engine.specs.Stands.{IsReady, NamesSet, StandsFor, own_in};
ghost use Rattle.bk_engine.specs.Touched.{IsPath, TouchesOnly};
ghost use Rattle.bk_executing.specs.Executing.{Executed, Failed};
ghost use Rattle.bk_machine.specs.World.{World};
ghost use Rattle.bk_plans.specs.Planning.{ReadsNoMedium};
ghost use Rattle.bk_stores.specs.Standing.{AreStanding};

use crate::backing_up::backup;
use crate::following::follow;
use crate::listing::list;
use crate::planning::plan_kept;
use crate::querying::answer;
use crate::restoring::restore;
use crate::waiting::wait;
use bk_device::{Device, Trouble};
use bk_engine::Engine;
use bk_items::{ScriptEntry, ScriptItem};
use bk_machine::{statements_do_what_they_may, what_statements_write_to};
use bk_plans::Plan;
use bk_world::Reply;
use std::thread::Threads;

/// Executes one statement at `now`, in milliseconds since 1970-01-01 00:00:00 UTC: what the machine may come to. What it changes is on the device then, but for what it says in a transaction that is
/// open, which may wait in memory; a crash leaves some front of its parts and of what the next one says, without what waits. After an error the engine isn't used again.
///
/// `Broken` comes only where the engine stands for no world.
pub fn execute<R: Threads + Sync, D: Device>(
    engine: &mut Engine,
    rt: &R,
    dev: &mut D,
    statement: &ScriptEntry,
    now: u64,
) -> Result<Reply, Trouble>
    requires ready { IsReady engine.old }
    requires none { (own_in engine.old).staging ≡ None }
    requires standing { D.tells → AreStanding (D.disk dev.old) engine.old.hosting.stores }
    ensures ready { OnOk result (IsReady engine.new) }
    ensures own { OnOk result (NamesSet None engine.old engine.new) }
    ensures standing { D.tells → OnOk result (AreStanding (D.disk dev.new) engine.new.hosting.stores) }
    ensures executed { IfOk result (λ reply. Executed D.tells engine.old (D.disk dev.old) statement.now now reply engine.new (D.disk dev.new)) }
    ensures failed { OnErr result (Failed D.tells engine.old (D.disk dev.old) statement.now now (D.disk dev.new)) }
    ensures touches { D.tells → TouchesOnly IsPath (D.disk dev.old) (D.disk dev.new) }
    ensures broken { D.tells → IsErrOf result Trouble.Broken → (w : World) → StandsFor (D.disk dev.old) engine.old w → ⊥ }
    ensures cause { HasCause D.disk_faults D.tell_faults dev.old dev.new (IsErrOf result Trouble.Fault) }
{
    let line = statement.line;
    match &statement.item {
        ScriptItem::BackupDatabase {
            database,
            units,
            disk,
            options,
        } => backup(engine, dev, line, database, units, disk, options, now),
        ScriptItem::RestoreDatabase {
            database,
            units,
            disk,
            options,
        } => restore(engine, rt, dev, line, database, units, disk, options, now),
        ScriptItem::QueryMedium { query, disk, file } => {
            let reply = answer(engine.alloc(), dev, line, *query, disk, *file)?;
            follow(engine, dev, Plan::Answered { reply })
        }
        ScriptItem::SelectCatalog { catalog } => {
            let reply = list(engine.alloc(), dev, line, *catalog)?;
            follow(engine, dev, Plan::Answered { reply })
        }
        ScriptItem::Wait => wait(engine, dev, now),
        _ => execute_other(engine, dev, statement, now),
    }
}

// Executes a statement that reads neither a medium nor the tables of msdb.
fn execute_other<D: Device>(
    engine: &mut Engine,
    dev: &mut D,
    statement: &ScriptEntry,
    now: u64,
) -> Result<Reply, Trouble>
    requires ready { IsReady engine.old }
    requires other { ReadsNoMedium statement.now.item }
    requires none { (own_in engine.old).staging ≡ None }
    requires standing { D.tells → AreStanding (D.disk dev.old) engine.old.hosting.stores }
    ensures ready { OnOk result (IsReady engine.new) }
    ensures own { OnOk result (NamesSet None engine.old engine.new) }
    ensures standing { D.tells → OnOk result (AreStanding (D.disk dev.new) engine.new.hosting.stores) }
    ensures executed { IfOk result (λ reply. Executed D.tells engine.old (D.disk dev.old) statement.now now reply engine.new (D.disk dev.new)) }
    ensures failed { OnErr result (Failed D.tells engine.old (D.disk dev.old) statement.now now (D.disk dev.new)) }
    ensures touches { D.tells → TouchesOnly IsPath (D.disk dev.old) (D.disk dev.new) }
    ensures sound { IsErrOf result Trouble.Broken → ⊥ }
    ensures cause { HasCause D.disk_faults D.tell_faults dev.old dev.new (IsErrOf result Trouble.Fault) }
{
    statements_do_what_they_may();
    what_statements_write_to();
    let plan = plan_kept(engine, statement, now)?;
    follow(engine, dev, plan)
}
