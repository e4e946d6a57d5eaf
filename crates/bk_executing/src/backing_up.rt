// BACKUP DATABASE.
ghost use Rattle.std.specs.Prelude.{◌≡◌, None, IfOk, IsErrOf, OnOk, OnErr};
ghost use Rattle.bk_device.specs.Counts.{HasCause};
ghost use Rattle.bk_engine.specs.Stands.{IsReady, NamesSet, StandsFor, own_in};
ghost use Rattle.bk_engine.specs.Touched.{IsPath, TouchesOnly};
ghost use Rattle.bk_executing.specs.Executing.{Executed, Failed};
ghost use Rattle.bk_items.specs.declared.item.ScriptItem.TheVariants as script;
ghost use Rattle.bk_machine.specs.World.{World};
ghost use Rattle.bk_stores.specs.Standing.{AreStanding};

use crate::following::follow;
use crate::planning::plan_kept_backup;
use bk_archive::room_at;
use bk_carried::full_headers_are_of_databases;
use bk_device::{Device, Trouble};
use bk_engine::Engine;
use bk_ids::{Sequence, Text};
use bk_items::{BackupOptions, UnitName};
use bk_machine::{acts_keep_worlds_sound, statements_do_what_they_may, what_is_said_comes_last};
use bk_world::Reply;

/// `BACKUP DATABASE` on this line.
pub(crate) fn backup<D: Device>(
    engine: &mut Engine,
    dev: &mut D,
    line: u32,
    database: &Text,
    units: &Sequence<UnitName>,
    disk: &Text,
    options: &BackupOptions,
    now: u64,
) -> Result<Reply, Trouble>
    requires ready { IsReady engine.old }
    requires none { (own_in engine.old).staging ≡ None }
    requires standing { D.tells → AreStanding (D.disk dev.old) engine.old.hosting.stores }
    ensures ready { OnOk result (IsReady engine.new) }
    ensures own { OnOk result (NamesSet None engine.old engine.new) }
    ensures standing { D.tells → OnOk result (AreStanding (D.disk dev.new) engine.new.hosting.stores) }
    ensures executed { IfOk result (λ reply. Executed D.tells engine.old (D.disk dev.old) (record { item = script.BackupDatabase database.now units.now disk.now options.now; line = line }) now reply engine.new (D.disk dev.new)) }
    ensures failed { OnErr result (Failed D.tells engine.old (D.disk dev.old) (record { item = script.BackupDatabase database.now units.now disk.now options.now; line = line }) now (D.disk dev.new)) }
    ensures touches { D.tells → TouchesOnly IsPath (D.disk dev.old) (D.disk dev.new) }
    ensures broken { D.tells → IsErrOf result Trouble.Broken → (w : World) → StandsFor (D.disk dev.old) engine.old w → ⊥ }
    ensures cause { HasCause D.disk_faults D.tell_faults dev.old dev.new (IsErrOf result Trouble.Fault) }
{
    acts_keep_worlds_sound();
    full_headers_are_of_databases();
    statements_do_what_they_may();
    what_is_said_comes_last();
    let room = room_at(engine.alloc(), dev, disk.as_str())?;
    let plan = plan_kept_backup(engine, line, database, units, disk, options, room, now)?;
    follow(engine, dev, plan)
}
