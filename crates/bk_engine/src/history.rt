// Rows of msdb.
ghost use Rattle.std.specs.Prelude.{IfErr, OnOk, IsErrOf};
ghost use Rattle.bk_device.specs.Counts.{HasCause};
ghost use Rattle.bk_device.specs.Effects.{Effect};
ghost use Rattle.bk_device.specs.Troubles.{IsPassing};
ghost use Rattle.bk_machine.specs.Acts.{done, noted};
ghost use Rattle.bk_machine.specs.World.{World};
ghost use Rattle.bk_msdb.specs.Spelling.{KeepsRow};
ghost use Rattle.bk_stores.specs.Standing.{AreStanding};
ghost use Rattle.bk_engine.specs.Acts.{CutsAct};
ghost use Rattle.bk_engine.specs.Stands.{IsOurs, IsReady, StandsFor};
ghost use Rattle.bk_engine.specs.Touched.{NoMedium, TouchesOnly};

use crate::engine::Engine;
use bk_device::{Device, Trouble};
use bk_hosted::hosted_databases_follow_acts;
use bk_machine::{HistoryRow, acts_keep_worlds_sound};
use bk_msdb::add_row;

impl Engine {
    /// Adds a row to its table of msdb. The text of a restore's stop has at most 65,535 bytes. A crash leaves the world before it, but for what waited, or the one behind it.
    ///
    /// Only `Fault` and `NoMemory` are answered.
    pub fn note<D: Device>(&self, dev: &mut D, row: &HistoryRow) -> Result<(), Trouble>
        requires ready { IsReady self.now }
        requires keeps { KeepsRow row.now }
        requires standing { D.tells → AreStanding (D.disk dev.old) self.now.hosting.stores }
        ensures standing { D.tells → AreStanding (D.disk dev.new) self.now.hosting.stores }
        ensures stands { D.tells → (w : World) → StandsFor (D.disk dev.old) self.now w → OnOk result (StandsFor (D.disk dev.new) self.now (done w (noted row.now))) }
        ensures crash { D.tells → (w : World) → StandsFor (D.disk dev.old) self.now w → Effect IsOurs (CutsAct w (noted row.now)) (D.disk dev.old) (D.disk dev.new) }
        ensures touches { D.tells → TouchesOnly NoMedium (D.disk dev.old) (D.disk dev.new) }
        ensures trouble { IfErr result IsPassing }
        ensures cause { HasCause D.disk_faults D.tell_faults dev.old dev.new (IsErrOf result Trouble.Fault) }
    {
        acts_keep_worlds_sound();
        hosted_databases_follow_acts();
        self.hosting.at_rest(dev);
        add_row(self.alloc, dev, row)
    }
}
