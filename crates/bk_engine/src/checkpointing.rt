// Checkpoints.
ghost use Rattle.std.specs.Prelude.{◌≡◌, IfErr, OnOk, IsErrOf};
ghost use Rattle.bk_device.specs.Counts.{HasCause};
ghost use Rattle.bk_device.specs.Effects.{Effect};
ghost use Rattle.bk_device.specs.Troubles.{IsPassing};
ghost use Rattle.bk_machine.specs.Acts.{done};
ghost use Rattle.bk_machine.specs.World.{Database, World};
ghost use Rattle.bk_stores.specs.Standing.{AreStanding};
ghost use Rattle.bk_engine.specs.Acts.{CutsAct, MayMark, marking};
ghost use Rattle.bk_engine.specs.Stands.{IsOurs, IsReady, NamesSet, StandsFor, own_in};
ghost use Rattle.bk_engine.specs.Touched.{NoMedium, TouchesOnly};

use crate::engine::Engine;
use bk_archive::acts_keep_media;
use bk_device::{Device, Trouble};
use bk_hosted::hosted_databases_follow_acts;
use bk_ids::Lsn;
use bk_machine::acts_keep_worlds_sound;

impl Engine {
    /// Makes a checkpoint of the database of this name at this moment, in milliseconds since 1970-01-01 00:00:00 UTC, behind which the live log holds what comes from the number `kept` on: all that it has
    /// said is durable then, and so is each page. A crash leaves the world before it, but for what waited, or the one behind it.
    ///
    /// Only `Fault` and `NoMemory` are answered: `NoMemory` too where it can't be used, or no number is left.
    pub fn checkpoint<D: Device>(
        &mut self,
        dev: &mut D,
        name: &str,
        time: u64,
        kept: Lsn,
    ) -> Result<(), Trouble>
        requires ready { IsReady self.old }
        requires standing { D.tells → AreStanding (D.disk dev.old) self.old.hosting.stores }
        ensures ready { OnOk result (IsReady self.new) }
        ensures own { OnOk result (NamesSet (own_in self.old).staging self.old self.new) }
        ensures standing { D.tells → OnOk result (AreStanding (D.disk dev.new) self.new.hosting.stores) }
        ensures stands { D.tells → (w : World) (db : Database) → StandsFor (D.disk dev.old) self.old w → MayMark w name.now time kept db → OnOk result (StandsFor (D.disk dev.new) self.new (done w (marking name.now time db))) }
        ensures crash { D.tells → (w : World) (db : Database) → StandsFor (D.disk dev.old) self.old w → MayMark w name.now time kept db → Effect IsOurs (CutsAct w (marking name.now time db)) (D.disk dev.old) (D.disk dev.new) }
        ensures touches { D.tells → TouchesOnly NoMedium (D.disk dev.old) (D.disk dev.new) }
        ensures trouble { IfErr result IsPassing }
        ensures cause { HasCause D.disk_faults D.tell_faults dev.old dev.new (IsErrOf result Trouble.Fault) }
    {
        acts_keep_media();
        acts_keep_worlds_sound();
        hosted_databases_follow_acts();
        let Some(at) = self.hosting.find(name) else {
            self.hosting.at_rest(dev);
            return Err(Trouble::NoMemory);
        };
        self.hosting.checkpoint(self.alloc, dev, at, time, kept)
    }
}
