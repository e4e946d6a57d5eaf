// Databases are dropped.
ghost use Rattle.std.specs.Prelude.{◌≡◌, IfErr, OnOk, IsErrOf};
ghost use Rattle.bk_device.specs.Counts.{HasCause};
ghost use Rattle.bk_device.specs.Effects.{Effect};
ghost use Rattle.bk_device.specs.Troubles.{IsPassing};
ghost use Rattle.bk_machine.specs.Acts.{dropped};
ghost use Rattle.bk_machine.specs.World.{World};
ghost use Rattle.bk_stores.specs.Standing.{AreStanding};
ghost use Rattle.bk_engine.specs.Acts.{CutsAct, DoesAct};
ghost use Rattle.bk_engine.specs.Stands.{IsOurs, IsReady, NamesSet, StandsFor, own_in};
ghost use Rattle.bk_engine.specs.Touched.{NoMedium, TouchesOnly};

use crate::engine::Engine;
use bk_archive::acts_keep_media;
use bk_device::{Device, Trouble};
use bk_hosted::hosted_databases_follow_acts;
use bk_machine::acts_keep_worlds_sound;

impl Engine {
    /// Drops the database of this name, with its files. A crash leaves the world with it, but for what waited, or without it.
    ///
    /// Only `Fault` and `NoMemory` are answered. Where there is no database of this name the call ends as if memory were wanting.
    pub fn drop<D: Device>(&mut self, dev: &mut D, name: &str) -> Result<(), Trouble>
        requires ready { IsReady self.old }
        requires standing { D.tells → AreStanding (D.disk dev.old) self.old.hosting.stores }
        ensures ready { OnOk result (IsReady self.new) }
        ensures own { OnOk result (NamesSet (own_in self.old).staging self.old self.new) }
        ensures standing { D.tells → OnOk result (AreStanding (D.disk dev.new) self.new.hosting.stores) }
        ensures stands { D.tells → OnOk result (DoesAct self.old (D.disk dev.old) (dropped name.now) self.new (D.disk dev.new)) }
        ensures crash { D.tells → (w : World) → StandsFor (D.disk dev.old) self.old w → Effect IsOurs (CutsAct w (dropped name.now)) (D.disk dev.old) (D.disk dev.new) }
        ensures touches { D.tells → TouchesOnly NoMedium (D.disk dev.old) (D.disk dev.new) }
        ensures trouble { IfErr result IsPassing }
        ensures cause { HasCause D.disk_faults D.tell_faults dev.old dev.new (IsErrOf result Trouble.Fault) }
    {
        acts_keep_media();
        acts_keep_worlds_sound();
        hosted_databases_follow_acts();
        let Some(at) = self.hosting.find(name) else {
            self.hosting.at_rest(dev);
            return Err(Trouble::NoMemory);
        };
        self.hosting.drop(self.alloc, dev, at)
    }
}
