// What is noted of databases.
ghost use Rattle.std.specs.Prelude.{◌≡◌, IfErr, OnOk, IsErrOf};
ghost use Rattle.bk_device.specs.Counts.{HasCause};
ghost use Rattle.bk_device.specs.Effects.{Effect};
ghost use Rattle.bk_device.specs.Troubles.{IsPassing};
ghost use Rattle.bk_machine.specs.Acts.{based};
ghost use Rattle.bk_machine.specs.World.{World};
ghost use Rattle.bk_stores.specs.Standing.{AreStanding};
ghost use Rattle.bk_engine.specs.Acts.{CutsAct, DoesAct};
ghost use Rattle.bk_engine.specs.Stands.{IsOurs, IsReady, NamesSet, StandsFor, own_in};
ghost use Rattle.bk_engine.specs.Touched.{NoMedium, TouchesOnly};

use crate::engine::Engine;
use bk_archive::acts_keep_media;
use bk_device::{Device, Trouble};
use bk_hosted::hosted_databases_follow_acts;
use bk_machine::acts_keep_worlds_sound;
use bk_world::Header;

impl Engine {
    /// The database of this name is based on the set with this header. A crash leaves the world before it, but for what waited, or the one behind it.
    ///
    /// Only `Fault` and `NoMemory` are answered. Where there is no database of this name, or it is being restored, the call ends as if memory were wanting.
    pub fn base<D: Device>(
        &mut self,
        dev: &mut D,
        name: &str,
        header: &Header,
    ) -> Result<(), Trouble>
        requires ready { IsReady self.old }
        requires standing { D.tells → AreStanding (D.disk dev.old) self.old.hosting.stores }
        ensures ready { OnOk result (IsReady self.new) }
        ensures own { OnOk result (NamesSet (own_in self.old).staging self.old self.new) }
        ensures standing { D.tells → OnOk result (AreStanding (D.disk dev.new) self.new.hosting.stores) }
        ensures stands { D.tells → OnOk result (DoesAct self.old (D.disk dev.old) (based name.now header.now) self.new (D.disk dev.new)) }
        ensures crash { D.tells → (w : World) → StandsFor (D.disk dev.old) self.old w → Effect IsOurs (CutsAct w (based name.now header.now)) (D.disk dev.old) (D.disk dev.new) }
        ensures touches { D.tells → TouchesOnly NoMedium (D.disk dev.old) (D.disk dev.new) }
        ensures trouble { IfErr result IsPassing }
        ensures cause { HasCause D.disk_faults D.tell_faults dev.old dev.new (IsErrOf result Trouble.Fault) }
    {
        acts_keep_media();
        acts_keep_worlds_sound();
        hosted_databases_follow_acts();
        let Some(at) = self.hosting.find(name) else {
            self.hosting.at_rest(dev);
            return Err(Trouble::NoMemory);
        };
        self.hosting.base(self.alloc, dev, at, header)
    }
}
