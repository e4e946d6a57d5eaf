// GUIDs of sets are drawn.
ghost use Rattle.std.specs.Prelude.{◌≡◌, IfErr, OnOk, IsErrOf};
ghost use Rattle.bk_device.specs.Counts.{HasCause};
ghost use Rattle.bk_device.specs.Effects.{Effect};
ghost use Rattle.bk_device.specs.Troubles.{IsPassing};
ghost use Rattle.bk_machine.specs.Acts.{done, set_drawn};
ghost use Rattle.bk_machine.specs.World.{World};
ghost use Rattle.bk_stores.specs.Standing.{AreStanding};
ghost use Rattle.bk_engine.specs.Acts.{CutsAct};
ghost use Rattle.bk_engine.specs.Stands.{IsOurs, IsReady, NamesSet, StandsFor, own_in};
ghost use Rattle.bk_engine.specs.Touched.{NoMedium, TouchesOnly};

use crate::engine::Engine;
use bk_device::{Device, Trouble};
use bk_machine::acts_keep_worlds_sound;

impl Engine {
    /// Draws the GUID of a set that comes behind those on a medium. A crash leaves the world before it, but for what waited: one that was drawn is no one's until its set is sealed, and isn't drawn again.
    ///
    /// Only `Fault` and `NoMemory` are answered. Where all GUIDs are used up, the call ends as if memory were wanting.
    pub fn draw_set<D: Device>(&mut self, dev: &mut D) -> Result<(), Trouble>
        requires ready { IsReady self.old }
        requires standing { D.tells → AreStanding (D.disk dev.old) self.old.hosting.stores }
        ensures ready { OnOk result (IsReady self.new) }
        ensures own { OnOk result (NamesSet (own_in self.old).staging self.old self.new) }
        ensures standing { D.tells → OnOk result (AreStanding (D.disk dev.new) self.new.hosting.stores) }
        ensures stands { D.tells → (w : World) → StandsFor (D.disk dev.old) self.old w → OnOk result (StandsFor (D.disk dev.new) self.new (done w set_drawn)) }
        ensures crash { D.tells → (w : World) → StandsFor (D.disk dev.old) self.old w → Effect IsOurs (CutsAct w set_drawn) (D.disk dev.old) (D.disk dev.new) }
        ensures touches { D.tells → TouchesOnly NoMedium (D.disk dev.old) (D.disk dev.new) }
        ensures trouble { IfErr result IsPassing }
        ensures cause { HasCause D.disk_faults D.tell_faults dev.old dev.new (IsErrOf result Trouble.Fault) }
    {
        acts_keep_worlds_sound();
        self.reserve(dev, 1)?;
        self.drawn += 1;
        Ok(())
    }
}
