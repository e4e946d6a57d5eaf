// GUIDs that are reserved.
ghost use Rattle.std.specs.Prelude.{◌≡◌, ◌≤◌, ◌<◌, ◌+◌, ◌^◌, None, IfErr, OnOk, IsErrOf};
ghost use Rattle.bk_archive.specs.MediaLaws.{SameFiles};
ghost use Rattle.bk_device.specs.Counts.{HasCause};
ghost use Rattle.bk_device.specs.Effects.{Effect};
ghost use Rattle.bk_device.specs.Troubles.{IsPassing};
ghost use Rattle.bk_machine.specs.World.{World};
ghost use Rattle.bk_stores.specs.Standing.{AreStanding};
ghost use Rattle.bk_engine.specs.Stands.{Covers, IsOurs, IsReady, NamesSet, StandsFor, own_in};
ghost use Rattle.bk_engine.specs.Touched.{NoMedium, TouchesOnly};

use crate::engine::Engine;
use crate::staging::copied_sets;
use bk_device::{Device, Trouble};
use bk_master::Own;

// GUIDs from here on, 2^62 - 2^32, are kept for what is never refused.
const KEPT_NUMBERS: u64 = 4_611_686_014_132_420_608;

// The record reserves so many GUIDs beyond those that are needed.
const MORE: u64 = 1024;

impl Engine {
    // Reserves so many GUIDs beyond those that were drawn, at most 2, where they aren't reserved yet. Where all are used up the call ends as if memory were wanting.
    pub(crate) fn reserve<D: Device>(&mut self, dev: &mut D, n: u64) -> Result<(), Trouble>
        requires ready { IsReady self.old }
        requires few { n ≤ 2 }
        requires standing { D.tells → AreStanding (D.disk dev.old) self.old.hosting.stores }
        ensures ready { OnOk result (IsReady self.new) }
        ensures own { OnOk result (NamesSet (own_in self.old).staging self.old self.new) }
        ensures reserved { OnOk result (self.new.drawn + n ≤ (own_in self.new).counter) }
        ensures drawn { OnOk result (self.new.drawn ≡ self.old.drawn) }
        ensures small { OnOk result (self.new.drawn < 2 ^ 62) }
        ensures same { OnOk result ((self.new.hosting.states ≡ self.old.hosting.states) × (self.new.hosting.stores.slots ≡ self.old.hosting.stores.slots)) }
        ensures standing { D.tells → OnOk result (AreStanding (D.disk dev.new) self.new.hosting.stores) }
        ensures stands { D.tells → (w : World) → StandsFor (D.disk dev.old) self.old w → OnOk result (StandsFor (D.disk dev.new) self.new w) }
        ensures crash { D.tells → (w : World) → StandsFor (D.disk dev.old) self.old w → Effect IsOurs (Covers w) (D.disk dev.old) (D.disk dev.new) }
        ensures touches { D.tells → TouchesOnly NoMedium (D.disk dev.old) (D.disk dev.new) }
        ensures media { D.tells → (w : World) → StandsFor (D.disk dev.old) self.old w → SameFiles (D.disk dev.old).files (D.disk dev.new).files }
        ensures trouble { IfErr result IsPassing }
        ensures cause { HasCause D.disk_faults D.tell_faults dev.old dev.new (IsErrOf result Trouble.Fault) }
    {
        self.hosting.at_rest(dev);
        if self.drawn >= KEPT_NUMBERS {
            return Err(Trouble::NoMemory);
        }
        let own = self.hosting.own();
        if self.drawn + n <= own.counter {
            return Ok(());
        }
        let copying = copied_sets(self.alloc, own.copying.as_slice())?;
        let next = Own {
            number: own.number,
            counter: self.drawn + MORE,
            making: None,
            staging: own.staging,
            copying,
        };
        self.hosting.put_own(self.alloc, dev, next)
    }
}
