// A run ends.
ghost use Rattle.std.specs.Prelude.{◌≡◌, ◌⊎◌, ℕ, IfErr, OnOk, IsErrOf};
ghost use Rattle.bk_device.specs.Calls.{ChangesNothing};
ghost use Rattle.bk_device.specs.Counts.{HasCause};
ghost use Rattle.bk_device.specs.Effects.{Effect};
ghost use Rattle.bk_device.specs.Troubles.{IsPassing};
ghost use Rattle.bk_machine.specs.Sound.{AreIdle};
ghost use Rattle.bk_machine.specs.World.{World, ended};
ghost use Rattle.bk_stores.specs.Standing.{AreStanding};
ghost use Rattle.bk_engine.specs.Loading.{Leaves, Stands};
ghost use Rattle.bk_engine.specs.Stands.{Covers, IsOurs, IsReady, StandsFor, own_in};
ghost use Rattle.bk_engine.specs.Touched.{NoMedium, TouchesOnly};

use crate::engine::Engine;
use crate::staging::copied_sets;
use bk_device::{Device, Trouble};
use bk_hosted::hosted_databases_follow_acts;
use bk_machine::runs_begin_and_end_in_sound_worlds;
use bk_master::Own;

impl Engine {
    // Gives back GUIDs that were reserved and not drawn, if there are some. A crash leaves the world, or, where nothing is open in it, files that stand for it as a run that has ended.
    fn release<D: Device>(&mut self, dev: &mut D) -> Result<(), Trouble>
        requires ready { IsReady self.old }
        requires standing { D.tells → AreStanding (D.disk dev.old) self.old.hosting.stores }
        ensures ready { OnOk result (IsReady self.new) }
        ensures exact { OnOk result ((own_in self.new).counter ≡ self.new.drawn) }
        ensures standing { D.tells → OnOk result (AreStanding (D.disk dev.new) self.new.hosting.stores) }
        ensures stands { D.tells → (w : World) → StandsFor (D.disk dev.old) self.old w → OnOk result (StandsFor (D.disk dev.new) self.new w) }
        ensures crash { D.tells → (number : ℕ) (w : World) → StandsFor (D.disk dev.old) self.old w → AreIdle w → Effect IsOurs (λ image. Covers w image ⊎ Stands number image (ended w)) (D.disk dev.old) (D.disk dev.new) }
        ensures touches { D.tells → TouchesOnly NoMedium (D.disk dev.old) (D.disk dev.new) }
        ensures still { D.tells → (own_in self.old).counter ≡ self.old.drawn → ChangesNothing (D.disk dev.old) (D.disk dev.new) }
        ensures trouble { IfErr result IsPassing }
        ensures cause { HasCause D.disk_faults D.tell_faults dev.old dev.new (IsErrOf result Trouble.Fault) }
    {
        hosted_databases_follow_acts();
        runs_begin_and_end_in_sound_worlds();
        self.hosting.at_rest(dev);
        let own = self.hosting.own();
        if own.counter == self.drawn {
            return Ok(());
        }
        let copying = copied_sets(self.alloc, own.copying.as_slice())?;
        let next = Own {
            number: own.number,
            counter: self.drawn,
            making: None,
            staging: own.staging,
            copying,
        };
        self.hosting.put_own(self.alloc, dev, next)
    }

    /// Ends a run in which nothing is open any more: GUIDs that were reserved and not drawn are given back. Whatever is left then stands for the world in which the run has ended. Where no GUID is reserved, nothing is changed.
    ///
    /// A crash leaves the world before it, or files that stand for that one. Only `Fault` and `NoMemory` are answered.
    pub fn close<D: Device>(&mut self, dev: &mut D) -> Result<(), Trouble>
        requires ready { IsReady self.old }
        requires standing { D.tells → AreStanding (D.disk dev.old) self.old.hosting.stores }
        ensures standing { D.tells → OnOk result (AreStanding (D.disk dev.new) self.new.hosting.stores) }
        ensures leaves { D.tells → (number : ℕ) (w : World) → StandsFor (D.disk dev.old) self.old w → AreIdle w → OnOk result (Leaves number (D.disk dev.new) (ended w)) }
        ensures crash { D.tells → (number : ℕ) (w : World) → StandsFor (D.disk dev.old) self.old w → AreIdle w → Effect IsOurs (λ image. Covers w image ⊎ Stands number image (ended w)) (D.disk dev.old) (D.disk dev.new) }
        ensures touches { D.tells → TouchesOnly NoMedium (D.disk dev.old) (D.disk dev.new) }
        ensures still { D.tells → (own_in self.old).counter ≡ self.old.drawn → ChangesNothing (D.disk dev.old) (D.disk dev.new) }
        ensures trouble { IfErr result IsPassing }
        ensures cause { HasCause D.disk_faults D.tell_faults dev.old dev.new (IsErrOf result Trouble.Fault) }
    {
        hosted_databases_follow_acts();
        runs_begin_and_end_in_sound_worlds();
        self.release(dev)?;
        self.hosting.at_rest(dev);
        Ok(())
    }
}
