// What the instance keeps of itself.
ghost use Rattle.std.specs.Prelude.{◌≡◌, ◌⊎◌, List, IfErr, OnOk, IsErrOf};
ghost use Rattle.bk_device.specs.Counts.{HasCause};
ghost use Rattle.bk_device.specs.Effects.{Effect};
ghost use Rattle.bk_device.specs.Troubles.{IsPassing};
ghost use Rattle.bk_hosted.specs.Hosted.{Hosted};
ghost use Rattle.bk_master.specs.Spelling.{KeepsOwn};
ghost use Rattle.bk_stores.specs.Standing.{AreStanding};
ghost use Rattle.bk_stores.specs.Stores.{IsOurs, TouchesOurs};
ghost use Rattle.bk_hosting.specs.Hosting.{IsHosting, IsReady, LeavesHosted, own_of};

use crate::hosting::Hosting;
use bk_device::{Device, Trouble};
use bk_master::Own;
use std::alloc::Global;

impl Hosting {
    /// Makes this what the instance keeps of itself; the path of a medium that is being made has 1 to 100 bytes, and at most 16 sets are being copied beside the sessions. A crash leaves the databases, but for what waits, with what it kept before, or with this.
    ///
    /// Only `Fault` and `NoMemory` are answered.
    pub fn put_own<D: Device>(
        &mut self,
        alloc: Global,
        dev: &mut D,
        own: Own,
    ) -> Result<(), Trouble>
        requires ready { IsReady self.old }
        requires own { KeepsOwn own }
        requires standing { D.tells → AreStanding (D.disk dev.old) self.old.stores }
        ensures ready { OnOk result (IsReady self.new) }
        ensures own { OnOk result (own_of self.new ≡ own) }
        ensures same { OnOk result ((self.new.states ≡ self.old.states) × (self.new.stores.slots ≡ self.old.stores.slots)) }
        ensures standing { D.tells → OnOk result (AreStanding (D.disk dev.new) self.new.stores) }
        ensures stands { D.tells → (hosted : List Hosted) → IsHosting (D.disk dev.old) self.old hosted → OnOk result (IsHosting (D.disk dev.new) self.new hosted) }
        ensures crash { D.tells → (hosted : List Hosted) → IsHosting (D.disk dev.old) self.old hosted
            → Effect IsOurs (λ image. LeavesHosted (own_of self.old) hosted image ⊎ LeavesHosted own hosted image) (D.disk dev.old) (D.disk dev.new) }
        ensures touches { D.tells → TouchesOurs (D.disk dev.old) (D.disk dev.new) }
        ensures trouble { IfErr result IsPassing }
        ensures cause { HasCause D.disk_faults D.tell_faults dev.old dev.new (IsErrOf result Trouble.Fault) }
    {
        self.stores.put_own(alloc, dev, own)
    }
}
