// A hosted database says something.
ghost use Rattle.std.specs.Prelude.{◌≡◌, ◌<◌, true, List, Some, length, set, slice_get, IfErr, OnOk, IsErrOf};
ghost use Rattle.std.specs.List.{AllByRecursion};
ghost use Rattle.bk_device.specs.Counts.{HasCause};
ghost use Rattle.bk_device.specs.Effects.{Effect};
ghost use Rattle.bk_device.specs.Troubles.{IsPassing};
ghost use Rattle.bk_hosted.specs.Hosted.{Hosted, saying};
ghost use Rattle.bk_ids.specs.declared.record.Rec.{Rec as Recs};
ghost use Rattle.bk_record.specs.Spelling.{KeepsLimits};
ghost use Rattle.bk_stores.specs.Standing.{AreStanding};
ghost use Rattle.bk_stores.specs.Stores.{IsOurs, TouchesOurs};
ghost use Rattle.bk_world.specs.Records.{Said};
ghost use Rattle.bk_hosting.specs.Hosting.{IsHosting, IsReady, IsSealedAt, LeavesSaid, MaySayNow, own_of};

use crate::hosting::Hosting;
use crate::saying::say_on;
use bk_device::{Device, Trouble};
use bk_ids::{Rec, Sequence};
use bk_world::Open;
use std::alloc::Global;

impl Hosting {
    /// The database at this place, from 0, says these records at its end, and then these transactions are open. Where it is to last, all that it has said is durable then; else it waits in memory. A crash leaves
    /// the databases as before, but for what waited, or this one with a front of what it says.
    ///
    /// Only `Fault` and `NoMemory` are answered, `NoMemory` too where the records may not come next.
    pub fn log<D: Device>(
        &mut self,
        alloc: Global,
        dev: &mut D,
        at: usize,
        records: &[Rec],
        transactions: Sequence<Open>,
        lasting: bool,
    ) -> Result<(), Trouble>
        requires ready { IsReady self.old }
        requires inside { at < length self.old.states }
        requires limits { AllByRecursion (λ (r : Recs). KeepsLimits r.body) records.now }
        requires standing { D.tells → AreStanding (D.disk dev.old) self.old.stores }
        ensures ready { OnOk result (IsReady self.new) }
        ensures own { OnOk result (own_of self.new ≡ own_of self.old) }
        ensures lasts { lasting ≡ true → OnOk result (IsSealedAt self.new.stores.slots at) }
        ensures standing { D.tells → OnOk result (AreStanding (D.disk dev.new) self.new.stores) }
        ensures stands { D.tells → (hosted : List Hosted) (h : Hosted) (said : List Said) → IsHosting (D.disk dev.old) self.old hosted → slice_get hosted at ≡ Some h → MaySayNow h said transactions records.now lasting
            → OnOk result (IsHosting (D.disk dev.new) self.new (set hosted at (saying said transactions h))) }
        ensures crash { D.tells → (hosted : List Hosted) (h : Hosted) (said : List Said) → IsHosting (D.disk dev.old) self.old hosted → slice_get hosted at ≡ Some h → MaySayNow h said transactions records.now lasting
            → Effect IsOurs (LeavesSaid (own_of self.old) hosted at h said transactions) (D.disk dev.old) (D.disk dev.new) }
        ensures touches { D.tells → TouchesOurs (D.disk dev.old) (D.disk dev.new) }
        ensures trouble { IfErr result IsPassing }
        ensures cause { HasCause D.disk_faults D.tell_faults dev.old dev.new (IsErrOf result Trouble.Fault) }
    {
        if !self.is_open(at) {
            return Err(Trouble::NoMemory);
        }
        say_on(&mut self.stores, alloc, dev, at, records, lasting)?;
        self.states[at].transactions = transactions;
        Ok(())
    }
}
