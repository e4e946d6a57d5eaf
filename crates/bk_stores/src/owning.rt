// What the instance's record keeps beside its databases.
ghost use Rattle.std.specs.Prelude.{◌≡◌, ◌⊎◌, List, false, IfErr, OnOk, IsErrOf};
ghost use Rattle.bk_device.specs.Counts.{HasCause};
ghost use Rattle.bk_device.specs.Effects.{Effect};
ghost use Rattle.bk_device.specs.Troubles.{IsPassing};
ghost use Rattle.bk_master.specs.Spelling.{KeepsOwn, KeepsRecord};
ghost use Rattle.bk_store.specs.Told.{Told};
ghost use Rattle.bk_stores.specs.Records.{owned};
ghost use Rattle.bk_stores.specs.Standing.{AreStanding};
ghost use Rattle.bk_stores.specs.Stores.{AreStores, IsOurs, IsReady, LeavesStores, TouchesOurs, fixed_of, sealed_at};

use crate::records::owned_record;
use crate::stores::Stores;
use bk_device::{Device, Trouble};
use bk_master::Own;
use std::alloc::Global;

impl Stores {
    /// What the instance's record keeps beside its databases.
    pub fn own(&self) -> &Own
        ensures { result.now ≡ self.now.master.record.own }
    {
        &self.master.record().own
    }

    /// Makes this what the instance's record keeps beside its databases: a medium that is being made has a path of 1 to 100 bytes, and at most 16 sets are being copied. A crash leaves the databases with what it kept before, or with this.
    ///
    /// Only `Fault` and `NoMemory` are answered.
    pub fn put_own<D: Device>(
        &mut self,
        alloc: Global,
        dev: &mut D,
        own: Own,
    ) -> Result<(), Trouble>
        requires fit { self.old.master.failed ≡ false }
        requires keeps { KeepsRecord self.old.master.record }
        requires own { KeepsOwn own }
        requires standing { D.tells → AreStanding (D.disk dev.old) self.old }
        ensures fit { OnOk result (self.new.master.failed ≡ false) }
        ensures put { OnOk result (self.new.master.record ≡ owned self.old.master.record own) }
        ensures slots { OnOk result (self.new.slots ≡ self.old.slots) }
        ensures ready { IsReady self.old → OnOk result (IsReady self.new) }
        ensures standing { D.tells → OnOk result (AreStanding (D.disk dev.new) self.new) }
        ensures stands { D.tells → (tolds : List Told) → AreStores (D.disk dev.old) self.old tolds → OnOk result (AreStores (D.disk dev.new) self.new tolds) }
        ensures crash { D.tells → (tolds : List Told) → AreStores (D.disk dev.old) self.old tolds → Effect IsOurs (λ image. LeavesStores (fixed_of self.old.master.record) (sealed_at self.old tolds) tolds image ⊎ LeavesStores (record (fixed_of self.old.master.record) { own = own }) (sealed_at self.old tolds) tolds image) (D.disk dev.old) (D.disk dev.new) }
        ensures touches { D.tells → TouchesOurs (D.disk dev.old) (D.disk dev.new) }
        ensures trouble { IfErr result IsPassing }
        ensures cause { HasCause D.disk_faults D.tell_faults dev.old dev.new (IsErrOf result Trouble.Fault) }
    {
        let next = owned_record(alloc, self.master.record(), own)?;
        self.master.put(alloc, dev, next)?;
        Ok(())
    }
}
