// Removing a database.
ghost use Rattle.std.specs.Prelude.{◌≡◌, ◌<◌, List, None, Some, false, length, remove, set, slice_get, IfErr, IfOk, OnOk, IsErrOf};
ghost use Rattle.bk_device.specs.Counts.{HasCause};
ghost use Rattle.bk_device.specs.Effects.{Effect};
ghost use Rattle.bk_device.specs.Troubles.{IsPassing};
ghost use Rattle.bk_master.specs.declared.record.Entry.{Entry as Entries};
ghost use Rattle.bk_master.specs.Master.{IsMaster};
ghost use Rattle.bk_master.specs.Spelling.{KeepsRecord};
ghost use Rattle.bk_store.specs.Told.{Told};
ghost use Rattle.bk_stores.specs.Making.{Drops, MayRemove, less_stored};
ghost use Rattle.bk_stores.specs.Records.{AreSmall, left_out, rested};
ghost use Rattle.bk_stores.specs.Standing.{AreStanding, AreUnused};
ghost use Rattle.bk_stores.specs.Stores.{AreStores, IsOurs, IsReady, LeavesStores, TouchesOurs, at_paths, fixed_of, sealed_at};

use crate::changing::drop_slot;
use crate::records::{left_record, rested_record, store_at};
use crate::stores::Stores;
use bk_device::{Device, Trouble};
use bk_filling::remove_parts;
use bk_ids::Text;
use std::alloc::Global;

impl Stores {
    // Names the store of a database as one that is being removed, and no longer as that of a database.
    fn leave_out<D: Device>(
        &mut self,
        alloc: Global,
        dev: &mut D,
        at: usize,
        paths: &[Text],
    ) -> Result<u32, Trouble>
        requires ready { IsReady self.old }
        requires inside { at < length self.old.slots }
        requires small { AreSmall paths.now }
        requires standing { D.tells → AreStanding (D.disk dev.old) self.old }
        ensures fit { OnOk result (self.new.master.failed ≡ false) }
        ensures record { IfOk result (λ n. (e : Entries) × (slice_get self.old.master.record.databases at ≡ Some e) × (e.store ≡ n) × (self.new.master.record ≡ left_out self.old.master.record at n paths.now)) }
        ensures slots { OnOk result (self.new.slots ≡ remove self.old.slots at) }
        ensures standing { D.tells → OnOk result (AreStanding (D.disk dev.new) self.new) }
        ensures stands { D.tells → (tolds : List Told) (told : Told) → AreStores (D.disk dev.old) self.old tolds → MayRemove self.old tolds at told paths.now → OnOk result (AreStores (D.disk dev.new) self.new (remove tolds at)) }
        ensures crash { D.tells → (tolds : List Told) (told : Told) → AreStores (D.disk dev.old) self.old tolds → MayRemove self.old tolds at told paths.now → Drops self.old tolds at (D.disk dev.old) (D.disk dev.new) }
        ensures touches { D.tells → TouchesOurs (D.disk dev.old) (D.disk dev.new) }
        ensures trouble { IfErr result IsPassing }
        ensures cause { HasCause D.disk_faults D.tell_faults dev.old dev.new (IsErrOf result Trouble.Fault) }
    {
        let number = store_at(self.master.record(), at);
        let next = left_record(alloc, self.master.record(), at, number, paths)?;
        self.master.put(alloc, dev, next)?;
        drop_slot(&mut self.slots, at);
        Ok(number)
    }

    // Names nothing any more that is being made or removed.
    pub(crate) fn rest<D: Device>(&mut self, alloc: Global, dev: &mut D) -> Result<(), Trouble>
        requires fit { self.old.master.failed ≡ false }
        requires keeps { KeepsRecord self.old.master.record }
        requires count { length self.old.slots ≡ length self.old.master.record.databases }
        requires master { D.tells → IsMaster (D.disk dev.old) self.old.master }
        ensures ready { OnOk result (IsReady self.new) }
        ensures fixed { OnOk result (fixed_of self.new.master.record ≡ fixed_of self.old.master.record) }
        ensures slots { OnOk result (self.new.slots ≡ self.old.slots) }
        ensures standing { D.tells → AreStanding (D.disk dev.old) self.old → OnOk result (AreStanding (D.disk dev.new) self.new) }
        ensures stands { D.tells → (tolds : List Told) → AreStores (D.disk dev.old) self.old tolds → OnOk result (AreStores (D.disk dev.new) self.new tolds) }
        ensures master { D.tells → OnOk result (IsMaster (D.disk dev.new) self.new.master) }
        ensures crash { D.tells → (tolds : List Told) → AreStores (D.disk dev.old) self.old tolds → Effect IsOurs (LeavesStores (fixed_of self.old.master.record) (sealed_at self.old tolds) tolds) (D.disk dev.old) (D.disk dev.new) }
        ensures touches { D.tells → TouchesOurs (D.disk dev.old) (D.disk dev.new) }
        ensures trouble { IfErr result IsPassing }
        ensures cause { HasCause D.disk_faults D.tell_faults dev.old dev.new (IsErrOf result Trouble.Fault) }
    {
        let next = rested_record(alloc, self.master.record())?;
        self.master.put(alloc, dev, next)?;
        Ok(())
    }

    /// Removes the database at this place, which counts from 0, with its data files, which lie at these paths, if it has some, its log and its other files. No other open store has one of these data files. A crash
    /// leaves all databases, or those without it.
    ///
    /// Only `Fault` and `NoMemory` are answered.
    pub fn remove<D: Device>(
        &mut self,
        alloc: Global,
        dev: &mut D,
        at: usize,
        paths: &[Text],
    ) -> Result<(), Trouble>
        requires ready { IsReady self.old }
        requires inside { at < length self.old.slots }
        requires small { AreSmall paths.now }
        requires standing { D.tells → AreStanding (D.disk dev.old) self.old }
        requires unused { D.tells → AreUnused (set self.old.slots at None) (at_paths paths.now) }
        ensures ready { OnOk result (IsReady self.new) }
        ensures fixed { OnOk result (fixed_of self.new.master.record ≡ less_stored (fixed_of self.old.master.record) at) }
        ensures slots { OnOk result (self.new.slots ≡ remove self.old.slots at) }
        ensures standing { D.tells → OnOk result (AreStanding (D.disk dev.new) self.new) }
        ensures stands { D.tells → (tolds : List Told) (told : Told) → AreStores (D.disk dev.old) self.old tolds → MayRemove self.old tolds at told paths.now → OnOk result (AreStores (D.disk dev.new) self.new (remove tolds at)) }
        ensures crash { D.tells → (tolds : List Told) (told : Told) → AreStores (D.disk dev.old) self.old tolds → MayRemove self.old tolds at told paths.now → Drops self.old tolds at (D.disk dev.old) (D.disk dev.new) }
        ensures touches { D.tells → TouchesOurs (D.disk dev.old) (D.disk dev.new) }
        ensures trouble { IfErr result IsPassing }
        ensures cause { HasCause D.disk_faults D.tell_faults dev.old dev.new (IsErrOf result Trouble.Fault) }
    {
        let number = self.leave_out(alloc, dev, at, paths)?;
        remove_parts(alloc, dev, number, paths)?;
        self.rest(alloc, dev)
    }
}
