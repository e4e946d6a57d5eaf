// Another store in the place of a database's.
ghost use Rattle.std.specs.Prelude.{◌≡◌, ◌<◌, ◌^◌, List, None, Some, false, length, set, slice_get, IfErr, IfOk, OnOk, IsErrOf};
ghost use Rattle.bk_device.specs.Counts.{HasCause};
ghost use Rattle.bk_device.specs.Troubles.{IsPassing};
ghost use Rattle.bk_master.specs.declared.record.Entry.{Entry as Entries};
ghost use Rattle.bk_master.specs.Spelling.{KeepsRecord};
ghost use Rattle.bk_store.specs.Told.{Told};
ghost use Rattle.bk_stores.specs.Making.{MaySwap, Swaps, set_stored};
ghost use Rattle.bk_stores.specs.Records.{AreSmall, swapped};
ghost use Rattle.bk_stores.specs.Standing.{AreStanding, AreUnused, Joins};
ghost use Rattle.bk_stores.specs.Stores.{AreStores, IsReady, TouchesOurs, at_paths, fixed_of};

use crate::changing::put_slot;
use crate::records::{store_at, swapped_record};
use crate::stores::Stores;
use bk_device::{Device, Trouble};
use bk_filling::remove_parts;
use bk_ids::Text;
use bk_master::Entry;
use bk_store::Store;
use std::alloc::Global;

impl Stores {
    // Names another store as that of the database at this place, and the one that was as one that is being removed, with data files at these paths; gives the number of that.
    fn put_in_place<D: Device>(
        &mut self,
        alloc: Global,
        dev: &mut D,
        at: usize,
        entry: Entry,
        slot: Option<Store>,
        paths: &[Text],
    ) -> Result<u32, Trouble>
        requires fit { self.old.master.failed ≡ false }
        requires keeps { KeepsRecord self.old.master.record }
        requires count { length self.old.slots ≡ length self.old.master.record.databases }
        requires inside { at < length self.old.slots }
        requires small { AreSmall paths.now }
        requires below { entry.store < self.old.master.record.next }
        requires standing { D.tells → AreStanding (D.disk dev.old) self.old }
        requires joins { D.tells → Joins (D.disk dev.old) self.old.master.record.databases (set self.old.slots at None) entry slot }
        ensures fit { OnOk result (self.new.master.failed ≡ false) }
        ensures record { IfOk result (λ n. (e : Entries) × (slice_get self.old.master.record.databases at ≡ Some e) × (e.store ≡ n) × (self.new.master.record ≡ swapped self.old.master.record at entry n paths.now)) }
        ensures slots { OnOk result (self.new.slots ≡ set self.old.slots at slot) }
        ensures standing { D.tells → OnOk result (AreStanding (D.disk dev.new) self.new) }
        ensures stands { D.tells → (tolds : List Told) (told new : Told) → AreStores (D.disk dev.old) self.old tolds → MaySwap (D.disk dev.old) self.old tolds at told entry slot new paths.now → OnOk result (AreStores (D.disk dev.new) self.new (set tolds at new)) }
        ensures crash { D.tells → (tolds : List Told) (told new : Told) → AreStores (D.disk dev.old) self.old tolds → MaySwap (D.disk dev.old) self.old tolds at told entry slot new paths.now → Swaps self.old tolds at entry.is_stored new (D.disk dev.old) (D.disk dev.new) }
        ensures touches { D.tells → TouchesOurs (D.disk dev.old) (D.disk dev.new) }
        ensures trouble { IfErr result IsPassing }
        ensures cause { HasCause D.disk_faults D.tell_faults dev.old dev.new (IsErrOf result Trouble.Fault) }
    {
        let number = store_at(self.master.record(), at);
        put_slot(&mut self.slots, at, slot);
        let next = swapped_record(alloc, self.master.record(), at, entry, number, paths)?;
        self.master.put(alloc, dev, next)?;
        Ok(number)
    }

    /// Puts another store, which was begun before and is whole, open or not, in the place of that of the database at this place, which counts from 0, and removes the files of the one that was, with data files
    /// at these paths, which no open store has then. A crash leaves the database as it was, or as the other store holds it.
    ///
    /// Only `Fault` and `NoMemory` are answered.
    pub fn swap<D: Device>(
        &mut self,
        alloc: Global,
        dev: &mut D,
        at: usize,
        entry: Entry,
        slot: Option<Store>,
        paths: &[Text],
    ) -> Result<(), Trouble>
        requires fit { self.old.master.failed ≡ false }
        requires keeps { KeepsRecord self.old.master.record }
        requires count { length self.old.slots ≡ length self.old.master.record.databases }
        requires inside { at < length self.old.slots }
        requires small { AreSmall paths.now }
        requires below { entry.store < self.old.master.record.next }
        requires standing { D.tells → AreStanding (D.disk dev.old) self.old }
        requires joins { D.tells → Joins (D.disk dev.old) self.old.master.record.databases (set self.old.slots at None) entry slot }
        requires unused { D.tells → AreUnused (set self.old.slots at slot) (at_paths paths.now) }
        ensures ready { OnOk result (IsReady self.new) }
        ensures fixed { OnOk result (fixed_of self.new.master.record ≡ set_stored (fixed_of self.old.master.record) at entry.is_stored) }
        ensures slots { OnOk result (self.new.slots ≡ set self.old.slots at slot) }
        ensures standing { D.tells → OnOk result (AreStanding (D.disk dev.new) self.new) }
        ensures stands { D.tells → (tolds : List Told) (told new : Told) → AreStores (D.disk dev.old) self.old tolds → MaySwap (D.disk dev.old) self.old tolds at told entry slot new paths.now → OnOk result (AreStores (D.disk dev.new) self.new (set tolds at new)) }
        ensures crash { D.tells → (tolds : List Told) (told new : Told) → AreStores (D.disk dev.old) self.old tolds → MaySwap (D.disk dev.old) self.old tolds at told entry slot new paths.now → Swaps self.old tolds at entry.is_stored new (D.disk dev.old) (D.disk dev.new) }
        ensures touches { D.tells → TouchesOurs (D.disk dev.old) (D.disk dev.new) }
        ensures trouble { IfErr result IsPassing }
        ensures cause { HasCause D.disk_faults D.tell_faults dev.old dev.new (IsErrOf result Trouble.Fault) }
    {
        let number = self.put_in_place(alloc, dev, at, entry, slot, paths)?;
        remove_parts(alloc, dev, number, paths)?;
        self.rest(alloc, dev)
    }
}
