// Making a database.
ghost use Rattle.std.specs.Prelude.{◌≡◌, ◌≤◌, ◌<◌, ◌+◌, ◌^◌, ◌∷◌, ◌++◌, false, [], List, None, Some, length, map, true, IfErr, IfOk, OnOk, IsErrOf};
ghost use Rattle.bk_device.specs.Counts.{HasCause};
ghost use Rattle.bk_control.specs.Slots.{control_of};
ghost use Rattle.bk_device.specs.Disk.{IsDurable};
ghost use Rattle.bk_device.specs.Effects.{Effect};
ghost use Rattle.bk_device.specs.Troubles.{IsPassing};
ghost use Rattle.bk_segments.specs.Files.{control_file, AreDurable as LogsAreDurable};
ghost use Rattle.bk_store.specs.Making.{MayDescribe, founded};
ghost use Rattle.bk_store.specs.Store.{Kept as KeptStore};
ghost use Rattle.bk_store.specs.Told.{Told, data_file, data_files};
ghost use Rattle.bk_stores.specs.Making.{Adds, Creates, IsSealed, MayAdd, more_stored};
ghost use Rattle.bk_stores.specs.Records.{AreSmall, IsApart, SharesNone, begun, rested};
ghost use Rattle.bk_stores.specs.Standing.{AreStanding, AreUnused, Joins};
ghost use Rattle.bk_stores.specs.Stores.{AreStores, IsOurs, IsReady, IsSlot, LeavesStores, TouchesOurs, at_paths, fixed_of, its_files, sealed_at};

use crate::records::{added_record, begin_record, paths_of};
use crate::stores::Stores;
use bk_device::{Device, Trouble};
use bk_filling::remove_parts;
use bk_ids::{Guid, Text};
use bk_known::DatabaseSpec;
use bk_master::Entry;
use bk_store::Store;
use std::alloc::Global;

impl Stores {
    /// Names the store of the next number as one that is being made, with data files at these paths, at most 16. Where no database has one of these, a crash leaves the databases that were there. Nothing is pending in the log that
    /// the store is to have.
    ///
    /// Only `Fault` and `NoMemory` are answered.
    pub fn begin_store<D: Device>(
        &mut self,
        alloc: Global,
        dev: &mut D,
        paths: &[Text],
    ) -> Result<(), Trouble>
        requires ready { IsReady self.old }
        requires small { AreSmall paths.now }
        requires standing { D.tells → AreStanding (D.disk dev.old) self.old }
        ensures fit { OnOk result (self.new.master.failed ≡ false) }
        ensures begun { OnOk result (self.new.master.record ≡ begun self.old.master.record paths.now) }
        ensures slots { OnOk result (self.new.slots ≡ self.old.slots) }
        ensures few { OnOk result (self.old.master.record.next < 2 ^ 32) }
        ensures standing { D.tells → OnOk result (AreStanding (D.disk dev.new) self.new) }
        ensures free { D.tells → (tolds : List Told) → AreStores (D.disk dev.old) self.old tolds → OnOk result (LogsAreDurable self.old.master.record.next (D.disk dev.new)) }
        ensures stands { D.tells → (tolds : List Told) → AreStores (D.disk dev.old) self.old tolds → SharesNone self.old.master.record.databases tolds (at_paths paths.now) → OnOk result (AreStores (D.disk dev.new) self.new tolds) }
        ensures crash { D.tells → (tolds : List Told) → AreStores (D.disk dev.old) self.old tolds → SharesNone self.old.master.record.databases tolds (at_paths paths.now) → Effect IsOurs (LeavesStores (fixed_of self.old.master.record) (sealed_at self.old tolds) tolds) (D.disk dev.old) (D.disk dev.new) }
        ensures touches { D.tells → TouchesOurs (D.disk dev.old) (D.disk dev.new) }
        ensures trouble { IfErr result IsPassing }
        ensures cause { HasCause D.disk_faults D.tell_faults dev.old dev.new (IsErrOf result Trouble.Fault) }
    {
        let next = begin_record(alloc, self.master.record(), paths)?;
        self.master.put(alloc, dev, next)?;
        Ok(())
    }

    /// Takes a database in behind the others, whose store was begun before and is whole, open or not: the instance's record names it then, and nothing that is being made. A crash leaves the databases that were
    /// there, or these and the new one.
    ///
    /// Only `Fault` and `NoMemory` are answered.
    pub fn add<D: Device>(
        &mut self,
        alloc: Global,
        dev: &mut D,
        entry: Entry,
        slot: Option<Store>,
    ) -> Result<(), Trouble>
        requires fit { self.old.master.failed ≡ false }
        requires adds { Adds self.old entry.store }
        requires standing { D.tells → AreStanding (D.disk dev.old) self.old }
        requires joins { D.tells → Joins (D.disk dev.old) self.old.master.record.databases self.old.slots entry slot }
        ensures ready { OnOk result (IsReady self.new) }
        ensures fixed { OnOk result (fixed_of self.new.master.record ≡ more_stored (fixed_of self.old.master.record) entry.is_stored) }
        ensures slots { OnOk result (self.new.slots ≡ self.old.slots ++ slot ∷ []) }
        ensures standing { D.tells → OnOk result (AreStanding (D.disk dev.new) self.new) }
        ensures stands { D.tells → (tolds : List Told) (new : Told) → AreStores (D.disk dev.old) self.old tolds → MayAdd (D.disk dev.old) self.old tolds entry slot new → OnOk result (AreStores (D.disk dev.new) self.new (tolds ++ new ∷ [])) }
        ensures crash { D.tells → (tolds : List Told) (new : Told) → AreStores (D.disk dev.old) self.old tolds → MayAdd (D.disk dev.old) self.old tolds entry slot new → Creates self.old tolds entry.is_stored new (D.disk dev.old) (D.disk dev.new) }
        ensures touches { D.tells → TouchesOurs (D.disk dev.old) (D.disk dev.new) }
        ensures trouble { IfErr result IsPassing }
        ensures cause { HasCause D.disk_faults D.tell_faults dev.old dev.new (IsErrOf result Trouble.Fault) }
    {
        self.slots.push(slot)?;
        let next = added_record(alloc, self.master.record(), entry)?;
        self.master.put(alloc, dev, next)?;
        Ok(())
    }

    // Names the store of the next number as one that is being made, for a database of this description, removes what is there of it, and gives its number.
    fn make_way<D: Device>(
        &mut self,
        alloc: Global,
        dev: &mut D,
        spec: &DatabaseSpec,
    ) -> Result<u32, Trouble>
        requires ready { IsReady self.old }
        requires may { MayDescribe spec.now }
        requires standing { D.tells → AreStanding (D.disk dev.old) self.old }
        requires unused { D.tells → AreUnused self.old.slots (at_paths (map (λ f. f.path) spec.now.storage.files)) }
        ensures fit { OnOk result (self.new.master.failed ≡ false) }
        ensures number { IfOk result (λ n. n ≡ self.old.master.record.next) }
        ensures begun { OnOk result (self.new.master.record ≡ begun self.old.master.record (map (λ f. f.path) spec.now.storage.files)) }
        ensures slots { OnOk result (self.new.slots ≡ self.old.slots) }
        ensures few { OnOk result (self.old.master.record.next < 2 ^ 32) }
        ensures none { D.tells → OnOk result ((control_of ((D.disk dev.new).files (control_file self.old.master.record.next)) ≡ None) × IsDurable (D.disk dev.new) (control_file self.old.master.record.next)) }
        ensures standing { D.tells → OnOk result (AreStanding (D.disk dev.new) self.new) }
        ensures stands { D.tells → (tolds : List Told) → AreStores (D.disk dev.old) self.old tolds → SharesNone self.old.master.record.databases tolds (map data_file spec.now.storage.files) → OnOk result (AreStores (D.disk dev.new) self.new tolds) }
        ensures crash { D.tells → (tolds : List Told) → AreStores (D.disk dev.old) self.old tolds → SharesNone self.old.master.record.databases tolds (map data_file spec.now.storage.files) → Effect IsOurs (LeavesStores (fixed_of self.old.master.record) (sealed_at self.old tolds) tolds) (D.disk dev.old) (D.disk dev.new) }
        ensures touches { D.tells → TouchesOurs (D.disk dev.old) (D.disk dev.new) }
        ensures trouble { IfErr result IsPassing }
        ensures cause { HasCause D.disk_faults D.tell_faults dev.old dev.new (IsErrOf result Trouble.Fault) }
    {
        let number = self.master.record().next;
        let paths = paths_of(alloc, spec.storage.files.as_slice())?;
        self.begin_store(alloc, dev, &paths)?;
        remove_parts(alloc, dev, number, &paths)?;
        Ok(number)
    }

    /// Makes a database of this description behind fewer than 16 others, with a durable record that it was made at this time, in milliseconds since 1970-01-01 00:00:00 UTC, on this branch; its store is open then,
    /// with so many frames for pages, at least one. No open store has one of its data files. Where no database has, a crash leaves the others, or them and this one.
    ///
    /// Only `Fault` and `NoMemory` are answered.
    pub fn create<D: Device>(
        &mut self,
        alloc: Global,
        dev: &mut D,
        spec: DatabaseSpec,
        time: u64,
        branch: Guid,
        frames: usize,
    ) -> Result<(), Trouble>
        requires ready { IsReady self.old }
        requires few { length self.old.slots < 16 }
        requires some { 1 ≤ frames }
        requires may { MayDescribe spec }
        requires standing { D.tells → AreStanding (D.disk dev.old) self.old }
        requires unused { D.tells → AreUnused self.old.slots (at_paths (map (λ f. f.path) spec.storage.files)) }
        ensures ready { OnOk result (IsReady self.new) }
        ensures fixed { OnOk result (fixed_of self.new.master.record ≡ more_stored (fixed_of self.old.master.record) true) }
        ensures opens { OnOk result ((s : KeptStore) × (self.new.slots ≡ self.old.slots ++ Some s ∷ []) × IsSealed s) }
        ensures standing { D.tells → OnOk result (AreStanding (D.disk dev.new) self.new) }
        ensures stands { D.tells → (tolds : List Told) → AreStores (D.disk dev.old) self.old tolds → SharesNone self.old.master.record.databases tolds (map data_file spec.storage.files) → OnOk result (AreStores (D.disk dev.new) self.new (tolds ++ founded spec time branch ∷ [])) }
        ensures crash { D.tells → (tolds : List Told) → AreStores (D.disk dev.old) self.old tolds → SharesNone self.old.master.record.databases tolds (map data_file spec.storage.files) → Creates self.old tolds true (founded spec time branch) (D.disk dev.old) (D.disk dev.new) }
        ensures touches { D.tells → TouchesOurs (D.disk dev.old) (D.disk dev.new) }
        ensures trouble { IfErr result IsPassing }
        ensures cause { HasCause D.disk_faults D.tell_faults dev.old dev.new (IsErrOf result Trouble.Fault) }
    {
        let number = self.make_way(alloc, dev, &spec)?;
        let store = Store::create(alloc, dev, number, spec, time, branch, frames)?;
        let entry = Entry {
            store: number,
            is_stored: true,
        };
        self.add(alloc, dev, entry, Some(store))
    }
}
