// A database that is brought up: it is made of a set on a medium, in the place of one of which a note alone told.
ghost use Rattle.std.specs.Prelude.{◌≡◌, ◌≤◌, ◌<◌, List, Some, false, true, length, set, slice_get, IfErr, IfOk, OnOk, IsErrOf};
ghost use Rattle.bk_device.specs.Counts.{HasCause};
ghost use Rattle.bk_device.specs.Effects.{Effect};
ghost use Rattle.bk_device.specs.Troubles.{IsPassing};
ghost use Rattle.bk_filling.specs.Filling.{MayFill};
ghost use Rattle.bk_known.specs.Known.{KeepsKnown};
ghost use Rattle.bk_master.specs.declared.record.Entry.{Entry as Entries};
ghost use Rattle.bk_paged.specs.Paged.{Standing};
ghost use Rattle.bk_record.specs.Spelling.{KeepsLimits};
ghost use Rattle.bk_recovering.specs.Recovering.{EndsWith};
ghost use Rattle.bk_reopening.specs.Reopening.{settled};
ghost use Rattle.bk_segments.specs.Files.{AreDurable as LogsAreDurable};
ghost use Rattle.bk_store.specs.Store.{IsStore, Kept as KeptStore};
ghost use Rattle.bk_store.specs.Told.{Told, said};
ghost use Rattle.bk_stores.specs.Bringing.{IsNamed, MakesNext};
ghost use Rattle.bk_stores.specs.Making.{IsSealed, Swaps, set_stored};
ghost use Rattle.bk_stores.specs.Records.{SharesNone};
ghost use Rattle.bk_stores.specs.Standing.{AreStanding, AreUnused};
ghost use Rattle.bk_stores.specs.Stores.{AreStores, IsOurs, IsReady, LeavesStores, TouchesOurs, fixed_of, sealed_at};
ghost use Rattle.bk_world.specs.Records.{Logged};

use crate::records::data_paths;
use crate::stores::Stores;
use bk_device::{Device, Trouble};
use bk_facts::DataFile;
use bk_ids::{Lsn, Rec};
use bk_known::Known;
use bk_master::Entry;
use bk_recovering::{Medium, StoredSet, recover};
use bk_store::Store;
use std::alloc::Global;
use std::thread::Threads;

impl Stores {
    // Names the store of the next number as one that is being made, with these data files, and gives its number.
    fn begin_with<D: Device>(
        &mut self,
        alloc: Global,
        dev: &mut D,
        files: &[DataFile],
    ) -> Result<u32, Trouble>
        requires ready { IsReady self.old }
        requires may { MayFill files.now }
        requires standing { D.tells → AreStanding (D.disk dev.old) self.old }
        ensures fit { OnOk result (self.new.master.failed ≡ false) }
        ensures number { IfOk result (λ n. n ≡ self.old.master.record.next) }
        ensures named { OnOk result (IsNamed self.old self.new files.now) }
        ensures standing { D.tells → OnOk result (AreStanding (D.disk dev.new) self.new) }
        ensures free { D.tells → (tolds : List Told) → AreStores (D.disk dev.old) self.old tolds → OnOk result (LogsAreDurable self.old.master.record.next (D.disk dev.new)) }
        ensures stands { D.tells → (tolds : List Told) → AreStores (D.disk dev.old) self.old tolds → SharesNone self.old.master.record.databases tolds files.now → OnOk result (AreStores (D.disk dev.new) self.new tolds) }
        ensures crash { D.tells → (tolds : List Told) → AreStores (D.disk dev.old) self.old tolds → SharesNone self.old.master.record.databases tolds files.now → Effect IsOurs (LeavesStores (fixed_of self.old.master.record) (sealed_at self.old tolds) tolds) (D.disk dev.old) (D.disk dev.new) }
        ensures touches { D.tells → TouchesOurs (D.disk dev.old) (D.disk dev.new) }
        ensures trouble { IfErr result IsPassing }
        ensures cause { HasCause D.disk_faults D.tell_faults dev.old dev.new (IsErrOf result Trouble.Fault) }
    {
        let number = self.master.record().next;
        let paths = data_paths(alloc, files)?;
        self.begin_store(alloc, dev, &paths)?;
        Ok(number)
    }

    // Names the store of the next number as one that is being made, makes its database of a set, opens it, and says this record; no other open store has one of its data files.
    fn recover_next<R: Threads + Sync, D: Device>(
        &mut self,
        rt: &R,
        alloc: Global,
        dev: &mut D,
        medium: &Medium,
        stored: &StoredSet,
        files: Vec<DataFile>,
        checkpoint: Lsn,
        known: &Known,
        note: &[u8],
        last: &Rec,
    ) -> Result<Store, Trouble>
        requires ready { IsReady self.old }
        requires may { MayFill files.items }
        requires keeps { KeepsKnown known.now }
        requires short { length note.now ≤ 12288 }
        requires limits { KeepsLimits last.now.body }
        requires elsewhere { IsOurs medium.now.name → ⊥ }
        requires standing { D.tells → AreStanding (D.disk dev.old) self.old }
        requires unused { D.tells → AreUnused self.old.slots files.items }
        ensures fit { OnOk result (self.new.master.failed ≡ false) }
        ensures named { OnOk result (IsNamed self.old self.new files.items) }
        ensures number { IfOk result (λ s. s.paged.log.db ≡ self.old.master.record.next) }
        ensures sealed { IfOk result IsSealed }
        ensures unused { IfOk result (λ s. AreUnused self.old.slots s.paged.facts.files) }
        ensures opened { D.tells → IfOk result (λ s. Standing (D.disk dev.new) s.paged) }
        ensures standing { D.tells → OnOk result (AreStanding (D.disk dev.new) self.new) }
        ensures store { D.tells → (tolds : List Told) (told : Told) (r : Logged) → AreStores (D.disk dev.old) self.old tolds → SharesNone self.old.master.record.databases tolds files.items → MakesNext (D.disk dev.old) self.old medium.now.name stored.now files.items checkpoint note.now known.now told → EndsWith told r last.now
            → IfOk result (λ s. IsStore (D.disk dev.new) s (said (settled told) r)) }
        ensures stands { D.tells → (tolds : List Told) (told : Told) → AreStores (D.disk dev.old) self.old tolds → SharesNone self.old.master.record.databases tolds files.items → MakesNext (D.disk dev.old) self.old medium.now.name stored.now files.items checkpoint note.now known.now told
            → OnOk result (AreStores (D.disk dev.new) self.new tolds) }
        ensures crash { D.tells → (tolds : List Told) (told : Told) → AreStores (D.disk dev.old) self.old tolds → SharesNone self.old.master.record.databases tolds files.items → MakesNext (D.disk dev.old) self.old medium.now.name stored.now files.items checkpoint note.now known.now told
            → Effect IsOurs (LeavesStores (fixed_of self.old.master.record) (sealed_at self.old tolds) tolds) (D.disk dev.old) (D.disk dev.new) }
        ensures touches { D.tells → TouchesOurs (D.disk dev.old) (D.disk dev.new) }
        ensures broken { D.tells → IsErrOf result Trouble.Broken → (tolds : List Told) (told : Told) (r : Logged) → AreStores (D.disk dev.old) self.old tolds → SharesNone self.old.master.record.databases tolds files.items
            → MakesNext (D.disk dev.old) self.old medium.now.name stored.now files.items checkpoint note.now known.now told → EndsWith told r last.now → ⊥ }
        ensures cause { HasCause D.disk_faults D.tell_faults dev.old dev.new (IsErrOf result Trouble.Fault) }
    {
        let number = self.begin_with(alloc, dev, &files)?;
        let recovered = recover(
            rt, alloc, dev, medium, stored, number, files, checkpoint, known, note, last,
        )?;
        self.checked(recovered)
    }

    /// Makes the database at this place, from 0, of which a note alone told, of a full set, with these data files, which no open store has, and a note of at most 12,288 bytes. What is pending is
    /// undone, this record is said, all is durable then, its store open. A crash leaves the databases as they were, or this one so.
    ///
    /// `Broken` is answered only where the set makes no database with them, or another has one.
    pub fn bring_up<R: Threads + Sync, D: Device>(
        &mut self,
        rt: &R,
        alloc: Global,
        dev: &mut D,
        at: usize,
        medium: &Medium,
        stored: &StoredSet,
        files: Vec<DataFile>,
        checkpoint: Lsn,
        known: &Known,
        note: &[u8],
        last: &Rec,
    ) -> Result<(), Trouble>
        requires ready { IsReady self.old }
        requires inside { at < length self.old.slots }
        requires parked { (e : Entries) × (slice_get self.old.master.record.databases at ≡ Some e) × (e.is_stored ≡ false) }
        requires may { MayFill files.items }
        requires keeps { KeepsKnown known.now }
        requires short { length note.now ≤ 12288 }
        requires limits { KeepsLimits last.now.body }
        requires elsewhere { IsOurs medium.now.name → ⊥ }
        requires standing { D.tells → AreStanding (D.disk dev.old) self.old }
        requires unused { D.tells → AreUnused self.old.slots files.items }
        ensures ready { OnOk result (IsReady self.new) }
        ensures fixed { OnOk result (fixed_of self.new.master.record ≡ set_stored (fixed_of self.old.master.record) at true) }
        ensures opens { OnOk result ((s : KeptStore) × (self.new.slots ≡ set self.old.slots at (Some s)) × IsSealed s) }
        ensures standing { D.tells → OnOk result (AreStanding (D.disk dev.new) self.new) }
        ensures stands { D.tells → (tolds : List Told) (told : Told) (r : Logged) → AreStores (D.disk dev.old) self.old tolds → SharesNone self.old.master.record.databases tolds files.items → MakesNext (D.disk dev.old) self.old medium.now.name stored.now files.items checkpoint note.now known.now told → EndsWith told r last.now
            → OnOk result (AreStores (D.disk dev.new) self.new (set tolds at (said (settled told) r))) }
        ensures crash { D.tells → (tolds : List Told) (told : Told) (r : Logged) → AreStores (D.disk dev.old) self.old tolds → SharesNone self.old.master.record.databases tolds files.items → MakesNext (D.disk dev.old) self.old medium.now.name stored.now files.items checkpoint note.now known.now told → EndsWith told r last.now
            → Swaps self.old tolds at true (said (settled told) r) (D.disk dev.old) (D.disk dev.new) }
        ensures touches { D.tells → TouchesOurs (D.disk dev.old) (D.disk dev.new) }
        ensures broken { D.tells → IsErrOf result Trouble.Broken → (tolds : List Told) (told : Told) (r : Logged) → AreStores (D.disk dev.old) self.old tolds → SharesNone self.old.master.record.databases tolds files.items
            → MakesNext (D.disk dev.old) self.old medium.now.name stored.now files.items checkpoint note.now known.now told → EndsWith told r last.now → ⊥ }
        ensures cause { HasCause D.disk_faults D.tell_faults dev.old dev.new (IsErrOf result Trouble.Fault) }
    {
        let number = self.master.record().next;
        let store = self.recover_next(
            rt, alloc, dev, medium, stored, files, checkpoint, known, note, last,
        )?;
        let entry = Entry {
            store: number,
            is_stored: true,
        };
        self.swap(alloc, dev, at, entry, Some(store), &[])
    }
}
