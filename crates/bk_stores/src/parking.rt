// Databases of which a store's note alone tells, as while they are being restored.
ghost use Rattle.std.specs.Prelude.{◌≡◌, ◌≤◌, ◌<◌, ◌^◌, ◌∷◌, ◌++◌, [], List, None, Some, false, length, set, slice_get, IfErr, IfOk, OnOk, IsErrOf};
ghost use Rattle.bk_device.specs.Counts.{HasCause};
ghost use Rattle.bk_device.specs.Effects.{Effect};
ghost use Rattle.bk_device.specs.Troubles.{IsPassing};
ghost use Rattle.bk_known.specs.Known.{KeepsKnown};
ghost use Rattle.bk_paged.specs.Names.{IsOwn};
ghost use Rattle.bk_segments.specs.Files.{AreDurable as LogsAreDurable};
ghost use Rattle.bk_store.specs.Told.{Told};
ghost use Rattle.bk_stores.specs.Making.{Creates, MayRemove, Swaps, more_stored, set_stored};
ghost use Rattle.bk_stores.specs.Parking.{IsParked};
ghost use Rattle.bk_stores.specs.Records.{AreSmall, begun, parked_entry};
ghost use Rattle.bk_stores.specs.Standing.{AreStanding, AreUnused};
ghost use Rattle.bk_stores.specs.Stores.{AreStores, IsOurs, IsReady, IsShut, LeavesStores, TouchesOurs, at_paths, fixed_of, sealed_at};

use crate::stores::Stores;
use bk_device::{Device, Trouble};
use bk_filling::{FillError, Records, remove_parts};
use bk_ids::Text;
use bk_known::{Known, spell_known};
use bk_master::Entry;
use std::alloc::Global;

// Makes the log of this number, in place of what is there of it: without records, with this description and this note.
fn make_note<D: Device>(
    alloc: Global,
    dev: &mut D,
    number: u32,
    known: &Known,
    note: &[u8],
) -> Result<(), FillError>
    requires keeps { KeepsKnown known.now }
    requires short { length note.now ≤ 12288 }
    ensures shut { D.tells → LogsAreDurable number (D.disk dev.old) → (told : Told) → IsParked known.now note.now told → OnOk result (IsShut (D.disk dev.new) (parked_entry number) told) }
    ensures crash { D.tells → Effect (IsOwn number []) (λ _. Unit {0}) (D.disk dev.old) (D.disk dev.new) }
    ensures cause { HasCause D.disk_faults D.tell_faults dev.old dev.new (IsErrOf result FillError.Fault) }
{
    remove_parts(alloc, dev, number, &[])?;
    let bytes = spell_known(alloc, known, note)?;
    let log = Records::begin(alloc, dev, number, known.as_of.from)?;
    log.finish(alloc, dev, &bytes)
}

impl Stores {
    // Names the store of the next number as one that is being made, makes its log of this description and this note, and gives its number.
    fn make_parked<D: Device>(
        &mut self,
        alloc: Global,
        dev: &mut D,
        known: &Known,
        note: &[u8],
    ) -> Result<u32, Trouble>
        requires ready { IsReady self.old }
        requires keeps { KeepsKnown known.now }
        requires short { length note.now ≤ 12288 }
        requires standing { D.tells → AreStanding (D.disk dev.old) self.old }
        ensures fit { OnOk result (self.new.master.failed ≡ false) }
        ensures number { IfOk result (λ n. n ≡ self.old.master.record.next) }
        ensures begun { OnOk result (self.new.master.record ≡ begun self.old.master.record []) }
        ensures slots { OnOk result (self.new.slots ≡ self.old.slots) }
        ensures few { OnOk result (self.old.master.record.next < 2 ^ 32) }
        ensures standing { D.tells → OnOk result (AreStanding (D.disk dev.new) self.new) }
        ensures stands { D.tells → (tolds : List Told) → AreStores (D.disk dev.old) self.old tolds → OnOk result (AreStores (D.disk dev.new) self.new tolds) }
        ensures shut { D.tells → (tolds : List Told) (told : Told) → AreStores (D.disk dev.old) self.old tolds → IsParked known.now note.now told → OnOk result (IsShut (D.disk dev.new) (parked_entry self.old.master.record.next) told) }
        ensures crash { D.tells → (tolds : List Told) → AreStores (D.disk dev.old) self.old tolds → Effect IsOurs (LeavesStores (fixed_of self.old.master.record) (sealed_at self.old tolds) tolds) (D.disk dev.old) (D.disk dev.new) }
        ensures touches { D.tells → TouchesOurs (D.disk dev.old) (D.disk dev.new) }
        ensures trouble { IfErr result IsPassing }
        ensures cause { HasCause D.disk_faults D.tell_faults dev.old dev.new (IsErrOf result Trouble.Fault) }
    {
        let number = self.master.record().next;
        self.begin_store(alloc, dev, &[])?;
        make_note(alloc, dev, number, known, note)?;
        Ok(number)
    }

    /// Takes a database in behind the others of which only this description and this note of at most 12,288 bytes are kept, in the note of a log without records; there are fewer than 16. It stands for each
    /// database that they describe as of its end. A crash leaves the databases that were there, or these and the new one.
    ///
    /// Only `Fault` and `NoMemory` are answered.
    pub fn park_new<D: Device>(
        &mut self,
        alloc: Global,
        dev: &mut D,
        known: &Known,
        note: &[u8],
    ) -> Result<(), Trouble>
        requires ready { IsReady self.old }
        requires few { length self.old.slots < 16 }
        requires keeps { KeepsKnown known.now }
        requires short { length note.now ≤ 12288 }
        requires standing { D.tells → AreStanding (D.disk dev.old) self.old }
        ensures ready { OnOk result (IsReady self.new) }
        ensures fixed { OnOk result (fixed_of self.new.master.record ≡ more_stored (fixed_of self.old.master.record) false) }
        ensures slots { OnOk result (self.new.slots ≡ self.old.slots ++ None ∷ []) }
        ensures standing { D.tells → OnOk result (AreStanding (D.disk dev.new) self.new) }
        ensures stands { D.tells → (tolds : List Told) (told : Told) → AreStores (D.disk dev.old) self.old tolds → IsParked known.now note.now told → OnOk result (AreStores (D.disk dev.new) self.new (tolds ++ told ∷ [])) }
        ensures crash { D.tells → (tolds : List Told) (told : Told) → AreStores (D.disk dev.old) self.old tolds → IsParked known.now note.now told → Creates self.old tolds false told (D.disk dev.old) (D.disk dev.new) }
        ensures touches { D.tells → TouchesOurs (D.disk dev.old) (D.disk dev.new) }
        ensures trouble { IfErr result IsPassing }
        ensures cause { HasCause D.disk_faults D.tell_faults dev.old dev.new (IsErrOf result Trouble.Fault) }
    {
        let number = self.make_parked(alloc, dev, known, note)?;
        let entry = Entry {
            store: number,
            is_stored: false,
        };
        self.add(alloc, dev, entry, None)
    }

    /// Keeps of the database at this place, which counts from 0, only this description and this note of at most 12,288 bytes, in the note of a log without records, and removes its store's files, with data files
    /// at these paths, if it has some, which no other open store has. It stands for each database that they describe. A crash leaves the database as it was, or so.
    ///
    /// Only `Fault` and `NoMemory` are answered.
    pub fn park_at<D: Device>(
        &mut self,
        alloc: Global,
        dev: &mut D,
        at: usize,
        known: &Known,
        note: &[u8],
        paths: &[Text],
    ) -> Result<(), Trouble>
        requires ready { IsReady self.old }
        requires inside { at < length self.old.slots }
        requires keeps { KeepsKnown known.now }
        requires short { length note.now ≤ 12288 }
        requires small { AreSmall paths.now }
        requires standing { D.tells → AreStanding (D.disk dev.old) self.old }
        requires unused { D.tells → AreUnused (set self.old.slots at None) (at_paths paths.now) }
        ensures ready { OnOk result (IsReady self.new) }
        ensures fixed { OnOk result (fixed_of self.new.master.record ≡ set_stored (fixed_of self.old.master.record) at false) }
        ensures slots { OnOk result (self.new.slots ≡ set self.old.slots at None) }
        ensures standing { D.tells → OnOk result (AreStanding (D.disk dev.new) self.new) }
        ensures stands { D.tells → (tolds : List Told) (told new : Told) → AreStores (D.disk dev.old) self.old tolds → MayRemove self.old tolds at told paths.now → IsParked known.now note.now new → OnOk result (AreStores (D.disk dev.new) self.new (set tolds at new)) }
        ensures crash { D.tells → (tolds : List Told) (told new : Told) → AreStores (D.disk dev.old) self.old tolds → MayRemove self.old tolds at told paths.now → IsParked known.now note.now new → Swaps self.old tolds at false new (D.disk dev.old) (D.disk dev.new) }
        ensures touches { D.tells → TouchesOurs (D.disk dev.old) (D.disk dev.new) }
        ensures trouble { IfErr result IsPassing }
        ensures cause { HasCause D.disk_faults D.tell_faults dev.old dev.new (IsErrOf result Trouble.Fault) }
    {
        let number = self.make_parked(alloc, dev, known, note)?;
        let entry = Entry {
            store: number,
            is_stored: false,
        };
        self.swap(alloc, dev, at, entry, None, paths)
    }
}
