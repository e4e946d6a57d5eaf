// Opening what an instance keeps of its stores.
ghost use Rattle.std.specs.Prelude.{◌≡◌, ◌≢◌, ◌<◌, [], List, None, Some, true, false, length, map, replicate, set, slice_get, IfErr, IfOk, OnOk, IsErr, IsErrOf, MatchResult};
ghost use Rattle.bk_device.specs.Calls.{ChangesNothing};
ghost use Rattle.bk_device.specs.Counts.{HasCause};
ghost use Rattle.bk_device.specs.Disk.{IsSettled};
ghost use Rattle.bk_device.specs.Effects.{Effect, MayLeaveOwn};
ghost use Rattle.bk_device.specs.Troubles.{IsPassing};
ghost use Rattle.bk_master.specs.Master.{AreDurable, IsBroken, IsMade, IsMaster, IsNoInstance, IsOwn};
ghost use Rattle.bk_master.specs.Spelling.{IsShort, IsShortPath, IsSmall, KeepsRecord};
ghost use Rattle.bk_store.specs.Told.{Told};
ghost use Rattle.bk_stores.specs.Loading.{HoldsInstance, IsOfAny, Opens, shut};
ghost use Rattle.bk_stores.specs.Quiet.{AreQuiet};
ghost use Rattle.bk_stores.specs.Standing.{AreDifferent, AreNumbered, AreShut, AreStanding, LieBelow, LieUnder};
ghost use Rattle.bk_stores.specs.Stores.{AreEntries, AreStores, Fixed, IsOurs, IsReady, LeavesStores, TouchesOurs, fixed_of, sealed_at};

use crate::error::LoadError;
use crate::numbers::are_numbered;
use crate::stores::Stores;
use bk_device::{Device, Failed, Trouble};
use bk_filling::{FillError, remove_parts};
use bk_ids::Text;
use bk_master::{Master, Record, Unfinished};
use bk_store::Store;
use std::alloc::{AllocError, Global};

// Opens the instance's own files, or makes them with this number.
fn open_master<D: Device>(alloc: Global, dev: &mut D, number: u64) -> Result<Master, LoadError>
    ensures fit { IfOk result (λ m. m.failed ≡ false) }
    ensures master { D.tells → IfOk result (λ m. IsMaster (D.disk dev.new) m) }
    ensures stands { D.tells → IsSettled (D.disk dev.old) → (fixed : Fixed) (tolds : List Told) → HoldsInstance number fixed (D.disk dev.old).files tolds → IfOk result (λ m. AreStores (D.disk dev.new) (shut m) tolds) }
    ensures fixed { D.tells → (fixed : Fixed) (tolds : List Told) → HoldsInstance number fixed (D.disk dev.old).files tolds → IfOk result (λ m. fixed_of m.record ≡ fixed) }
    ensures not_an_instance { D.tells → IsErrOf result LoadError.NotAnInstance → IsNoInstance (D.disk dev.old).files }
    ensures no_instance { D.tells → IsNoInstance (D.disk dev.old).files → MatchResult result (λ _. ⊥) (λ e. e ≢ LoadError.Broken) }
    ensures broken { D.tells → IsErrOf result LoadError.Broken → (fixed : Fixed) (tolds : List Told) → HoldsInstance number fixed (D.disk dev.old).files tolds → ⊥ }
    ensures crash { D.tells → IsSettled (D.disk dev.old) → (fixed : Fixed) (tolds : List Told) → HoldsInstance number fixed (D.disk dev.old).files tolds → Opens number fixed tolds (D.disk dev.old) (D.disk dev.new) }
    ensures touches { D.tells → TouchesOurs (D.disk dev.old) (D.disk dev.new) }
    ensures untouched { D.tells → IsErrOf result LoadError.NotAnInstance → ChangesNothing (D.disk dev.old) (D.disk dev.new) }
    ensures still { D.tells → IsMade (D.disk dev.old).files → OnOk result (ChangesNothing (D.disk dev.old) (D.disk dev.new)) }
    ensures cause { HasCause D.disk_faults D.tell_faults dev.old dev.new (IsErrOf result LoadError.Fault) }
{
    sync_own(dev)?;
    let master = Master::load(alloc, dev, number)?;
    Ok(master)
}

// Whether a path has 1 to 100 bytes.
fn is_short(path: &Text) -> bool
    ensures short { result ≡ true → IsShortPath path.now }
    ensures all { IsShortPath path.now → result ≡ true }
{
    let len = path.as_str().len();
    1 <= len && len <= 100
}

// Whether the path of the medium that is being made is short, if there is one.
fn is_making_short(making: &Option<Text>) -> bool
    ensures short { result ≡ true → IsShort making.now }
    ensures all { IsShort making.now → result ≡ true }
{
    match making {
        Some(path) => is_short(path),
        None => true,
    }
}

// Whether a store that is being made or removed has at most 16 data files, each with a short path.
fn is_small(unfinished: &Unfinished) -> bool
    ensures small { result ≡ true → IsSmall unfinished.now }
    ensures all { IsSmall unfinished.now → result ≡ true }
{
    let paths = unfinished.paths.as_slice();
    paths.len() <= 16 && paths.iter().all(is_short)
}

// Whether a record keeps its limits.
fn keeps(record: &Record) -> bool
    ensures keeps { result ≡ true → KeepsRecord «record».now }
    ensures all { KeepsRecord «record».now → result ≡ true }
{
    let unfinished = record.unfinished.as_slice();
    is_making_short(&record.own.making)
        && record.own.copying.as_slice().len() <= 16
        && record.databases.as_slice().len() <= 16
        && unfinished.len() <= 2
        && unfinished.iter().all(is_small)
}

// Whether a record keeps its limits, and each of its stores has a number of its own.
fn is_sound(record: &Record) -> bool
    ensures keeps { result ≡ true → KeepsRecord «record».now }
    ensures numbered { result ≡ true → AreNumbered «record».now }
    ensures all { KeepsRecord «record».now → LieBelow «record».now.databases «record».now.next → LieUnder «record».now.unfinished «record».now.next → AreDifferent «record».now.databases → result ≡ true }
{
    keeps(record) && are_numbered(record)
}

// Makes durable what a read shows of an instance's own files: a process that was stopped may have left writes there that are still pending.
fn sync_own<D: Device>(dev: &mut D) -> Result<(), Failed>
    ensures durable { D.tells → OnOk result (AreDurable (D.disk dev.new)) }
    ensures effect { D.tells → OnOk result (ChangesNothing (D.disk dev.old) (D.disk dev.new)) }
    ensures crash { D.tells → Effect IsOwn (MayLeaveOwn IsOwn (D.disk dev.old)) (D.disk dev.old) (D.disk dev.new) }
    ensures cause { HasCause D.disk_faults D.tell_faults dev.old dev.new (IsErr result) }
{
    dev.sync("sqlbak.made")?;
    dev.sync("sqlbak.control")
}

// Removes what is there of stores that were being made or removed.
fn remove_all<D: Device>(
    alloc: Global,
    dev: &mut D,
    unfinished: &[Unfinished],
) -> Result<(), FillError>
    ensures crash { D.tells → Effect (IsOfAny unfinished.now) (λ _. Unit {0}) (D.disk dev.old) (D.disk dev.new) }
    ensures cause { HasCause D.disk_faults D.tell_faults dev.old dev.new (IsErrOf result FillError.Fault) }
{
    'stores: for it in unfinished {
        remove_parts(alloc, dev, it.store, it.paths.as_slice())?;
    }
    Ok(())
}

// So many stores that aren't open.
fn shut_slots(alloc: Global, count: usize) -> Result<Vec<Option<Store>>, AllocError>
    ensures { IfOk result (λ slots. slots.items ≡ replicate count None) }
{
    let mut slots = Vec::new(alloc);
    'shuts: for _ in 0..count {
        slots.push(None)?;
    }
    Ok(slots)
}

impl Stores {
    // Removes what was being made or removed, if something was.
    fn tidy<D: Device>(&mut self, alloc: Global, dev: &mut D) -> Result<(), Trouble>
        requires fit { self.old.master.failed ≡ false }
        requires keeps { KeepsRecord self.old.master.record }
        requires count { length self.old.slots ≡ length self.old.master.record.databases }
        requires master { D.tells → IsMaster (D.disk dev.old) self.old.master }
        ensures ready { OnOk result (IsReady self.new) }
        ensures fixed { OnOk result (fixed_of self.new.master.record ≡ fixed_of self.old.master.record) }
        ensures slots { OnOk result (self.new.slots ≡ self.old.slots) }
        ensures standing { D.tells → AreNumbered self.old.master.record → AreShut self.old.slots → OnOk result (AreStanding (D.disk dev.new) self.new) }
        ensures stands { D.tells → (tolds : List Told) → AreStores (D.disk dev.old) self.old tolds → OnOk result (AreStores (D.disk dev.new) self.new tolds) }
        ensures crash { D.tells → (tolds : List Told) → AreStores (D.disk dev.old) self.old tolds → Effect IsOurs (LeavesStores (fixed_of self.old.master.record) (sealed_at self.old tolds) tolds) (D.disk dev.old) (D.disk dev.new) }
        ensures touches { D.tells → TouchesOurs (D.disk dev.old) (D.disk dev.new) }
        ensures still { D.tells → self.old.master.record.unfinished ≡ [] → ChangesNothing (D.disk dev.old) (D.disk dev.new) }
        ensures trouble { IfErr result IsPassing }
        ensures cause { HasCause D.disk_faults D.tell_faults dev.old dev.new (IsErrOf result Trouble.Fault) }
    {
        if self.master.record().unfinished.as_slice().is_empty() {
            return Ok(());
        }
        remove_all(alloc, dev, self.master.record().unfinished.as_slice())?;
        self.rest(alloc, dev)
    }

    // Has no store open, and removes what was being made or removed. `Broken` is answered only where the record doesn't keep its limits, or stores have no number
    // of their own there.
    fn settle_in<D: Device>(&mut self, alloc: Global, dev: &mut D) -> Result<(), Trouble>
        requires fit { self.old.master.failed ≡ false }
        requires master { D.tells → IsMaster (D.disk dev.old) self.old.master }
        ensures ready { OnOk result (IsReady self.new) }
        ensures fixed { OnOk result (fixed_of self.new.master.record ≡ fixed_of self.old.master.record) }
        ensures slots { OnOk result (self.new.slots ≡ replicate (length self.new.slots) None) }
        ensures standing { D.tells → OnOk result (AreStanding (D.disk dev.new) self.new) }
        ensures stands { D.tells → (tolds : List Told) → AreStores (D.disk dev.old) (shut self.old.master) tolds → OnOk result (AreStores (D.disk dev.new) self.new tolds) }
        ensures crash { D.tells → (tolds : List Told) → AreStores (D.disk dev.old) (shut self.old.master) tolds → Effect IsOurs (LeavesStores (fixed_of self.old.master.record) (sealed_at (shut self.old.master) tolds) tolds) (D.disk dev.old) (D.disk dev.new) }
        ensures touches { D.tells → TouchesOurs (D.disk dev.old) (D.disk dev.new) }
        ensures still { D.tells → self.old.master.record.unfinished ≡ [] → OnOk result (ChangesNothing (D.disk dev.old) (D.disk dev.new)) }
        ensures broken { IsErrOf result Trouble.Broken → (tolds : List Told) → AreEntries self.old.master.record tolds → ⊥ }
        ensures cause { HasCause D.disk_faults D.tell_faults dev.old dev.new (IsErrOf result Trouble.Fault) }
    {
        if !is_sound(self.master.record()) {
            return Err(Trouble::Broken);
        }
        self.slots = shut_slots(alloc, self.master.record().databases.as_slice().len())?;
        self.tidy(alloc, dev)
    }

    /// Opens what an instance keeps of its stores, or makes an instance with this number where none is made; what was being made or removed is removed. No store is open then. A crash leaves the
    /// databases and the record's own part. Where nothing is pending the files stay as they are.
    ///
    /// `NotAnInstance` is answered only where the control file of an instance holds no control, `Broken` only where that holds no record within its limits (`KeepsRecord`, `AreNumbered`).
    pub fn load<D: Device>(alloc: Global, dev: &mut D, number: u64) -> Result<Stores, LoadError>
        ensures ready { IfOk result IsReady }
        ensures shut { IfOk result (λ s. s.slots ≡ replicate (length s.slots) None) }
        ensures standing { D.tells → IfOk result (λ s. AreStanding (D.disk dev.new) s) }
        ensures made { D.tells → OnOk result (IsMade (D.disk dev.new).files) }
        ensures stands { D.tells → IsSettled (D.disk dev.old) → (fixed : Fixed) (tolds : List Told) → HoldsInstance number fixed (D.disk dev.old).files tolds → IfOk result (λ s. AreStores (D.disk dev.new) s tolds) }
        ensures fixed { D.tells → (fixed : Fixed) (tolds : List Told) → HoldsInstance number fixed (D.disk dev.old).files tolds → IfOk result (λ s. fixed_of s.master.record ≡ fixed) }
        ensures not_an_instance { D.tells → IsErrOf result LoadError.NotAnInstance → IsNoInstance (D.disk dev.old).files }
        ensures no_instance { D.tells → IsNoInstance (D.disk dev.old).files → MatchResult result (λ _. ⊥) (λ e. e ≢ LoadError.Broken) }
        ensures broken { D.tells → IsErrOf result LoadError.Broken → IsSettled (D.disk dev.old) → (fixed : Fixed) (tolds : List Told) → HoldsInstance number fixed (D.disk dev.old).files tolds → ⊥ }
        ensures crash { D.tells → IsSettled (D.disk dev.old) → (fixed : Fixed) (tolds : List Told) → HoldsInstance number fixed (D.disk dev.old).files tolds → Opens number fixed tolds (D.disk dev.old) (D.disk dev.new) }
        ensures touches { D.tells → TouchesOurs (D.disk dev.old) (D.disk dev.new) }
        ensures untouched { D.tells → IsErrOf result LoadError.NotAnInstance → ChangesNothing (D.disk dev.old) (D.disk dev.new) }
        ensures still { D.tells → IsSettled (D.disk dev.old) → AreQuiet (D.disk dev.old).files → OnOk result (ChangesNothing (D.disk dev.old) (D.disk dev.new)) }
        ensures cause { HasCause D.disk_faults D.tell_faults dev.old dev.new (IsErrOf result LoadError.Fault) }
    {
        let master = open_master(alloc, dev, number)?;
        let mut stores = Stores {
            master,
            slots: Vec::new(alloc),
        };
        stores.settle_in(alloc, dev)?;
        Ok(stores)
    }
}
