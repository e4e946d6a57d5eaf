// A hosted database is copied into a set.
ghost use Rattle.std.specs.Prelude.{◌≡◌, ◌≤◌, ◌<◌, ◌+◌, ◌^◌, ℕ, true, false, [], List, Some, length, slice_get, IfErr, OnOk, IsErrOf};
ghost use Rattle.bk_body.specs.Body.{Extent};
ghost use Rattle.bk_copying.specs.Copying.{IsNamed};
ghost use Rattle.bk_device.specs.Counts.{HasCause};
ghost use Rattle.bk_device.specs.Troubles.{IsPassing};
ghost use Rattle.bk_hosted.specs.Hosted.{Hosted};
ghost use Rattle.bk_store.specs.Store.{Kept as KeptStore};
ghost use Rattle.bk_store.specs.Told.{Told};
ghost use Rattle.bk_stores.specs.Standing.{AreStanding};
ghost use Rattle.bk_stores.specs.Stores.{AreStores, IsReady as AreReady};
ghost use Rattle.bk_volume.specs.Staging.{HoldsParts, IsStaged};
ghost use Rattle.bk_hosting.specs.Copying.{AreAsBefore, CopyLeaves, CopyLeavesStores, HaveExtents, HoldsCopies, HoldsLog, TouchesOursOr};
ghost use Rattle.bk_hosting.specs.Hosting.{AreFit, IsHosting, IsOpenAt, IsReady, IsSealedAt, Tells, own_of};

use crate::hosting::Hosting;
use bk_copying::{CopyError, copy_extents, copy_log};
use bk_device::{Device, Trouble};
use bk_ids::{ExtentId, Lsn};
use bk_store::Store;
use bk_stores::Stores;
use bk_volume::Staged;
use std::alloc::Global;

// Copies these data extents of the database at this place, whose store is open, as of its end, into a set that has no log yet. A crash leaves of each database at least what was durable, and anything in the
// set's file.
fn extents_on<D: Device>(
    stores: &mut Stores,
    alloc: Global,
    dev: &mut D,
    at: usize,
    staged: &mut Staged,
    extents: &[ExtentId],
) -> Result<(), CopyError>
    requires ready { AreReady stores.old }
    requires opened { IsOpenAt stores.old.slots at }
    requires there { HaveExtents stores.old.slots at extents.now }
    requires standing { D.tells → AreStanding (D.disk dev.old) stores.old }
    requires sound { staged.old.failed ≡ false }
    requires named { IsNamed staged.old }
    requires first { staged.old.log ≡ 0 }
    requires few { staged.old.extents + length extents.now < 2 ^ 32 }
    requires staged { D.tells → IsStaged (D.disk dev.old) staged.old }
    ensures ready { OnOk result (AreReady stores.new) }
    ensures same { OnOk result (AreAsBefore stores.old at stores.new) }
    ensures later { D.tells → (tolds : List Told) (s then : KeptStore) → AreStores (D.disk dev.old) stores.old tolds → slice_get stores.old.slots at ≡ Some (Some s) → slice_get stores.new.slots at ≡ Some (Some then)
        → OnOk result (s.paged.log.stored ≤ then.paged.log.stored) }
    ensures standing { D.tells → OnOk result (AreStanding (D.disk dev.new) stores.new) }
    ensures stands { D.tells → (tolds : List Told) → AreStores (D.disk dev.old) stores.old tolds → OnOk result (AreStores (D.disk dev.new) stores.new tolds) }
    ensures counted { OnOk result (staged.new ≡ record staged.old { extents = staged.old.extents + length extents.now }) }
    ensures name { staged.new.name ≡ staged.old.name }
    ensures staged { D.tells → OnOk result (IsStaged (D.disk dev.new) staged.new) }
    ensures added { D.tells → (tolds : List Told) (told : Told) → AreStores (D.disk dev.old) stores.old tolds → slice_get tolds at ≡ Some told → (before : List Extent) → HoldsParts (D.disk dev.old) staged.old before []
        → OnOk result (HoldsCopies (D.disk dev.new) staged.new before told extents.now) }
    ensures crash { D.tells → (tolds : List Told) → AreStores (D.disk dev.old) stores.old tolds → CopyLeavesStores stores.old tolds staged.old (D.disk dev.old) (D.disk dev.new) }
    ensures touches { D.tells → TouchesOursOr staged.old (D.disk dev.old) (D.disk dev.new) }
    ensures cause { HasCause D.disk_faults D.tell_faults dev.old dev.new (IsErrOf result CopyError.Fault) }
{
    let Some(mut store) = stores.take(at) else {
        return Err(CopyError::NoMemory);
    };
    let copied = copy_extents(alloc, dev, &mut store, staged, extents);
    stores.give(at, store);
    copied
}

// Whether a store holds the durable records from one number to below another.
fn has_log(store: &Store, from: Lsn, to: Lsn) -> bool
    ensures kept { result ≡ true → store.now.paged.log.head.kept ≤ from }
    ensures order { result ≡ true → from ≤ to }
    ensures inside { result ≡ true → to ≤ store.now.paged.log.stored }
{
    store.kept() <= from && from <= to && to <= store.stored()
}

// Copies the durable records of the database at this place from one number to below another into a set behind what it has. A crash leaves of each database at least what was durable, and anything in the set's
// file.
fn log_on<D: Device>(
    stores: &Stores,
    alloc: Global,
    dev: &mut D,
    at: usize,
    staged: &mut Staged,
    from: Lsn,
    to: Lsn,
) -> Result<(), CopyError>
    requires fit { AreFit stores.now.slots }
    requires inside { at < length stores.now.slots }
    requires standing { D.tells → AreStanding (D.disk dev.old) stores.now }
    requires sound { staged.old.failed ≡ false }
    requires named { IsNamed staged.old }
    requires staged { D.tells → IsStaged (D.disk dev.old) staged.old }
    ensures standing { D.tells → AreStanding (D.disk dev.new) stores.now }
    ensures stands { D.tells → (tolds : List Told) → AreStores (D.disk dev.old) stores.now tolds → AreStores (D.disk dev.new) stores.now tolds }
    ensures counted { OnOk result (staged.new ≡ record staged.old { log = staged.new.log }) }
    ensures name { staged.new.name ≡ staged.old.name }
    ensures staged { D.tells → OnOk result (IsStaged (D.disk dev.new) staged.new) }
    ensures added { D.tells → (tolds : List Told) (told : Told) → AreStores (D.disk dev.old) stores.now tolds → slice_get tolds at ≡ Some told → (extents : List Extent) (before : List ℕ) → HoldsParts (D.disk dev.old) staged.old extents before
        → OnOk result (HoldsLog (D.disk dev.new) staged.new extents before told.records from to) }
    ensures crash { D.tells → (tolds : List Told) → AreStores (D.disk dev.old) stores.now tolds → CopyLeavesStores stores.now tolds staged.old (D.disk dev.old) (D.disk dev.new) }
    ensures touches { D.tells → TouchesOursOr staged.old (D.disk dev.old) (D.disk dev.new) }
    ensures cause { HasCause D.disk_faults D.tell_faults dev.old dev.new (IsErrOf result CopyError.Fault) }
{
    let Some(store) = stores.store(at) else {
        return Err(CopyError::NoMemory);
    };
    if !has_log(store, from, to) {
        return Err(CopyError::NoMemory);
    }
    copy_log(alloc, dev, store, staged, from, to)
}

impl Hosting {
    /// Copies these data extents of the database at this place, from 0, as of its end, into a set that has no log yet. All is as it was then, but that some of what waited may be durable. A crash leaves the
    /// databases, but for what waits, and anything in the set's file.
    ///
    /// Only `Fault` and `NoMemory` are answered, `NoMemory` too while the database is being restored. After an error the set is removed.
    pub fn copy_extents<D: Device>(
        &mut self,
        alloc: Global,
        dev: &mut D,
        at: usize,
        staged: &mut Staged,
        extents: &[ExtentId],
    ) -> Result<(), Trouble>
        requires ready { IsReady self.old }
        requires inside { at < length self.old.states }
        requires there { HaveExtents self.old.stores.slots at extents.now }
        requires standing { D.tells → AreStanding (D.disk dev.old) self.old.stores }
        requires sound { staged.old.failed ≡ false }
        requires named { IsNamed staged.old }
        requires first { staged.old.log ≡ 0 }
        requires few { staged.old.extents + length extents.now < 2 ^ 32 }
        requires staged { D.tells → IsStaged (D.disk dev.old) staged.old }
        ensures ready { OnOk result (IsReady self.new) }
        ensures own { OnOk result (own_of self.new ≡ own_of self.old) }
        ensures same { OnOk result ((self.new.states ≡ self.old.states) × AreAsBefore self.old.stores at self.new.stores) }
        ensures lasts { D.tells → (hosted : List Hosted) → IsHosting (D.disk dev.old) self.old hosted → IsSealedAt self.old.stores.slots at → OnOk result (IsSealedAt self.new.stores.slots at) }
        ensures standing { D.tells → OnOk result (AreStanding (D.disk dev.new) self.new.stores) }
        ensures stands { D.tells → (hosted : List Hosted) → IsHosting (D.disk dev.old) self.old hosted → OnOk result (IsHosting (D.disk dev.new) self.new hosted) }
        ensures counted { OnOk result (staged.new ≡ record staged.old { extents = staged.old.extents + length extents.now }) }
        ensures name { staged.new.name ≡ staged.old.name }
        ensures staged { D.tells → OnOk result (IsStaged (D.disk dev.new) staged.new) }
        ensures added { D.tells → (hosted : List Hosted) (h : Hosted) → IsHosting (D.disk dev.old) self.old hosted → slice_get hosted at ≡ Some h → (before : List Extent) → HoldsParts (D.disk dev.old) staged.old before []
            → OnOk result ((told : Told) × Tells told h × HoldsCopies (D.disk dev.new) staged.new before told extents.now) }
        ensures crash { D.tells → (hosted : List Hosted) → IsHosting (D.disk dev.old) self.old hosted → CopyLeaves (own_of self.old) hosted staged.old (D.disk dev.old) (D.disk dev.new) }
        ensures touches { D.tells → TouchesOursOr staged.old (D.disk dev.old) (D.disk dev.new) }
        ensures trouble { IfErr result IsPassing }
        ensures cause { HasCause D.disk_faults D.tell_faults dev.old dev.new (IsErrOf result Trouble.Fault) }
    {
        if !self.is_open(at) {
            return Err(Trouble::NoMemory);
        }
        extents_on(&mut self.stores, alloc, dev, at, staged, extents)?;
        Ok(())
    }

    /// Copies the records of the database at this place, from 0, from the number `from` to below `to`, into a set behind what it has. The hosting stays as it is. A crash leaves the databases, but for what waits,
    /// and anything in the set's file.
    ///
    /// Only `Fault` and `NoMemory` are answered, `NoMemory` too where the live log doesn't hold these records, or some of them wait. After an error the set is removed.
    pub fn copy_log<D: Device>(
        &self,
        alloc: Global,
        dev: &mut D,
        at: usize,
        staged: &mut Staged,
        from: Lsn,
        to: Lsn,
    ) -> Result<(), Trouble>
        requires ready { IsReady self.now }
        requires inside { at < length self.now.states }
        requires standing { D.tells → AreStanding (D.disk dev.old) self.now.stores }
        requires sound { staged.old.failed ≡ false }
        requires named { IsNamed staged.old }
        requires staged { D.tells → IsStaged (D.disk dev.old) staged.old }
        ensures standing { D.tells → AreStanding (D.disk dev.new) self.now.stores }
        ensures stands { D.tells → (hosted : List Hosted) → IsHosting (D.disk dev.old) self.now hosted → IsHosting (D.disk dev.new) self.now hosted }
        ensures counted { OnOk result (staged.new ≡ record staged.old { log = staged.new.log }) }
        ensures name { staged.new.name ≡ staged.old.name }
        ensures staged { D.tells → OnOk result (IsStaged (D.disk dev.new) staged.new) }
        ensures added { D.tells → (hosted : List Hosted) (h : Hosted) → IsHosting (D.disk dev.old) self.now hosted → slice_get hosted at ≡ Some h → (extents : List Extent) (before : List ℕ) → HoldsParts (D.disk dev.old) staged.old extents before
            → OnOk result (HoldsLog (D.disk dev.new) staged.new extents before h.records from to) }
        ensures crash { D.tells → (hosted : List Hosted) → IsHosting (D.disk dev.old) self.now hosted → CopyLeaves (own_of self.now) hosted staged.old (D.disk dev.old) (D.disk dev.new) }
        ensures touches { D.tells → TouchesOursOr staged.old (D.disk dev.old) (D.disk dev.new) }
        ensures trouble { IfErr result IsPassing }
        ensures cause { HasCause D.disk_faults D.tell_faults dev.old dev.new (IsErrOf result Trouble.Fault) }
    {
        log_on(&self.stores, alloc, dev, at, staged, from, to)?;
        Ok(())
    }
}
