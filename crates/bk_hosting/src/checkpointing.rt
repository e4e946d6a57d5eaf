// A checkpoint of a hosted database.
ghost use Rattle.std.specs.Prelude.{◌≡◌, ◌≤◌, ◌<◌, ◌+◌, ◌^◌, false, List, None, Some, length, set, slice_get, IfErr, OnOk, IsErrOf};
ghost use Rattle.bk_device.specs.Counts.{HasCause};
ghost use Rattle.bk_device.specs.Effects.{Effect};
ghost use Rattle.bk_device.specs.Troubles.{IsPassing};
ghost use Rattle.bk_hosted.specs.Hosted.{Hosted};
ghost use Rattle.bk_paged.specs.Paged.{Standing, Touches};
ghost use Rattle.bk_store.specs.Store.{Crashes, IsStore, Kept as KeptStore};
ghost use Rattle.bk_store.specs.Told.{Told};
ghost use Rattle.bk_stores.specs.Standing.{AreStanding};
ghost use Rattle.bk_stores.specs.Stores.{AreStores, IsOurs, IsReady as AreReady, LeavesStores, TouchesOurs, fixed_of, sealed_at};
ghost use Rattle.bk_hosting.specs.Checkpointing.{LeavesChecked, checked, marked};
ghost use Rattle.bk_hosting.specs.Hosting.{IsHosting, IsOpenAt, IsReady, own_of};

use crate::hosting::Hosting;
use crate::noting::points_on;
use bk_device::{Device, Trouble};
use bk_ids::Lsn;
use bk_points::Points;
use bk_store::{Store, StoreError};
use bk_stores::Stores;
use std::alloc::Global;

// Makes a checkpoint of a store, where there is a number for its record.
fn mark_store<D: Device>(
    alloc: Global,
    dev: &mut D,
    store: &mut Store,
    time: u64,
    floor: Lsn,
) -> Result<(), StoreError>
    requires fit { store.old.paged.failed ≡ false }
    requires standing { D.tells → Standing (D.disk dev.old) store.old.paged }
    ensures fit { OnOk result (store.new.paged.failed ≡ false) }
    ensures standing { D.tells → OnOk result (Standing (D.disk dev.new) store.new.paged) }
    ensures number { OnOk result (store.new.paged.log.db ≡ store.old.paged.log.db) }
    ensures files { OnOk result (store.new.paged.facts.files ≡ store.old.paged.facts.files) }
    ensures sealed { OnOk result (store.new.paged.log.stored ≡ store.new.paged.log.«end») }
    ensures stands { D.tells → (told : Told) → IsStore (D.disk dev.old) store.old told → OnOk result (IsStore (D.disk dev.new) store.new (marked told time)) }
    ensures crash { D.tells → (told : Told) → IsStore (D.disk dev.old) store.old told → Crashes store.old (marked told time) (D.disk dev.old) (D.disk dev.new) }
    ensures touches { D.tells → Touches store.old.paged (D.disk dev.old) (D.disk dev.new) }
    ensures cause { HasCause D.disk_faults D.tell_faults dev.old dev.new (IsErrOf result StoreError.Fault) }
{
    if store.end() >= 1 << 62 {
        return Err(StoreError::NoMemory);
    }
    store.checkpoint(alloc, dev, time, floor)
}

// Makes a checkpoint of the database at this place, whose store is open. A crash leaves the others, and of it what was durable, or some more of what was said.
fn mark_on<D: Device>(
    stores: &mut Stores,
    alloc: Global,
    dev: &mut D,
    at: usize,
    time: u64,
    floor: Lsn,
) -> Result<(), Trouble>
    requires ready { AreReady stores.old }
    requires opened { IsOpenAt stores.old.slots at }
    requires standing { D.tells → AreStanding (D.disk dev.old) stores.old }
    ensures ready { OnOk result (AreReady stores.new) }
    ensures slots { OnOk result ((s : KeptStore) × (stores.new ≡ record stores.old { slots = set stores.old.slots at (Some s) }) × (s.paged.failed ≡ false) × (s.paged.log.stored ≡ s.paged.log.«end»)) }
    ensures standing { D.tells → OnOk result (AreStanding (D.disk dev.new) stores.new) }
    ensures stands { D.tells → (tolds : List Told) (told : Told) → AreStores (D.disk dev.old) stores.old tolds → slice_get tolds at ≡ Some told → OnOk result (AreStores (D.disk dev.new) stores.new (set tolds at (marked told time))) }
    ensures crash { D.tells → (tolds : List Told) (told : Told) → AreStores (D.disk dev.old) stores.old tolds → slice_get tolds at ≡ Some told
        → Effect IsOurs (LeavesStores (fixed_of stores.old.master.record) (sealed_at stores.old tolds) (set tolds at (marked told time))) (D.disk dev.old) (D.disk dev.new) }
    ensures touches { D.tells → TouchesOurs (D.disk dev.old) (D.disk dev.new) }
    ensures trouble { IfErr result IsPassing }
    ensures cause { HasCause D.disk_faults D.tell_faults dev.old dev.new (IsErrOf result Trouble.Fault) }
{
    let Some(mut store) = stores.take(at) else {
        return Err(Trouble::NoMemory);
    };
    let made = mark_store(alloc, dev, &mut store, time, floor);
    stores.give(at, store);
    made?;
    Ok(())
}

// Points that await a checkpoint at this number, behind which the live log holds what is kept.
fn await_checkpoint(points: &mut Points, end: Lsn, kept: Lsn)
    ensures { points.new ≡ record points.old { next_checkpoint = end; next_kept = kept } }
{
    points.next_checkpoint = end;
    points.next_kept = kept;
}

// Takes the checkpoint that was awaited in.
fn fold(points: &mut Points)
    ensures { points.new ≡ record points.old { next_checkpoint = 0; next_kept = 0; kept = points.old.next_kept; checkpoint = points.old.next_checkpoint } }
{
    points.checkpoint = points.next_checkpoint;
    points.kept = points.next_kept;
    points.next_checkpoint = 0;
    points.next_kept = 0;
}

impl Hosting {
    /// Makes a checkpoint of the database at this place, from 0, at this moment, in milliseconds since 1970-01-01 00:00:00 UTC: it is noted with the least number that the live log then holds, and its record is said;
    /// all that was said is durable then, and each page. Its log is cut there. A crash leaves the databases as before, but for what waited, or this one with the checkpoint noted, or said.
    ///
    /// Only `Fault` and `NoMemory` are answered.
    pub fn checkpoint<D: Device>(
        &mut self,
        alloc: Global,
        dev: &mut D,
        at: usize,
        time: u64,
        kept: Lsn,
    ) -> Result<(), Trouble>
        requires ready { IsReady self.old }
        requires inside { at < length self.old.states }
        requires standing { D.tells → AreStanding (D.disk dev.old) self.old.stores }
        ensures ready { OnOk result (IsReady self.new) }
        ensures own { OnOk result (own_of self.new ≡ own_of self.old) }
        ensures standing { D.tells → OnOk result (AreStanding (D.disk dev.new) self.new.stores) }
        ensures stands { D.tells → (hosted : List Hosted) (h : Hosted) → IsHosting (D.disk dev.old) self.old hosted → slice_get hosted at ≡ Some h → OnOk result (IsHosting (D.disk dev.new) self.new (set hosted at (checked h time kept))) }
        ensures crash { D.tells → (hosted : List Hosted) (h : Hosted) → IsHosting (D.disk dev.old) self.old hosted → slice_get hosted at ≡ Some h → Effect IsOurs (LeavesChecked (own_of self.old) hosted at h time kept) (D.disk dev.old) (D.disk dev.new) }
        ensures touches { D.tells → TouchesOurs (D.disk dev.old) (D.disk dev.new) }
        ensures trouble { IfErr result IsPassing }
        ensures cause { HasCause D.disk_faults D.tell_faults dev.old dev.new (IsErrOf result Trouble.Fault) }
    {
        let Some(store) = self.stores.store(at) else {
            return Err(Trouble::NoMemory);
        };
        let end = store.end();
        await_checkpoint(&mut self.states[at].points, end, kept);
        points_on(&mut self.stores, alloc, dev, at, &self.states[at].points)?;
        mark_on(&mut self.stores, alloc, dev, at, time, kept)?;
        fold(&mut self.states[at].points);
        Ok(())
    }
}
