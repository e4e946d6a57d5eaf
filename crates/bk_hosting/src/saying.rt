// A store that says several records.
ghost use Rattle.std.specs.Prelude.{◌≡◌, ◌≤◌, ◌<◌, ◌+◌, true, false, List, None, Some, length, set, slice_get, IfErr, OnOk, IsErrOf};
ghost use Rattle.std.specs.List.{AllByRecursion};
ghost use Rattle.bk_device.specs.Counts.{HasCause};
ghost use Rattle.bk_device.specs.Effects.{Effect};
ghost use Rattle.bk_device.specs.Troubles.{IsPassing};
ghost use Rattle.bk_ids.specs.declared.record.Rec.{Rec as Recs};
ghost use Rattle.bk_paged.specs.Paged.{Standing, Touches};
ghost use Rattle.bk_record.specs.Spelling.{KeepsLimits};
ghost use Rattle.bk_store.specs.Store.{Crashes, IsStore, Kept as KeptStore};
ghost use Rattle.bk_store.specs.Told.{Told};
ghost use Rattle.bk_stores.specs.Making.{IsSealed};
ghost use Rattle.bk_stores.specs.Standing.{AreStanding};
ghost use Rattle.bk_stores.specs.Stores.{AreStores, IsOurs, IsReady, LeavesStores, TouchesOurs, fixed_of, sealed_at};
ghost use Rattle.bk_world.specs.Records.{Logged};
ghost use Rattle.bk_hosting.specs.Hosting.{IsOpenAt};
ghost use Rattle.bk_hosting.specs.Saying.{MaySayAll, SealsUpTo, telling};

use bk_device::{Device, Trouble};
use bk_ids::Rec;
use bk_store::{Store, StoreError};
use bk_stores::Stores;
use std::alloc::Global;

// Says these records behind the others, where they may come. A crash leaves what was durable, or some more of what was said.
fn say_all<D: Device>(
    alloc: Global,
    dev: &mut D,
    store: &mut Store,
    records: &[Rec],
) -> Result<(), StoreError>
    requires fit { store.old.paged.failed ≡ false }
    requires limits { AllByRecursion (λ (r : Recs). KeepsLimits r.body) records.now }
    requires standing { D.tells → Standing (D.disk dev.old) store.old.paged }
    ensures fit { OnOk result (store.new.paged.failed ≡ false) }
    ensures standing { D.tells → OnOk result (Standing (D.disk dev.new) store.new.paged) }
    ensures number { OnOk result (store.new.paged.log.db ≡ store.old.paged.log.db) }
    ensures files { OnOk result (store.new.paged.facts.files ≡ store.old.paged.facts.files) }
    ensures stands { D.tells → (told : Told) (next : List Logged) → IsStore (D.disk dev.old) store.old told → MaySayAll told next records.now → OnOk result (IsStore (D.disk dev.new) store.new (telling told next)) }
    ensures later { D.tells → (told : Told) (next : List Logged) → IsStore (D.disk dev.old) store.old told → MaySayAll told next records.now → OnOk result (store.old.paged.log.stored ≤ store.new.paged.log.stored) }
    ensures crash { D.tells → (told : Told) (next : List Logged) → IsStore (D.disk dev.old) store.old told → MaySayAll told next records.now → Crashes store.old (telling told next) (D.disk dev.old) (D.disk dev.new) }
    ensures touches { D.tells → Touches store.old.paged (D.disk dev.old) (D.disk dev.new) }
    ensures cause { HasCause D.disk_faults D.tell_faults dev.old dev.new (IsErrOf result StoreError.Fault) }
{
    for r in records {
        store.say(alloc, dev, r)?;
    }
    Ok(())
}

// Says these records, and makes all that was said durable where it is to last.
fn say_lasting<D: Device>(
    alloc: Global,
    dev: &mut D,
    store: &mut Store,
    records: &[Rec],
    lasting: bool,
) -> Result<(), StoreError>
    requires fit { store.old.paged.failed ≡ false }
    requires limits { AllByRecursion (λ (r : Recs). KeepsLimits r.body) records.now }
    requires standing { D.tells → Standing (D.disk dev.old) store.old.paged }
    ensures fit { OnOk result (store.new.paged.failed ≡ false) }
    ensures standing { D.tells → OnOk result (Standing (D.disk dev.new) store.new.paged) }
    ensures number { OnOk result (store.new.paged.log.db ≡ store.old.paged.log.db) }
    ensures files { OnOk result (store.new.paged.facts.files ≡ store.old.paged.facts.files) }
    ensures stands { D.tells → (told : Told) (next : List Logged) → IsStore (D.disk dev.old) store.old told → MaySayAll told next records.now → OnOk result (IsStore (D.disk dev.new) store.new (telling told next)) }
    ensures seals { D.tells → (told : Told) (next : List Logged) → IsStore (D.disk dev.old) store.old told → MaySayAll told next records.now → OnOk result (SealsUpTo lasting store.old store.new) }
    ensures all { lasting ≡ true → OnOk result (store.new.paged.log.stored ≡ store.new.paged.log.«end») }
    ensures crash { D.tells → (told : Told) (next : List Logged) → IsStore (D.disk dev.old) store.old told → MaySayAll told next records.now → Crashes store.old (telling told next) (D.disk dev.old) (D.disk dev.new) }
    ensures touches { D.tells → Touches store.old.paged (D.disk dev.old) (D.disk dev.new) }
    ensures cause { HasCause D.disk_faults D.tell_faults dev.old dev.new (IsErrOf result StoreError.Fault) }
{
    say_all(alloc, dev, store, records)?;
    if !lasting {
        return Ok(());
    }
    store.flush(alloc, dev)
}

/// Says these records behind those of the database at this place, whose store is open, where they may come; all that it has said is durable then where it is to last. A crash leaves the others, and of it what was
/// durable, or some more of what was said.
pub(crate) fn say_on<D: Device>(
    stores: &mut Stores,
    alloc: Global,
    dev: &mut D,
    at: usize,
    records: &[Rec],
    lasting: bool,
) -> Result<(), Trouble>
    requires ready { IsReady stores.old }
    requires opened { IsOpenAt stores.old.slots at }
    requires limits { AllByRecursion (λ (r : Recs). KeepsLimits r.body) records.now }
    requires standing { D.tells → AreStanding (D.disk dev.old) stores.old }
    ensures ready { OnOk result (IsReady stores.new) }
    ensures slots { OnOk result ((s : KeptStore) × (stores.new ≡ record stores.old { slots = set stores.old.slots at (Some s) }) × (s.paged.failed ≡ false) × (lasting ≡ true → IsSealed s)) }
    ensures standing { D.tells → OnOk result (AreStanding (D.disk dev.new) stores.new) }
    ensures stands { D.tells → (tolds : List Told) (told : Told) (next : List Logged) → AreStores (D.disk dev.old) stores.old tolds → slice_get tolds at ≡ Some told → MaySayAll told next records.now
        → OnOk result (AreStores (D.disk dev.new) stores.new (set tolds at (telling told next))) }
    ensures seals { D.tells → (tolds : List Told) (told : Told) (next : List Logged) (s then : KeptStore) → AreStores (D.disk dev.old) stores.old tolds → slice_get tolds at ≡ Some told → MaySayAll told next records.now
        → slice_get stores.old.slots at ≡ Some (Some s) → slice_get stores.new.slots at ≡ Some (Some then) → OnOk result (SealsUpTo lasting s then) }
    ensures crash { D.tells → (tolds : List Told) (told : Told) (next : List Logged) → AreStores (D.disk dev.old) stores.old tolds → slice_get tolds at ≡ Some told → MaySayAll told next records.now
        → Effect IsOurs (LeavesStores (fixed_of stores.old.master.record) (sealed_at stores.old tolds) (set tolds at (telling told next))) (D.disk dev.old) (D.disk dev.new) }
    ensures touches { D.tells → TouchesOurs (D.disk dev.old) (D.disk dev.new) }
    ensures trouble { IfErr result IsPassing }
    ensures cause { HasCause D.disk_faults D.tell_faults dev.old dev.new (IsErrOf result Trouble.Fault) }
{
    let Some(mut store) = stores.take(at) else {
        return Err(Trouble::NoMemory);
    };
    let said = say_lasting(alloc, dev, &mut store, records, lasting);
    stores.give(at, store);
    said?;
    Ok(())
}
