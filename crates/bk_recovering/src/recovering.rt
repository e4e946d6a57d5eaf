// A database that is made of a set, opened, and recovered.
ghost use Rattle.std.specs.Prelude.{◌≡◌, ◌≤◌, ◌<◌, false, List, length, IfOk, OnOk, IsErrOf};
ghost use Rattle.bk_device.specs.Calls.{contents};
ghost use Rattle.bk_device.specs.Counts.{HasCause};
ghost use Rattle.bk_device.specs.Effects.{Effect};
ghost use Rattle.bk_arriving.specs.Filling.{MayFill};
ghost use Rattle.bk_known.specs.Known.{KeepsKnown};
ghost use Rattle.bk_reopening.specs.Opening.{TouchesDatabase};
ghost use Rattle.bk_reopening.specs.PagedNames.{IsOwn};
ghost use Rattle.bk_reopening.specs.Paged.{Standing, Touches};
ghost use Rattle.bk_record.specs.Spelling.{KeepsLimits};
ghost use Rattle.bk_reopening.specs.Reopening.{settled};
ghost use Rattle.bk_segments.specs.Files.{AreDurable as LogsAreDurable};
ghost use Rattle.bk_store.specs.Store.{Crashes, IsStore};
ghost use Rattle.bk_store.specs.Told.{Told, said};
ghost use Rattle.bk_world.specs.Records.{Logged};
ghost use Rattle.bk_recovering.specs.Recovering.{EndsWith, Makes, TouchesWith};

use crate::error::RecoverError;
use bk_arriving::{Medium, StoredSet, arrive};
use bk_device::Device;
use bk_facts::DataFile;
use bk_ids::{Lsn, Rec};
use bk_known::Known;
use bk_reopening::load;
use bk_store::{Store, StoreError};
use std::alloc::Global;
use std::thread::Threads;

// Makes the database of this number of a set, and opens it: what was pending is undone.
fn open_set<R: Threads + Sync, D: Device>(
    rt: &R,
    alloc: Global,
    dev: &mut D,
    medium: &Medium,
    set: &StoredSet,
    db: u32,
    files: Vec<DataFile>,
    checkpoint: Lsn,
    known: &Known,
    note: &[u8],
) -> Result<Store, RecoverError>
    requires may { MayFill files.items }
    requires keeps { KeepsKnown known.now }
    requires short { length note.now ≤ 12288 }
    requires apart { IsOwn db files.items medium.now.name → ⊥ }
    ensures fit { IfOk result (λ s. s.paged.failed ≡ false) }
    ensures standing { D.tells → IfOk result (λ s. Standing (D.disk dev.new) s.paged) }
    ensures ends { IfOk result (λ s. (s.paged.log.db ≡ db) × (s.paged.log.stored ≡ s.paged.log.«end»)) }
    ensures touches { D.tells → IfOk result (λ s. TouchesWith db files.items s (D.disk dev.old) (D.disk dev.new)) }
    ensures mine { D.tells → TouchesDatabase db (D.disk dev.old) (D.disk dev.new) }
    ensures stands { D.tells → LogsAreDurable db (D.disk dev.old) → (told : Told) → Makes (contents ((D.disk dev.old).files medium.now.name)) set.now files.items db checkpoint note.now known.now told → IfOk result (λ s. IsStore (D.disk dev.new) s (settled told)) }
    ensures unfit { D.tells → LogsAreDurable db (D.disk dev.old) → (told : Told) → Makes (contents ((D.disk dev.old).files medium.now.name)) set.now files.items db checkpoint note.now known.now told → IsErrOf result RecoverError.Unfit → ⊥ }
    ensures crash { D.tells → LogsAreDurable db (D.disk dev.old) → (told : Told) → Makes (contents ((D.disk dev.old).files medium.now.name)) set.now files.items db checkpoint note.now known.now told
        → Effect (IsOwn db files.items) (λ _. Unit {0}) (D.disk dev.old) (D.disk dev.new) }
    ensures cause { HasCause D.disk_faults D.tell_faults dev.old dev.new (IsErrOf result RecoverError.Fault) }
{
    arrive(alloc, dev, medium, set, db, files, checkpoint, known, note)?;
    let store = load(rt, alloc, dev, db)?;
    Ok(store)
}

// Says the last record of a recovery, which is durable then.
fn say_last<D: Device>(
    alloc: Global,
    dev: &mut D,
    store: &mut Store,
    last: &Rec,
) -> Result<(), StoreError>
    requires fit { store.old.paged.failed ≡ false }
    requires limits { KeepsLimits last.now.body }
    requires standing { D.tells → Standing (D.disk dev.old) store.old.paged }
    ensures fit { OnOk result (store.new.paged.failed ≡ false) }
    ensures standing { D.tells → OnOk result (Standing (D.disk dev.new) store.new.paged) }
    ensures ends { OnOk result ((store.new.paged.log.db ≡ store.old.paged.log.db) × (store.new.paged.log.stored ≡ store.new.paged.log.«end»)) }
    ensures files { OnOk result (store.new.paged.facts.files ≡ store.old.paged.facts.files) }
    ensures stands { D.tells → (told : Told) (r : Logged) → IsStore (D.disk dev.old) store.old (settled told) → EndsWith told r last.now → OnOk result (IsStore (D.disk dev.new) store.new (said (settled told) r)) }
    ensures touches { D.tells → Touches store.old.paged (D.disk dev.old) (D.disk dev.new) }
    ensures cause { HasCause D.disk_faults D.tell_faults dev.old dev.new (IsErrOf result StoreError.Fault) }
{
    store.say(alloc, dev, last)?;
    store.flush(alloc, dev)
}

/// Makes the database of this number of an opened full set, with these data files, the number of its latest checkpoint, what is known of it, and at most 12,288 bytes as the note of the layer above;
/// opens it, undoing what was pending, and says this record durably.
///
/// `Unfit` is answered only where the set makes no database of these data files. A crash or an error may leave anything in files of this number, but touches no others.
pub fn recover<R: Threads + Sync, D: Device>(
    rt: &R,
    alloc: Global,
    dev: &mut D,
    medium: &Medium,
    set: &StoredSet,
    db: u32,
    files: Vec<DataFile>,
    checkpoint: Lsn,
    known: &Known,
    note: &[u8],
    last: &Rec,
) -> Result<Store, RecoverError>
    requires may { MayFill files.items }
    requires keeps { KeepsKnown known.now }
    requires short { length note.now ≤ 12288 }
    requires apart { IsOwn db files.items medium.now.name → ⊥ }
    requires limits { KeepsLimits last.now.body }
    ensures fit { IfOk result (λ s. s.paged.failed ≡ false) }
    ensures standing { D.tells → IfOk result (λ s. Standing (D.disk dev.new) s.paged) }
    ensures ends { IfOk result (λ s. (s.paged.log.db ≡ db) × (s.paged.log.stored ≡ s.paged.log.«end»)) }
    ensures touches { D.tells → IfOk result (λ s. TouchesWith db files.items s (D.disk dev.old) (D.disk dev.new)) }
    ensures mine { D.tells → TouchesDatabase db (D.disk dev.old) (D.disk dev.new) }
    ensures stands { D.tells → LogsAreDurable db (D.disk dev.old) → (told : Told) (r : Logged) → Makes (contents ((D.disk dev.old).files medium.now.name)) set.now files.items db checkpoint note.now known.now told → EndsWith told r last.now
        → IfOk result (λ s. IsStore (D.disk dev.new) s (said (settled told) r)) }
    ensures unfit { D.tells → LogsAreDurable db (D.disk dev.old) → (told : Told) → Makes (contents ((D.disk dev.old).files medium.now.name)) set.now files.items db checkpoint note.now known.now told → IsErrOf result RecoverError.Unfit → ⊥ }
    ensures crash { D.tells → LogsAreDurable db (D.disk dev.old) → (told : Told) → Makes (contents ((D.disk dev.old).files medium.now.name)) set.now files.items db checkpoint note.now known.now told
        → Effect (IsOwn db files.items) (λ _. Unit {0}) (D.disk dev.old) (D.disk dev.new) }
    ensures cause { HasCause D.disk_faults D.tell_faults dev.old dev.new (IsErrOf result RecoverError.Fault) }
{
    let mut store = open_set(
        rt, alloc, dev, medium, set, db, files, checkpoint, known, note,
    )?;
    match say_last(alloc, dev, &mut store, last) {
        Ok(()) => Ok(store),
        Err(e) => {
            drop(store);
            Err(RecoverError::from(e))
        }
    }
}
