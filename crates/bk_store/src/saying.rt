// Saying a record behind the others.
ghost use Rattle.std.specs.Prelude.{◌≡◌, ◌≤◌, ◌+◌, true, false, OnOk, IsErrOf};
ghost use Rattle.bk_device.specs.Counts.{HasCause};
ghost use Rattle.bk_paged.specs.Log.{KeepsSpare};
ghost use Rattle.bk_paged.specs.Appends.{MayAppend, MaySay, page_at};
ghost use Rattle.bk_paged.specs.Names.{IsThere};
ghost use Rattle.bk_paged.specs.Paged.{Standing, Touches};
ghost use Rattle.bk_record.specs.Spelling.{KeepsLimits};
ghost use Rattle.bk_shown.specs.Shown.{IsNext};
ghost use Rattle.bk_undo.specs.Spelled.{spelled};
ghost use Rattle.bk_world.specs.Records.{Logged};
ghost use Rattle.bk_store.specs.Store.{Crashes, IsStore};
ghost use Rattle.bk_store.specs.Told.{Told, files_of, said};

use crate::error::StoreError;
use crate::store::Store;
use crate::view::view;
use bk_device::Device;
use bk_ids::{Body, Lsn, Place, Rec};
use bk_paged::Paged;
use std::alloc::Global;

// Numbers from here on, 2^62, are never given.
const LAST_NUMBER: u64 = 1 << 62;

// Whether the page of a cell is one of a data file.
fn is_there(paged: &Paged, place: Place) -> bool
    ensures yes { result ≡ true → IsThere paged.now.facts.files (page_at place) }
    ensures no { result ≡ false → IsThere paged.now.facts.files (page_at place) → ⊥ }
{
    place.page < paged.pages(place.file)
}

// Whether what a record sets may be set: a write's transaction began at the kept point or behind it, and the page is there.
fn may_set(paged: &Paged, begin: Lsn, body: &Body) -> bool
    ensures yes { result ≡ true → MaySay paged.now begin body.now }
    ensures no { result ≡ false → MaySay paged.now begin body.now → ⊥ }
{
    match body {
        Body::Write { place, .. } => paged.kept() <= begin && is_there(paged, *place),
        Body::Compensation { place, .. } => is_there(paged, *place),
        Body::Bulk { .. } => false,
        _ => true,
    }
}

// Whether a record has the next number, and may be set.
fn may_append(paged: &Paged, r: &Rec) -> bool
    requires limits { KeepsLimits r.now.body }
    ensures yes { result ≡ true → MayAppend paged.now r.now }
    ensures no { result ≡ false → MayAppend paged.now r.now → ⊥ }
{
    r.lsn == paged.end()
        && r.lsn < LAST_NUMBER
        && r.begin <= r.lsn
        && may_set(paged, r.begin, &r.body)
}

impl Store {
    /// Says a record behind the others, where it may come: it waits in the log, is shown, and its cell is set in memory. Where every frame is dirty, what waited is made durable and all changed
    /// pages are written first. A crash leaves what was durable, or some more of what was said before.
    ///
    /// Where it may not come next the call ends as if memory were wanting, or the store stands for nothing more.
    pub fn say<D: Device>(&mut self, alloc: Global, dev: &mut D, r: &Rec) -> Result<(), StoreError>
        requires fit { self.old.paged.failed ≡ false }
        requires limits { KeepsLimits r.now.body }
        requires standing { D.tells → Standing (D.disk dev.old) self.old.paged }
        ensures fit { OnOk result (self.new.paged.failed ≡ false) }
        ensures stands { D.tells → (told : Told) (said_now : Logged) → IsStore (D.disk dev.old) self.old told → IsNext (files_of told) told.records said_now → spelled said_now ≡ r.now
            → OnOk result (IsStore (D.disk dev.new) self.new (said told said_now)) }
        ensures standing { D.tells → OnOk result (Standing (D.disk dev.new) self.new.paged) }
        ensures ends { OnOk result ((self.new.paged.log.db ≡ self.old.paged.log.db) × (self.new.paged.log.end ≡ self.old.paged.log.end + 1) × (self.new.paged.log.head.kept ≡ self.old.paged.log.head.kept)) }
        ensures files { OnOk result (self.new.paged.facts.files ≡ self.old.paged.facts.files) }
        ensures spare { OnOk result (KeepsSpare self.old.paged.log self.new.paged.log) }
        ensures later { D.tells → (told : Told) → IsStore (D.disk dev.old) self.old told → OnOk result (self.old.paged.log.stored ≤ self.new.paged.log.stored) }
        ensures same { OnOk result ((self.new.known ≡ self.old.known) × (self.new.note ≡ self.old.note)) }
        ensures crash { D.tells → (told : Told) → IsStore (D.disk dev.old) self.old told → Crashes self.old told (D.disk dev.old) (D.disk dev.new) }
        ensures touches { D.tells → Touches self.old.paged (D.disk dev.old) (D.disk dev.new) }
        ensures cause { HasCause D.disk_faults D.tell_faults dev.old dev.new (IsErrOf result StoreError.Fault) }
    {
        self.paged.at_rest(dev);
        if !may_append(&self.paged, r) {
            return Err(StoreError::NoMemory);
        }
        let Some(taken) = view(r) else {
            return Err(StoreError::NoMemory);
        };
        self.shown.take(taken)?;
        self.paged.append(alloc, dev, r)?;
        Ok(())
    }
}
