// What a store's note says.
ghost use Rattle.std.specs.Prelude.{◌≡◌, ◌≤◌, ◌^◌, ◌<◌, ◌+◌, ◌⊎◌, List, false, true, length, IfOk, OnOk, IsErrOf};
ghost use Rattle.bk_device.specs.Counts.{HasCause};
ghost use Rattle.bk_paged.specs.Log.{KeepsSpare};
ghost use Rattle.bk_paged.specs.Paged.{Standing, Touches};
ghost use Rattle.bk_shown.specs.Shown.{Shows};
ghost use Rattle.std.specs.List.{AllByRecursion};
ghost use Rattle.bk_world.specs.declared.database.FileSpec.{FileSpec};
ghost use Rattle.bk_world.specs.Records.{Logged, checkpointed};
ghost use Rattle.bk_store.specs.Cutting.{IsFloor, MayBeCut};
ghost use Rattle.bk_store.specs.Store.{Crashes, IsStore, NotesOr, at_end};
ghost use Rattle.bk_store.specs.Told.{IsAsOf, Told, said};

use crate::error::StoreError;
use crate::store::Store;
use bk_device::Device;
use bk_ids::{Lsn, Sequence};
use bk_known::{AsOf, spell_known};
use bk_paged::Paged;
use bk_paths::settling_law;
use bk_record::{BodyRef, RecRef};
use bk_shown::Shown;
use bk_world::TableSpec;
use std::alloc::{AllocError, Global};

// How many tables a note has room for.
const MOST_TABLES: usize = 64;

// A table of its own.
fn copy_table(alloc: Global, table: &TableSpec) -> Result<TableSpec, AllocError>
    ensures { IfOk result (λ copy. copy ≡ table.now) }
{
    Ok(TableSpec {
        number: table.number,
        name: table.name.copy(alloc)?,
        group: table.group,
    })
}

/// Tables of their own.
pub fn copy_tables(alloc: Global, tables: &[TableSpec]) -> Result<Sequence<TableSpec>, AllocError>
    ensures { IfOk result (λ copy. copy ≡ tables.now) }
{
    let mut copy = Vec::new(alloc);
    for table in tables {
        copy.push(copy_table(alloc, table)?)?;
    }
    Ok(Sequence::new(copy))
}

// Tables, model and last time as of the end.
fn as_of_end(alloc: Global, shown: &Shown) -> Result<AsOf, AllocError>
    ensures from { IfOk result (λ a. a.from ≡ shown.now.«end») }
    ensures says { IfOk result (λ a. (files : List FileSpec) (rs : List Logged) → Shows files rs shown.now → IsAsOf a rs) }
{
    let tables = copy_tables(alloc, shown.tables())?;
    Ok(AsOf {
        from: shown.end(),
        tables,
        model: shown.model(),
        time: shown.time(),
    })
}

// Whether a log may be cut at a number: it is no less than the kept point, and neither the latest checkpoint nor what the note needs lies below it.
fn may_cut(paged: &Paged, needed: Lsn, to: Lsn) -> bool
    ensures from { result ≡ true → paged.now.log.head.kept ≤ to }
    ensures early { result ≡ true → to ≤ paged.now.facts.checkpoint }
    ensures inside { result ≡ true → to ≤ paged.now.log.stored }
    ensures needed { result ≡ true → to ≤ needed }
    ensures no { result ≡ false → paged.now.log.head.kept ≤ to → to ≤ paged.now.facts.checkpoint → to ≤ paged.now.log.stored → to ≤ needed → ⊥ }
{
    paged.kept() <= to && to <= paged.checkpointed() && to <= paged.stored() && to <= needed
}

// Whether each transaction with a pending write began at this number or later.
fn are_open_from(shown: &Shown, to: Lsn) -> bool
    ensures yes { result ≡ true → AllByRecursion (λ w. to ≤ w.begin) shown.now.written.items }
    ensures no { result ≡ false → AllByRecursion (λ w. to ≤ w.begin) shown.now.written.items → ⊥ }
{
    shown.written().iter().all(|write| to <= write.begin)
}

impl Store {
    /// Makes these bytes, at most 12,288, the note of the layer above. A crash leaves the old note or the new one.
    pub fn set_note<D: Device>(
        &mut self,
        alloc: Global,
        dev: &mut D,
        note: &[u8],
    ) -> Result<(), StoreError>
        requires fit { self.old.paged.failed ≡ false }
        requires short { length note.now ≤ 12288 }
        requires standing { D.tells → Standing (D.disk dev.old) self.old.paged }
        ensures fit { OnOk result (self.new.paged.failed ≡ false) }
        ensures stands { D.tells → (told : Told) → IsStore (D.disk dev.old) self.old told → OnOk result (IsStore (D.disk dev.new) self.new (record told { note = note.now })) }
        ensures standing { D.tells → OnOk result (Standing (D.disk dev.new) self.new.paged) }
        ensures ends { OnOk result ((self.new.paged.log.db ≡ self.old.paged.log.db) × (self.new.paged.log.end ≡ self.old.paged.log.end) × (self.new.paged.log.stored ≡ self.old.paged.log.stored) × (self.new.paged.log.head.kept ≡ self.old.paged.log.head.kept)) }
        ensures files { OnOk result (self.new.paged.facts.files ≡ self.old.paged.facts.files) }
        ensures spare { OnOk result (KeepsSpare self.old.paged.log self.new.paged.log) }
        ensures crash { D.tells → (told : Told) → IsStore (D.disk dev.old) self.old told → NotesOr self.old told note.now (D.disk dev.old) (D.disk dev.new) }
        ensures touches { D.tells → Touches self.old.paged (D.disk dev.old) (D.disk dev.new) }
        ensures cause { HasCause D.disk_faults D.tell_faults dev.old dev.new (IsErrOf result StoreError.Fault) }
    {
        self.paged.at_rest(dev);
        let bytes = spell_known(alloc, &self.known, note)?;
        let copy = note.to_vec(alloc)?;
        self.paged.set_note(alloc, dev, &bytes)?;
        self.note = copy;
        Ok(())
    }

    // Makes what is known as of the end durable, where all records are.
    fn note_end<D: Device>(&mut self, alloc: Global, dev: &mut D) -> Result<(), StoreError>
        requires fit { self.old.paged.failed ≡ false }
        requires sealed { self.old.paged.log.stored ≡ self.old.paged.log.end }
        requires standing { D.tells → Standing (D.disk dev.old) self.old.paged }
        ensures fit { OnOk result (self.new.paged.failed ≡ false) }
        ensures stands { D.tells → (told : Told) → IsStore (D.disk dev.old) self.old told → OnOk result (IsStore (D.disk dev.new) self.new told) }
        ensures standing { D.tells → OnOk result (Standing (D.disk dev.new) self.new.paged) }
        ensures ends { OnOk result ((self.new.paged.log.db ≡ self.old.paged.log.db) × (self.new.paged.log.end ≡ self.old.paged.log.end) × (self.new.paged.log.stored ≡ self.old.paged.log.stored) × (self.new.paged.log.head.kept ≡ self.old.paged.log.head.kept)) }
        ensures facts { OnOk result (self.new.paged.facts ≡ self.old.paged.facts) }
        ensures spare { OnOk result (KeepsSpare self.old.paged.log self.new.paged.log) }
        ensures from { OnOk result (self.new.known.as_of.from ≡ self.old.shown.«end») }
        ensures crash { D.tells → (told : Told) → IsStore (D.disk dev.old) self.old told → Crashes self.old told (D.disk dev.old) (D.disk dev.new) }
        ensures touches { D.tells → Touches self.old.paged (D.disk dev.old) (D.disk dev.new) }
        ensures cause { HasCause D.disk_faults D.tell_faults dev.old dev.new (IsErrOf result StoreError.Fault) }
    {
        self.paged.at_rest(dev);
        let as_of = as_of_end(alloc, &self.shown)?;
        if as_of.tables.as_slice().len() > MOST_TABLES {
            return Err(StoreError::NoMemory);
        }
        self.known.as_of = as_of;
        let bytes = spell_known(alloc, &self.known, &self.note)?;
        self.paged.set_note(alloc, dev, &bytes)?;
        Ok(())
    }

    // Makes a checkpoint of log and pages, and takes its record in.
    fn mark_checkpoint<D: Device>(
        &mut self,
        alloc: Global,
        dev: &mut D,
        now: u64,
    ) -> Result<(), StoreError>
        requires fit { self.old.paged.failed ≡ false }
        requires room { self.old.paged.log.end < 2 ^ 62 }
        requires standing { D.tells → Standing (D.disk dev.old) self.old.paged }
        ensures fit { OnOk result (self.new.paged.failed ≡ false) }
        ensures stands { D.tells → (told : Told) → IsStore (D.disk dev.old) self.old told → OnOk result (IsStore (D.disk dev.new) self.new (said told (at_end self.old 0 (checkpointed now)))) }
        ensures standing { D.tells → OnOk result (Standing (D.disk dev.new) self.new.paged) }
        ensures ends { OnOk result ((self.new.paged.log.db ≡ self.old.paged.log.db) × (self.new.paged.log.end ≡ self.old.paged.log.end + 1) × (self.new.paged.log.stored ≡ self.new.paged.log.end) × (self.new.paged.log.head.kept ≡ self.old.paged.log.head.kept)) }
        ensures files { OnOk result (self.new.paged.facts.files ≡ self.old.paged.facts.files) }
        ensures spare { OnOk result (KeepsSpare self.old.paged.log self.new.paged.log) }
        ensures checkpoint { OnOk result (self.new.paged.facts.checkpoint ≡ self.new.paged.log.end) }
        ensures crash { D.tells → (told : Told) → IsStore (D.disk dev.old) self.old told → Crashes self.old (said told (at_end self.old 0 (checkpointed now))) (D.disk dev.old) (D.disk dev.new) }
        ensures touches { D.tells → Touches self.old.paged (D.disk dev.old) (D.disk dev.new) }
        ensures cause { HasCause D.disk_faults D.tell_faults dev.old dev.new (IsErrOf result StoreError.Fault) }
    {
        let taken = RecRef {
            lsn: self.paged.end(),
            begin: 0,
            body: BodyRef::Checkpoint { time: now },
        };
        self.paged.checkpoint(alloc, dev, now)?;
        self.shown.take(taken)?;
        Ok(())
    }

    // Cuts the log, so that it holds the records from this number on, where it may be cut there; else leaves it.
    fn cut<D: Device>(&mut self, dev: &mut D, to: Lsn) -> Result<(), StoreError>
        requires fit { self.old.paged.failed ≡ false }
        requires sealed { self.old.paged.log.stored ≡ self.old.paged.log.end }
        requires standing { D.tells → Standing (D.disk dev.old) self.old.paged }
        ensures fit { OnOk result (self.new.paged.failed ≡ false) }
        ensures stands { D.tells → (told : Told) → IsStore (D.disk dev.old) self.old told → OnOk result (IsStore (D.disk dev.new) self.new told) }
        ensures standing { D.tells → OnOk result (Standing (D.disk dev.new) self.new.paged) }
        ensures ends { OnOk result ((self.new.paged.log.db ≡ self.old.paged.log.db) × (self.new.paged.log.end ≡ self.old.paged.log.end) × (self.new.paged.log.stored ≡ self.old.paged.log.stored)) }
        ensures files { OnOk result (self.new.paged.facts.files ≡ self.old.paged.facts.files) }
        ensures spare { OnOk result (KeepsSpare self.old.paged.log self.new.paged.log) }
        ensures kept { OnOk result (self.old.paged.log.head.kept ≤ self.new.paged.log.head.kept) }
        ensures left { OnOk result ((self.new.paged.log.head.kept ≡ self.old.paged.log.head.kept) ⊎ (self.new.paged.log.head.kept ≡ to)) }
        ensures cut { MayBeCut self.old to → OnOk result (self.new.paged.log.head.kept ≡ to) }
        ensures crash { D.tells → (told : Told) → IsStore (D.disk dev.old) self.old told → Crashes self.old told (D.disk dev.old) (D.disk dev.new) }
        ensures touches { D.tells → Touches self.old.paged (D.disk dev.old) (D.disk dev.new) }
        ensures cause { HasCause D.disk_faults D.tell_faults dev.old dev.new (IsErrOf result StoreError.Fault) }
    {
        settling_law();
        self.paged.at_rest(dev);
        if !may_cut(&self.paged, self.known.as_of.from, to) || !are_open_from(&self.shown, to) {
            return Ok(());
        }
        self.paged.truncate(dev, to)?;
        Ok(())
    }

    /// Makes a checkpoint at this moment, in milliseconds since 1970-01-01 00:00:00 UTC: makes its record, what was said, changed pages and what the note says durable. The end is below 2^62. Then cuts
    /// the log at `floor`, where that lies from the kept point to the number behind the record, and no transaction with a pending write began below it; nor did one still to write. A crash
    /// leaves what was durable, or some more of what was said.
    pub fn checkpoint<D: Device>(
        &mut self,
        alloc: Global,
        dev: &mut D,
        now: u64,
        floor: Lsn,
    ) -> Result<(), StoreError>
        requires fit { self.old.paged.failed ≡ false }
        requires room { self.old.paged.log.end < 2 ^ 62 }
        requires standing { D.tells → Standing (D.disk dev.old) self.old.paged }
        ensures fit { OnOk result (self.new.paged.failed ≡ false) }
        ensures stands { D.tells → (told : Told) → IsStore (D.disk dev.old) self.old told → OnOk result (IsStore (D.disk dev.new) self.new (said told (at_end self.old 0 (checkpointed now)))) }
        ensures standing { D.tells → OnOk result (Standing (D.disk dev.new) self.new.paged) }
        ensures ends { OnOk result ((self.new.paged.log.db ≡ self.old.paged.log.db) × (self.new.paged.log.end ≡ self.old.paged.log.end + 1) × (self.new.paged.log.stored ≡ self.new.paged.log.end)) }
        ensures files { OnOk result (self.new.paged.facts.files ≡ self.old.paged.facts.files) }
        ensures spare { OnOk result (KeepsSpare self.old.paged.log self.new.paged.log) }
        ensures kept { OnOk result (self.old.paged.log.head.kept ≤ self.new.paged.log.head.kept) }
        ensures left { OnOk result ((self.new.paged.log.head.kept ≡ self.old.paged.log.head.kept) ⊎ (self.new.paged.log.head.kept ≡ floor)) }
        ensures cut { D.tells → (told : Told) → IsStore (D.disk dev.old) self.old told → IsFloor self.old told floor → OnOk result (self.new.paged.log.head.kept ≡ floor) }
        ensures crash { D.tells → (told : Told) → IsStore (D.disk dev.old) self.old told → Crashes self.old (said told (at_end self.old 0 (checkpointed now))) (D.disk dev.old) (D.disk dev.new) }
        ensures touches { D.tells → Touches self.old.paged (D.disk dev.old) (D.disk dev.new) }
        ensures cause { HasCause D.disk_faults D.tell_faults dev.old dev.new (IsErrOf result StoreError.Fault) }
    {
        self.mark_checkpoint(alloc, dev, now)?;
        self.note_end(alloc, dev)?;
        self.cut(dev, floor)
    }
}
