// Making a database, and removing one.
ghost use Rattle.std.specs.Prelude.{◌≡◌, ◌≤◌, [], List, None, Ok, Err, false, map, IfOk, MatchResult, OnOk, IsErrOf};
ghost use Rattle.bk_control.specs.Slots.{control_of};
ghost use Rattle.bk_device.specs.Counts.{HasCause};
ghost use Rattle.bk_device.specs.Disk.{IsDurable};
ghost use Rattle.bk_groups.specs.Groups.{AreFiles};
ghost use Rattle.bk_paged.specs.Head.{Head};
ghost use Rattle.bk_paged.specs.SegmentsFiles.{control_file, AreDurable as LogsAreDurable, Holds as HoldsHead};
ghost use Rattle.bk_device.specs.Effects.{Effect};
ghost use Rattle.bk_facts.specs.declared.facts.DataFile.{DataFile as DataFiles};
ghost use Rattle.bk_paged.specs.Making.{AreAbsent, HoldsNone, IsLogGone, NamesFiles, Removes};
ghost use Rattle.bk_paged.specs.Names.{IsOwn, names_of};
ghost use Rattle.bk_paged.specs.SideNames.{side_file, IsOwn as IsOfSide};
ghost use Rattle.bk_shown.specs.Shown.{Shows};
ghost use Rattle.bk_shown.specs.declared.shown.Shown.{Shown as KeptShown};
ghost use Rattle.bk_store.specs.Making.{Makes, MayDescribe, first_known, founded};
ghost use Rattle.bk_store.specs.Store.{IsStore};
ghost use Rattle.bk_store.specs.Told.{data_file, unsaid};

use crate::error::StoreError;
use crate::store::Store;
use bk_device::Device;
use bk_facts::DataFile;
use bk_ids::{Guid, RecoveryModel, Sequence};
use bk_known::{AsOf, DatabaseSpec, Known, spell_known};
use bk_paged::{Paged, may_make};
use bk_shown::Shown;
use bk_world::FileSpec;
use std::alloc::{AllocError, Global};

// A data file with the header pages and the pages of so many extents.
fn file_of(alloc: Global, file: &FileSpec) -> Result<DataFile, AllocError>
    requires { file.now.extents ≤ 4096 }
    ensures { IfOk result (λ made. made ≡ data_file file.now) }
{
    let path = file.path.copy(alloc)?;
    Ok(DataFile {
        path,
        pages: 8 + 8 * file.extents,
    })
}

// The data files of a database.
fn files_of(alloc: Global, files: &[FileSpec]) -> Result<Vec<DataFile>, AllocError>
    requires { AreFiles files.now }
    ensures { IfOk result (λ made. made.items ≡ map data_file files.now) }
{
    let mut made = Vec::new(alloc);
    for file in files {
        made.push(file_of(alloc, file)?)?;
    }
    Ok(made)
}

// What is known of a database without a record.
fn known_first(alloc: Global, spec: DatabaseSpec) -> Known
    ensures { result ≡ first_known spec }
{
    let as_of = AsOf {
        from: 1,
        tables: Sequence::new(Vec::new(alloc)),
        model: RecoveryModel::Full,
        time: 0,
    };
    Known { spec, as_of }
}

// Makes log and pages of a database without a record, of which this is known.
fn make_paged<D: Device>(
    alloc: Global,
    dev: &mut D,
    db: u32,
    known: &Known,
    frames: usize,
) -> Result<Paged, StoreError>
    requires some { 1 ≤ frames }
    requires first { known.now ≡ first_known known.now.spec }
    requires may { MayDescribe known.now.spec }
    requires durable { D.tells → IsDurable (D.disk dev.old) (control_file db) }
    requires none { D.tells → control_of ((D.disk dev.old).files (control_file db)) ≡ None }
    ensures fit { IfOk result (λ p. p.failed ≡ false) }
    ensures ends { IfOk result (λ p. (p.log.db ≡ db) × (p.log.stored ≡ 1) × (p.log.end ≡ 1)) }
    ensures stands { D.tells → (shown : KeptShown) → Shows known.now.spec.storage.files [] shown → IfOk result (λ p. IsStore (D.disk dev.new) (record { paged = p; shown = shown; known = known.now; note = [] }) (unsaid known.now.spec [])) }
    ensures crash { D.tells → Makes db (unsaid known.now.spec []) (D.disk dev.old) (D.disk dev.new) }
    ensures cause { HasCause D.disk_faults D.tell_faults dev.old dev.new (IsErrOf result StoreError.Fault) }
{
    let files = files_of(alloc, known.spec.storage.files.as_slice())?;
    let bytes = spell_known(alloc, known, &[])?;
    if !may_make(alloc, &files, &bytes)? {
        return Err(StoreError::NoMemory);
    }
    let paged = Paged::make(alloc, dev, db, files, &bytes, frames)?;
    Ok(paged)
}

// A value, unless what was done to it has failed.
fn unless_failed<T: Drop>(value: T, done: Result<(), StoreError>) -> Result<T, StoreError>
    ensures { MatchResult done (λ _. result ≡ Ok value) (λ e. result ≡ Err e) }
{
    done?;
    Ok(value)
}

impl Store {
    // Makes a database without a record.
    fn make<D: Device>(
        alloc: Global,
        dev: &mut D,
        db: u32,
        spec: DatabaseSpec,
        frames: usize,
    ) -> Result<Store, StoreError>
        requires some { 1 ≤ frames }
        requires may { MayDescribe spec }
        requires durable { D.tells → IsDurable (D.disk dev.old) (control_file db) }
        requires none { D.tells → control_of ((D.disk dev.old).files (control_file db)) ≡ None }
        ensures fit { IfOk result (λ s. s.paged.failed ≡ false) }
        ensures ends { IfOk result (λ s. (s.paged.log.db ≡ db) × (s.paged.log.stored ≡ 1) × (s.paged.log.end ≡ 1)) }
        ensures stands { D.tells → IfOk result (λ s. IsStore (D.disk dev.new) s (unsaid spec [])) }
        ensures crash { D.tells → Makes db (unsaid spec []) (D.disk dev.old) (D.disk dev.new) }
        ensures cause { HasCause D.disk_faults D.tell_faults dev.old dev.new (IsErrOf result StoreError.Fault) }
    {
        let shown = Shown::new(alloc, spec.storage.files.as_slice())?;
        let known = known_first(alloc, spec);
        let paged = make_paged(alloc, dev, db, &known, frames)?;
        Ok(Store {
            paged,
            shown,
            known,
            note: Vec::new(alloc),
        })
    }

    /// Makes a database of this description, durably, with one record: that it was made at this time, in milliseconds since 1970-01-01 00:00:00 UTC, on this branch. No log of this number is there. Pages are
    /// kept in so many frames, at least one. A crash leaves none, or this one, or this one without a record, which is to be removed. `NoMemory` may come after files were touched, also where two data files
    /// have one path.
    pub fn create<D: Device>(
        alloc: Global,
        dev: &mut D,
        db: u32,
        spec: DatabaseSpec,
        time: u64,
        branch: Guid,
        frames: usize,
    ) -> Result<Store, StoreError>
        requires some { 1 ≤ frames }
        requires may { MayDescribe spec }
        requires durable { D.tells → IsDurable (D.disk dev.old) (control_file db) }
        requires none { D.tells → control_of ((D.disk dev.old).files (control_file db)) ≡ None }
        ensures fit { IfOk result (λ s. s.paged.failed ≡ false) }
        ensures ends { IfOk result (λ s. (s.paged.log.db ≡ db) × (s.paged.log.stored ≡ s.paged.log.«end»)) }
        ensures stands { D.tells → IfOk result (λ s. IsStore (D.disk dev.new) s (founded spec time branch)) }
        ensures crash { D.tells → Makes db (founded spec time branch) (D.disk dev.old) (D.disk dev.new) }
        ensures cause { HasCause D.disk_faults D.tell_faults dev.old dev.new (IsErrOf result StoreError.Fault) }
    {
        let family = spec.family;
        let mut store = Store::make(alloc, dev, db, spec, frames)?;
        let done = store.found(alloc, dev, time, family, branch);
        unless_failed(store, done)
    }

    /// Removes the data files that the log of a database names, then the side file, and then the log. Where the log isn't whole, as after a crash in this call, what is left of it alone is removed;
    /// where there is none, nothing is done. What counts of the log is made durable first. A crash leaves the log, which names the data files, or none of these, and the call may be repeated.
    pub fn remove<D: Device>(alloc: Global, dev: &mut D, db: u32) -> Result<(), StoreError>
        ensures pages { D.tells → (files : List DataFiles) → NamesFiles db files (D.disk dev.old).files → OnOk result (AreAbsent (IsOfSide (side_file db) (names_of files)) (D.disk dev.new).files) }
        ensures log { D.tells → OnOk result (HoldsNone db (D.disk dev.new).files) }
        ensures gone { D.tells → (head : Head) → HoldsHead (D.disk dev.old).files db head → OnOk result (IsLogGone db head (D.disk dev.new).files) }
        ensures crash { D.tells → LogsAreDurable db (D.disk dev.old) → (files : List DataFiles) → NamesFiles db files (D.disk dev.old).files → Effect (IsOwn db files) (Removes db files) (D.disk dev.old) (D.disk dev.new) }
        ensures cause { HasCause D.disk_faults D.tell_faults dev.old dev.new (IsErrOf result StoreError.Fault) }
    {
        Paged::remove(alloc, dev, db)?;
        Ok(())
    }
}
