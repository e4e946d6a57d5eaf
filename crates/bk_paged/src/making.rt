// Making a database without a record.
ghost use Rattle.std.specs.Prelude.{◌≡◌, ◌≤◌, ◌<◌, ◌⊎◌, ◌^◌, ◌+◌, [], ℕ, None, false, length, IfOk, IsErr, IsErrOf, OnOk};
ghost use Rattle.bk_log.specs.ControlSlots.{control_of};
ghost use Rattle.bk_device.specs.Counts.{HasCause};
ghost use Rattle.bk_device.specs.Disk.{IsDurable};
ghost use Rattle.bk_device.specs.Effects.{Effect};
ghost use Rattle.bk_paged.specs.Holds.{Holds, unwritten};
ghost use Rattle.bk_paged.specs.Making.{AreFirst, HoldsNone, MayBeMade};
ghost use Rattle.bk_paged.specs.Names.{IsOwn, names_of};
ghost use Rattle.bk_paged.specs.Paged.{IsPaged};
ghost use Rattle.bk_paged.specs.Pooled.{IsPool};
ghost use Rattle.bk_pool.specs.Pool.{IsIn};
ghost use Rattle.bk_segments.specs.Files.{control_file};
ghost use Rattle.bk_side.specs.Names.{AreDifferent, side_file, IsOwn as IsOfSide};
ghost use Rattle.bk_side.specs.Side.{IsOwnOf, IsSide, added_of, pages_of};

use crate::error::PagedError;
use crate::paged::Paged;
use crate::parts::copy_paths;
use bk_device::{Device, Failed};
use bk_facts::{DataFile, Facts, spell_note};
use bk_ids::Sequence;
use bk_log::Log;
use bk_pool::Pool;
use bk_redo::page_law;
use bk_side::Side;
use std::alloc::Global;

// Makes a data file of fresh pages.
fn make_file<D: Device>(
    dev: &mut D,
    side: &mut Side,
    files: &[DataFile],
    i: usize,
) -> Result<(), Failed>
    requires fit { side.old.failed ≡ false }
    requires few { length files.now < 2 ^ 16 }
    requires there { i < length files.now }
    requires names { side.old.names ≡ names_of files.now }
    requires stands { D.tells → IsSide (D.disk dev.old) side.old }
    ensures fit { OnOk result (side.new.failed ≡ false) }
    ensures gate { side.new.gate ≡ side.old.gate }
    ensures names { side.new.names ≡ side.old.names }
    ensures stands { D.tells → OnOk result (IsSide (D.disk dev.new) side.new) }
    ensures added { D.tells → OnOk result (added_of (D.disk dev.new) side.new ≡ added_of (D.disk dev.old) side.old) }
    ensures first { D.tells → AreFirst files.now i (pages_of side.old (D.disk dev.old).files) → OnOk result (AreFirst files.now (i + 1) (pages_of side.old (D.disk dev.new).files)) }
    ensures crash { D.tells → Effect (IsOwnOf side.old) (λ _. Unit {0}) (D.disk dev.old) (D.disk dev.new) }
    ensures cause { HasCause D.disk_faults D.tell_faults dev.old dev.new (IsErr result) }
{
    page_law();
    side.make(dev, (i + 1) as u16, files[i].pages)
}

// Makes all data files.
fn make_files<D: Device>(dev: &mut D, side: &mut Side, files: &[DataFile]) -> Result<(), Failed>
    requires fit { side.old.failed ≡ false }
    requires few { length files.now < 2 ^ 16 }
    requires names { side.old.names ≡ names_of files.now }
    requires stands { D.tells → IsSide (D.disk dev.old) side.old }
    ensures fit { OnOk result (side.new.failed ≡ false) }
    ensures gate { side.new.gate ≡ side.old.gate }
    ensures names { side.new.names ≡ side.old.names }
    ensures stands { D.tells → OnOk result (IsSide (D.disk dev.new) side.new) }
    ensures added { D.tells → OnOk result (added_of (D.disk dev.new) side.new ≡ added_of (D.disk dev.old) side.old) }
    ensures first { D.tells → OnOk result (AreFirst files.now (length files.now) (pages_of side.old (D.disk dev.new).files)) }
    ensures crash { D.tells → Effect (IsOwnOf side.old) (λ _. Unit {0}) (D.disk dev.old) (D.disk dev.new) }
    ensures cause { HasCause D.disk_faults D.tell_faults dev.old dev.new (IsErr result) }
{
    'files: for i in 0..files.len() {
        make_file(dev, side, files, i)?;
    }
    Ok(())
}

// Makes the side file of a database where there is none, and its data files.
fn make_side<D: Device>(
    alloc: Global,
    dev: &mut D,
    db: u32,
    files: &[DataFile],
) -> Result<Side, PagedError>
    requires few { length files.now < 2 ^ 16 }
    requires different { AreDifferent (names_of files.now) }
    ensures name { IfOk result (λ s. s.gate.name ≡ side_file db) }
    ensures names { IfOk result (λ s. s.names ≡ names_of files.now) }
    ensures failed { IfOk result (λ s. s.failed ≡ false) }
    ensures stands { D.tells → IfOk result (λ s. IsSide (D.disk dev.new) s) }
    ensures none { D.tells → IfOk result (λ s. added_of (D.disk dev.new) s ≡ []) }
    ensures first { D.tells → IfOk result (λ s. AreFirst files.now (length files.now) (pages_of s (D.disk dev.new).files)) }
    ensures foreign { IsErrOf result PagedError.Foreign → ⊥ }
    ensures crash { D.tells → Effect (IsOfSide (side_file db) (names_of files.now)) (λ _. Unit {0}) (D.disk dev.old) (D.disk dev.new) }
    ensures cause { HasCause D.disk_faults D.tell_faults dev.old dev.new (IsErrOf result PagedError.Fault) }
{
    let paths = copy_paths(alloc, files)?;
    let mut side = Side::load(alloc, dev, db, &paths)?;
    make_files(dev, &mut side, files)?;
    Ok(side)
}

// A pool of so many frames, in none of which a page lies.
fn make_pool(alloc: Global, frames: usize) -> Result<Pool, PagedError>
    requires { 1 ≤ frames }
    ensures pool { IfOk result IsPool }
    ensures none { IfOk result (λ pool. (i file page : ℕ) → IsIn pool.pages i file page → ⊥) }
    ensures foreign { IsErrOf result PagedError.Foreign → ⊥ }
    ensures fault { IsErrOf result PagedError.Fault → ⊥ }
{
    let pool = Pool::new(alloc, frames)?;
    Ok(pool)
}

impl Paged {
    /// Makes a database without a record: its side file, its data files, each of so many fresh pages in place of what was there, and then its log, which begins with number 1. No log of this
    /// number is there; of which files and note it may be made says `may_make`. Pages are kept in so many frames, at least one. A crash leaves no database, or this one.
    ///
    /// `NoMemory` may come after files were touched. `Foreign` isn't answered.
    pub fn make<D: Device>(
        alloc: Global,
        dev: &mut D,
        db: u32,
        files: Vec<DataFile>,
        note: &[u8],
        frames: usize,
    ) -> Result<Paged, PagedError>
        requires some { 1 ≤ frames }
        requires may { MayBeMade files.items note.now }
        requires durable { D.tells → IsDurable (D.disk dev.old) (control_file db) }
        requires none { D.tells → control_of ((D.disk dev.old).files (control_file db)) ≡ None }
        ensures db { IfOk result (λ p. p.log.db ≡ db) }
        ensures fit { IfOk result (λ p. p.failed ≡ false) }
        ensures ends { IfOk result (λ p. (p.log.stored ≡ 1) × (p.log.end ≡ 1) × (p.log.head.kept ≡ 1)) }
        ensures facts { IfOk result (λ p. p.facts ≡ record { checkpoint = 1; files = files.items }) }
        ensures stands { D.tells → IfOk result (λ p. IsPaged (D.disk dev.new) p (unwritten files.items note.now)) }
        ensures foreign { IsErrOf result PagedError.Foreign → ⊥ }
        ensures crash { D.tells → Effect (IsOwn db files.items) (λ image. HoldsNone db image ⊎ Holds db (unwritten files.items note.now) image) (D.disk dev.old) (D.disk dev.new) }
        ensures cause { HasCause D.disk_faults D.tell_faults dev.old dev.new (IsErrOf result PagedError.Fault) }
    {
        let note = note.to_vec(alloc)?;
        let facts = Facts {
            checkpoint: 1,
            files: Sequence::new(files),
        };
        let bytes = spell_note(alloc, &facts, &note)?;
        let pool = make_pool(alloc, frames)?;
        let side = make_side(alloc, dev, db, facts.files.as_slice())?;
        let log = Log::make_noted(alloc, dev, db, 1, &bytes)?;
        Ok(Paged {
            log,
            side,
            pool,
            facts,
            note,
            since: 1,
        })
    }
}
