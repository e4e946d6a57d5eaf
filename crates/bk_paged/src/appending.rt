// Saying a record behind a database's path.
ghost use Rattle.std.specs.Prelude.{◌≡◌, ◌≤◌, ◌<◌, ◌+◌, ℕ, false, length, IfOk, IfSome, IsErrOf, IsNone, OnOk};
ghost use Rattle.std.specs.Option.{option_map};
ghost use Rattle.bk_device.specs.Calls.{ChangesNothing};
ghost use Rattle.bk_device.specs.Counts.{HasCause};
ghost use Rattle.bk_device.specs.Effects.{Effect};
ghost use Rattle.bk_log.specs.Log.{KeepsSpare};
ghost use Rattle.bk_paged.specs.Appends.{MayAppend, with_waiting};
ghost use Rattle.bk_paged.specs.Holds.{Leaves, Stood, with_one};
ghost use Rattle.bk_paged.specs.Names.{IsOwn, IsThere};
ghost use Rattle.bk_paged.specs.Paged.{IsPaged, Standing, Touches, sealed_count};
ghost use Rattle.bk_paged.specs.Pooled.{AreClean, with_set};
ghost use Rattle.bk_pool.specs.Pool.{IsFound};
ghost use Rattle.bk_pool.specs.Sound.{HoldsPage};
ghost use Rattle.bk_record.specs.Spelling.{IsRecord};
ghost use Rattle.bk_redo.specs.Effects.{effect_of};
ghost use Rattle.bk_redo.specs.Frames.{cell_set};

use crate::error::PagedError;
use crate::paged::Paged;
use crate::placing::{add_frames, fetch};
use bk_device::Device;
use bk_ids::{Body, CellImage, Lsn, Place, Rec, Slot};
use bk_page::{set_page_lsn, write_cell};
use bk_pool::Pool;
use bk_undo::undoing_law;
use std::alloc::Global;

// Sets a cell of the page in a frame, and the page's number. The frame is dirty then.
pub(crate) fn set_cell(pool: &mut Pool, i: usize, slot: Slot, cell: &CellImage, lsn: Lsn)
    requires there { i < length pool.old.frames }
    requires holds { HoldsPage pool.old.pages i }
    ensures is { pool.new ≡ with_set pool.old i slot cell.now.bytes lsn }
    ensures low { slot < 63 }
{
    let page = pool.frames().page_mut(i);
    write_cell(page, slot.get(), &cell.bytes);
    set_page_lsn(page, lsn);
    pool.dirty(i);
}

// The cell that a record sets, if it does.
pub(crate) fn cell_of(body: &Body) -> Option<(&Place, &CellImage)>
    ensures { option_map (λ x. (x.0.now, x.1.now.bytes)) result ≡ cell_set (effect_of body.now) }
{
    match body {
        Body::Write { place, after, .. } => Some((place, after)),
        Body::Compensation { place, cell, .. } => Some((place, cell)),
        _ => None,
    }
}

impl Paged {
    // Writes the pages of all dirty frames to the data files, by way of the side file, where no record waits.
    pub(crate) fn write_pages<D: Device>(&mut self, dev: &mut D) -> Result<(), PagedError>
        requires fit { self.old.failed ≡ false }
        requires sealed { self.old.log.stored ≡ self.old.log.end }
        requires standing { D.tells → Standing (D.disk dev.old) self.old }
        ensures fit { OnOk result (self.new.failed ≡ false) }
        ensures same { OnOk result (self.new ≡ record self.old { side = self.new.side; pool = self.new.pool; since = self.old.log.end }) }
        ensures clean { OnOk result (AreClean self.new.pool) }
        ensures stands { D.tells → (stood : Stood) → IsPaged (D.disk dev.old) self.old stood → OnOk result (IsPaged (D.disk dev.new) self.new stood) }
        ensures standing { D.tells → OnOk result (Standing (D.disk dev.new) self.new) }
        ensures foreign { IsErrOf result PagedError.Foreign → ⊥ }
        ensures memory { IsErrOf result PagedError.NoMemory → ⊥ }
        ensures crash { D.tells → (stood : Stood) → IsPaged (D.disk dev.old) self.old stood → Effect (IsOwn self.old.log.db stood.files) (Leaves self.old.log.db (sealed_count self.old) stood) (D.disk dev.old) (D.disk dev.new) }
        ensures touches { D.tells → Touches self.old (D.disk dev.old) (D.disk dev.new) }
        ensures cause { HasCause D.disk_faults D.tell_faults dev.old dev.new (IsErrOf result PagedError.Fault) }
    {
        add_frames(dev, &mut self.side, &self.pool)?;
        self.side.apply(dev)?;
        self.pool.clean();
        self.since = self.log.end();
        Ok(())
    }

    // Makes the records that wait durable, and then writes the pages of all dirty frames.
    pub(crate) fn write_all<D: Device>(
        &mut self,
        alloc: Global,
        dev: &mut D,
    ) -> Result<(), PagedError>
        requires fit { self.old.failed ≡ false }
        requires standing { D.tells → Standing (D.disk dev.old) self.old }
        ensures fit { OnOk result (self.new.failed ≡ false) }
        ensures same { OnOk result (self.new ≡ record self.old { log = self.new.log; side = self.new.side; pool = self.new.pool; since = self.old.log.end }) }
        ensures ends { OnOk result ((self.new.log.db ≡ self.old.log.db) × (self.new.log.end ≡ self.old.log.end) × (self.new.log.stored ≡ self.old.log.end) × (self.new.log.head.kept ≡ self.old.log.head.kept)) }
        ensures clean { OnOk result (AreClean self.new.pool) }
        ensures stands { D.tells → (stood : Stood) → IsPaged (D.disk dev.old) self.old stood → OnOk result (IsPaged (D.disk dev.new) self.new stood) }
        ensures standing { D.tells → OnOk result (Standing (D.disk dev.new) self.new) }
        ensures spare { OnOk result (KeepsSpare self.old.log self.new.log) }
        ensures foreign { IsErrOf result PagedError.Foreign → ⊥ }
        ensures crash { D.tells → (stood : Stood) → IsPaged (D.disk dev.old) self.old stood → Effect (IsOwn self.old.log.db stood.files) (Leaves self.old.log.db (sealed_count self.old) stood) (D.disk dev.old) (D.disk dev.new) }
        ensures touches { D.tells → Touches self.old (D.disk dev.old) (D.disk dev.new) }
        ensures cause { HasCause D.disk_faults D.tell_faults dev.old dev.new (IsErrOf result PagedError.Fault) }
    {
        self.flush(alloc, dev)?;
        self.write_pages(dev)
    }

    // The frame in which a page of a data file lies; it is read where it lies in none. Gives none only where a frame is dirty, and then changes nothing.
    pub(crate) fn frame_of<D: Device>(
        &mut self,
        dev: &mut D,
        file: u16,
        page: u32,
    ) -> Result<Option<usize>, PagedError>
        requires there { IsThere self.old.facts.files (record { file = file; page = page }) }
        requires standing { D.tells → Standing (D.disk dev.old) self.old }
        ensures found { IfOk result (λ found. IfSome found (λ i. IsFound self.new.pool.pages file page i)) }
        ensures full { IfOk result (λ found. IsNone found → AreClean self.old.pool → ⊥) }
        ensures same { self.new ≡ record self.old { pool = self.new.pool } }
        ensures stands { D.tells → (stood : Stood) → IsPaged (D.disk dev.old) self.old stood → OnOk result (IsPaged (D.disk dev.new) self.new stood) }
        ensures standing { D.tells → OnOk result (Standing (D.disk dev.new) self.new) }
        ensures foreign { D.tells → IsErrOf result PagedError.Foreign → (stood : Stood) → IsPaged (D.disk dev.old) self.old stood → ⊥ }
        ensures memory { IsErrOf result PagedError.NoMemory → ⊥ }
        ensures effect { D.tells → ChangesNothing (D.disk dev.old) (D.disk dev.new) }
        ensures cause { HasCause D.disk_faults D.tell_faults dev.old dev.new (IsErrOf result PagedError.Fault) }
    {
        fetch(dev, &self.side, &mut self.pool, file, page)
    }

    // The same, but where every frame is dirty all records are made durable and all changed pages written first.
    pub(crate) fn bring<D: Device>(
        &mut self,
        alloc: Global,
        dev: &mut D,
        file: u16,
        page: u32,
    ) -> Result<usize, PagedError>
        requires fit { self.old.failed ≡ false }
        requires there { IsThere self.old.facts.files (record { file = file; page = page }) }
        requires standing { D.tells → Standing (D.disk dev.old) self.old }
        ensures fit { OnOk result (self.new.failed ≡ false) }
        ensures found { IfOk result (λ i. IsFound self.new.pool.pages file page i) }
        ensures same { OnOk result ((self.new.log.db ≡ self.old.log.db) × (self.new.log.end ≡ self.old.log.end) × (self.new.log.head.kept ≡ self.old.log.head.kept) × (self.new.facts ≡ self.old.facts)) }
        ensures stands { D.tells → (stood : Stood) → IsPaged (D.disk dev.old) self.old stood → OnOk result (IsPaged (D.disk dev.new) self.new stood) }
        ensures standing { D.tells → OnOk result (Standing (D.disk dev.new) self.new) }
        ensures later { D.tells → (stood : Stood) → IsPaged (D.disk dev.old) self.old stood → OnOk result (self.old.log.stored ≤ self.new.log.stored) }
        ensures spare { OnOk result (KeepsSpare self.old.log self.new.log) }
        ensures foreign { D.tells → IsErrOf result PagedError.Foreign → (stood : Stood) → IsPaged (D.disk dev.old) self.old stood → ⊥ }
        ensures crash { D.tells → (stood : Stood) → IsPaged (D.disk dev.old) self.old stood → Effect (IsOwn self.old.log.db stood.files) (Leaves self.old.log.db (sealed_count self.old) stood) (D.disk dev.old) (D.disk dev.new) }
        ensures touches { D.tells → Touches self.old (D.disk dev.old) (D.disk dev.new) }
        ensures cause { HasCause D.disk_faults D.tell_faults dev.old dev.new (IsErrOf result PagedError.Fault) }
    {
        if let Some(i) = self.frame_of(dev, file, page)? {
            return Ok(i);
        }
        self.write_all(alloc, dev)?;
        match self.frame_of(dev, file, page)? {
            Some(i) => Ok(i),
            None => unreachable!(),
        }
    }

    // Sets the cell that a record sets, if it does, in memory. Once the record waits in the log, the value stands for one record more.
    fn set_page<D: Device>(&mut self, alloc: Global, dev: &mut D, r: &Rec) -> Result<(), PagedError>
        requires fit { self.old.failed ≡ false }
        requires may { MayAppend self.old r.now }
        requires standing { D.tells → Standing (D.disk dev.old) self.old }
        ensures fit { OnOk result (self.new.failed ≡ false) }
        ensures same { OnOk result ((self.new.log.db ≡ self.old.log.db) × (self.new.log.end ≡ self.old.log.end) × (self.new.log.head.kept ≡ self.old.log.head.kept) × (self.new.facts ≡ self.old.facts)) }
        ensures stands { D.tells → IsRecord r.now → (stood : Stood) → IsPaged (D.disk dev.old) self.old stood → OnOk result (IsPaged (D.disk dev.new) (with_waiting self.new r.now) (with_one stood r.now)) }
        ensures standing { D.tells → OnOk result (Standing (D.disk dev.new) self.new) }
        ensures later { D.tells → (stood : Stood) → IsPaged (D.disk dev.old) self.old stood → OnOk result (self.old.log.stored ≤ self.new.log.stored) }
        ensures spare { OnOk result (KeepsSpare self.old.log self.new.log) }
        ensures foreign { D.tells → IsErrOf result PagedError.Foreign → (stood : Stood) → IsPaged (D.disk dev.old) self.old stood → ⊥ }
        ensures crash { D.tells → (stood : Stood) → IsPaged (D.disk dev.old) self.old stood → Effect (IsOwn self.old.log.db stood.files) (Leaves self.old.log.db (sealed_count self.old) stood) (D.disk dev.old) (D.disk dev.new) }
        ensures touches { D.tells → Touches self.old (D.disk dev.old) (D.disk dev.new) }
        ensures cause { HasCause D.disk_faults D.tell_faults dev.old dev.new (IsErrOf result PagedError.Fault) }
    {
        undoing_law();
        let Some((place, cell)) = cell_of(&r.body) else {
            return Ok(());
        };
        let i = self.bring(alloc, dev, place.file, place.page)?;
        set_cell(&mut self.pool, i, place.slot, cell, r.lsn);
        Ok(())
    }

    /// Says a record behind the others: it waits in the log, and the page of the cell that it sets is changed in memory. Where every frame is dirty, what waited is made durable and all
    /// changed pages are written first. A crash leaves the records that were durable, or some more of them.
    pub fn append<D: Device>(
        &mut self,
        alloc: Global,
        dev: &mut D,
        r: &Rec,
    ) -> Result<(), PagedError>
        requires fit { self.old.failed ≡ false }
        requires may { MayAppend self.old r.now }
        requires standing { D.tells → Standing (D.disk dev.old) self.old }
        ensures fit { OnOk result (self.new.failed ≡ false) }
        ensures ends { OnOk result ((self.new.log.db ≡ self.old.log.db) × (self.new.log.end ≡ self.old.log.end + 1) × (self.new.log.head.kept ≡ self.old.log.head.kept) × (self.new.facts ≡ self.old.facts)) }
        ensures stands { D.tells → (stood : Stood) → IsPaged (D.disk dev.old) self.old stood → OnOk result (IsPaged (D.disk dev.new) self.new (with_one stood r.now)) }
        ensures standing { D.tells → OnOk result (Standing (D.disk dev.new) self.new) }
        ensures later { D.tells → (stood : Stood) → IsPaged (D.disk dev.old) self.old stood → OnOk result (self.old.log.stored ≤ self.new.log.stored) }
        ensures spare { OnOk result (KeepsSpare self.old.log self.new.log) }
        ensures foreign { D.tells → IsErrOf result PagedError.Foreign → (stood : Stood) → IsPaged (D.disk dev.old) self.old stood → ⊥ }
        ensures crash { D.tells → (stood : Stood) → IsPaged (D.disk dev.old) self.old stood → Effect (IsOwn self.old.log.db stood.files) (Leaves self.old.log.db (sealed_count self.old) stood) (D.disk dev.old) (D.disk dev.new) }
        ensures touches { D.tells → Touches self.old (D.disk dev.old) (D.disk dev.new) }
        ensures cause { HasCause D.disk_faults D.tell_faults dev.old dev.new (IsErrOf result PagedError.Fault) }
    {
        self.set_page(alloc, dev, r)?;
        self.log.append(r)?;
        Ok(())
    }
}
