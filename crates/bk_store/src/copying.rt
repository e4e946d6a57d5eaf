// What is copied into backups: extents and log records.
ghost use Rattle.std.specs.Prelude.{◌≡◌, ◌≤◌, ◌<◌, ◌+◌, ◌*◌, None, false, map, IfOk, OnOk, IsErrOf};
ghost use Rattle.bk_device.specs.Calls.{ChangesNothing};
ghost use Rattle.bk_device.specs.Counts.{HasCause};
ghost use Rattle.bk_paged.specs.Log.{KeepsSpare};
ghost use Rattle.bk_paged.specs.Holds.{IsStored};
ghost use Rattle.bk_paged.specs.Names.{IsThere, pages_in};
ghost use Rattle.bk_paged.specs.Paged.{Standing, Touches, from_to};
ghost use Rattle.bk_paths.specs.Paths.{end_of};
ghost use Rattle.bk_record.specs.Log.{IsLog};
ghost use Rattle.bk_undo.specs.Spelled.{spelled};
ghost use Rattle.bk_store.specs.Copying.{IsExtentOf};
ghost use Rattle.bk_store.specs.Store.{Crashes, IsStore};
ghost use Rattle.bk_store.specs.Told.{Told};

use crate::error::StoreError;
use crate::store::Store;
use bk_device::Device;
use bk_ids::Lsn;
use std::alloc::Global;

// The number of a page of an extent, the first one being 0 there.
fn page_in(extent: u32, i: u32) -> u32
    requires low { extent ≤ 4096 }
    requires within { i < 8 }
    ensures { result ≡ 8 * extent + i }
{
    extent * 8 + i
}

impl Store {
    /// The bytes of the durable records from the number `from` to below `to`, which are at least the kept point and at most the number behind that of the last durable record. Changes nothing.
    pub fn log_bytes<D: Device>(
        &self,
        alloc: Global,
        dev: &mut D,
        from: Lsn,
        to: Lsn,
    ) -> Result<Vec<u8>, StoreError>
        requires fit { self.now.paged.failed ≡ false }
        requires kept { self.now.paged.log.head.kept ≤ from }
        requires order { from ≤ to }
        requires inside { to ≤ self.now.paged.log.stored }
        requires standing { D.tells → Standing (D.disk dev.old) self.now.paged }
        ensures stands { D.tells → (told : Told) → IsStore (D.disk dev.old) self.now told → IsStore (D.disk dev.new) self.now told }
        ensures standing { D.tells → Standing (D.disk dev.new) self.now.paged }
        ensures bytes { D.tells → (told : Told) → IsStore (D.disk dev.old) self.now told → IfOk result (λ bytes. IsLog bytes.items (from_to from to (map spelled told.records)) None) }
        ensures effect { D.tells → ChangesNothing (D.disk dev.old) (D.disk dev.new) }
        ensures touches { D.tells → Touches self.now.paged (D.disk dev.old) (D.disk dev.new) }
        ensures cause { HasCause D.disk_faults D.tell_faults dev.old dev.new (IsErrOf result StoreError.Fault) }
    {
        let bytes = self.paged.log_bytes(alloc, dev, from, to)?;
        Ok(bytes)
    }

    // A page as of the end, with its digest.
    fn copy_page<D: Device>(
        &mut self,
        dev: &mut D,
        file: u16,
        page: u32,
    ) -> Result<[u8; 8192], StoreError>
        requires fit { self.old.paged.failed ≡ false }
        requires there { IsThere self.old.paged.facts.files (record { file = file; page = page }) }
        requires standing { D.tells → Standing (D.disk dev.old) self.old.paged }
        ensures fit { OnOk result (self.new.paged.failed ≡ false) }
        ensures same { OnOk result ((self.new.shown ≡ self.old.shown) × (self.new.known ≡ self.old.known) × (self.new.note ≡ self.old.note)) }
        ensures ends { OnOk result ((self.new.paged.log.db ≡ self.old.paged.log.db) × (self.new.paged.log.end ≡ self.old.paged.log.end) × (self.new.paged.log.head.kept ≡ self.old.paged.log.head.kept) × (self.new.paged.facts ≡ self.old.paged.facts)) }
        ensures spare { OnOk result (KeepsSpare self.old.paged.log self.new.paged.log) }
        ensures stands { D.tells → (told : Told) → IsStore (D.disk dev.old) self.old told → OnOk result (IsStore (D.disk dev.new) self.new told) }
        ensures standing { D.tells → OnOk result (Standing (D.disk dev.new) self.new.paged) }
        ensures later { D.tells → (told : Told) → IsStore (D.disk dev.old) self.old told → OnOk result (self.old.paged.log.stored ≤ self.new.paged.log.stored) }
        ensures page { D.tells → (told : Told) → IsStore (D.disk dev.old) self.old told → IfOk result (λ bytes. IsStored (map spelled told.records) (end_of (map spelled told.records)) (record { file = file; page = page }) bytes) }
        ensures crash { D.tells → (told : Told) → IsStore (D.disk dev.old) self.old told → Crashes self.old told (D.disk dev.old) (D.disk dev.new) }
        ensures touches { D.tells → Touches self.old.paged (D.disk dev.old) (D.disk dev.new) }
        ensures cause { HasCause D.disk_faults D.tell_faults dev.old dev.new (IsErrOf result StoreError.Fault) }
    {
        let bytes = self.paged.copy_page(dev, file, page)?;
        Ok(bytes)
    }

    /// Copies an extent of a data file into `copy`, in place of what was there: the 65,536 bytes of its eight pages as of the end, each with its digest. Extents count from 1, up to 4,096, and
    /// `pages` says how many pages there are. Pages that weren't changed since they were written are copied as their data file has them. A crash leaves what was durable, or some more of what was
    /// said.
    pub fn read_extent<D: Device>(
        &mut self,
        dev: &mut D,
        file: u16,
        extent: u32,
        copy: &mut Vec<u8>,
    ) -> Result<(), StoreError>
        requires fit { self.old.paged.failed ≡ false }
        requires there { 8 * extent + 8 ≤ pages_in self.old.paged.facts.files file }
        requires low { extent ≤ 4096 }
        requires standing { D.tells → Standing (D.disk dev.old) self.old.paged }
        ensures fit { OnOk result (self.new.paged.failed ≡ false) }
        ensures same { OnOk result ((self.new.shown ≡ self.old.shown) × (self.new.known ≡ self.old.known) × (self.new.note ≡ self.old.note)) }
        ensures ends { OnOk result ((self.new.paged.log.db ≡ self.old.paged.log.db) × (self.new.paged.log.end ≡ self.old.paged.log.end) × (self.new.paged.log.head.kept ≡ self.old.paged.log.head.kept) × (self.new.paged.facts ≡ self.old.paged.facts)) }
        ensures spare { OnOk result (KeepsSpare self.old.paged.log self.new.paged.log) }
        ensures stands { D.tells → (told : Told) → IsStore (D.disk dev.old) self.old told → OnOk result (IsStore (D.disk dev.new) self.new told) }
        ensures standing { D.tells → OnOk result (Standing (D.disk dev.new) self.new.paged) }
        ensures later { D.tells → (told : Told) → IsStore (D.disk dev.old) self.old told → OnOk result (self.old.paged.log.stored ≤ self.new.paged.log.stored) }
        ensures copied { D.tells → (told : Told) → IsStore (D.disk dev.old) self.old told → OnOk result (IsExtentOf told file extent copy.new.items) }
        ensures crash { D.tells → (told : Told) → IsStore (D.disk dev.old) self.old told → Crashes self.old told (D.disk dev.old) (D.disk dev.new) }
        ensures touches { D.tells → Touches self.old.paged (D.disk dev.old) (D.disk dev.new) }
        ensures cause { HasCause D.disk_faults D.tell_faults dev.old dev.new (IsErrOf result StoreError.Fault) }
    {
        self.at_rest(dev);
        copy.clear();
        'pages: for i in 0..8 {
            let bytes = self.copy_page(dev, file, page_in(extent, i))?;
            copy.extend_from_slice(&bytes)?;
        }
        Ok(())
    }
}
