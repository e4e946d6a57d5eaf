// Looking at the log, the data files and their pages.
ghost use Rattle.std.specs.Prelude.{◌≡◌, ◌≤◌, [], ℕ, IfOk, MatchOption, None, OnOk, IsErrOf, false, slice_index_or};
ghost use Rattle.bk_device.specs.Calls.{ChangesNothing};
ghost use Rattle.bk_device.specs.Counts.{HasCause};
ghost use Rattle.bk_device.specs.Effects.{Effect};
ghost use Rattle.bk_log.specs.Log.{IsLog as IsStoredLog, KeepsSpare};
ghost use Rattle.bk_paged.specs.Holds.{Leaves, Stood};
ghost use Rattle.bk_paged.specs.Names.{IsOwn, IsThere, pages_in};
ghost use Rattle.bk_paged.specs.Paged.{IsLast, IsPaged, Standing, Touches, from_to, sealed_count};
ghost use Rattle.bk_pool.specs.Pool.{IsAbsent, IsIn};
ghost use Rattle.bk_record.specs.Log.{IsLog};

use crate::error::PagedError;
use crate::paged::Paged;
use crate::parts::{copy_frame, pages_in};
use bk_device::Device;
use bk_facts::DataFile;
use bk_ids::Lsn;
use std::alloc::Global;

impl Paged {
    /// The data files, numbered 1, 2, .. in their order.
    pub fn files(&self) -> &[DataFile]
        ensures { result.now ≡ self.now.facts.files }
    {
        self.facts.files.as_slice()
    }

    /// How many pages the data file of a number has; 0 where there is none of this number.
    pub fn pages(&self, file: u16) -> u32
        ensures { result ≡ pages_in self.now.facts.files file }
    {
        pages_in(self.facts.files.as_slice(), file)
    }

    /// What a crash may leave between two calls: the records that are durable, or some more of them. Does nothing.
    pub fn at_rest<D: Device>(&self, dev: &mut D)
        ensures same { dev.new ≡ dev.old }
        ensures crash { D.tells → (stood : Stood) → IsPaged (D.disk dev.old) self.now stood → Effect (IsOwn self.now.log.db stood.files) (Leaves self.now.log.db (sealed_count self.now) stood) (D.disk dev.old) (D.disk dev.new) }
    {}

    /// The 8,192 bytes of a page, or `None` where it lies in no frame. No page is read.
    pub fn peek(&self, file: u16, page: u32) -> Option<&[u8; 8192]>
        ensures { MatchOption result (IsAbsent self.now.pool.pages file page) (λ bytes. (i : ℕ) × IsIn self.now.pool.pages i file page × (bytes.now ≡ slice_index_or self.now.pool.frames i [])) }
    {
        let i = self.pool.place(file, page)?;
        Some(self.pool.frame(i))
    }

    /// The bytes of the durable records from the number `from` to below `to`, which are at least the kept point and at most the number behind that of the last durable record. The log stands on the
    /// device, whatever else does. Changes nothing.
    pub fn log_bytes<D: Device>(
        &self,
        alloc: Global,
        dev: &mut D,
        from: Lsn,
        to: Lsn,
    ) -> Result<Vec<u8>, PagedError>
        requires fit { self.now.failed ≡ false }
        requires kept { self.now.log.head.kept ≤ from }
        requires order { from ≤ to }
        requires inside { to ≤ self.now.log.stored }
        requires stands { D.tells → IsStoredLog (D.disk dev.old) self.now.log }
        ensures stands { D.tells → (stood : Stood) → IsPaged (D.disk dev.old) self.now stood → IsPaged (D.disk dev.new) self.now stood }
        ensures standing { D.tells → Standing (D.disk dev.old) self.now → Standing (D.disk dev.new) self.now }
        ensures bytes { D.tells → (stood : Stood) → IsPaged (D.disk dev.old) self.now stood → IfOk result (λ bytes. IsLog bytes.items (from_to from to stood.records) None) }
        ensures foreign { IsErrOf result PagedError.Foreign → ⊥ }
        ensures effect { D.tells → ChangesNothing (D.disk dev.old) (D.disk dev.new) }
        ensures cause { HasCause D.disk_faults D.tell_faults dev.old dev.new (IsErrOf result PagedError.Fault) }
    {
        let bytes = self.log.bytes(alloc, dev, from, to)?;
        Ok(bytes)
    }

    /// The 8,192 bytes of a page as of the end, which is one of a data file. Where it lies in no frame and every frame is dirty, what waited is made durable and all changed pages are written
    /// first. A crash leaves the records that were durable, or some more of them.
    pub fn page<D: Device>(
        &mut self,
        alloc: Global,
        dev: &mut D,
        file: u16,
        page: u32,
    ) -> Result<[u8; 8192], PagedError>
        requires fit { self.old.failed ≡ false }
        requires there { IsThere self.old.facts.files (record { file = file; page = page }) }
        requires standing { D.tells → Standing (D.disk dev.old) self.old }
        ensures fit { OnOk result (self.new.failed ≡ false) }
        ensures same { OnOk result ((self.new.log.db ≡ self.old.log.db) × (self.new.log.end ≡ self.old.log.end) × (self.new.log.head.kept ≡ self.old.log.head.kept) × (self.new.facts ≡ self.old.facts)) }
        ensures stands { D.tells → (stood : Stood) → IsPaged (D.disk dev.old) self.old stood → OnOk result (IsPaged (D.disk dev.new) self.new stood) }
        ensures standing { D.tells → OnOk result (Standing (D.disk dev.new) self.new) }
        ensures later { D.tells → (stood : Stood) → IsPaged (D.disk dev.old) self.old stood → OnOk result (self.old.log.stored ≤ self.new.log.stored) }
        ensures spare { OnOk result (KeepsSpare self.old.log self.new.log) }
        ensures foreign { D.tells → IsErrOf result PagedError.Foreign → (stood : Stood) → IsPaged (D.disk dev.old) self.old stood → ⊥ }
        ensures page { D.tells → (stood : Stood) → IsPaged (D.disk dev.old) self.old stood → IfOk result (λ bytes. IsLast stood.records (record { file = file; page = page }) bytes) }
        ensures crash { D.tells → (stood : Stood) → IsPaged (D.disk dev.old) self.old stood → Effect (IsOwn self.old.log.db stood.files) (Leaves self.old.log.db (sealed_count self.old) stood) (D.disk dev.old) (D.disk dev.new) }
        ensures touches { D.tells → Touches self.old (D.disk dev.old) (D.disk dev.new) }
        ensures cause { HasCause D.disk_faults D.tell_faults dev.old dev.new (IsErrOf result PagedError.Fault) }
    {
        let i = self.bring(alloc, dev, file, page)?;
        Ok(copy_frame(&self.pool, i))
    }
}
