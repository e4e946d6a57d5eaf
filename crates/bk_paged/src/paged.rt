// A database's log and pages.
ghost use Rattle.std.specs.Prelude.{◌≡◌, ◌≤◌, ◌<◌, ◌⊎◌, ◌^◌, ◌+◌, ◌||◌, [], length, false, IfOk, OnOk, IsErrOf, IsErr};
ghost use Rattle.bk_device.specs.Calls.{ChangesNothing};
ghost use Rattle.bk_device.specs.Counts.{HasCause};
ghost use Rattle.bk_device.specs.Effects.{Effect};
ghost use Rattle.bk_facts.specs.Facts.{HasPath};
ghost use Rattle.bk_log.specs.Log.{IsLog, KeepsSpare};
ghost use Rattle.std.specs.List.{AllByRecursion};
ghost use Rattle.bk_paged.specs.Appends.{with_waiting};
ghost use Rattle.bk_paged.specs.Pooled.{IsPool};
ghost use Rattle.bk_paged.specs.Holds.{HaveRoom, Leaves, Stood, with_one};
ghost use Rattle.bk_paged.specs.Names.{IsOwn};
ghost use Rattle.bk_paged.specs.Paged.{IsPaged, Kept, Standing, Touches, checkpoint_record, sealed_count};
ghost use Rattle.bk_paths.specs.Paths.{KeepsOpen};

use crate::error::PagedError;
use bk_device::Device;
use bk_facts::{Facts, spell_note};
use bk_ids::{Body, Lsn, Rec};
use bk_log::Log;
use bk_pool::Pool;
use bk_side::Side;
use bk_undo::undoing_law;
use std::alloc::Global;
use std::marker::Model;

/// One database's log and pages over its files: the records of its path, of which the log holds those from the kept point on; the pages that they make,
/// in data files and in a pool; and a note for the layer above.
///
/// Once a call that took the value by `&mut` has answered an error it is no longer used.
pub struct Paged {
    pub(crate) log: Log,
    pub(crate) side: Side,
    pub(crate) pool: Pool,
    pub(crate) facts: Facts,
    // of the layer above
    pub(crate) note: Vec<u8>,
    // each page in the data files is as of some number from this one on
    pub(crate) since: Lsn,
}

impl Drop for Paged {
    fn drop(self) {
        let Paged {
            log: _,
            side: _,
            pool: _,
            facts: _,
            note: _,
            since: _,
        } = self;
    }
}

impl Model for Paged {
    ghost Value = { Kept };

    ghost view = { λ p. record {
      log = p.log;
      side = p.side;
      pool = p.pool;
      facts = p.facts;
      note = p.note.items;
      since = p.since;
      failed = p.log.failed || p.side.failed;
    } };

    ghost invariant = { λ p. IsPool p.pool × AllByRecursion HasPath p.facts.files × HaveRoom p.facts.files p.note.items };
}

impl Paged {
    /// The value of its parts, as they are opened: a log, the side file and the pages of the data files that its note names, and the note of the layer above. The pages in the data files are as of the
    /// latest checkpoint or of later numbers.
    pub fn from_parts(log: Log, side: Side, pool: Pool, facts: Facts, note: Vec<u8>) -> Paged
        requires pool { IsPool pool }
        requires paths { AllByRecursion HasPath facts.files }
        requires room { HaveRoom facts.files note.items }
        ensures { result ≡ record { log = log; side = side; pool = pool; facts = facts; note = note.items; since = facts.checkpoint; failed = log.failed || side.failed } }
    {
        let since = facts.checkpoint;
        Paged {
            log,
            side,
            pool,
            facts,
            note,
            since,
        }
    }

    /// The number of the first record that the log holds.
    pub fn kept(&self) -> Lsn
        ensures { result ≡ self.now.log.head.kept }
    {
        self.log.kept()
    }

    /// The number behind that of the last durable record.
    pub fn stored(&self) -> Lsn
        ensures { result ≡ self.now.log.stored }
    {
        self.log.stored()
    }

    /// The number of the next record.
    pub fn end(&self) -> Lsn
        ensures { result ≡ self.now.log.end }
    {
        self.log.end()
    }

    /// The number of the latest checkpoint, from which redo begins.
    pub fn checkpointed(&self) -> Lsn
        ensures { result ≡ self.now.facts.checkpoint }
    {
        self.facts.checkpoint
    }

    /// The note of the layer above.
    pub fn note(&self) -> &[u8]
        ensures { result.now ≡ self.now.note }
    {
        &self.note
    }

    /// Makes the records that wait durable. The log stands on the device, whatever else does. Where none waits nothing is changed. A crash leaves the records that were durable, or some more of them.
    pub fn flush<D: Device>(&mut self, alloc: Global, dev: &mut D) -> Result<(), PagedError>
        requires fit { self.old.failed ≡ false }
        requires stands { D.tells → IsLog (D.disk dev.old) self.old.log }
        ensures fit { OnOk result (self.new.failed ≡ false) }
        ensures stands { D.tells → (stood : Stood) → IsPaged (D.disk dev.old) self.old stood → OnOk result (IsPaged (D.disk dev.new) self.new stood) }
        ensures standing { D.tells → Standing (D.disk dev.old) self.old → OnOk result (Standing (D.disk dev.new) self.new) }
        ensures logs { D.tells → OnOk result (IsLog (D.disk dev.new) self.new.log) }
        ensures same { OnOk result (self.new ≡ record self.old { log = self.new.log }) }
        ensures sealed { OnOk result ((self.new.log.db ≡ self.old.log.db) × (self.new.log.end ≡ self.old.log.end) × (self.new.log.stored ≡ self.old.log.end) × (self.new.log.waiting ≡ [])) }
        ensures kept { OnOk result (self.new.log.head.kept ≡ self.old.log.head.kept) }
        ensures spare { OnOk result (KeepsSpare self.old.log self.new.log) }
        ensures still { D.tells → self.old.log.waiting ≡ [] → ChangesNothing (D.disk dev.old) (D.disk dev.new) }
        ensures foreign { IsErrOf result PagedError.Foreign → ⊥ }
        ensures crash { D.tells → (stood : Stood) → IsPaged (D.disk dev.old) self.old stood → Effect (IsOwn self.old.log.db stood.files) (Leaves self.old.log.db (sealed_count self.old) stood) (D.disk dev.old) (D.disk dev.new) }
        ensures touches { D.tells → Touches self.old (D.disk dev.old) (D.disk dev.new) }
        ensures cause { HasCause D.disk_faults D.tell_faults dev.old dev.new (IsErrOf result PagedError.Fault) }
    {
        self.log.flush(alloc, dev)?;
        Ok(())
    }

    /// Writes a checkpoint's record at this moment, in milliseconds since 1970-01-01 00:00:00 UTC, and makes all records durable; then writes each page that was changed, by way of the
    /// side file; then makes this the latest checkpoint. The end is below 2^62. A crash leaves the records that were durable, or some more up to the checkpoint's.
    pub fn checkpoint<D: Device>(
        &mut self,
        alloc: Global,
        dev: &mut D,
        now: u64,
    ) -> Result<(), PagedError>
        requires fit { self.old.failed ≡ false }
        requires room { self.old.log.end < 2 ^ 62 }
        requires standing { D.tells → Standing (D.disk dev.old) self.old }
        ensures fit { OnOk result (self.new.failed ≡ false) }
        ensures stands { D.tells → (stood : Stood) → IsPaged (D.disk dev.old) self.old stood → OnOk result (IsPaged (D.disk dev.new) self.new (with_one stood (checkpoint_record self.old now))) }
        ensures standing { D.tells → OnOk result (Standing (D.disk dev.new) self.new) }
        ensures checkpoint { OnOk result ((self.new.facts.checkpoint ≡ self.new.log.end) × (self.new.log.stored ≡ self.new.log.end)) }
        ensures ends { OnOk result ((self.new.log.db ≡ self.old.log.db) × (self.new.log.end ≡ self.old.log.end + 1) × (self.new.log.head.kept ≡ self.old.log.head.kept) × (self.new.facts.files ≡ self.old.facts.files)) }
        ensures spare { OnOk result (KeepsSpare self.old.log self.new.log) }
        ensures foreign { IsErrOf result PagedError.Foreign → ⊥ }
        ensures crash { D.tells → (stood : Stood) → IsPaged (D.disk dev.old) self.old stood → Effect (IsOwn self.old.log.db stood.files) (Leaves self.old.log.db (sealed_count self.old) (with_one stood (checkpoint_record self.old now))) (D.disk dev.old) (D.disk dev.new) }
        ensures touches { D.tells → Touches self.old (D.disk dev.old) (D.disk dev.new) }
        ensures cause { HasCause D.disk_faults D.tell_faults dev.old dev.new (IsErrOf result PagedError.Fault) }
    {
        undoing_law();
        self.append_checkpoint(now)?;
        self.write_all(alloc, dev)?;
        self.note_checkpoint(alloc, dev)
    }

    // Adds the record of a checkpoint, in memory alone.
    fn append_checkpoint(&mut self, now: u64) -> Result<(), PagedError>
        requires room { self.old.log.end < 2 ^ 62 }
        ensures more { OnOk result (self.new ≡ with_waiting self.old (checkpoint_record self.old now)) }
        ensures err { IsErr result → self.new ≡ self.old }
        ensures foreign { IsErrOf result PagedError.Foreign → ⊥ }
        ensures fault { IsErrOf result PagedError.Fault → ⊥ }
    {
        let r = Rec {
            lsn: self.log.end(),
            begin: 0,
            body: Body::Checkpoint { time: now },
        };
        self.log.append(&r)?;
        Ok(())
    }

    // Makes the number from which on the pages in the data files are as of the latest checkpoint's.
    fn note_checkpoint<D: Device>(&mut self, alloc: Global, dev: &mut D) -> Result<(), PagedError>
        requires fit { self.old.failed ≡ false }
        requires standing { D.tells → Standing (D.disk dev.old) self.old }
        ensures fit { OnOk result (self.new.failed ≡ false) }
        ensures same { OnOk result ((self.new.log.db ≡ self.old.log.db) × (self.new.log.stored ≡ self.old.log.stored) × (self.new.log.end ≡ self.old.log.end) × (self.new.log.head.kept ≡ self.old.log.head.kept)) }
        ensures facts { OnOk result (self.new.facts ≡ record self.old.facts { checkpoint = self.old.since }) }
        ensures stands { D.tells → (stood : Stood) → IsPaged (D.disk dev.old) self.old stood → OnOk result (IsPaged (D.disk dev.new) self.new stood) }
        ensures standing { D.tells → OnOk result (Standing (D.disk dev.new) self.new) }
        ensures spare { OnOk result (KeepsSpare self.old.log self.new.log) }
        ensures foreign { IsErrOf result PagedError.Foreign → ⊥ }
        ensures crash { D.tells → (stood : Stood) → IsPaged (D.disk dev.old) self.old stood → Effect (IsOwn self.old.log.db stood.files) (Leaves self.old.log.db (sealed_count self.old) stood) (D.disk dev.old) (D.disk dev.new) }
        ensures touches { D.tells → Touches self.old (D.disk dev.old) (D.disk dev.new) }
        ensures cause { HasCause D.disk_faults D.tell_faults dev.old dev.new (IsErrOf result PagedError.Fault) }
    {
        self.facts.checkpoint = self.since;
        let bytes = spell_note(alloc, &self.facts, &self.note)?;
        self.log.set_note(dev, &bytes)?;
        Ok(())
    }

    /// Makes these bytes, at most 30,720, the note of the layer above. A crash leaves the database with the old note or the new one.
    pub fn set_note<D: Device>(
        &mut self,
        alloc: Global,
        dev: &mut D,
        bytes: &[u8],
    ) -> Result<(), PagedError>
        requires fit { self.old.failed ≡ false }
        requires short { length bytes.now ≤ 30720 }
        requires standing { D.tells → Standing (D.disk dev.old) self.old }
        ensures fit { OnOk result (self.new.failed ≡ false) }
        ensures same { OnOk result ((self.new.log.db ≡ self.old.log.db) × (self.new.log.stored ≡ self.old.log.stored) × (self.new.log.end ≡ self.old.log.end) × (self.new.log.head.kept ≡ self.old.log.head.kept)) }
        ensures facts { OnOk result (self.new.facts ≡ self.old.facts) }
        ensures stands { D.tells → (stood : Stood) → IsPaged (D.disk dev.old) self.old stood → OnOk result (IsPaged (D.disk dev.new) self.new (record stood { note = bytes.now })) }
        ensures standing { D.tells → OnOk result (Standing (D.disk dev.new) self.new) }
        ensures spare { OnOk result (KeepsSpare self.old.log self.new.log) }
        ensures foreign { IsErrOf result PagedError.Foreign → ⊥ }
        ensures crash { D.tells → (stood : Stood) → IsPaged (D.disk dev.old) self.old stood → Effect (IsOwn self.old.log.db stood.files) (λ image. Leaves self.old.log.db (sealed_count self.old) stood image ⊎ Leaves self.old.log.db (sealed_count self.old) (record stood { note = bytes.now }) image) (D.disk dev.old) (D.disk dev.new) }
        ensures touches { D.tells → Touches self.old (D.disk dev.old) (D.disk dev.new) }
        ensures cause { HasCause D.disk_faults D.tell_faults dev.old dev.new (IsErrOf result PagedError.Fault) }
    {
        let spelled = spell_note(alloc, &self.facts, bytes)?;
        self.note = bytes.to_vec(alloc)?;
        self.log.set_note(dev, &spelled)?;
        Ok(())
    }

    /// Cuts the log, so that it holds the records from `to` on. It is at least the kept point, at most the latest checkpoint and at most the number from which on the layer above needs them; all
    /// records are durable, and each transaction with a pending write began there. A crash leaves all records of the path.
    pub fn truncate<D: Device>(&mut self, dev: &mut D, to: Lsn) -> Result<(), PagedError>
        requires fit { self.old.failed ≡ false }
        requires from { self.old.log.head.kept ≤ to }
        requires early { to ≤ self.old.facts.checkpoint }
        requires inside { to ≤ self.old.log.stored }
        requires sealed { self.old.log.stored ≡ self.old.log.end }
        requires standing { D.tells → Standing (D.disk dev.old) self.old }
        ensures fit { OnOk result (self.new.failed ≡ false) }
        ensures stands { D.tells → (stood : Stood) → IsPaged (D.disk dev.old) self.old stood → KeepsOpen to stood.records → to ≤ stood.needed → OnOk result (IsPaged (D.disk dev.new) self.new stood) }
        ensures standing { D.tells → OnOk result (Standing (D.disk dev.new) self.new) }
        ensures same { OnOk result (self.new ≡ record self.old { log = self.new.log }) }
        ensures ends { OnOk result ((self.new.log.db ≡ self.old.log.db) × (self.new.log.stored ≡ self.old.log.stored) × (self.new.log.end ≡ self.old.log.end) × (self.new.log.head.kept ≡ to)) }
        ensures spare { OnOk result (KeepsSpare self.old.log self.new.log) }
        ensures foreign { IsErrOf result PagedError.Foreign → ⊥ }
        ensures crash { D.tells → (stood : Stood) → IsPaged (D.disk dev.old) self.old stood → KeepsOpen to stood.records → to ≤ stood.needed → Effect (IsOwn self.old.log.db stood.files) (Leaves self.old.log.db (sealed_count self.old) stood) (D.disk dev.old) (D.disk dev.new) }
        ensures touches { D.tells → Touches self.old (D.disk dev.old) (D.disk dev.new) }
        ensures cause { HasCause D.disk_faults D.tell_faults dev.old dev.new (IsErrOf result PagedError.Fault) }
    {
        self.log.truncate(dev, to)?;
        Ok(())
    }
}
