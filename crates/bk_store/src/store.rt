// A store of one database.
ghost use Rattle.std.specs.Prelude.{◌≡◌, ◌≤◌, false, length, OnOk, IsErrOf};
ghost use Rattle.bk_device.specs.Counts.{HasCause};
ghost use Rattle.bk_paged.specs.Log.{KeepsSpare};
ghost use Rattle.bk_known.specs.Known.{KeepsKnown};
ghost use Rattle.bk_paged.specs.Paged.{Standing, Touches};
ghost use Rattle.bk_store.specs.Store.{Crashes, IsStore, Kept};
ghost use Rattle.bk_store.specs.Told.{Told};

use crate::error::StoreError;
use bk_device::Device;
use bk_ids::Lsn;
use bk_known::Known;
use bk_paged::Paged;
use bk_shown::Shown;
use std::alloc::Global;
use std::marker::Model;

/// One database over its files: its log and pages, what they show, what its note says of it, and a note for the layer above.
///
/// Once a call that took the value by `&mut` has answered an error it is no longer used.
pub struct Store {
    pub(crate) paged: Paged,
    pub(crate) shown: Shown,
    pub(crate) known: Known,
    // of the layer above
    pub(crate) note: Vec<u8>,
}

impl Drop for Store {
    fn drop(self) {
        let Store {
            paged: _,
            shown: _,
            known: _,
            note: _,
        } = self;
    }
}

impl Model for Store {
    ghost Value = { Kept };

    ghost view = { λ s. record {
      paged = s.paged;
      shown = s.shown;
      known = s.known;
      note = s.note.items;
    } };

    ghost invariant = { λ s. KeepsKnown s.known × (length s.note.items ≤ 12288) };
}

impl Store {
    /// The value of its parts, as they are opened: log and pages, what the log shows, what its note says, and the note of the layer above.
    pub fn from_parts(paged: Paged, shown: Shown, known: Known, note: Vec<u8>) -> Store
        requires keeps { KeepsKnown known }
        requires short { length note.items ≤ 12288 }
        ensures { result ≡ record { paged = paged; shown = shown; known = known; note = note.items } }
    {
        Store {
            paged,
            shown,
            known,
            note,
        }
    }

    /// The number of the next record.
    pub fn end(&self) -> Lsn
        ensures { result ≡ self.now.paged.log.end }
    {
        self.paged.end()
    }

    /// The number of the first record that the log holds.
    pub fn kept(&self) -> Lsn
        ensures { result ≡ self.now.paged.log.head.kept }
    {
        self.paged.kept()
    }

    /// The number behind that of the last durable record.
    pub fn stored(&self) -> Lsn
        ensures { result ≡ self.now.paged.log.stored }
    {
        self.paged.stored()
    }

    /// The note of the layer above.
    pub fn note(&self) -> &[u8]
        ensures { result.now ≡ self.now.note }
    {
        &self.note
    }

    // What a crash may leave between two calls. Does nothing.
    pub(crate) fn at_rest<D: Device>(&self, dev: &mut D)
        ensures same { dev.new ≡ dev.old }
        ensures crash { D.tells → (told : Told) → IsStore (D.disk dev.old) self.now told → Crashes self.now told (D.disk dev.old) (D.disk dev.new) }
    {
        self.paged.at_rest(dev);
    }

    /// Makes what was said durable. A crash leaves what was durable, or some more of what was said.
    pub fn flush<D: Device>(&mut self, alloc: Global, dev: &mut D) -> Result<(), StoreError>
        requires fit { self.old.paged.failed ≡ false }
        requires standing { D.tells → Standing (D.disk dev.old) self.old.paged }
        ensures fit { OnOk result (self.new.paged.failed ≡ false) }
        ensures stands { D.tells → (told : Told) → IsStore (D.disk dev.old) self.old told → OnOk result (IsStore (D.disk dev.new) self.new told) }
        ensures standing { D.tells → OnOk result (Standing (D.disk dev.new) self.new.paged) }
        ensures ends { OnOk result ((self.new.paged.log.db ≡ self.old.paged.log.db) × (self.new.paged.log.end ≡ self.old.paged.log.end) × (self.new.paged.log.stored ≡ self.old.paged.log.end) × (self.new.paged.log.head.kept ≡ self.old.paged.log.head.kept)) }
        ensures files { OnOk result (self.new.paged.facts.files ≡ self.old.paged.facts.files) }
        ensures spare { OnOk result (KeepsSpare self.old.paged.log self.new.paged.log) }
        ensures same { OnOk result (self.new ≡ record self.old { paged = self.new.paged }) }
        ensures crash { D.tells → (told : Told) → IsStore (D.disk dev.old) self.old told → Crashes self.old told (D.disk dev.old) (D.disk dev.new) }
        ensures touches { D.tells → Touches self.old.paged (D.disk dev.old) (D.disk dev.new) }
        ensures cause { HasCause D.disk_faults D.tell_faults dev.old dev.new (IsErrOf result StoreError.Fault) }
    {
        self.paged.flush(alloc, dev)?;
        Ok(())
    }
}
