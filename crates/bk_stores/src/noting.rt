// What is kept of a database of which a note alone tells.
ghost use Rattle.std.specs.Prelude.{◌≡◌, ◌++◌, ℕ, List, Some, false, slice_get, IfOk, IsErrOf};
ghost use Rattle.bk_device.specs.Calls.{ChangesNothing};
ghost use Rattle.bk_device.specs.Counts.{HasCause};
ghost use Rattle.bk_known.specs.declared.known.Known.{Known as Knowns};
ghost use Rattle.bk_known.specs.Known.{IsKnown, known_bytes};
ghost use Rattle.bk_master.specs.declared.record.Entry.{Entry as Entries};
ghost use Rattle.bk_segments.specs.Files.{LogIs, Logged};
ghost use Rattle.bk_store.specs.Told.{Told};
ghost use Rattle.bk_stores.specs.Parking.{IsParked, Spells};
ghost use Rattle.bk_stores.specs.Stores.{AreStores};

use crate::records::store_at;
use crate::stores::Stores;
use bk_device::{Device, Trouble};
use bk_known::{Known, read_known};
use bk_reading::Unread;
use bk_segments::find;
use std::alloc::Global;

// The note of the log of this number. `Broken` is answered only where the files are no log.
fn note_of<D: Device>(alloc: Global, dev: &mut D, number: u32) -> Result<Vec<u8>, Trouble>
    ensures note { D.tells → (log : Logged) → LogIs (D.disk dev.old).files number log → IfOk result (λ note. note.items ≡ log.note) }
    ensures broken { D.tells → IsErrOf result Trouble.Broken → (log : Logged) → LogIs (D.disk dev.old).files number log → ⊥ }
    ensures effect { D.tells → ChangesNothing (D.disk dev.old) (D.disk dev.new) }
    ensures cause { HasCause D.disk_faults D.tell_faults dev.old dev.new (IsErrOf result Trouble.Fault) }
{
    let found = find(alloc, dev, number, false)?;
    Ok(found.note)
}

// The description and the note that these bytes spell. `Broken` is answered only where they spell none.
fn spelled_in(alloc: Global, bytes: &[u8]) -> Result<(Known, Vec<u8>), Trouble>
    ensures told { (known : Knowns) (note : List ℕ) → Spells bytes.now known note → IfOk result (λ x. (x.0 ≡ known) × (x.1.items ≡ note)) }
    ensures broken { IsErrOf result Trouble.Broken → (known : Knowns) (note : List ℕ) → Spells bytes.now known note → ⊥ }
    ensures fault { IsErrOf result Trouble.Fault → ⊥ }
{
    match read_known(alloc, bytes) {
        Ok((known, rest)) => Ok((known, rest.to_vec(alloc)?)),
        Err(Unread::Unspelled) => Err(Trouble::Broken),
        Err(Unread::NoMemory) => Err(Trouble::NoMemory),
    }
}

impl Stores {
    /// The description and the note that are kept of the database at this place, which counts from 0, where they alone tell of it. Changes nothing.
    ///
    /// `Broken` is answered only where the files hold no such database.
    pub fn noted<D: Device>(
        &self,
        alloc: Global,
        dev: &mut D,
        at: usize,
    ) -> Result<(Known, Vec<u8>), Trouble>
        requires parked { (e : Entries) × (slice_get self.now.master.record.databases at ≡ Some e) × (e.is_stored ≡ false) }
        ensures tells { D.tells → (tolds : List Told) (told : Told) → AreStores (D.disk dev.old) self.now tolds → slice_get tolds at ≡ Some told → IfOk result (λ x. IsParked x.0 x.1.items told) }
        ensures broken { D.tells → IsErrOf result Trouble.Broken → (tolds : List Told) → AreStores (D.disk dev.old) self.now tolds → ⊥ }
        ensures effect { D.tells → ChangesNothing (D.disk dev.old) (D.disk dev.new) }
        ensures cause { HasCause D.disk_faults D.tell_faults dev.old dev.new (IsErrOf result Trouble.Fault) }
    {
        let number = store_at(self.master.record(), at);
        let bytes = note_of(alloc, dev, number)?;
        spelled_in(alloc, &bytes)
    }
}
