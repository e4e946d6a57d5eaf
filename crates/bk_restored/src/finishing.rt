// Making what arrived a database.
ghost use Rattle.std.specs.Prelude.{◌≡◌, ◌≤◌, ℕ, List, length, IsErrOf, OnOk};
ghost use Rattle.bk_device.specs.Counts.{HasCause};
ghost use Rattle.bk_device.specs.Effects.{Effect};
ghost use Rattle.bk_ids.specs.declared.record.Rec.{Rec};
ghost use Rattle.bk_known.specs.Known.{KeepsKnown};
ghost use Rattle.bk_reopening.specs.PagedNames.{IsOwn};
ghost use Rattle.bk_reopening.specs.Reopening.{IsClosed};
ghost use Rattle.bk_restored.specs.Restored.{SufficesTold};
ghost use Rattle.bk_restoring.specs.Arriving.{IsArriving, IsBegun};
ghost use Rattle.bk_restoring.specs.SegmentsFiles.{AreDurable as LogsAreDurable};
ghost use Rattle.bk_reopening.specs.StoreTold.{Told};

use bk_device::Device;
use bk_ids::Lsn;
use bk_known::{Known, spell_known};
use bk_restoring::{Arriving, FillError};
use std::alloc::Global;

/// Puts the control record of a database that has arrived, all of whose pages are there, with the number of its latest checkpoint, what is known of it, and these bytes, at most 12,288, as the note of
/// the layer above: then nothing is pending in its files, and they hold each database for which pages and records suffice. What is pending in its log is undone when it is opened.
///
/// After an error the files may hold anything.
pub fn finish<D: Device>(
    arriving: Arriving,
    alloc: Global,
    dev: &mut D,
    checkpoint: Lsn,
    known: &Known,
    note: &[u8],
) -> Result<(), FillError>
    requires whole { arriving.filling.whole ≡ length arriving.filling.files }
    requires keeps { KeepsKnown known.now }
    requires short { length note.now ≤ 12288 }
    requires stands { D.tells → IsBegun (D.disk dev.old) arriving }
    ensures closed { D.tells → LogsAreDurable arriving.log.db (D.disk dev.old) → (given : ℕ × ℕ → List ℕ) (records : List Rec) (told : Told) → IsArriving (D.disk dev.old).files arriving given records → SufficesTold arriving checkpoint note.now given records known.now told
        → OnOk result (IsClosed arriving.log.db told (D.disk dev.new)) }
    ensures crash { D.tells → Effect (IsOwn arriving.log.db arriving.filling.files) (λ _. Unit {0}) (D.disk dev.old) (D.disk dev.new) }
    ensures cause { HasCause D.disk_faults D.tell_faults dev.old dev.new (IsErrOf result FillError.Fault) }
{
    let bytes = spell_known(alloc, known, note)?;
    arriving.finish(alloc, dev, checkpoint, &bytes)
}
