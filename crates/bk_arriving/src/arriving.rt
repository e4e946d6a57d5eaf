// A database that is made anew from a set.
ghost use Rattle.std.specs.Prelude.{◌≡◌, ◌≤◌, ◌<◌, List, None, length, IfOk, IsErrOf, OnOk};
ghost use Rattle.std.specs.List.{AllByRecursion};
ghost use Rattle.bk_arriving.specs.Extents.{HasExtents};
ghost use Rattle.bk_arriving.specs.Sets.{AreWhole, arriving_of, pages_of};
ghost use Rattle.bk_body.specs.Body.{Body};
ghost use Rattle.bk_device.specs.Calls.{contents};
ghost use Rattle.bk_device.specs.Counts.{HasCause};
ghost use Rattle.bk_device.specs.Effects.{Effect, IsName, KeepsFiles};
ghost use Rattle.bk_filling.specs.Filling.{MayFill, begun};
ghost use Rattle.bk_ids.specs.declared.record.Rec.{Rec};
ghost use Rattle.bk_known.specs.Known.{KeepsKnown};
ghost use Rattle.bk_restoring.specs.PagedNames.{IsOwn};
ghost use Rattle.bk_record.specs.Log.{IsLog};
ghost use Rattle.bk_restored.specs.Reopening.{IsClosed};
ghost use Rattle.bk_restored.specs.Restored.{SufficesTold};
ghost use Rattle.bk_restoring.specs.Arriving.{IsArriving, IsBegun};
ghost use Rattle.bk_segments.specs.Files.{AreDurable as LogsAreDurable};
ghost use Rattle.bk_restored.specs.StoreTold.{Told};
ghost use Rattle.bk_volume.specs.Stored.{IsOf};

use crate::error::ArriveError;
use crate::extents::have_extents;
use crate::sets::push_set;
use bk_device::Device;
use bk_facts::DataFile;
use bk_ids::Lsn;
use bk_known::Known;
use bk_restored::finish;
use bk_restoring::Arriving;
use bk_volume::{Medium, StoredSet};
use std::alloc::Global;

/// The bytes of an extent.
const EXTENT_BYTES: usize = 65_536;

// Begins the database of this number with the log of a set, and no page.
fn begin_with_log<D: Device>(
    alloc: Global,
    dev: &mut D,
    medium: &Medium,
    set: &StoredSet,
    db: u32,
    files: Vec<DataFile>,
) -> Result<Arriving, ArriveError>
    requires may { MayFill files.items }
    ensures numbers { IfOk result (λ a. (a.log.db ≡ db) × (a.log.kept ≡ set.now.header.first)) }
    ensures filling { IfOk result (λ a. a.filling ≡ begun files.items) }
    ensures fitted { IsErrOf result ArriveError.Unfit → ⊥ }
    ensures stands { D.tells → IfOk result (λ a. IsBegun (D.disk dev.new) a) }
    ensures arrives { D.tells → (body : Body) (records : List Rec) → IsOf (contents ((D.disk dev.old).files medium.now.name)) body set.now → IsLog body.log records None → IfOk result (λ a. IsArriving (D.disk dev.new).files a (pages_of body) records) }
    ensures durable { D.tells → LogsAreDurable db (D.disk dev.old) → OnOk result (LogsAreDurable db (D.disk dev.new)) }
    ensures crash { D.tells → Effect (IsOwn db files.items) (λ _. Unit {0}) (D.disk dev.old) (D.disk dev.new) }
    ensures cause { HasCause D.disk_faults D.tell_faults dev.old dev.new (IsErrOf result ArriveError.Fault) }
{
    let log = medium.log_of(alloc, dev, set)?;
    let mut arriving = Arriving::begin(alloc, dev, db, set.header().first, files)?;
    match arriving.push_log(alloc, dev, &log) {
        Ok(()) => Ok(arriving),
        Err(e) => {
            drop(arriving);
            Err(ArriveError::from(e))
        }
    }
}

// Begins the database of this number with the log and all pages of a set.
fn begin_with_set<D: Device>(
    alloc: Global,
    dev: &mut D,
    medium: &Medium,
    set: &StoredSet,
    db: u32,
    files: Vec<DataFile>,
) -> Result<Arriving, ArriveError>
    requires may { MayFill files.items }
    requires even { AllByRecursion HasExtents files.items }
    requires apart { IsOwn db files.items medium.now.name → ⊥ }
    ensures numbers { IfOk result (λ a. (a.log.db ≡ db) × (a.log.kept ≡ set.now.header.first)) }
    ensures files { IfOk result (λ a. a.filling.files ≡ files.items) }
    ensures whole { IfOk result (λ a. a.filling.whole ≡ length a.filling.files) }
    ensures fits { D.tells → (body : Body) → IsOf (contents ((D.disk dev.old).files medium.now.name)) body set.now → OnOk result (AreWhole files.items body.extents) }
    ensures unfit { D.tells → (body : Body) → IsOf (contents ((D.disk dev.old).files medium.now.name)) body set.now → AreWhole files.items body.extents → IsErrOf result ArriveError.Unfit → ⊥ }
    ensures stands { D.tells → IfOk result (λ a. IsBegun (D.disk dev.new) a) }
    ensures arrives { D.tells → (body : Body) (records : List Rec) → IsOf (contents ((D.disk dev.old).files medium.now.name)) body set.now → IsLog body.log records None → IfOk result (λ a. IsArriving (D.disk dev.new).files a (pages_of body) records) }
    ensures durable { D.tells → LogsAreDurable db (D.disk dev.old) → OnOk result (LogsAreDurable db (D.disk dev.new)) }
    ensures crash { D.tells → Effect (IsOwn db files.items) (λ _. Unit {0}) (D.disk dev.old) (D.disk dev.new) }
    ensures cause { HasCause D.disk_faults D.tell_faults dev.old dev.new (IsErrOf result ArriveError.Fault) }
{
    let mut buf = vec![in alloc; 0u8; EXTENT_BYTES]?;
    let mut arriving = begin_with_log(alloc, dev, medium, set, db, files)?;
    match push_set(dev, medium, set, buf.as_mut_slice(), &mut arriving) {
        Ok(()) => Ok(arriving),
        Err(e) => {
            drop(arriving);
            Err(e)
        }
    }
}

/// Makes the database of this number anew from an opened full set: its log and the set's extents, with fresh header pages; then the control record with the number of the latest checkpoint, what is known
/// of it, and at most 12,288 bytes as the note above. Holds an extent and the log in memory.
///
/// `Unfit` is answered only where the set's extents aren't those of these data files in their order. After an error the files may hold anything.
pub fn arrive<D: Device>(
    alloc: Global,
    dev: &mut D,
    medium: &Medium,
    set: &StoredSet,
    db: u32,
    files: Vec<DataFile>,
    checkpoint: Lsn,
    known: &Known,
    note: &[u8],
) -> Result<(), ArriveError>
    requires may { MayFill files.items }
    requires keeps { KeepsKnown known.now }
    requires short { length note.now ≤ 12288 }
    requires apart { IsOwn db files.items medium.now.name → ⊥ }
    ensures closed { D.tells → LogsAreDurable db (D.disk dev.old) → (body : Body) (records : List Rec) (told : Told) → IsOf (contents ((D.disk dev.old).files medium.now.name)) body set.now → IsLog body.log records None
        → SufficesTold (arriving_of files.items db set.now.header.first) checkpoint note.now (pages_of body) records known.now told → OnOk result (IsClosed db told (D.disk dev.new)) }
    ensures fits { D.tells → (body : Body) → IsOf (contents ((D.disk dev.old).files medium.now.name)) body set.now → OnOk result (AreWhole files.items body.extents) }
    ensures unfit { D.tells → (body : Body) → IsOf (contents ((D.disk dev.old).files medium.now.name)) body set.now → AreWhole files.items body.extents → IsErrOf result ArriveError.Unfit → ⊥ }
    ensures medium { D.tells → KeepsFiles (IsName medium.now.name) (D.disk dev.old) (D.disk dev.new) }
    ensures crash { D.tells → Effect (IsOwn db files.items) (λ _. Unit {0}) (D.disk dev.old) (D.disk dev.new) }
    ensures cause { HasCause D.disk_faults D.tell_faults dev.old dev.new (IsErrOf result ArriveError.Fault) }
{
    if !have_extents(&files) {
        return Err(ArriveError::Unfit);
    }
    let arriving = begin_with_set(alloc, dev, medium, set, db, files)?;
    finish(arriving, alloc, dev, checkpoint, known, note)?;
    Ok(())
}
