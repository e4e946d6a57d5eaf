// Extents and log records, copied into a set.
ghost use Rattle.std.specs.Prelude.{◌≡◌, ◌≤◌, ◌<◌, ◌+◌, ◌^◌, ◌++◌, ◌∷◌, [], List, ℕ, None, false, length, map, OnOk, IsErrOf};
ghost use Rattle.std.specs.List.{All};
ghost use Rattle.bk_body.specs.Body.{Extent};
ghost use Rattle.bk_device.specs.Counts.{HasCause};
ghost use Rattle.bk_paged.specs.Paged.{Standing, from_to};
ghost use Rattle.bk_record.specs.Log.{IsLog};
ghost use Rattle.bk_store.specs.Copying.{IsExtentOf};
ghost use Rattle.bk_store.specs.Store.{IsStore};
ghost use Rattle.bk_store.specs.Told.{Told};
ghost use Rattle.bk_undo.specs.Spelled.{spelled};
ghost use Rattle.bk_volume.specs.Staging.{HoldsParts, IsStaged};
ghost use Rattle.bk_copying.specs.Copying.{AreCopies, CopyCrashes, IsAsBefore, IsNamed, TouchesBoth};
ghost use Rattle.bk_copying.specs.Extents.{HasExtent};

use crate::error::CopyError;
use bk_device::Device;
use bk_ids::{ExtentId, Lsn};
use bk_store::Store;
use bk_volume::Staged;
use std::alloc::Global;

// An extent has so many bytes.
const EXTENT: usize = 65_536;

// Ends where a copy hasn't the size of an extent, as if memory were wanting: that of a store's extent always has.
fn check_size(copy: &[u8]) -> Result<(), CopyError>
    ensures size { OnOk result (length copy.now ≡ 65536) }
    ensures fault { IsErrOf result CopyError.Fault → ⊥ }
{
    if copy.len() != EXTENT {
        return Err(CopyError::NoMemory);
    }
    Ok(())
}

/// Copies a data extent as of the end into `copy`, in place of what was there, and adds it to a set that has no log yet.
///
/// After an error the store is no longer used, and the set is removed.
pub fn copy_extent<D: Device>(
    dev: &mut D,
    store: &mut Store,
    staged: &mut Staged,
    at: ExtentId,
    copy: &mut Vec<u8>,
) -> Result<(), CopyError>
    requires fit { store.old.paged.failed ≡ false }
    requires there { HasExtent store.old.paged.facts.files at }
    requires standing { D.tells → Standing (D.disk dev.old) store.old.paged }
    requires sound { staged.old.failed ≡ false }
    requires named { IsNamed staged.old }
    requires first { staged.old.log ≡ 0 }
    requires few { staged.old.extents + 1 < 2 ^ 32 }
    requires staged { D.tells → IsStaged (D.disk dev.old) staged.old }
    ensures same { OnOk result (IsAsBefore store.old store.new) }
    ensures stands { D.tells → (told : Told) → IsStore (D.disk dev.old) store.old told → OnOk result (IsStore (D.disk dev.new) store.new told) }
    ensures standing { D.tells → OnOk result (Standing (D.disk dev.new) store.new.paged) }
    ensures later { D.tells → (told : Told) → IsStore (D.disk dev.old) store.old told → OnOk result (store.old.paged.log.stored ≤ store.new.paged.log.stored) }
    ensures counted { OnOk result (staged.new ≡ record staged.old { extents = staged.old.extents + 1 }) }
    ensures name { staged.new.name ≡ staged.old.name }
    ensures staged { D.tells → OnOk result (IsStaged (D.disk dev.new) staged.new) }
    ensures copied { D.tells → (told : Told) → IsStore (D.disk dev.old) store.old told → OnOk result (IsExtentOf told at.file at.extent copy.new.items) }
    ensures added { D.tells → (extents : List Extent) → HoldsParts (D.disk dev.old) staged.old extents []
        → OnOk result (HoldsParts (D.disk dev.new) staged.new (extents ++ (record { file = at.file; extent = at.extent; bytes = copy.new.items }) ∷ []) []) }
    ensures crash { D.tells → (told : Told) → IsStore (D.disk dev.old) store.old told → CopyCrashes store.old staged.old told (D.disk dev.old) (D.disk dev.new) }
    ensures touches { D.tells → TouchesBoth store.old staged.old (D.disk dev.old) (D.disk dev.new) }
    ensures cause { HasCause D.disk_faults D.tell_faults dev.old dev.new (IsErrOf result CopyError.Fault) }
{
    store.read_extent(dev, at.file, at.extent, copy)?;
    check_size(copy)?;
    staged.add_extent(dev, at.file, at.extent, copy)?;
    Ok(())
}

/// Copies these data extents as of the end, one behind the other, into a set that has no log yet.
///
/// After an error the store is no longer used, and the set is removed.
pub fn copy_extents<D: Device>(
    alloc: Global,
    dev: &mut D,
    store: &mut Store,
    staged: &mut Staged,
    extents: &[ExtentId],
) -> Result<(), CopyError>
    requires fit { store.old.paged.failed ≡ false }
    requires there { All (HasExtent store.old.paged.facts.files) extents.now }
    requires standing { D.tells → Standing (D.disk dev.old) store.old.paged }
    requires sound { staged.old.failed ≡ false }
    requires named { IsNamed staged.old }
    requires first { staged.old.log ≡ 0 }
    requires few { staged.old.extents + length extents.now < 2 ^ 32 }
    requires staged { D.tells → IsStaged (D.disk dev.old) staged.old }
    ensures same { OnOk result (IsAsBefore store.old store.new) }
    ensures stands { D.tells → (told : Told) → IsStore (D.disk dev.old) store.old told → OnOk result (IsStore (D.disk dev.new) store.new told) }
    ensures standing { D.tells → OnOk result (Standing (D.disk dev.new) store.new.paged) }
    ensures later { D.tells → (told : Told) → IsStore (D.disk dev.old) store.old told → OnOk result (store.old.paged.log.stored ≤ store.new.paged.log.stored) }
    ensures counted { OnOk result (staged.new ≡ record staged.old { extents = staged.old.extents + length extents.now }) }
    ensures name { staged.new.name ≡ staged.old.name }
    ensures staged { D.tells → OnOk result (IsStaged (D.disk dev.new) staged.new) }
    ensures added { D.tells → (told : Told) → IsStore (D.disk dev.old) store.old told → (before : List Extent) → HoldsParts (D.disk dev.old) staged.old before []
        → OnOk result ((more : List Extent) × AreCopies told extents.now more × HoldsParts (D.disk dev.new) staged.new (before ++ more) []) }
    ensures crash { D.tells → (told : Told) → IsStore (D.disk dev.old) store.old told → CopyCrashes store.old staged.old told (D.disk dev.old) (D.disk dev.new) }
    ensures touches { D.tells → TouchesBoth store.old staged.old (D.disk dev.old) (D.disk dev.new) }
    ensures cause { HasCause D.disk_faults D.tell_faults dev.old dev.new (IsErrOf result CopyError.Fault) }
{
    let mut copy = Vec::new(alloc);
    for i in 0..extents.len() {
        copy_extent(dev, store, staged, extents[i], &mut copy)?;
    }
    Ok(())
}

/// Copies the durable records from the number `from` to below `to`, which are at least the kept point and at most the number behind that of the last durable record, into a set behind what it
/// has. The store stays as it is.
///
/// After an error the set is removed.
pub fn copy_log<D: Device>(
    alloc: Global,
    dev: &mut D,
    store: &Store,
    staged: &mut Staged,
    from: Lsn,
    to: Lsn,
) -> Result<(), CopyError>
    requires fit { store.now.paged.failed ≡ false }
    requires kept { store.now.paged.log.head.kept ≤ from }
    requires order { from ≤ to }
    requires inside { to ≤ store.now.paged.log.stored }
    requires standing { D.tells → Standing (D.disk dev.old) store.now.paged }
    requires sound { staged.old.failed ≡ false }
    requires named { IsNamed staged.old }
    requires staged { D.tells → IsStaged (D.disk dev.old) staged.old }
    ensures stands { D.tells → (told : Told) → IsStore (D.disk dev.old) store.now told → IsStore (D.disk dev.new) store.now told }
    ensures standing { D.tells → Standing (D.disk dev.new) store.now.paged }
    ensures counted { OnOk result (staged.new ≡ record staged.old { log = staged.new.log }) }
    ensures name { staged.new.name ≡ staged.old.name }
    ensures staged { D.tells → OnOk result (IsStaged (D.disk dev.new) staged.new) }
    ensures added { D.tells → (told : Told) → IsStore (D.disk dev.old) store.now told → (extents : List Extent) (before : List ℕ) → HoldsParts (D.disk dev.old) staged.old extents before
        → OnOk result ((log : List ℕ) × IsLog log (from_to from to (map spelled told.records)) None × HoldsParts (D.disk dev.new) staged.new extents (before ++ log)) }
    ensures crash { D.tells → (told : Told) → IsStore (D.disk dev.old) store.now told → CopyCrashes store.now staged.old told (D.disk dev.old) (D.disk dev.new) }
    ensures touches { D.tells → TouchesBoth store.now staged.old (D.disk dev.old) (D.disk dev.new) }
    ensures cause { HasCause D.disk_faults D.tell_faults dev.old dev.new (IsErrOf result CopyError.Fault) }
{
    let bytes = store.log_bytes(alloc, dev, from, to)?;
    staged.add_log(dev, &bytes)?;
    Ok(())
}
