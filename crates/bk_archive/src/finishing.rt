//! The medium that was being made when a run was cut off.
ghost use Rattle.std.specs.Prelude.{◌≡◌, IfErr, IfOk, IsErrOf, OnOk};
ghost use Rattle.bk_bytes.specs.Field.{AreBytes};
ghost use Rattle.bk_device.specs.Calls.{ChangesNothing};
ghost use Rattle.bk_device.specs.Counts.{HasCause};
ghost use Rattle.bk_device.specs.Disk.{IsDurable};
ghost use Rattle.bk_device.specs.Effects.{Effect, IsName};
ghost use Rattle.bk_device.specs.Troubles.{IsPassing};
ghost use Rattle.bk_device.specs.declared.trouble.Trouble.TheVariants.{Fault};
ghost use Rattle.bk_gate.specs.Blobs.{sealed};
ghost use Rattle.bk_volume.specs.Names as names;
ghost use Rattle.bk_archive.specs.Calls.{HasFinished, IsCleared, LeavesCleared, LeavesFinishing};
ghost use Rattle.bk_archive.specs.Media as media;
ghost use Rattle.bk_archive.specs.Media.{IfDurable, IsMediumFile, MediaAreDurable};

use bk_device::{Device, Trouble, remove_durably};
use bk_gate::{Gate, GateError};
use bk_volume::medium_file;
use std::alloc::Global;

// Whether no blob of a file is sealed. Changes nothing.
fn is_begun<D: Device>(alloc: Global, dev: &mut D, file: &str) -> Result<bool, Trouble>
    ensures begun { D.tells → IfOk result (λ is. is ≡ media.is_begun (sealed ((D.disk dev.old).files file.now))) }
    ensures effect { D.tells → ChangesNothing (D.disk dev.old) (D.disk dev.new) }
    ensures trouble { IfErr result IsPassing }
    ensures cause { HasCause D.disk_faults D.tell_faults dev.old dev.new (IsErrOf result Fault) }
{
    match Gate::load(alloc, dev, file) {
        Ok(gate) => Ok(gate.count() == 0),
        Err(GateError::Foreign) => Ok(true),
        Err(GateError::Fault) => Err(Trouble::Fault),
        Err(GateError::NoMemory) => Err(Trouble::NoMemory),
    }
}

// Removes the file of the medium at a path, where no blob of it is sealed.
fn clear<D: Device>(alloc: Global, dev: &mut D, path: &str) -> Result<(), Trouble>
    ensures bytes { AreBytes path.now }
    ensures cleared { D.tells → OnOk result (IsCleared ((D.disk dev.old).files (names.medium_file path.now)) ((D.disk dev.new).files (names.medium_file path.now))) }
    ensures durable { D.tells → IsDurable (D.disk dev.old) (names.medium_file path.now) → OnOk result (IsDurable (D.disk dev.new) (names.medium_file path.now)) }
    ensures crash { D.tells → Effect (IsName (names.medium_file path.now)) (λ image. LeavesCleared ((D.disk dev.old).may (names.medium_file path.now)) ((D.disk dev.old).files (names.medium_file path.now)) (image (names.medium_file path.now))) (D.disk dev.old) (D.disk dev.new) }
    ensures trouble { IfErr result IsPassing }
    ensures cause { HasCause D.disk_faults D.tell_faults dev.old dev.new (IsErrOf result Fault) }
{
    let file = medium_file(alloc, path)?;
    if is_begun(alloc, dev, &file)? {
        remove_durably(dev, &file)?;
    }
    Ok(())
}

/// Finishes the medium at a path that a record names as being made: where no blob of it is sealed, its file is removed
/// durably, and else it stays. Then the record need no longer name it. The media of a world stay as they were, at each crash
/// too. Of the files only the medium's is touched.
pub fn finish_medium<D: Device>(alloc: Global, dev: &mut D, path: &str) -> Result<(), Trouble>
    ensures finished { D.tells → OnOk result (HasFinished path.now (D.disk dev.old).files (D.disk dev.new).files) }
    ensures durable { D.tells → IsDurable (D.disk dev.old) (names.medium_file path.now) → OnOk result (IsDurable (D.disk dev.new) (names.medium_file path.now)) }
    ensures media { D.tells → MediaAreDurable (D.disk dev.old) → OnOk result (MediaAreDurable (D.disk dev.new)) }
    ensures crash { D.tells → Effect IsMediumFile (IfDurable (D.disk dev.old) (LeavesFinishing path.now (D.disk dev.old).files)) (D.disk dev.old) (D.disk dev.new) }
    ensures spares { D.tells → Effect (IsName (names.medium_file path.now)) (λ image. Unit {0}) (D.disk dev.old) (D.disk dev.new) }
    ensures trouble { IfErr result IsPassing }
    ensures cause { HasCause D.disk_faults D.tell_faults dev.old dev.new (IsErrOf result Fault) }
{
    clear(alloc, dev, path)
}
