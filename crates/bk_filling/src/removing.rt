// Removing parts of a database by their names.
ghost use Rattle.std.specs.Prelude.{◌≡◌, ◌≤◌, ◌<◌, ◌+◌, ℕ, List, length, map, string_bytes, IfOk, IsErr, IsErrOf, OnOk};
ghost use Rattle.bk_device.specs.Counts.{HasCause};
ghost use Rattle.bk_device.specs.Effects.{Effect, IsName};
ghost use Rattle.bk_filling.specs.Removing.{AreGone, IsAmong, IsPart, IsRecorded};
ghost use Rattle.bk_segments.specs.Files.{control_file, segment_file, AreDurable, IsBetween, IsOwn as IsOfLog};
ghost use Rattle.bk_side.specs.Names.{IsData, data_file, side_file, IsOwn as IsOfSide};

use crate::error::FillError;
use bk_device::{Device, Failed, remove_durably};
use bk_ids::Text;
use bk_segments::{control_name, find_head};
use bk_side::{data_files, side_file};
use std::alloc::{AllocError, Global};

// Removes the files of these names.
fn remove_files<D: Device>(dev: &mut D, names: &[Text]) -> Result<(), Failed>
    ensures gone { D.tells → OnOk result (AreGone (IsAmong names.now (length names.now)) (D.disk dev.new)) }
    ensures crash { D.tells → Effect (IsData names.now) (λ _. Unit {0}) (D.disk dev.old) (D.disk dev.new) }
    ensures cause { HasCause D.disk_faults D.tell_faults dev.old dev.new (IsErr result) }
{
    'files: for name in names {
        remove_durably(dev, name.as_str())?;
    }
    Ok(())
}

// Removes the data files at these paths, and the side file of a database.
fn remove_pages<D: Device>(
    alloc: Global,
    dev: &mut D,
    db: u32,
    paths: &[Text],
) -> Result<(), FillError>
    ensures gone { D.tells → OnOk result (AreGone (IsOfSide (side_file db) (map data_file paths.now)) (D.disk dev.new)) }
    ensures crash { D.tells → Effect (IsOfSide (side_file db) (map data_file paths.now)) (λ _. Unit {0}) (D.disk dev.old) (D.disk dev.new) }
    ensures cause { HasCause D.disk_faults D.tell_faults dev.old dev.new (IsErrOf result FillError.Fault) }
{
    let names = data_files(alloc, paths)?;
    let side = side_file(alloc, db)?;
    remove_files(dev, &names)?;
    remove_durably(dev, &side)?;
    Ok(())
}

// The name of the segment of this number.
fn segment_name(alloc: Global, db: u32, n: u64) -> Result<String, AllocError>
    ensures { IfOk result (λ name. string_bytes name ≡ segment_file db n) }
{
    format!(in alloc; "g-{db}-{n}")
}

// Removes the segment of this number.
fn remove_segment<D: Device>(alloc: Global, dev: &mut D, db: u32, n: u64) -> Result<(), FillError>
    ensures gone { D.tells → OnOk result (AreGone (IsName (segment_file db n)) (D.disk dev.new)) }
    ensures crash { D.tells → Effect (IsName (segment_file db n)) (λ _. Unit {0}) (D.disk dev.old) (D.disk dev.new) }
    ensures cause { HasCause D.disk_faults D.tell_faults dev.old dev.new (IsErrOf result FillError.Fault) }
{
    let name = segment_name(alloc, db, n)?;
    remove_durably(dev, &name)?;
    Ok(())
}

// Removes the segments from one number to below another.
fn remove_segments<D: Device>(
    alloc: Global,
    dev: &mut D,
    db: u32,
    from: u64,
    to: u64,
) -> Result<(), FillError>
    ensures gone { D.tells → OnOk result (AreGone (IsBetween db from to) (D.disk dev.new)) }
    ensures durable { D.tells → AreDurable db (D.disk dev.old) → OnOk result (AreDurable db (D.disk dev.new)) }
    ensures crash { D.tells → Effect (IsBetween db from to) (λ _. Unit {0}) (D.disk dev.old) (D.disk dev.new) }
    ensures cause { HasCause D.disk_faults D.tell_faults dev.old dev.new (IsErrOf result FillError.Fault) }
{
    'segments: for n in from..to {
        remove_segment(alloc, dev, db, n)?;
    }
    Ok(())
}

// Removes the segments that the control record of a log names, if there is one, and one that was begun behind them.
fn remove_recorded<D: Device>(alloc: Global, dev: &mut D, db: u32) -> Result<(), FillError>
    ensures gone { D.tells → OnOk result (AreGone (IsRecorded (D.disk dev.old).files db) (D.disk dev.new)) }
    ensures durable { D.tells → AreDurable db (D.disk dev.old) → OnOk result (AreDurable db (D.disk dev.new)) }
    ensures crash { D.tells → Effect (IsOfLog db) (λ _. Unit {0}) (D.disk dev.old) (D.disk dev.new) }
    ensures cause { HasCause D.disk_faults D.tell_faults dev.old dev.new (IsErrOf result FillError.Fault) }
{
    let Some(head) = find_head(alloc, dev, db)? else {
        return Ok(());
    };
    remove_segments(alloc, dev, db, head.gone, head.back + 2)
}

// Removes what is there of a log: the segments that its control record names, and then its control file.
fn remove_log<D: Device>(alloc: Global, dev: &mut D, db: u32) -> Result<(), FillError>
    ensures segments { D.tells → OnOk result (AreGone (IsRecorded (D.disk dev.old).files db) (D.disk dev.new)) }
    ensures control { D.tells → OnOk result (AreGone (IsName (control_file db)) (D.disk dev.new)) }
    ensures durable { D.tells → AreDurable db (D.disk dev.old) → OnOk result (AreDurable db (D.disk dev.new)) }
    ensures crash { D.tells → Effect (IsOfLog db) (λ _. Unit {0}) (D.disk dev.old) (D.disk dev.new) }
    ensures cause { HasCause D.disk_faults D.tell_faults dev.old dev.new (IsErrOf result FillError.Fault) }
{
    let name = control_name(alloc, db)?;
    remove_recorded(alloc, dev, db)?;
    remove_durably(dev, &name)?;
    Ok(())
}

/// Removes what is there of a database, durably: the data files at these paths, the side file, the segments that the log's control
/// record names, one that was begun behind them, and then the control file. Segments that no control record names stay. A crash
/// leaves anything of the database's own files, and the call may be repeated.
pub fn remove_parts<D: Device>(
    alloc: Global,
    dev: &mut D,
    db: u32,
    paths: &[Text],
) -> Result<(), FillError>
    ensures pages { D.tells → OnOk result (AreGone (IsOfSide (side_file db) (map data_file paths.now)) (D.disk dev.new)) }
    ensures segments { D.tells → OnOk result (AreGone (IsRecorded (D.disk dev.old).files db) (D.disk dev.new)) }
    ensures control { D.tells → OnOk result (AreGone (IsName (control_file db)) (D.disk dev.new)) }
    ensures durable { D.tells → AreDurable db (D.disk dev.old) → OnOk result (AreDurable db (D.disk dev.new)) }
    ensures crash { D.tells → Effect (IsPart db (map data_file paths.now)) (λ _. Unit {0}) (D.disk dev.old) (D.disk dev.new) }
    ensures cause { HasCause D.disk_faults D.tell_faults dev.old dev.new (IsErrOf result FillError.Fault) }
{
    remove_log(alloc, dev, db)?;
    remove_pages(alloc, dev, db, paths)
}
