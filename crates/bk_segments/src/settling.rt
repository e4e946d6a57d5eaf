// Making durable what counts of a log.
ghost use Rattle.std.specs.Prelude.{◌≤◌, ◌<◌, ℕ, OnOk, IsErrOf};
ghost use Rattle.bk_device.specs.Calls.{ChangesNothing};
ghost use Rattle.bk_device.specs.Counts.{HasCause};
ghost use Rattle.bk_device.specs.Disk.{IsDurable};
ghost use Rattle.bk_device.specs.Effects.{Effect, MayLeaveOwn};
ghost use Rattle.bk_segments.specs.Files.{control_file, segment_file, AreSettled, IsOwn};

use crate::error::LogError;
use crate::names::{control_name, segment_name};
use crate::removing::find_head;
use bk_device::Device;
use std::alloc::Global;

// Makes durable what a read shows of the control file.
fn sync_control<D: Device>(alloc: Global, dev: &mut D, db: u32) -> Result<(), LogError>
    ensures durable { D.tells → OnOk result (IsDurable (D.disk dev.new) (control_file db)) }
    ensures effect { D.tells → OnOk result (ChangesNothing (D.disk dev.old) (D.disk dev.new)) }
    ensures crash { D.tells → Effect (IsOwn db) (MayLeaveOwn (IsOwn db) (D.disk dev.old)) (D.disk dev.old) (D.disk dev.new) }
    ensures foreign { IsErrOf result LogError.Foreign → ⊥ }
    ensures cause { HasCause D.disk_faults D.tell_faults dev.old dev.new (IsErrOf result LogError.Fault) }
{
    let name = control_name(alloc, db)?;
    dev.sync(&name)?;
    Ok(())
}

// Makes durable what a read shows of the segment of this number.
fn sync_segment<D: Device>(alloc: Global, dev: &mut D, db: u32, n: u64) -> Result<(), LogError>
    ensures durable { D.tells → OnOk result (IsDurable (D.disk dev.new) (segment_file db n)) }
    ensures effect { D.tells → OnOk result (ChangesNothing (D.disk dev.old) (D.disk dev.new)) }
    ensures crash { D.tells → Effect (IsOwn db) (MayLeaveOwn (IsOwn db) (D.disk dev.old)) (D.disk dev.old) (D.disk dev.new) }
    ensures foreign { IsErrOf result LogError.Foreign → ⊥ }
    ensures cause { HasCause D.disk_faults D.tell_faults dev.old dev.new (IsErrOf result LogError.Fault) }
{
    let name = segment_name(alloc, db, n)?;
    dev.sync(&name)?;
    Ok(())
}

// The same for the segments from one number to below another.
fn sync_segments<D: Device>(
    alloc: Global,
    dev: &mut D,
    db: u32,
    from: u64,
    to: u64,
) -> Result<(), LogError>
    ensures durable { D.tells → OnOk result ((n : ℕ) → from ≤ n → n < to → IsDurable (D.disk dev.new) (segment_file db n)) }
    ensures effect { D.tells → OnOk result (ChangesNothing (D.disk dev.old) (D.disk dev.new)) }
    ensures crash { D.tells → Effect (IsOwn db) (MayLeaveOwn (IsOwn db) (D.disk dev.old)) (D.disk dev.old) (D.disk dev.new) }
    ensures foreign { IsErrOf result LogError.Foreign → ⊥ }
    ensures cause { HasCause D.disk_faults D.tell_faults dev.old dev.new (IsErrOf result LogError.Fault) }
{
    for n in from..to {
        sync_segment(alloc, dev, db, n)?;
    }
    Ok(())
}

/// Makes durable what a read shows of a log's control file and of its segments that count: a program that was stopped may have
/// left writes there that are still pending. Where there is no sound control record, the control file alone. Changes nothing
/// else. `Foreign` isn't answered.
pub fn settle<D: Device>(alloc: Global, dev: &mut D, db: u32) -> Result<(), LogError>
    ensures settled { D.tells → OnOk result (AreSettled db (D.disk dev.new)) }
    ensures effect { D.tells → OnOk result (ChangesNothing (D.disk dev.old) (D.disk dev.new)) }
    ensures crash { D.tells → Effect (IsOwn db) (MayLeaveOwn (IsOwn db) (D.disk dev.old)) (D.disk dev.old) (D.disk dev.new) }
    ensures foreign { IsErrOf result LogError.Foreign → ⊥ }
    ensures cause { HasCause D.disk_faults D.tell_faults dev.old dev.new (IsErrOf result LogError.Fault) }
{
    sync_control(alloc, dev, db)?;
    let Some(head) = find_head(alloc, dev, db)? else {
        return Ok(());
    };
    sync_segments(alloc, dev, db, head.front, head.back + 1)
}
