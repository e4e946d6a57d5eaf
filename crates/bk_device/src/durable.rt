// Changes of a file that are durable when they are done.
ghost use Rattle.std.specs.Prelude.{◌≡◌, ◌≤◌, ◌⊎◌, Some, None, length, IsErr, OnOk};
ghost use Rattle.bk_device.specs.Calls.{contents, written, LeavesWrite};
ghost use Rattle.bk_device.specs.Counts.{HasCause};
ghost use Rattle.bk_device.specs.Disk.{IsDurable};
ghost use Rattle.bk_device.specs.Effects.{Effect, IsName};

use crate::{Device, Failed};

/// Writes these bytes from offset `at` on, and syncs them.
pub fn write_durably<D: Device>(
    dev: &mut D,
    name: &str,
    at: u64,
    bytes: &[u8],
) -> Result<(), Failed>
    requires inside { D.tells → at ≤ length (contents ((D.disk dev.old).files name.now)) }
    requires settled { D.tells → IsDurable (D.disk dev.old) name.now }
    ensures written { D.tells → OnOk result ((D.disk dev.new).files name.now ≡ Some (written (contents ((D.disk dev.old).files name.now)) at bytes.now)) }
    ensures durable { D.tells → OnOk result (IsDurable (D.disk dev.new) name.now) }
    ensures crash { D.tells → Effect (IsName name.now) (λ image. LeavesWrite at (length bytes.now) ((D.disk dev.old).files name.now) (image name.now)) (D.disk dev.old) (D.disk dev.new) }
    ensures cause { HasCause D.disk_faults D.tell_faults dev.old dev.new (IsErr result) }
{
    dev.write(name, at, bytes)?;
    dev.sync(name)
}

/// Removes a file, if there is one, and syncs that.
pub fn remove_durably<D: Device>(dev: &mut D, name: &str) -> Result<(), Failed>
    ensures removed { D.tells → OnOk result ((D.disk dev.new).files name.now ≡ None) }
    ensures durable { D.tells → OnOk result (IsDurable (D.disk dev.new) name.now) }
    ensures crash { D.tells → Effect (IsName name.now) (λ image. (D.disk dev.old).may name.now (image name.now) ⊎ (image name.now ≡ None)) (D.disk dev.old) (D.disk dev.new) }
    ensures cause { HasCause D.disk_faults D.tell_faults dev.old dev.new (IsErr result) }
{
    dev.remove(name)?;
    dev.sync(name)
}
