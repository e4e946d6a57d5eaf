// A control file that is made.
ghost use Rattle.std.specs.Prelude.{◌≡◌, ◌≤◌, ◌⊎◌, Some, None, length, false, OnOk, OnErr, IsErr};
ghost use Rattle.bk_control.specs.declared.side.Side.TheVariants.{First};
ghost use Rattle.bk_control.specs.Slots.{counting, control_of};
ghost use Rattle.bk_control.specs.Stands.{Stands, IsBlank};
ghost use Rattle.bk_device.specs.Calls.{contents};
ghost use Rattle.bk_device.specs.Counts.{HasCause};
ghost use Rattle.bk_device.specs.Disk.{IsDurable};
ghost use Rattle.bk_device.specs.Effects.{Effect, IsName};

use crate::slot::fill;
use crate::whole::lengthen;
use bk_device::{Device, Failed, remove_durably, write_durably};

// Makes a file of two closed slots in place of what was under the name: a crash leaves what it might have left before,
// or no control.
pub fn lay<D: Device>(dev: &mut D, name: &str) -> Result<(), Failed>
    ensures blank { D.tells → OnOk result (IsBlank (contents ((D.disk dev.new).files name.now))) }
    ensures durable { D.tells → OnOk result (IsDurable (D.disk dev.new) name.now) }
    ensures crash { D.tells → Effect (IsName name.now) (λ image. (D.disk dev.old).may name.now (image name.now) ⊎ (counting (contents (image name.now)) ≡ None)) (D.disk dev.old) (D.disk dev.new) }
    ensures cause { HasCause D.disk_faults D.tell_faults dev.old dev.new (IsErr result) }
{
    remove_durably(dev, name)?;
    // up to a slot's gate byte, and with it
    lengthen(dev, name, 0, 9)?;
    lengthen(dev, name, 9, 65_609)?;
    lengthen(dev, name, 65_609, 131_200)
}

// Puts a content into the first slot of a file whose slots are closed: a crash leaves no control, or this one.
pub fn open_first<D: Device>(dev: &mut D, name: &str, bytes: &[u8]) -> Result<(), Failed>
    requires short { length bytes.now ≤ 65536 }
    requires blank { D.tells → IsBlank (contents ((D.disk dev.old).files name.now)) }
    requires settled { D.tells → IsDurable (D.disk dev.old) name.now }
    ensures stands { D.tells → OnOk result (Stands First false (record { sequence = 0; bytes = bytes.now }) (contents ((D.disk dev.new).files name.now))) }
    ensures durable { D.tells → OnOk result (IsDurable (D.disk dev.new) name.now) }
    ensures crash { D.tells → Effect (IsName name.now) (λ image. (control_of (image name.now) ≡ None) ⊎ (control_of (image name.now) ≡ Some bytes.now)) (D.disk dev.old) (D.disk dev.new) }
    ensures cause { HasCause D.disk_faults D.tell_faults dev.old dev.new (IsErr result) }
{
    fill(dev, name, 0, 0, bytes)?;
    write_durably(dev, name, 8, &[1])
}
