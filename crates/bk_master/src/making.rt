// Making the two files.
ghost use Rattle.std.specs.Prelude.{◌≡◌, ◌≤◌, ◌⊎◌, [], ◌∷◌, List, ℕ, None, length, true, false, IfOk, OnOk, OnErr, IsErrOf, IsErr};
ghost use Rattle.bk_control.specs.Control.{IsControl};
ghost use Rattle.bk_device.specs.Calls.{ChangesNothing};
ghost use Rattle.bk_device.specs.Counts.{HasCause};
ghost use Rattle.bk_device.specs.Disk.{IsDurable};
ghost use Rattle.bk_device.specs.Effects.{Effect, IsName};
ghost use Rattle.bk_master.specs.Master.{made_file, control_file, IsMade, IsNotMade};

use crate::error::MasterError;
use bk_control::{Control, ControlError};
use bk_device::{Device, Failed};
use std::alloc::Global;

// Whether the instance is made. Changes nothing.
pub fn is_made<D: Device>(dev: &mut D) -> Result<bool, Failed>
    ensures made { D.tells → IfOk result (λ is. is ≡ true → IsMade (D.disk dev.old).files) }
    ensures not_made { D.tells → IfOk result (λ is. is ≡ false → IsNotMade (D.disk dev.old).files) }
    ensures effect { D.tells → ChangesNothing (D.disk dev.old) (D.disk dev.new) }
    ensures cause { HasCause D.disk_faults D.tell_faults dev.old dev.new (IsErr result) }
{
    let len = dev.len("sqlbak.made")?;
    Ok(len.is_some())
}

// Makes the control file of these bytes. A crash may leave any control file.
pub fn make_control<D: Device>(
    alloc: Global,
    dev: &mut D,
    bytes: &[u8],
) -> Result<Control, MasterError>
    requires { length bytes.now ≤ 65536 }
    ensures content { IfOk result (λ c. c.content ≡ bytes.now) }
    ensures name { IfOk result (λ c. c.name ≡ control_file) }
    ensures failed { IfOk result (λ c. c.failed ≡ false) }
    ensures stands { D.tells → IfOk result (λ c. IsControl (D.disk dev.new) c) }
    ensures crash { D.tells → Effect (IsName control_file) (λ _. Unit {0}) (D.disk dev.old) (D.disk dev.new) }
    ensures not_an_instance { IsErrOf result MasterError.NotAnInstance → ⊥ }
    ensures broken { IsErrOf result MasterError.Broken → ⊥ }
    ensures cause { HasCause D.disk_faults D.tell_faults dev.old dev.new (IsErrOf result MasterError.Fault) }
{
    match Control::make(alloc, dev, "sqlbak.control", bytes) {
        Ok(control) => Ok(control),
        Err(ControlError::Foreign) => unreachable!(),
        Err(ControlError::Fault) => Err(MasterError::Fault),
        Err(ControlError::NoMemory) => Err(MasterError::NoMemory),
    }
}

// Says that the instance is made, and makes that durable.
pub fn mark_made<D: Device>(dev: &mut D) -> Result<(), Failed>
    ensures made { D.tells → OnOk result (IsMade (D.disk dev.new).files) }
    ensures durable { D.tells → OnOk result (IsDurable (D.disk dev.new) made_file) }
    ensures crash { D.tells → Effect (IsName made_file) (λ image. (D.disk dev.old).may made_file (image made_file) ⊎ IsMade image) (D.disk dev.old) (D.disk dev.new) }
    ensures cause { HasCause D.disk_faults D.tell_faults dev.old dev.new (IsErr result) }
{
    dev.write("sqlbak.made", 0, &[])?;
    dev.sync("sqlbak.made")
}
