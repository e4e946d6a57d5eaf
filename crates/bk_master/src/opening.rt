// Opening the files of an instance that is made.
ghost use Rattle.std.specs.Prelude.{◌≡◌, ◌≤◌, [], ◌∷◌, List, ℕ, Some, None, length, true, false, IfOk, OnOk, IsErrOf};
ghost use Rattle.bk_control.specs.Control.{IsControl};
ghost use Rattle.bk_control.specs.Slots.{control_of};
ghost use Rattle.bk_device.specs.Calls.{contents, ChangesNothing};
ghost use Rattle.bk_device.specs.Counts.{HasCause};
ghost use Rattle.bk_device.specs.Disk.{IsDurable};
ghost use Rattle.bk_master.specs.Master.{control_file};
ghost use Rattle.bk_master.specs.Spelling.{read_record};

use crate::error::MasterError;
use crate::reading::read_record;
use crate::record::Record;
use bk_control::{Control, ControlError};
use bk_device::Device;
use bk_reading::Unread;
use std::alloc::Global;

// Opens the control file, and changes nothing.
pub fn load_control<D: Device>(alloc: Global, dev: &mut D) -> Result<Control, MasterError>
    ensures content { D.tells → IfOk result (λ c. control_of ((D.disk dev.old).files control_file) ≡ Some c.content) }
    ensures name { IfOk result (λ c. c.name ≡ control_file) }
    ensures failed { IfOk result (λ c. c.failed ≡ false) }
    ensures stands { D.tells → IsDurable (D.disk dev.old) control_file → IfOk result (λ c. IsControl (D.disk dev.new) c) }
    ensures effect { D.tells → ChangesNothing (D.disk dev.old) (D.disk dev.new) }
    ensures not_an_instance { D.tells → IsErrOf result MasterError.NotAnInstance → control_of ((D.disk dev.old).files control_file) ≡ None }
    ensures broken { IsErrOf result MasterError.Broken → ⊥ }
    ensures cause { HasCause D.disk_faults D.tell_faults dev.old dev.new (IsErrOf result MasterError.Fault) }
{
    match Control::load(alloc, dev, "sqlbak.control") {
        Ok(control) => Ok(control),
        Err(ControlError::Foreign) => Err(MasterError::NotAnInstance),
        Err(ControlError::Fault) => Err(MasterError::Fault),
        Err(ControlError::NoMemory) => Err(MasterError::NoMemory),
    }
}

// The record in the control.
pub fn recorded(alloc: Global, control: &Control) -> Result<Record, MasterError>
    requires { control.now.failed ≡ false }
    ensures reads { IfOk result (λ r. read_record control.now.content ≡ Some r) }
    ensures broken { IsErrOf result MasterError.Broken → read_record control.now.content ≡ None }
    ensures not_an_instance { IsErrOf result MasterError.NotAnInstance → ⊥ }
    ensures fault { IsErrOf result MasterError.Fault → ⊥ }
{
    match read_record(alloc, control.get()) {
        Ok(record) => Ok(record),
        Err(Unread::Unspelled) => Err(MasterError::Broken),
        Err(Unread::NoMemory) => Err(MasterError::NoMemory),
    }
}
