// Making the files of a log.
ghost use Rattle.std.specs.Prelude.{◌≡◌, ◌≤◌, ◌⊎◌, ◌∷◌, [], None, Some, length, false, IfOk, OnOk, IsErrOf};
ghost use Rattle.bk_control.specs.Control.{IsControl};
ghost use Rattle.bk_control.specs.Slots.{control_of};
ghost use Rattle.bk_device.specs.Counts.{HasCause};
ghost use Rattle.bk_device.specs.Disk.{IsDurable};
ghost use Rattle.bk_device.specs.Effects.{Effect, IsName};
ghost use Rattle.bk_gate.specs.Blobs.{sealed};
ghost use Rattle.bk_gate.specs.Gate.{IsGate};
ghost use Rattle.bk_segments.specs.Files.{control_file, segment_file, IsOwn};

use crate::error::LogError;
use crate::names::{control_name, segment_name};
use bk_control::{Control, ControlError};
use bk_device::{Device, remove_durably};
use bk_gate::{Gate, GateError};
use std::alloc::{AllocError, Global};

// Makes the control file of these bytes, in place of what was under the name.
pub fn make_control<D: Device>(
    alloc: Global,
    dev: &mut D,
    name: &str,
    bytes: &[u8],
) -> Result<Control, LogError>
    requires { length bytes.now ≤ 65536 }
    ensures content { IfOk result (λ c. c.content ≡ bytes.now) }
    ensures name { IfOk result (λ c. c.name ≡ name.now) }
    ensures failed { IfOk result (λ c. c.failed ≡ false) }
    ensures stands { D.tells → IfOk result (λ c. IsControl (D.disk dev.new) c) }
    ensures crash { D.tells → Effect (IsName name.now) (λ image. (D.disk dev.old).may name.now (image name.now) ⊎ (control_of (image name.now) ≡ None) ⊎ (control_of (image name.now) ≡ Some bytes.now)) (D.disk dev.old) (D.disk dev.new) }
    ensures foreign { IsErrOf result LogError.Foreign → ⊥ }
    ensures cause { HasCause D.disk_faults D.tell_faults dev.old dev.new (IsErrOf result LogError.Fault) }
{
    match Control::make(alloc, dev, name, bytes) {
        Ok(control) => Ok(control),
        Err(ControlError::Foreign) => unreachable!(),
        Err(ControlError::Fault) => Err(LogError::Fault),
        Err(ControlError::NoMemory) => Err(LogError::NoMemory),
    }
}

// Makes a gate file without a blob, in place of what was under the name.
fn make_gate<D: Device>(alloc: Global, dev: &mut D, name: &str) -> Result<Gate, LogError>
    ensures name { IfOk result (λ g. g.name ≡ name.now) }
    ensures spans { IfOk result (λ g. g.spans ≡ []) }
    ensures none { IfOk result (λ g. g.begun ≡ None) }
    ensures failed { IfOk result (λ g. g.failed ≡ false) }
    ensures stands { D.tells → IfOk result (λ g. IsGate (D.disk dev.new) g) }
    ensures crash { D.tells → Effect (IsName name.now) (λ image. (D.disk dev.old).may name.now (image name.now) ⊎ (sealed (image name.now) ≡ [])) (D.disk dev.old) (D.disk dev.new) }
    ensures foreign { IsErrOf result LogError.Foreign → ⊥ }
    ensures cause { HasCause D.disk_faults D.tell_faults dev.old dev.new (IsErrOf result LogError.Fault) }
{
    match Gate::make(alloc, dev, name) {
        Ok(gate) => Ok(gate),
        Err(GateError::Foreign) => unreachable!(),
        Err(GateError::Fault) => Err(LogError::Fault),
        Err(GateError::NoMemory) => Err(LogError::NoMemory),
    }
}

/// Makes the control file of these bytes, at most 65,536, and then the first segment, whose blob decides that there is a log.
/// `NoMemory` may come after files were touched. `Foreign` isn't answered.
pub fn make_files<D: Device>(
    alloc: Global,
    dev: &mut D,
    db: u32,
    bytes: &[u8],
) -> Result<(Control, Gate), LogError>
    requires { length bytes.now ≤ 65536 }
    ensures content { IfOk result (λ x. x.0.content ≡ bytes.now) }
    ensures names { IfOk result (λ x. (x.0.name ≡ control_file db) × (x.1.name ≡ segment_file db 1)) }
    ensures none { IfOk result (λ x. x.1.begun ≡ None) }
    ensures failed { IfOk result (λ x. (x.0.failed ≡ false) × (x.1.failed ≡ false)) }
    ensures stands { D.tells → IfOk result (λ x. IsControl (D.disk dev.new) x.0 × IsGate (D.disk dev.new) x.1) }
    ensures durable { D.tells → OnOk result (IsDurable (D.disk dev.new) (segment_file db 1)) }
    ensures sealed { D.tells → OnOk result (sealed ((D.disk dev.new).files (segment_file db 1)) ≡ [] ∷ []) }
    ensures crash { D.tells → IsDurable (D.disk dev.old) (control_file db) → control_of ((D.disk dev.old).files (control_file db)) ≡ None → Effect (IsOwn db) (λ image. (control_of (image (control_file db)) ≡ None) ⊎ (control_of (image (control_file db)) ≡ Some bytes.now) × ((sealed (image (segment_file db 1)) ≡ []) ⊎ (sealed (image (segment_file db 1)) ≡ [] ∷ []))) (D.disk dev.old) (D.disk dev.new) }
    ensures foreign { IsErrOf result LogError.Foreign → ⊥ }
    ensures cause { HasCause D.disk_faults D.tell_faults dev.old dev.new (IsErrOf result LogError.Fault) }
{
    let name = control_name(alloc, db)?;
    let segment = segment_name(alloc, db, 1)?;
    remove_durably(dev, &segment)?;
    let control = make_control(alloc, dev, &name, bytes)?;
    let gate = begin_segment(alloc, dev, db, 1, 0)?;
    Ok((control, gate))
}

/// Makes the segment of this number, in place of what was under its name, with room for so many blobs. A blob without a byte is
/// sealed in it: without one a segment doesn't count.
pub fn begin_segment<D: Device>(
    alloc: Global,
    dev: &mut D,
    db: u32,
    n: u64,
    room: usize,
) -> Result<Gate, LogError>
    ensures name { IfOk result (λ g. g.name ≡ segment_file db n) }
    ensures none { IfOk result (λ g. g.begun ≡ None) }
    ensures failed { IfOk result (λ g. g.failed ≡ false) }
    ensures room { IfOk result (λ g. room ≤ g.spare) }
    ensures stands { D.tells → IfOk result (λ g. IsGate (D.disk dev.new) g) }
    ensures durable { D.tells → OnOk result (IsDurable (D.disk dev.new) (segment_file db n)) }
    ensures sealed { D.tells → OnOk result (sealed ((D.disk dev.new).files (segment_file db n)) ≡ [] ∷ []) }
    ensures crash { D.tells → Effect (IsName (segment_file db n)) (λ image. (D.disk dev.old).may (segment_file db n) (image (segment_file db n)) ⊎ (sealed (image (segment_file db n)) ≡ []) ⊎ (sealed (image (segment_file db n)) ≡ [] ∷ [])) (D.disk dev.old) (D.disk dev.new) }
    ensures foreign { IsErrOf result LogError.Foreign → ⊥ }
    ensures cause { HasCause D.disk_faults D.tell_faults dev.old dev.new (IsErrOf result LogError.Fault) }
{
    let name = segment_name(alloc, db, n)?;
    let room = room.checked_add(1).ok_or(AllocError)?;
    let mut gate = make_gate(alloc, dev, &name)?;
    gate.reserve(room)?;
    gate.append_reserved(dev, &[])?;
    Ok(gate)
}
