// The first blob of a medium.
ghost use Rattle.std.specs.Prelude.{◌≡◌, ◌≢◌, ◌≤◌, ◌⊎◌, ◌+◌, ◌∷◌, [], List, ℕ, None, length, is_some, true, false, IfOk, OnOk, OnErr, IsErrOf, IsErr};
ghost use Rattle.bk_device.specs.Calls.{contents, ChangesNothing};
ghost use Rattle.bk_device.specs.Counts.{HasCause};
ghost use Rattle.bk_device.specs.Disk.{IsDurable};
ghost use Rattle.bk_device.specs.Effects.{Effect, IsName};
ghost use Rattle.bk_gate.specs.Blobs.{sealed, spans_of, IsGateFile};
ghost use Rattle.bk_gate.specs.Gate.{IsGate};
ghost use Rattle.bk_volume.specs.Media.{LeavesMade, HasSets, sets_in, medium_letters};

use crate::error::{LoadError, WriteError};
use bk_device::{Device, Failed};
use bk_gate::{Gate, GateError};
use std::alloc::Global;

// Opens a gate file, and changes nothing.
pub fn load_gate<D: Device>(alloc: Global, dev: &mut D, name: &str) -> Result<Gate, LoadError>
    ensures gate_file { D.tells → OnOk result (IsGateFile (contents ((D.disk dev.old).files name.now))) }
    ensures spans { D.tells → IfOk result (λ g. g.spans ≡ spans_of (contents ((D.disk dev.old).files name.now))) }
    ensures name { IfOk result (λ g. g.name ≡ name.now) }
    ensures none { IfOk result (λ g. g.begun ≡ None) }
    ensures failed { IfOk result (λ g. g.failed ≡ false) }
    ensures stands { D.tells → IsDurable (D.disk dev.old) name.now → IfOk result (λ g. IsGate (D.disk dev.new) g) }
    ensures effect { D.tells → ChangesNothing (D.disk dev.old) (D.disk dev.new) }
    ensures foreign { D.tells → IsErrOf result LoadError.NotMedia → IsGateFile (contents ((D.disk dev.old).files name.now)) → ⊥ }
    ensures missing { IsErrOf result LoadError.Missing → ⊥ }
    ensures cause { HasCause D.disk_faults D.tell_faults dev.old dev.new (IsErrOf result LoadError.Fault) }
{
    match Gate::load(alloc, dev, name) {
        Ok(gate) => Ok(gate),
        Err(GateError::Foreign) => Err(LoadError::NotMedia),
        Err(GateError::Fault) => Err(LoadError::Fault),
        Err(GateError::NoMemory) => Err(LoadError::NoMemory),
    }
}

const LETTERS: [u8; 8] = *b"SBMEDIA1";

// Whether the first blob of a gate file is the letters of a medium.
pub fn begins_well<D: Device>(dev: &mut D, gate: &Gate) -> Result<bool, Failed>
    requires fit { gate.now.failed ≡ false }
    requires spans { D.tells → gate.now.spans ≡ spans_of (contents ((D.disk dev.old).files gate.now.name)) }
    requires gate_file { D.tells → IsGateFile (contents ((D.disk dev.old).files gate.now.name)) }
    ensures value { D.tells → IfOk result (λ is. is ≡ is_some (sets_in (sealed ((D.disk dev.old).files gate.now.name)))) }
    ensures some { IfOk result (λ is. is ≡ true → 1 ≤ length gate.now.spans) }
    ensures effect { D.tells → ChangesNothing (D.disk dev.old) (D.disk dev.new) }
    ensures cause { HasCause D.disk_faults D.tell_faults dev.old dev.new (IsErr result) }
{
    if gate.count() == 0 {
        return Ok(false);
    }
    let (at, len) = gate.span(0);
    if len != 8 {
        return Ok(false);
    }
    let mut letters = [0u8; 8];
    dev.read(gate.name(), at, &mut letters)?;
    Ok(letters == LETTERS)
}

// Makes a gate file with no blob.
fn make_gate<D: Device>(alloc: Global, dev: &mut D, name: &str) -> Result<Gate, WriteError>
    ensures name { IfOk result (λ g. g.name ≡ name.now) }
    ensures spans { IfOk result (λ g. g.spans ≡ []) }
    ensures none { IfOk result (λ g. g.begun ≡ None) }
    ensures failed { IfOk result (λ g. g.failed ≡ false) }
    ensures stands { D.tells → IfOk result (λ g. IsGate (D.disk dev.new) g) }
    ensures crash { D.tells → Effect (IsName name.now) (λ image. (D.disk dev.old).may name.now (image name.now) ⊎ (sealed (image name.now) ≡ [])) (D.disk dev.old) (D.disk dev.new) }
    ensures cause { HasCause D.disk_faults D.tell_faults dev.old dev.new (IsErrOf result WriteError.Fault) }
{
    match Gate::make(alloc, dev, name) {
        Ok(gate) => Ok(gate),
        Err(GateError::Foreign) => unreachable!(),
        Err(GateError::Fault) => Err(WriteError::Fault),
        Err(GateError::NoMemory) => Err(WriteError::NoMemory),
    }
}

// Makes the gate file of a medium without sets.
pub fn make_empty<D: Device>(alloc: Global, dev: &mut D, name: &str) -> Result<Gate, WriteError>
    ensures name { IfOk result (λ g. g.name ≡ name.now) }
    ensures count { IfOk result (λ g. length g.spans ≡ 1) }
    ensures none { IfOk result (λ g. g.begun ≡ None) }
    ensures failed { IfOk result (λ g. g.failed ≡ false) }
    ensures stands { D.tells → IfOk result (λ g. IsGate (D.disk dev.new) g) }
    ensures sets { D.tells → OnOk result (HasSets [] ((D.disk dev.new).files name.now)) }
    ensures durable { D.tells → OnOk result (IsDurable (D.disk dev.new) name.now) }
    ensures crash { D.tells → Effect (IsName name.now) (λ image. LeavesMade ((D.disk dev.old).may name.now) (image name.now)) (D.disk dev.old) (D.disk dev.new) }
    ensures cause { HasCause D.disk_faults D.tell_faults dev.old dev.new (IsErrOf result WriteError.Fault) }
{
    let mut gate = make_gate(alloc, dev, name)?;
    gate.reserve(1)?;
    gate.append_reserved(dev, &LETTERS)?;
    Ok(gate)
}

// Takes all blobs from the gate file of a medium, and begins it again as one without sets. Takes no memory.
pub fn start_again<D: Device>(dev: &mut D, gate: &mut Gate) -> Result<(), Failed>
    requires fit { gate.old.failed ≡ false }
    requires none { gate.old.begun ≡ None }
    requires some { 1 ≤ length gate.old.spans }
    requires stands { D.tells → IsGate (D.disk dev.old) gate.old }
    ensures stands { D.tells → OnOk result (IsGate (D.disk dev.new) gate.new) }
    ensures sets { D.tells → OnOk result (HasSets [] ((D.disk dev.new).files gate.old.name)) }
    ensures count { OnOk result (length gate.new.spans ≡ 1) }
    ensures none { OnOk result (gate.new.begun ≡ None) }
    ensures name { gate.new.name ≡ gate.old.name }
    ensures fit { OnOk result (gate.new.failed ≡ false) }
    ensures durable { D.tells → OnOk result (IsDurable (D.disk dev.new) gate.old.name) }
    ensures crash { D.tells → Effect (IsName gate.old.name) (λ image. LeavesMade (λ file. sealed file ≡ sealed ((D.disk dev.old).files gate.old.name)) (image gate.old.name)) (D.disk dev.old) (D.disk dev.new) }
    ensures cause { HasCause D.disk_faults D.tell_faults dev.old dev.new (IsErr result) }
{
    gate.clear(dev)?;
    gate.append_reserved(dev, &LETTERS)
}
