// Making the file, and adding a blob to it.
ghost use Rattle.std.specs.Prelude.{◌≡◌, ◌≤◌, ◌⊎◌, ◌∷◌, ◌++◌, [], Some, None, false, IfErr, IfOk, OnOk, IsErr, IsErrOf};
ghost use Rattle.bk_device.specs.Counts.{HasCause};
ghost use Rattle.bk_device.specs.Disk.{IsDurable};
ghost use Rattle.bk_device.specs.Effects.{Effect, IsName};
ghost use Rattle.bk_device.specs.Troubles.{IsPassing};
ghost use Rattle.bk_gate.specs.Blobs.{sealed};
ghost use Rattle.bk_gate.specs.Gate.{IsGate};
ghost use Rattle.bk_gate.specs.Opened.{IsOpened};
ghost use Rattle.bk_msdb.specs.Msdb.{IsReady, empty_file};

use bk_device::{Device, Failed, Trouble, remove_durably, write_durably};
use bk_gate::{Gate, GateError};
use std::alloc::Global;

// A gate file without blobs.
const EMPTY: [u8; 17] = *b"SQLBAKGATE000001\0";

/// The gate of a file without blobs that is still to be made.
pub fn unmade(alloc: Global, name: &str) -> Result<Gate, Trouble>
    ensures opened { IfOk result (λ g. IsOpened empty_file g) }
    ensures name { IfOk result (λ g. g.name ≡ name.now) }
    ensures failed { IfOk result (λ g. g.failed ≡ false) }
    ensures fault { IsErrOf result Trouble.Fault → ⊥ }
    ensures trouble { IfErr result IsPassing }
{
    match Gate::from_bytes(alloc, name, &EMPTY) {
        Ok(gate) => Ok(gate),
        Err(GateError::Foreign) => unreachable!(),
        Err(GateError::Fault) => unreachable!(),
        Err(GateError::NoMemory) => Err(Trouble::NoMemory),
    }
}

// Makes a gate file without blobs, in place of what was under the name. A crash leaves what it might have left before, or no blob.
fn make<D: Device>(dev: &mut D, name: &str) -> Result<(), Failed>
    ensures made { D.tells → OnOk result ((D.disk dev.new).files name.now ≡ Some empty_file) }
    ensures durable { D.tells → OnOk result (IsDurable (D.disk dev.new) name.now) }
    ensures crash { D.tells → Effect (IsName name.now) (λ image. (D.disk dev.old).may name.now (image name.now) ⊎ (sealed (image name.now) ≡ [])) (D.disk dev.old) (D.disk dev.new) }
    ensures cause { HasCause D.disk_faults D.tell_faults dev.old dev.new (IsErr result) }
{
    remove_durably(dev, name)?;
    write_durably(dev, name, 0, &EMPTY)
}

// Makes the file of a gate, where it isn't made yet.
fn see_to_file<D: Device>(dev: &mut D, gate: &Gate, is_made: bool) -> Result<(), Failed>
    requires { D.tells → IsReady (D.disk dev.old) gate.now is_made }
    ensures stands { D.tells → OnOk result (IsGate (D.disk dev.new) gate.now) }
    ensures same { D.tells → OnOk result (sealed ((D.disk dev.new).files gate.now.name) ≡ sealed ((D.disk dev.old).files gate.now.name)) }
    ensures crash { D.tells → Effect (IsName gate.now.name) (λ image. sealed (image gate.now.name) ≡ sealed ((D.disk dev.old).files gate.now.name)) (D.disk dev.old) (D.disk dev.new) }
    ensures cause { HasCause D.disk_faults D.tell_faults dev.old dev.new (IsErr result) }
{
    if is_made {
        return Ok(());
    }
    make(dev, gate.name())
}

/// Seals a blob in the file of a gate, which is made first where it isn't yet, by one place of the gate's spare. Takes no memory. A crash leaves the blobs that there were, or this one too.
pub fn seal_blob<D: Device>(
    dev: &mut D,
    gate: &mut Gate,
    is_made: bool,
    bytes: &[u8],
) -> Result<(), Failed>
    requires fit { gate.old.failed ≡ false }
    requires none { gate.old.begun ≡ None }
    requires spare { 1 ≤ gate.old.spare }
    requires ready { D.tells → IsReady (D.disk dev.old) gate.old is_made }
    ensures stands { D.tells → OnOk result (IsGate (D.disk dev.new) gate.new) }
    ensures sealed { D.tells → OnOk result (sealed ((D.disk dev.new).files gate.old.name) ≡ sealed ((D.disk dev.old).files gate.old.name) ++ bytes.now ∷ []) }
    ensures durable { D.tells → OnOk result (IsDurable (D.disk dev.new) gate.old.name) }
    ensures none { OnOk result (gate.new.begun ≡ None) }
    ensures fit { OnOk result (gate.new.failed ≡ false) }
    ensures name { gate.new.name ≡ gate.old.name }
    ensures crash { D.tells → Effect (IsName gate.old.name) (λ image. (sealed (image gate.old.name) ≡ sealed ((D.disk dev.old).files gate.old.name)) ⊎ (sealed (image gate.old.name) ≡ sealed ((D.disk dev.old).files gate.old.name) ++ bytes.now ∷ [])) (D.disk dev.old) (D.disk dev.new) }
    ensures cause { HasCause D.disk_faults D.tell_faults dev.old dev.new (IsErr result) }
{
    see_to_file(dev, gate, is_made)?;
    gate.append_reserved(dev, bytes)
}
