// Opening the side file.
ghost use Rattle.std.specs.Prelude.{◌≡◌, ◌⊎◌, [], None, false, IfOk, OnOk, IsErrOf};
ghost use Rattle.bk_device.specs.Calls.{contents, ChangesNothing};
ghost use Rattle.bk_device.specs.Counts.{HasCause};
ghost use Rattle.bk_device.specs.Disk.{IsDurable};
ghost use Rattle.bk_device.specs.Effects.{Effect, IsName};
ghost use Rattle.bk_gate.specs.Blobs.{IsGateFile, sealed};
ghost use Rattle.bk_gate.specs.Gate.{IsGate};

use crate::error::SideError;
use bk_device::Device;
use bk_gate::{Gate, GateError};
use std::alloc::Global;

// Makes a side file without a batch.
fn make<D: Device>(alloc: Global, dev: &mut D, name: &str) -> Result<Gate, SideError>
    ensures name { IfOk result (λ g. g.name ≡ name.now) }
    ensures none { IfOk result (λ g. g.begun ≡ None) }
    ensures failed { IfOk result (λ g. g.failed ≡ false) }
    ensures stands { D.tells → IfOk result (λ g. IsGate (D.disk dev.new) g) }
    ensures durable { D.tells → OnOk result (IsDurable (D.disk dev.new) name.now) }
    ensures crash { D.tells → Effect (IsName name.now) (λ image. (D.disk dev.old).may name.now (image name.now) ⊎ (sealed (image name.now) ≡ [])) (D.disk dev.old) (D.disk dev.new) }
    ensures empty { D.tells → OnOk result (sealed ((D.disk dev.new).files name.now) ≡ []) }
    ensures cause { HasCause D.disk_faults D.tell_faults dev.old dev.new (IsErrOf result SideError.Fault) }
{
    match Gate::make(alloc, dev, name) {
        Ok(gate) => Ok(gate),
        Err(GateError::Foreign) => unreachable!(),
        Err(GateError::Fault) => Err(SideError::Fault),
        Err(GateError::NoMemory) => Err(SideError::NoMemory),
    }
}

// Opens the side file, and makes it where there is none. A batch that is sealed stays, and a side file that is there is left as it is.
pub fn open<D: Device>(alloc: Global, dev: &mut D, name: &str) -> Result<Gate, SideError>
    ensures name { IfOk result (λ g. g.name ≡ name.now) }
    ensures none { IfOk result (λ g. g.begun ≡ None) }
    ensures failed { IfOk result (λ g. g.failed ≡ false) }
    ensures stands { D.tells → IsDurable (D.disk dev.old) name.now → IfOk result (λ g. IsGate (D.disk dev.new) g) }
    ensures durable { D.tells → IsDurable (D.disk dev.old) name.now → OnOk result (IsDurable (D.disk dev.new) name.now) }
    ensures same { D.tells → OnOk result (sealed ((D.disk dev.new).files name.now) ≡ sealed ((D.disk dev.old).files name.now)) }
    ensures still { D.tells → IsGateFile (contents ((D.disk dev.old).files name.now)) → ChangesNothing (D.disk dev.old) (D.disk dev.new) }
    ensures crash { D.tells → IsDurable (D.disk dev.old) name.now → Effect (IsName name.now) (λ image. sealed (image name.now) ≡ sealed ((D.disk dev.old).files name.now)) (D.disk dev.old) (D.disk dev.new) }
    ensures cause { HasCause D.disk_faults D.tell_faults dev.old dev.new (IsErrOf result SideError.Fault) }
{
    match Gate::load(alloc, dev, name) {
        Ok(gate) => Ok(gate),
        Err(GateError::Foreign) => make(alloc, dev, name),
        Err(GateError::Fault) => Err(SideError::Fault),
        Err(GateError::NoMemory) => Err(SideError::NoMemory),
    }
}
