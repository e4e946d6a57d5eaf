// Reading the rows in the file.
ghost use Rattle.std.specs.Prelude.{◌≡◌, ◌<◌, Some, false, length, slice_get, IfErr, IfOk, IsErrOf};
ghost use Rattle.bk_device.specs.Calls.{contents, ChangesNothing};
ghost use Rattle.bk_device.specs.Counts.{HasCause};
ghost use Rattle.bk_device.specs.Troubles.{IsPassing};
ghost use Rattle.bk_gate.specs.Blobs.{sealed, spans_of, IsGateFile};
ghost use Rattle.bk_msdb.specs.Msdb.{tables_of};

use crate::tables::Tables;
use bk_device::{Device, Trouble};
use bk_gate::{Gate, GateError};
use std::alloc::Global;

// The bytes of a blob. Changes nothing.
fn read_blob<D: Device>(
    alloc: Global,
    dev: &mut D,
    gate: &Gate,
    i: usize,
) -> Result<Vec<u8>, Trouble>
    requires fit { gate.now.failed ≡ false }
    requires there { i < length gate.now.spans }
    requires spans { D.tells → gate.now.spans ≡ spans_of (contents ((D.disk dev.old).files gate.now.name)) }
    requires gate_file { D.tells → IsGateFile (contents ((D.disk dev.old).files gate.now.name)) }
    ensures bytes { D.tells → IfOk result (λ bytes. slice_get (sealed ((D.disk dev.old).files gate.now.name)) i ≡ Some bytes.items) }
    ensures effect { D.tells → ChangesNothing (D.disk dev.old) (D.disk dev.new) }
    ensures trouble { IfErr result IsPassing }
    ensures cause { HasCause D.disk_faults D.tell_faults dev.old dev.new (IsErrOf result Trouble.Fault) }
{
    match gate.read(alloc, dev, i) {
        Ok(bytes) => Ok(bytes),
        Err(GateError::Foreign) => unreachable!(),
        Err(GateError::Fault) => Err(Trouble::Fault),
        Err(GateError::NoMemory) => Err(Trouble::NoMemory),
    }
}

/// The rows that the blobs of a gate file spell. Changes nothing.
pub fn read_tables<D: Device>(alloc: Global, dev: &mut D, gate: &Gate) -> Result<Tables, Trouble>
    requires fit { gate.now.failed ≡ false }
    requires spans { D.tells → gate.now.spans ≡ spans_of (contents ((D.disk dev.old).files gate.now.name)) }
    requires gate_file { D.tells → IsGateFile (contents ((D.disk dev.old).files gate.now.name)) }
    ensures tables { D.tells → IfOk result (λ t. tables_of ((D.disk dev.old).files gate.now.name) ≡ t) }
    ensures effect { D.tells → ChangesNothing (D.disk dev.old) (D.disk dev.new) }
    ensures trouble { IfErr result IsPassing }
    ensures cause { HasCause D.disk_faults D.tell_faults dev.old dev.new (IsErrOf result Trouble.Fault) }
{
    let mut tables = Tables::new(alloc);
    for i in 0..gate.count() {
        let bytes = read_blob(alloc, dev, gate, i)?;
        tables.read(alloc, &bytes)?;
    }
    Ok(tables)
}
