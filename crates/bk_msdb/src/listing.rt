//! Reading the rows.

ghost use Rattle.std.specs.Prelude.{IfErr, IfOk, IsErrOf};
ghost use Rattle.bk_device.specs.Calls.{ChangesNothing};
ghost use Rattle.bk_device.specs.Counts.{HasCause};
ghost use Rattle.bk_device.specs.Troubles.{IsPassing};
ghost use Rattle.bk_msdb.specs.Msdb.{Shows};

use crate::opening::read_tables;
use crate::tables::Tables;
use bk_device::{Device, Trouble};
use bk_gate::{Gate, GateError};
use std::alloc::Global;

/// Reads the rows in the file `sqlbak.msdb`, and changes nothing. A file that is absent or no gate file shows none, and a blob that spells no row is passed over. `NoMemory` may come after reads. Only `Fault` and `NoMemory` are answered.
pub fn read_rows<D: Device>(alloc: Global, dev: &mut D) -> Result<Tables, Trouble>
    ensures shows { D.tells → IfOk result (Shows (D.disk dev.old).files) }
    ensures effect { D.tells → ChangesNothing (D.disk dev.old) (D.disk dev.new) }
    ensures trouble { IfErr result IsPassing }
    ensures cause { HasCause D.disk_faults D.tell_faults dev.old dev.new (IsErrOf result Trouble.Fault) }
{
    match Gate::load(alloc, dev, "sqlbak.msdb") {
        Ok(gate) => read_tables(alloc, dev, &gate),
        Err(GateError::Foreign) => Ok(Tables::new(alloc)),
        Err(GateError::Fault) => Err(Trouble::Fault),
        Err(GateError::NoMemory) => Err(Trouble::NoMemory),
    }
}
