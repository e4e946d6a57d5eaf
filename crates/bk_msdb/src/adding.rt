//! Adding a row.

ghost use Rattle.std.specs.Prelude.{◌≡◌, ◌++◌, ◌∷◌, [], None, false, IfErr, IfOk, OnOk, IsErrOf};
ghost use Rattle.bk_device.specs.Calls.{ChangesNothing};
ghost use Rattle.bk_device.specs.Counts.{HasCause};
ghost use Rattle.bk_device.specs.Disk.{IsDurable};
ghost use Rattle.bk_device.specs.Effects.{Effect, IsName};
ghost use Rattle.bk_device.specs.Troubles.{IsPassing};
ghost use Rattle.bk_gate.specs.Blobs.{sealed};
ghost use Rattle.bk_msdb.specs.Msdb.{Adds, GrowsBy, IsReady, Shows, msdb_file};
ghost use Rattle.bk_msdb.specs.Rows.{Tables, with_row};
ghost use Rattle.bk_msdb.specs.Spelling.{KeepsRow};

use crate::making::{seal_blob, unmade};
use crate::writing::spell_row;
use bk_device::{Device, Trouble};
use bk_gate::{Gate, GateError};
use bk_machine::HistoryRow;
use std::alloc::Global;

// The gate of the file, and whether the file is made: else the first row makes it. Changes nothing.
fn open_file<D: Device>(alloc: Global, dev: &mut D) -> Result<(Gate, bool), Trouble>
    ensures fit { IfOk result (λ g. g.0.failed ≡ false) }
    ensures none { IfOk result (λ g. g.0.begun ≡ None) }
    ensures name { IfOk result (λ g. g.0.name ≡ msdb_file) }
    ensures ready { D.tells → IsDurable (D.disk dev.old) msdb_file → IfOk result (λ g. IsReady (D.disk dev.new) g.0 g.1) }
    ensures effect { D.tells → ChangesNothing (D.disk dev.old) (D.disk dev.new) }
    ensures trouble { IfErr result IsPassing }
    ensures cause { HasCause D.disk_faults D.tell_faults dev.old dev.new (IsErrOf result Trouble.Fault) }
{
    match Gate::load(alloc, dev, "sqlbak.msdb") {
        Ok(gate) => Ok((gate, true)),
        Err(GateError::Foreign) => {
            let gate = unmade(alloc, "sqlbak.msdb")?;
            Ok((gate, false))
        }
        Err(GateError::Fault) => Err(Trouble::Fault),
        Err(GateError::NoMemory) => Err(Trouble::NoMemory),
    }
}

// Seals a blob behind those of the file, in which nothing is pending.
fn add_blob<D: Device>(alloc: Global, dev: &mut D, bytes: &[u8]) -> Result<(), Trouble>
    requires durable { D.tells → IsDurable (D.disk dev.old) msdb_file }
    ensures sealed { D.tells → OnOk result (sealed ((D.disk dev.new).files msdb_file) ≡ sealed ((D.disk dev.old).files msdb_file) ++ bytes.now ∷ []) }
    ensures durable { D.tells → OnOk result (IsDurable (D.disk dev.new) msdb_file) }
    ensures crash { D.tells → Effect (IsName msdb_file) (GrowsBy bytes.now (D.disk dev.old).files) (D.disk dev.old) (D.disk dev.new) }
    ensures trouble { IfErr result IsPassing }
    ensures cause { HasCause D.disk_faults D.tell_faults dev.old dev.new (IsErrOf result Trouble.Fault) }
{
    let (gate, is_made) = open_file(alloc, dev)?;
    let mut gate = gate;
    gate.reserve(1)?;
    seal_blob(dev, &mut gate, is_made, bytes)?;
    Ok(())
}

/// Adds a row behind those of its table, whatever the file holds. The text of a restore's stop has at most 65,535 bytes. What a read shows of the file is made durable first: a process that was stopped may
/// have left writes there that are still pending. A crash leaves the rows that there were, or this one too. The first row makes the file. Only `Fault` and `NoMemory` are answered.
pub fn add_row<D: Device>(alloc: Global, dev: &mut D, row: &HistoryRow) -> Result<(), Trouble>
    requires { KeepsRow row.now }
    ensures added { D.tells → (tables : Tables) → Shows (D.disk dev.old).files tables → OnOk result (Shows (D.disk dev.new).files (with_row tables row.now)) }
    ensures durable { D.tells → OnOk result (IsDurable (D.disk dev.new) msdb_file) }
    ensures crash { D.tells → (tables : Tables) → IsDurable (D.disk dev.old) msdb_file → Shows (D.disk dev.old).files tables → Effect (IsName msdb_file) (Adds tables row.now) (D.disk dev.old) (D.disk dev.new) }
    ensures spares { D.tells → Effect (IsName msdb_file) (λ image. Unit {0}) (D.disk dev.old) (D.disk dev.new) }
    ensures trouble { IfErr result IsPassing }
    ensures cause { HasCause D.disk_faults D.tell_faults dev.old dev.new (IsErrOf result Trouble.Fault) }
{
    let bytes = spell_row(alloc, row)?;
    dev.sync("sqlbak.msdb")?;
    add_blob(alloc, dev, &bytes)
}
