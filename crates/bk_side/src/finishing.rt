// Finishing a sealed batch.
ghost use Rattle.std.specs.Prelude.{◌≡◌, ◌⊎◌, ◌≤◌, ◌+◌, [], None, false, length, IfOk, IsErr, IsErrOf, OnOk};
ghost use Rattle.bk_device.specs.Calls.{ChangesNothing};
ghost use Rattle.bk_device.specs.Counts.{HasCause};
ghost use Rattle.bk_device.specs.Effects.{Effect, MayLeaveOwn};
ghost use Rattle.bk_gate.specs.Blobs.{sealed};
ghost use Rattle.bk_gate.specs.Gate.{IsGate};
ghost use Rattle.bk_side.specs.Names.{IsData, IsOwn, AreApart};
ghost use Rattle.bk_side.specs.Pages.{shown, Shows};
ghost use Rattle.bk_side.specs.Side.{AreDurable, HasNoBatch};

use crate::copying::{copy_entries, sync_files, sync_own};
use crate::error::SideError;
use crate::opening::open;
use bk_device::{Device, Failed};
use bk_gate::Gate;
use bk_ids::Text;
use std::alloc::Global;

// Writes the pages of the sealed batch, if there is one, to their data files, and removes the batch. No page counts as another one
// behind it, nor at any crash meanwhile. Where there is none it changes nothing.
pub fn finish<D: Device>(gate: &mut Gate, dev: &mut D, names: &[Text]) -> Result<(), Failed>
    requires fit { gate.old.failed ≡ false }
    requires none { gate.old.begun ≡ None }
    requires stands { D.tells → IsGate (D.disk dev.old) gate.old }
    requires apart { D.tells → AreApart gate.old.name names.now }
    requires durable { D.tells → AreDurable (IsOwn gate.old.name names.now) (D.disk dev.old) }
    ensures fit { OnOk result (gate.new.failed ≡ false) }
    ensures none { OnOk result (gate.new.begun ≡ None) }
    ensures name { gate.new.name ≡ gate.old.name }
    ensures spare { OnOk result (gate.new.spare ≡ gate.old.spare + length gate.old.spans) }
    ensures stands { D.tells → OnOk result (IsGate (D.disk dev.new) gate.new) }
    ensures empty { D.tells → OnOk result (sealed ((D.disk dev.new).files gate.old.name) ≡ []) }
    ensures durable { D.tells → OnOk result (AreDurable (IsData names.now) (D.disk dev.new)) }
    ensures same { D.tells → OnOk result (Shows gate.old.name names.now (shown gate.old.name names.now (D.disk dev.old).files) (D.disk dev.new).files) }
    ensures still { D.tells → sealed ((D.disk dev.old).files gate.old.name) ≡ [] → OnOk result (ChangesNothing (D.disk dev.old) (D.disk dev.new)) }
    ensures crash { D.tells → Effect (IsOwn gate.old.name names.now) (Shows gate.old.name names.now (shown gate.old.name names.now (D.disk dev.old).files)) (D.disk dev.old) (D.disk dev.new) }
    ensures cause { HasCause D.disk_faults D.tell_faults dev.old dev.new (IsErr result) }
{
    if gate.count() == 0 {
        return Ok(());
    }
    let (at, len) = gate.span(0);
    copy_entries(dev, gate.name(), names, at, len)?;
    sync_files(dev, names)?;
    gate.clear(dev)
}

// Makes the files durable, opens the side file, makes it where there is none, and finishes a batch that is sealed. Where it is there
// with no batch, nothing is changed.
pub fn settle<D: Device>(
    alloc: Global,
    dev: &mut D,
    name: &str,
    names: &[Text],
) -> Result<Gate, SideError>
    requires { D.tells → AreApart name.now names.now }
    ensures name { IfOk result (λ g. g.name ≡ name.now) }
    ensures failed { IfOk result (λ g. g.failed ≡ false) }
    ensures none { IfOk result (λ g. g.begun ≡ None) }
    ensures spare { IfOk result (λ g. 1 ≤ g.spare) }
    ensures stands { D.tells → IfOk result (λ g. IsGate (D.disk dev.new) g) }
    ensures empty { D.tells → OnOk result (sealed ((D.disk dev.new).files name.now) ≡ []) }
    ensures durable { D.tells → OnOk result (AreDurable (IsData names.now) (D.disk dev.new)) }
    ensures same { D.tells → OnOk result (Shows name.now names.now (shown name.now names.now (D.disk dev.old).files) (D.disk dev.new).files) }
    ensures still { D.tells → HasNoBatch name.now (D.disk dev.old).files → OnOk result (ChangesNothing (D.disk dev.old) (D.disk dev.new)) }
    ensures crash { D.tells → Effect (IsOwn name.now names.now) (λ image. MayLeaveOwn (IsOwn name.now names.now) (D.disk dev.old) image ⊎ Shows name.now names.now (shown name.now names.now (D.disk dev.old).files) image) (D.disk dev.old) (D.disk dev.new) }
    ensures cause { HasCause D.disk_faults D.tell_faults dev.old dev.new (IsErrOf result SideError.Fault) }
{
    sync_own(dev, name, names)?;
    let mut gate = open(alloc, dev, name)?;
    gate.reserve(1)?;
    finish(&mut gate, dev, names)?;
    Ok(gate)
}
