// A database is copied into a set.
ghost use Rattle.std.specs.Prelude.{◌≡◌, ◌<◌, ◌+◌, ◌^◌, false, length, Some, slice_get, IfErr, IfOk, OnOk, IsErrOf};
ghost use Rattle.bk_device.specs.Counts.{HasCause};
ghost use Rattle.bk_device.specs.Effects.{Effect};
ghost use Rattle.bk_device.specs.Troubles.{IsPassing};
ghost use Rattle.bk_engine.specs.Copying.{HoldsFront};
ghost use Rattle.bk_engine.specs.Guids.{IsGuid};
ghost use Rattle.bk_engine.specs.HostingCopying.{HaveExtents};
ghost use Rattle.bk_engine.specs.Stands.{Covers, IsOurs, IsReady, IsStagingFile, NamesSet, StandsFor, own_in};
ghost use Rattle.bk_engine.specs.Touched.{NoMedium, TouchesOnly};
ghost use Rattle.bk_ids.specs.declared.guid.Guid.{Guid};
ghost use Rattle.bk_kept.specs.Jobs.{IsApart};
ghost use Rattle.bk_machine.specs.World.{World};
ghost use Rattle.bk_engine.specs.StoresStanding.{AreStanding};
ghost use Rattle.bk_volume.specs.Names.{staging_file};
ghost use Rattle.bk_volume.specs.Staging.{IsStaged};
ghost use Rattle.bk_sealing.specs.Copied.{HoldsCopy};
ghost use Rattle.bk_sealing.specs.Sealing.{IsSetNow};

use bk_device::{Device, Trouble};
use bk_engine::Engine;
use bk_ids::ExtentId;
use bk_volume::Staged;
use bk_world::Header;

/// The place of a header's database; it counts from 0. Nothing is read or written.
///
/// Where there is no such database, the call ends as if memory were wanting.
pub(crate) fn place_of<D: Device>(
    engine: &Engine,
    dev: &mut D,
    header: &Header,
) -> Result<usize, Trouble>
    requires ready { IsReady engine.now }
    ensures same { dev.new ≡ dev.old }
    ensures inside { IfOk result (λ at. at < length engine.now.hosting.states) }
    ensures there { D.tells → (w : World) (is : IsSetNow w header.now) → StandsFor (D.disk dev.old) engine.now w → IfOk result (λ at. slice_get w.databases at ≡ Some is.db) }
    ensures trouble { IfErr result IsPassing }
    ensures cause { HasCause D.disk_faults D.tell_faults dev.old dev.new (IsErrOf result Trouble.Fault) }
{
    match engine.find(header.database.as_str()) {
        Some(at) => Ok(at),
        None => Err(Trouble::NoMemory),
    }
}

/// Copies these data extents of a header's database, which stands at this place, and its records from the first number of the header to its last, into a set that has no log yet. The world stays.
pub(crate) fn copy_rest<D: Device>(
    engine: &mut Engine,
    dev: &mut D,
    at: usize,
    staged: &mut Staged,
    rest: &[ExtentId],
    header: &Header,
) -> Result<(), Trouble>
    requires ready { IsReady engine.old }
    requires inside { at < length engine.old.hosting.states }
    requires there { HaveExtents engine.old.hosting.stores.slots at rest.now }
    requires standing { D.tells → AreStanding (D.disk dev.old) engine.old.hosting.stores }
    requires sound { staged.old.failed ≡ false }
    requires named { IsStagingFile staged.old.name }
    requires first { staged.old.log ≡ 0 }
    requires few { staged.old.extents + length rest.now < 2 ^ 32 }
    requires staged { D.tells → IsStaged (D.disk dev.old) staged.old }
    ensures ready { OnOk result (IsReady engine.new) }
    ensures own { OnOk result (NamesSet (own_in engine.old).staging engine.old engine.new) }
    ensures standing { D.tells → OnOk result (AreStanding (D.disk dev.new) engine.new.hosting.stores) }
    ensures sound { OnOk result (staged.new.failed ≡ false) }
    ensures name { OnOk result (staged.new.name ≡ staged.old.name) }
    ensures staged { D.tells → OnOk result (IsStaged (D.disk dev.new) staged.new) }
    ensures stands { D.tells → (w : World) → StandsFor (D.disk dev.old) engine.old w → (set : Guid) → IsGuid set → staged.old.name ≡ staging_file set → IsApart w set → OnOk result (StandsFor (D.disk dev.new) engine.new w) }
    ensures holds { D.tells → (w : World) (is : IsSetNow w header.now) → StandsFor (D.disk dev.old) engine.old w → (set : Guid) → IsGuid set → staged.old.name ≡ staging_file set → IsApart w set → slice_get w.databases at ≡ Some is.db
        → HoldsFront w is.db header.now.checkpoint rest.now (D.disk dev.old) staged.old → OnOk result (HoldsCopy w is.db header.now.checkpoint header.now.first header.now.last (D.disk dev.new) staged.new) }
    ensures crash { D.tells → (w : World) → StandsFor (D.disk dev.old) engine.old w → (set : Guid) → IsGuid set → staged.old.name ≡ staging_file set → IsApart w set → Effect IsOurs (Covers w) (D.disk dev.old) (D.disk dev.new) }
    ensures touches { D.tells → TouchesOnly NoMedium (D.disk dev.old) (D.disk dev.new) }
    ensures trouble { IfErr result IsPassing }
    ensures cause { HasCause D.disk_faults D.tell_faults dev.old dev.new (IsErrOf result Trouble.Fault) }
{
    engine.copy_extents(dev, at, staged, rest)?;
    engine.copy_log(dev, at, staged, header.first, header.last)
}
