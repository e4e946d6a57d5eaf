// Sets are sealed.
ghost use Rattle.std.specs.Prelude.{◌≡◌, ◌≢◌, ◌≤◌, false, length, IfErr, OnOk, IsErrOf};
ghost use Rattle.bk_archive.specs.Calls.{HasSealed, LeavesSealing};
ghost use Rattle.bk_archive.specs.Media.{IfDurable, IsMediumFile, MediaAreDurable};
ghost use Rattle.bk_body.specs.Body.{Body};
ghost use Rattle.bk_device.specs.Counts.{HasCause};
ghost use Rattle.bk_device.specs.Effects.{Effect, IsName};
ghost use Rattle.bk_device.specs.Troubles.{IsPassing};
ghost use Rattle.bk_header.specs.Conditions.{KeepsConditions};
ghost use Rattle.bk_machine.specs.Acts.{done, set_sealed};
ghost use Rattle.bk_machine.specs.World.{World};
ghost use Rattle.bk_stores.specs.Standing.{AreStanding};
ghost use Rattle.bk_volume.specs.Names.{medium_file};
ghost use Rattle.bk_volume.specs.Staging.{IsSetOf, IsStaged};
ghost use Rattle.bk_engine.specs.Acts.{CutsAct};
ghost use Rattle.bk_engine.specs.Sealing.{MaySeal};
ghost use Rattle.bk_engine.specs.Stands.{IsOurs, IsReady, IsStagingFile, StandsFor};
ghost use Rattle.bk_engine.specs.Touched.{IsAt, TouchesOnly};

use crate::engine::Engine;
use crate::making::path_law;
use bk_archive::{SealError, seal_set};
use bk_device::{Device, Trouble};
use bk_hosted::hosted_databases_follow_acts;
use bk_ids::Text;
use bk_machine::acts_keep_worlds_sound;
use bk_volume::Staged;
use bk_world::{Header, TableSpec};
use std::alloc::Global;

// Seals a set on the medium at this path, as if memory were wanting where there is none.
fn seal_at<D: Device>(
    alloc: Global,
    dev: &mut D,
    path: &Text,
    staged: &Staged,
    header: &Header,
    tables: &[TableSpec],
) -> Result<(), Trouble>
    requires whole { staged.now.failed ≡ false }
    requires apart { staged.now.name ≢ medium_file path.now }
    requires keeps { KeepsConditions header.now }
    requires few { length tables.now ≤ 64 }
    requires staged { D.tells → IsStaged (D.disk dev.old) staged.now }
    ensures sealed { D.tells → (body : Body) → IsSetOf (D.disk dev.old) staged.now header.now tables.now body → OnOk result (HasSealed path.now body (D.disk dev.old).files (D.disk dev.new).files) }
    ensures calm { D.tells → (body : Body) → IsSetOf (D.disk dev.old) staged.now header.now tables.now body → MediaAreDurable (D.disk dev.old) → OnOk result (MediaAreDurable (D.disk dev.new)) }
    ensures crash { D.tells → (body : Body) → IsSetOf (D.disk dev.old) staged.now header.now tables.now body → Effect IsMediumFile (IfDurable (D.disk dev.old) (LeavesSealing path.now body (D.disk dev.old).files)) (D.disk dev.old) (D.disk dev.new) }
    ensures spares { D.tells → Effect (IsName (medium_file path.now)) (λ image. Unit {0}) (D.disk dev.old) (D.disk dev.new) }
    ensures trouble { IfErr result IsPassing }
    ensures cause { HasCause D.disk_faults D.tell_faults dev.old dev.new (IsErrOf result Trouble.Fault) }
{
    match seal_set(alloc, dev, path, staged, header, tables) {
        Ok(()) => Ok(()),
        Err(SealError::Fault) => Err(Trouble::Fault),
        Err(SealError::NoMedium | SealError::NoMemory) => Err(Trouble::NoMemory),
    }
}

impl Engine {
    /// Seals the set whose extents and log were added, with this header and these tables, behind those on the medium at a path. A crash leaves the world before it, but for what waited, or the one behind it.
    ///
    /// Only `Fault` and `NoMemory` are answered. Where there is no medium at the path, the call ends as if memory were wanting.
    pub fn seal_set<D: Device>(
        &self,
        dev: &mut D,
        path: &Text,
        staged: &Staged,
        header: &Header,
        tables: &[TableSpec],
    ) -> Result<(), Trouble>
        requires ready { IsReady self.now }
        requires whole { staged.now.failed ≡ false }
        requires named { IsStagingFile staged.now.name }
        requires keeps { KeepsConditions header.now }
        requires few { length tables.now ≤ 64 }
        requires standing { D.tells → AreStanding (D.disk dev.old) self.now.hosting.stores }
        requires staged { D.tells → IsStaged (D.disk dev.old) staged.now }
        ensures standing { D.tells → AreStanding (D.disk dev.new) self.now.hosting.stores }
        ensures stands { D.tells → (w : World) (body : Body) → StandsFor (D.disk dev.old) self.now w → MaySeal (D.disk dev.old) w staged.now header.now tables.now body → OnOk result (StandsFor (D.disk dev.new) self.now (done w (set_sealed path.now header.now))) }
        ensures crash { D.tells → (w : World) (body : Body) → StandsFor (D.disk dev.old) self.now w → MaySeal (D.disk dev.old) w staged.now header.now tables.now body → Effect IsOurs (CutsAct w (set_sealed path.now header.now)) (D.disk dev.old) (D.disk dev.new) }
        ensures touches { D.tells → TouchesOnly (IsAt path.now) (D.disk dev.old) (D.disk dev.new) }
        ensures trouble { IfErr result IsPassing }
        ensures cause { HasCause D.disk_faults D.tell_faults dev.old dev.new (IsErrOf result Trouble.Fault) }
    {
        acts_keep_worlds_sound();
        hosted_databases_follow_acts();
        path_law(path);
        self.hosting.at_rest(dev);
        seal_at(self.alloc, dev, path, staged, header, tables)
    }
}
