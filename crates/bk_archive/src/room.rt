//! Whether there is room for one more set on a medium.
ghost use Rattle.std.specs.Prelude.{◌≡◌, ℕ, List, None, Some, length, IfErr, IfOk, IsErrOf};
ghost use Rattle.bk_device.specs.Calls.{ChangesNothing};
ghost use Rattle.bk_device.specs.Counts.{HasCause};
ghost use Rattle.bk_device.specs.Troubles.{IsPassing};
ghost use Rattle.bk_device.specs.declared.trouble.Trouble.TheVariants.{Fault};
ghost use Rattle.bk_machine.specs.World.{World};
ghost use Rattle.bk_machine.specs.statements.Backup.{ShowsRoom};
ghost use Rattle.bk_world.specs.Medium.{Slot, medium, medium_at};
ghost use Rattle.bk_archive.specs.Media.{KeepsMedia};

use bk_device::{Device, Trouble};
use bk_volume::{LoadError, Medium};
use bk_world::{Limit, Rule};
use std::alloc::Global;

// How many sets a medium has at most, damaged ones among them.
const MOST_SETS: u64 = 65_535;

// The room behind so many sets.
fn room_behind(count: u64) -> Result<Option<u64>, Rule>
    ensures { (slots : List Slot) → length slots ≡ count → ShowsRoom (Some (medium slots)) result }
{
    if count < MOST_SETS {
        Ok(Some(count))
    } else {
        Err(Rule::LimitReached { which: Limit::Sets })
    }
}

/// What a backup is told of the file at the path of a medium: `None` where there is none; how many sets the medium has, where
/// there is room for one more; or the rule by which the backup is refused, `NotMedia` or `LimitReached`. Changes nothing.
pub fn room_at<D: Device>(
    alloc: Global,
    dev: &mut D,
    path: &str,
) -> Result<Result<Option<u64>, Rule>, Trouble>
    ensures room { D.tells → (w : World) → KeepsMedia w None (D.disk dev.old).files → IfOk result (ShowsRoom (medium_at w.media path.now)) }
    ensures effect { D.tells → ChangesNothing (D.disk dev.old) (D.disk dev.new) }
    ensures trouble { IfErr result IsPassing }
    ensures cause { HasCause D.disk_faults D.tell_faults dev.old dev.new (IsErrOf result Fault) }
{
    match Medium::load(alloc, dev, path) {
        Ok(medium) => Ok(room_behind(medium.count() as u64)),
        Err(LoadError::Missing) => Ok(Ok(None)),
        Err(LoadError::NotMedia) => Ok(Err(Rule::NotMedia)),
        Err(LoadError::Fault) => Err(Trouble::Fault),
        Err(LoadError::NoMemory) => Err(Trouble::NoMemory),
    }
}
