//! A medium is loaded.
ghost use Rattle.std.specs.Prelude.{◌≡◌, Err, false, IfErr, IfOk, IsErrOf};
ghost use Rattle.bk_device.specs.Calls.{ChangesNothing};
ghost use Rattle.bk_device.specs.Counts.{HasCause};
ghost use Rattle.bk_device.specs.Troubles.{IsPassing};
ghost use Rattle.bk_device.specs.declared.trouble.Trouble.TheVariants.{Fault};
ghost use Rattle.bk_machine.specs.statements.Restore.{slots_of};
ghost use Rattle.bk_volume.specs.Media.{ShowsMedium, read_medium};
ghost use Rattle.bk_volume.specs.Names.{medium_file};

use bk_device::{Device, Trouble};
use bk_volume::{LoadError, Medium};
use bk_world::Rule;
use std::alloc::Global;

/// Loads the medium at a path, or answers the rule by which each of its sets is refused. Changes nothing.
pub fn load_medium<D: Device>(
    alloc: Global,
    dev: &mut D,
    path: &str,
) -> Result<Result<Medium, Rule>, Trouble>
    ensures refused { D.tells → IfOk result (λ medium. IfErr medium (λ rule. slots_of (read_medium ((D.disk dev.old).files (medium_file path.now))) ≡ Err rule)) }
    ensures name { IfOk result (λ medium. IfOk medium (λ m. m.name ≡ medium_file path.now)) }
    ensures fit { IfOk result (λ medium. IfOk medium (λ m. m.failed ≡ false)) }
    ensures shows { D.tells → IfOk result (λ medium. IfOk medium (λ m. ShowsMedium (D.disk dev.new) m)) }
    ensures effect { D.tells → ChangesNothing (D.disk dev.old) (D.disk dev.new) }
    ensures trouble { IfErr result IsPassing }
    ensures cause { HasCause D.disk_faults D.tell_faults dev.old dev.new (IsErrOf result Fault) }
{
    match Medium::load(alloc, dev, path) {
        Ok(medium) => Ok(Ok(medium)),
        Err(LoadError::Missing) => Ok(Err(Rule::MediaMissing)),
        Err(LoadError::NotMedia) => Ok(Err(Rule::NotMedia)),
        Err(LoadError::Fault) => Err(Trouble::Fault),
        Err(LoadError::NoMemory) => Err(Trouble::NoMemory),
    }
}
