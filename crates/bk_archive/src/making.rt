//! A medium is made.
ghost use Rattle.std.specs.Prelude.{IfErr, IsErrOf, OnOk};
ghost use Rattle.bk_device.specs.Counts.{HasCause};
ghost use Rattle.bk_device.specs.Disk.{IsDurable};
ghost use Rattle.bk_device.specs.Effects.{Effect, IsName};
ghost use Rattle.bk_device.specs.Troubles.{IsPassing};
ghost use Rattle.bk_device.specs.declared.trouble.Trouble.TheVariants.{Fault};
ghost use Rattle.bk_volume.specs.Names.{medium_file};
ghost use Rattle.bk_archive.specs.Calls.{HasMade, LeavesMaking};
ghost use Rattle.bk_archive.specs.Media.{IfDurable, IsMediumFile, MediaAreDurable};

use bk_device::{Device, Trouble};
use bk_ids::Text;
use bk_volume::Medium;
use std::alloc::Global;

/// Makes a medium without sets at a path where the world has none, while a record names it as being made. A crash leaves no
/// medium there, or a whole one without sets. Afterwards the record need no longer name it; after an error it must go on
/// naming it. Of the files only the medium's is touched.
pub fn make_medium<D: Device>(alloc: Global, dev: &mut D, path: &Text) -> Result<(), Trouble>
    ensures made { D.tells → OnOk result (HasMade path.now (D.disk dev.old).files (D.disk dev.new).files) }
    ensures durable { D.tells → OnOk result (IsDurable (D.disk dev.new) (medium_file path.now)) }
    ensures media { D.tells → MediaAreDurable (D.disk dev.old) → OnOk result (MediaAreDurable (D.disk dev.new)) }
    ensures crash { D.tells → Effect IsMediumFile (IfDurable (D.disk dev.old) (LeavesMaking path.now (D.disk dev.old).files)) (D.disk dev.old) (D.disk dev.new) }
    ensures spares { D.tells → Effect (IsName (medium_file path.now)) (λ image. Unit {0}) (D.disk dev.old) (D.disk dev.new) }
    ensures trouble { IfErr result IsPassing }
    ensures cause { HasCause D.disk_faults D.tell_faults dev.old dev.new (IsErrOf result Fault) }
{
    let _medium = Medium::make(alloc, dev, path.as_str())?;
    Ok(())
}
