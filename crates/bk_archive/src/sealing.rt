//! A set is sealed on a medium.
ghost use Rattle.std.specs.Prelude.{◌≡◌, ◌≢◌, ◌≤◌, ◌⊎◌, None, Some, false, length, IsErrOf, OnOk};
ghost use Rattle.bk_body.specs.Body.{Body};
ghost use Rattle.bk_device.specs.Counts.{HasCause};
ghost use Rattle.bk_device.specs.Disk.{IsDurable};
ghost use Rattle.bk_device.specs.Effects.{Effect, IsName};
ghost use Rattle.bk_header.specs.Conditions.{KeepsConditions};
ghost use Rattle.bk_volume.specs.Media.{read_medium};
ghost use Rattle.bk_volume.specs.Names as names;
ghost use Rattle.bk_volume.specs.Staging.{IsSetOf, IsStaged};
ghost use Rattle.bk_world.specs.Medium.{not_media};
ghost use Rattle.bk_archive.specs.Calls.{HasSealed, LeavesSealing};
ghost use Rattle.bk_archive.specs.Media.{IfDurable, IsMediumFile, MediaAreDurable};
ghost use Rattle.bk_archive.specs.declared.error.SealError.TheVariants.{Fault, NoMedium};

use crate::error::SealError;
use bk_device::Device;
use bk_ids::Text;
use bk_volume::{Medium, Staged, medium_file};
use bk_world::{Header, TableSpec};
use std::alloc::Global;

/// Seals the set whose extents and log were added, behind those on the medium at a path, with this header and these tables.
/// What a read shows of the medium is made durable first: a process that was stopped may have left writes there that are
/// still pending. A crash leaves the sets that there were, or this one too. Of the files only the medium's is touched.
///
/// `NoMedium` is answered only where there is no medium at the path.
pub fn seal_set<D: Device>(
    alloc: Global,
    dev: &mut D,
    path: &Text,
    staged: &Staged,
    header: &Header,
    tables: &[TableSpec],
) -> Result<(), SealError>
    requires whole { staged.now.failed ≡ false }
    requires apart { staged.now.name ≢ names.medium_file path.now }
    requires keeps { KeepsConditions header.now }
    requires few { length tables.now ≤ 64 }
    requires staged { D.tells → IsStaged (D.disk dev.old) staged.now }
    ensures sealed { D.tells → (body : Body) → IsSetOf (D.disk dev.old) staged.now header.now tables.now body → OnOk result (HasSealed path.now body (D.disk dev.old).files (D.disk dev.new).files) }
    ensures durable { D.tells → OnOk result (IsDurable (D.disk dev.new) (names.medium_file path.now)) }
    ensures media { D.tells → (body : Body) → IsSetOf (D.disk dev.old) staged.now header.now tables.now body → MediaAreDurable (D.disk dev.old) → OnOk result (MediaAreDurable (D.disk dev.new)) }
    ensures crash { D.tells → (body : Body) → IsSetOf (D.disk dev.old) staged.now header.now tables.now body → Effect IsMediumFile (IfDurable (D.disk dev.old) (LeavesSealing path.now body (D.disk dev.old).files)) (D.disk dev.old) (D.disk dev.new) }
    ensures spares { D.tells → Effect (IsName (names.medium_file path.now)) (λ image. Unit {0}) (D.disk dev.old) (D.disk dev.new) }
    ensures no_medium { D.tells → IsErrOf result NoMedium → ((D.disk dev.old).files (names.medium_file path.now) ≡ None) ⊎ (read_medium ((D.disk dev.old).files (names.medium_file path.now)) ≡ Some not_media) }
    ensures cause { HasCause D.disk_faults D.tell_faults dev.old dev.new (IsErrOf result Fault) }
{
    let file = medium_file(alloc, path.as_str())?;
    dev.sync(&file)?;
    let mut medium = Medium::load(alloc, dev, path.as_str())?;
    medium.seal_set(alloc, dev, staged, header, tables)?;
    Ok(())
}
