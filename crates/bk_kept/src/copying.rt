//! Copies of what is kept.

ghost use Rattle.std.specs.Prelude.{◌≡◌, IfOk};

use bk_ids::{Name, Sequence};
use bk_world::FileSpec;
use std::alloc::{AllocError, Global};

/// A data file of its own.
pub fn copy_file(alloc: Global, file: &FileSpec) -> Result<FileSpec, AllocError>
    ensures { IfOk result (λ copy. copy ≡ file.now) }
{
    Ok(FileSpec {
        number: file.number,
        group: file.group,
        extents: file.extents,
        name: file.name.copy(alloc)?,
        path: file.path.copy(alloc)?,
    })
}

/// Filegroups of their own.
pub fn copy_groups(alloc: Global, groups: &[Name]) -> Result<Sequence<Name>, AllocError>
    ensures { IfOk result (λ copy. copy ≡ groups.now) }
{
    let mut copy = Vec::new(alloc);
    for group in groups {
        copy.push(group.copy(alloc)?)?;
    }
    Ok(Sequence::new(copy))
}
