// The database that a line makes.
ghost use Rattle.std.specs.Prelude.{◌≡◌, ◌≤◌, length, IfOk};
ghost use Rattle.std.specs.List.{AllByRecursion};
ghost use Rattle.bk_groups.specs.Groups.{AreFiles};
ghost use Rattle.bk_known.specs.Known.{FitsNote};
ghost use Rattle.bk_storage.specs.Storage.{HasPath};
ghost use Rattle.bk_store.specs.Making.{MayDescribe};

use crate::words::{name_of, number32, word};
use bk_ids::{Branch, Guid, Name, Path, Sequence, Text};
use bk_known::DatabaseSpec;
use bk_world::{FileSpec, Storage};
use std::alloc::{AllocError, Global};

/// The branch that a database is made on.
pub(crate) const FIRST_BRANCH: Guid = Guid { high: 1, low: 2 };

// A path of 1 to 100 bytes, with this ending.
fn path(alloc: Global, name: &str, ending: &str) -> Result<Text, AllocError>
    ensures { IfOk result (λ path. (1 ≤ length path) × (length path ≤ 100)) }
{
    let path = format!(in alloc; "{name}.{ending}")?;
    if path.is_empty() || path.len() > 100 {
        return Err(AllocError);
    }
    Ok(Text::new(path))
}

// The data file at a path, with so many extents, at most 4,096.
fn file(alloc: Global, name: &str, extents: u32) -> Result<FileSpec, AllocError>
    ensures number { IfOk result (λ file. file.number ≡ 1) }
    ensures extents { IfOk result (λ file. file.extents ≤ 4096) }
    ensures path { IfOk result HasPath }
{
    Ok(FileSpec {
        number: 1,
        group: 0,
        extents: extents.min(4096),
        name: name_of(alloc, "data")?,
        path: path(alloc, name, "mdf")?,
    })
}

// One data file.
fn files(alloc: Global, name: &str, extents: u32) -> Result<Sequence<FileSpec>, AllocError>
    ensures are { IfOk result AreFiles }
    ensures few { IfOk result (λ files. length files ≤ 16) }
    ensures paths { IfOk result (AllByRecursion HasPath) }
{
    let mut files = Vec::new(alloc);
    files.push(file(alloc, name, extents)?)?;
    Ok(Sequence::new(files))
}

// One filegroup.
fn groups(alloc: Global) -> Result<Sequence<Name>, AllocError>
    ensures { IfOk result (λ groups. length groups ≤ 8) }
{
    let mut groups = Vec::new(alloc);
    groups.push(name_of(alloc, "PRIMARY")?)?;
    Ok(Sequence::new(groups))
}

/// A filegroup with a data file of so many extents, and a log, at paths that begin so.
pub(crate) fn storage(alloc: Global, name: &str, extents: u32) -> Result<Storage, AllocError>
    ensures fits { IfOk result FitsNote }
    ensures files { IfOk result (λ storage. AreFiles storage.files) }
{
    Ok(Storage {
        groups: groups(alloc)?,
        files: files(alloc, name, extents)?,
        log_name: name_of(alloc, "log")?,
        log_path: path(alloc, name, "ldf")?,
    })
}

// The path of a database on its first branch.
fn first_path(alloc: Global) -> Result<Path, AllocError>
    ensures { IfOk result (λ path. length path ≤ 64) }
{
    let mut branches = Vec::new(alloc);
    branches.push(Branch {
        guid: FIRST_BRANCH,
        start: 1,
    })?;
    Ok(Path::new(branches))
}

/// The database that `create NAME PATH EXTENTS TIME` says.
pub(crate) fn described(alloc: Global, words: &[&str]) -> Result<DatabaseSpec, AllocError>
    ensures { IfOk result MayDescribe }
{
    let storage = storage(alloc, word(words, 2), number32(words, 3))?;
    Ok(DatabaseSpec {
        name: name_of(alloc, word(words, 1))?,
        family: Guid { high: 1, low: 1 },
        path: first_path(alloc)?,
        storage,
    })
}
