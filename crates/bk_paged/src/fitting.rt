// Of which data files a database may be made.
ghost use Rattle.std.specs.Prelude.{◌↔◌, IfOk, IsTrue};
ghost use Rattle.std.specs.List.{AllByRecursion};
ghost use Rattle.bk_facts.specs.Facts.{HasPath};
ghost use Rattle.bk_paged.specs.Making.{MayBeMade};

use crate::parts::copy_paths;
use bk_facts::DataFile;
use bk_side::{are_different, data_files};
use std::alloc::{AllocError, Global};

// Whether the path of a data file has 1 to 100 bytes.
fn has_path(file: &DataFile) -> bool
    ensures { IsTrue result ↔ HasPath file.now }
{
    let len = file.path.as_str().len();
    1 <= len && len <= 100
}

// Whether those of all data files have.
fn have_paths(files: &[DataFile]) -> bool
    ensures { IsTrue result ↔ AllByRecursion HasPath files.now }
{
    files.iter().all(has_path)
}

/// Whether a database may be made of these data files, with this note for the layer above: there are at most 16 of them, each has a path of 1 to 100 bytes, no two have one path, and the note has at
/// most 30,720 bytes.
pub fn may_make(alloc: Global, files: &[DataFile], note: &[u8]) -> Result<bool, AllocError>
    ensures { IfOk result (λ yes. IsTrue yes ↔ MayBeMade files.now note.now) }
{
    if files.len() > 16 || note.len() > 30_720 || !have_paths(files) {
        return Ok(false);
    }
    let paths = copy_paths(alloc, files)?;
    let names = data_files(alloc, &paths)?;
    Ok(are_different(&names))
}
