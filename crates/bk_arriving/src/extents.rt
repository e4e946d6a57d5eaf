// Data files of whole extents.
ghost use Rattle.std.specs.Prelude.{◌≡◌, false, true};
ghost use Rattle.std.specs.List.{AllByRecursion};
ghost use Rattle.bk_arriving.specs.Extents.{HasExtents};

use bk_facts::DataFile;

/// The pages of an extent.
pub const EXTENT_PAGES: u32 = 8;

// Whether a data file's pages are those of whole extents, at least one.
fn has_extents(file: &DataFile) -> bool
    ensures yes { result ≡ true → HasExtents file.now }
    ensures no { result ≡ false → HasExtents file.now → ⊥ }
{
    1 <= file.pages && file.pages % EXTENT_PAGES == 0
}

/// Whether that is so of each of these data files.
pub fn have_extents(files: &[DataFile]) -> bool
    ensures yes { result ≡ true → AllByRecursion HasExtents files.now }
    ensures no { result ≡ false → AllByRecursion HasExtents files.now → ⊥ }
{
    files.iter().all(has_extents)
}
