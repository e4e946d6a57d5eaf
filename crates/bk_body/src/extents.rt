//! The data extents of a set.

ghost use Rattle.std.specs.Prelude.{◌≡◌, ◌≤◌, length};
ghost use Rattle.bk_header.specs.Conditions.{total_extents};
ghost use Rattle.bk_body.specs.Conditions as conditions;
ghost use Rattle.bk_body.specs.Reading as reading;

use crate::pages::are_pages;
use bk_world::HeaderFile;

fn is_in_file(f: &HeaderFile, file: u16, extent: u32) -> bool
    ensures { result ≡ conditions.is_in_file file extent f.now }
{
    f.spec.number == file && 0 < extent && extent <= f.spec.extents
}

/// Whether one of these files has this data extent.
pub fn has_extent(files: &[HeaderFile], file: u16, extent: u32) -> bool
    ensures { result ≡ conditions.has_extent files.now file extent }
{
    files.iter().any(|f| is_in_file(f, file, extent))
}

/// Whether one of these files that are in the set has this data extent.
pub fn holds_extent(files: &[HeaderFile], file: u16, extent: u32) -> bool
    ensures { result ≡ conditions.holds_extent files.now file extent }
{
    files
        .iter()
        .any(|f| f.in_set && is_in_file(f, file, extent))
}

/// Whether 65,536 bytes are the eight pages of this extent, which one of the files that are in the set has.
pub fn keeps_extent(files: &[HeaderFile], file: u16, extent: u32, bytes: &[u8]) -> bool
    requires size { length bytes.now ≡ 65536 }
    requires small { total_extents files.now ≤ 4096 }
    ensures { result ≡ reading.keeps_extent files.now (record { file = file; extent = extent; bytes = bytes.now }) }
{
    holds_extent(files, file, extent) && are_pages(file, 8 * extent, bytes)
}
