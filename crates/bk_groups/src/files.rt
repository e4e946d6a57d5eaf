//! The files of a database, as a list.

ghost use Rattle.std.specs.Prelude.{◌≡◌, ℕ, ◌<◌, ◌^◌, ◌↔◌, IfOk, IsTrue, MatchOption, length};
ghost use Rattle.bk_groups.specs.Groups.{AreFiles, HasExtent, IsCell, LiesIn, fresh_extents, with_touched};
ghost use Rattle.bk_groups.specs.Sound.{AreFree, WritesPlace, bit_at_place, rooms_of};

use crate::file_space::FileSpace;
use bk_ids::Place;
use bk_world::FileSpec;
use std::alloc::{AllocError, Global};

// The files, with all their cells free.
pub(crate) fn file_spaces(alloc: Global, files: &[FileSpec]) -> Result<Vec<FileSpace>, AllocError>
    requires { AreFiles files.now }
    ensures { IfOk result (λ spaces. AreFree files.now spaces.items) }
{
    let mut spaces = Vec::new(alloc);
    for file in files {
        spaces.push(FileSpace::new(alloc, file.group, file.extents)?)?;
    }
    Ok(spaces)
}

// Whether the files have an extent.
pub(crate) fn has_extent_in(files: &[FileSpace], file: u16, extent: u32) -> bool
    ensures { IsTrue result ↔ HasExtent (rooms_of files.now) file extent }
{
    if file == 0 || extent == 0 || files.len() < usize::from(file) {
        return false;
    }
    extent as usize <= files[usize::from(file) - 1].extents()
}

// Whether the files have a cell, and it is free.
pub(crate) fn is_free_cell(files: &[FileSpace], at: &Place) -> bool
    ensures { IsTrue result ↔ (IsCell (rooms_of files.now) at.now × (bit_at_place files.now at.now ≡ 1)) }
{
    if at.file == 0 || files.len() < usize::from(at.file) {
        return false;
    }
    files[usize::from(at.file) - 1].is_free(at.page, at.slot)
}

// Takes a free cell.
pub(crate) fn take_cell(files: &mut Vec<FileSpace>, at: &Place)
    requires cell { IsCell (rooms_of files.old.items) at.now }
    requires free { bit_at_place files.old.items at.now ≡ 1 }
    ensures { WritesPlace files.old.items files.new.items at.now 0 }
{
    files[usize::from(at.file) - 1].take(at.page, at.slot);
}

// Makes a cell free.
pub(crate) fn give_cell_back(files: &mut Vec<FileSpace>, at: &Place)
    requires { IsCell (rooms_of files.old.items) at.now }
    ensures { WritesPlace files.old.items files.new.items at.now 1 }
{
    files[usize::from(at.file) - 1].give_back(at.page, at.slot);
}

// Notes that an extent was touched.
pub(crate) fn touch_extent(files: &mut Vec<FileSpace>, file: u16, extent: u32)
    requires { HasExtent (rooms_of files.old.items) file extent }
    ensures rooms { rooms_of files.new.items ≡ with_touched (rooms_of files.old.items) file extent }
    ensures len { length files.new.items ≡ length files.old.items }
    ensures bits { (at : Place) → bit_at_place files.new.items at ≡ bit_at_place files.old.items at }
{
    files[usize::from(file) - 1].touch(extent);
}

// The first free cell of the files of a filegroup.
pub(crate) fn first_free(files: &[FileSpace], group: u8) -> Option<Place>
    requires { length files.now < 2 ^ 16 }
    ensures { MatchOption result
        ((at : Place) → LiesIn (rooms_of files.now) group at → bit_at_place files.now at ≡ 0)
        (λ at. LiesIn (rooms_of files.now) group at × (bit_at_place files.now at ≡ 1)) }
{
    for (i, file) in files.iter().enumerate() {
        if file.group() == group {
            if let Some((page, slot)) = file.first() {
                let file = i as u16 + 1;
                return Some(Place { file, page, slot });
            }
        }
    }
    None
}

// How many extents of the files of a filegroup were never touched.
pub(crate) fn fresh_of(files: &[FileSpace], group: u8) -> u32
    requires { length files.now < 2 ^ 16 }
    ensures { result ≡ fresh_extents (rooms_of files.now) group }
{
    let mut total = 0;
    for file in files {
        if file.group() == group {
            total += file.untouched();
        }
    }
    total
}
