//! The files of the database of a backup set.

ghost use Rattle.std.specs.Prelude.{◌≡◌, ◌++◌, OnOk, flat_map, slice_get};
ghost use Rattle.std.specs.String.{string_bytes};
ghost use Rattle.bk_report.specs.Cells.{maybe_text};
ghost use Rattle.bk_report.specs.Files.{file_line, file_lines, log_line};

use crate::cells::NULL;
use bk_ids::Name;
use bk_world::{FileSpec, Storage};
use std::alloc::{AllocError, Global};

// The bytes of a data extent.
const EXTENT_BYTES: u64 = 65_536;

fn group_name(groups: &[Name], group: u8) -> &str
    ensures { result.now ≡ maybe_text (slice_get groups.now group) }
{
    match groups.get(usize::from(group)) {
        Some(name) => name.as_str(),
        None => NULL,
    }
}

fn push_file(
    alloc: Global,
    text: &mut String,
    groups: &[Name],
    file: &FileSpec,
) -> Result<(), AllocError>
    ensures { OnOk result (string_bytes text.new ≡ string_bytes text.old ++ file_line groups.now file.now) }
{
    let name = file.name.as_str();
    let path = file.path.as_str();
    let group = group_name(groups, file.group);
    let bytes = u64::from(file.extents) * EXTENT_BYTES;
    let number = file.number;
    text.push_str(&format!(in alloc; "{name}\t{path}\tD\t{group}\t{bytes}\t{number}\n")?)
}

fn push_log(alloc: Global, text: &mut String, storage: &Storage) -> Result<(), AllocError>
    ensures { OnOk result (string_bytes text.new ≡ string_bytes text.old ++ log_line storage.now) }
{
    let name = storage.log_name.as_str();
    let path = storage.log_path.as_str();
    let number = storage.files.as_slice().len() + 1;
    text.push_str(&format!(in alloc; "{name}\t{path}\tL\tNULL\t0\t{number}\n")?)
}

fn push_data_files(
    alloc: Global,
    text: &mut String,
    groups: &[Name],
    files: &[FileSpec],
) -> Result<(), AllocError>
    ensures { OnOk result (string_bytes text.new ≡ string_bytes text.old ++ flat_map (file_line groups.now) files.now) }
{
    for file in files {
        push_file(alloc, text, groups, file)?;
    }
    Ok(())
}

/// Adds the lines of RESTORE FILELISTONLY: the data files, and then the log. Where memory is wanting, the text may have a part
/// of them.
pub fn push_files(alloc: Global, text: &mut String, storage: &Storage) -> Result<(), AllocError>
    ensures { OnOk result (string_bytes text.new ≡ string_bytes text.old ++ file_lines storage.now) }
{
    push_data_files(
        alloc,
        text,
        storage.groups.as_slice(),
        storage.files.as_slice(),
    )?;
    push_log(alloc, text, storage)
}
