//! Writing the filegroups, data files and log of a database.

ghost use Rattle.std.specs.Prelude.{◌≡◌, ◌^◌, ◌<◌, ◌≤◌, ◌++◌, length, OnOk};
ghost use Rattle.std.specs.List.{All, AllByRecursion};
ghost use Rattle.bk_bytes.specs.Codec.{IsString};
ghost use Rattle.bk_header.specs.Spelling.{text_bytes};
ghost use Rattle.bk_storage.specs.Storage.{HasPath, IsSpec, IsStorage, KeepsStorage, files_bytes, groups_bytes, spec_bytes, storage_bytes};

use bk_bytes::{append_text, append_u8, append_u16, append_u32};
use bk_ids::{Name, Text};
use bk_world::{FileSpec, Storage};
use std::alloc::AllocError;

/// Appends the spelling of a name. An error leaves some bytes behind those that were there.
pub fn append_name(out: &mut Vec<u8>, name: &Name) -> Result<(), AllocError>
    ensures ok { OnOk result (out.new.items ≡ out.old.items ++ text_bytes name.now) }
    ensures fits { OnOk result (IsString 1 64 name.now) }
{
    let text = name.as_str();
    append_text(out, text.as_bytes())
}

fn append_path(out: &mut Vec<u8>, path: &Text) -> Result<(), AllocError>
    requires some { 1 ≤ length path.now }
    requires short { length path.now ≤ 100 }
    ensures ok { OnOk result (out.new.items ≡ out.old.items ++ text_bytes path.now) }
    ensures fits { OnOk result (IsString 1 100 path.now) }
{
    let text = path.as_str();
    append_text(out, text.as_bytes())
}

fn append_spec(out: &mut Vec<u8>, file: &FileSpec) -> Result<(), AllocError>
    requires { HasPath file.now }
    ensures ok { OnOk result (out.new.items ≡ out.old.items ++ spec_bytes file.now) }
    ensures fits { OnOk result (IsSpec file.now) }
{
    append_u16(out, file.number)?;
    append_u8(out, file.group)?;
    append_u32(out, file.extents)?;
    append_name(out, &file.name)?;
    append_path(out, &file.path)
}

fn append_groups(out: &mut Vec<u8>, groups: &[Name]) -> Result<(), AllocError>
    requires { length groups.now < 256 ^ 1 }
    ensures ok { OnOk result (out.new.items ≡ out.old.items ++ groups_bytes groups.now) }
    ensures fits { OnOk result (AllByRecursion (IsString 1 64) groups.now) }
{
    append_u8(out, groups.len() as u8)?;
    for group in groups {
        append_name(out, group)?;
    }
    Ok(())
}

fn append_files(out: &mut Vec<u8>, files: &[FileSpec]) -> Result<(), AllocError>
    requires few { length files.now < 256 ^ 2 }
    requires paths { All HasPath files.now }
    ensures ok { OnOk result (out.new.items ≡ out.old.items ++ files_bytes files.now) }
    ensures fits { OnOk result (AllByRecursion IsSpec files.now) }
{
    append_u16(out, files.len() as u16)?;
    for file in files {
        append_spec(out, file)?;
    }
    Ok(())
}

/// Appends the spelling of the filegroups, the data files and the log: at most 8 groups and 16 files, with paths of 1 to 100 bytes. An error leaves some bytes behind those that were there.
pub fn append_storage(out: &mut Vec<u8>, storage: &Storage) -> Result<(), AllocError>
    requires { KeepsStorage storage.now }
    ensures ok { OnOk result (out.new.items ≡ out.old.items ++ storage_bytes storage.now) }
    ensures fits { OnOk result (IsStorage storage.now) }
{
    append_groups(out, storage.groups.as_slice())?;
    append_files(out, storage.files.as_slice())?;
    append_name(out, &storage.log_name)?;
    append_path(out, &storage.log_path)
}
