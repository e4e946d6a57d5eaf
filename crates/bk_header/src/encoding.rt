//! Writing a header.

ghost use Rattle.std.specs.Prelude.{◌≡◌, ◌+◌, ◌^◌, ◌<◌, ◌≤◌, ◌++◌, length, OnOk, OnErr, Option, is_some};
ghost use Rattle.std.specs.List.{flat_map, All, AllByRecursion};
ghost use Rattle.bk_ids.specs.declared.path.Branch.{Branch};
ghost use Rattle.bk_bytes.specs.Codec.{IsString};
ghost use Rattle.bk_bytes.specs.Field.{bytes_of};
ghost use Rattle.bk_fields.specs.Guids.{IsGuid, guid_bytes};
ghost use Rattle.bk_header.specs.Spelling.{text_bytes, flag, flags_of, kind_number, base_or_zero, time_or_zero, base_bytes, branch_bytes, file_bytes, what_bytes, range_bytes, times_bytes, fixed_bytes, lists_bytes, spelling};
ghost use Rattle.bk_header.specs.Conditions.{IsBase, HasPath, HasRanges, HasFileRanges, HasListRanges, IsHeader, KeepsConditions};

use bk_bytes::{append_text, append_u8, append_u16, append_u32, append_u64};
use bk_fields::{append_guid, append_model};
use bk_ids::{Branch, Guid, Name, Text};
use bk_world::{Base, Header, HeaderFile, SetKind};
use std::alloc::{AllocError, Global};

fn append_name(out: &mut Vec<u8>, name: &Name) -> Result<(), AllocError>
    ensures ok { OnOk result (out.new.items ≡ out.old.items ++ text_bytes name.now) }
    ensures fits { OnOk result (IsString 1 64 name.now) }
{
    let text = name.as_str();
    append_text(out, text.as_bytes())
}

fn append_string(
    out: &mut Vec<u8>,
    text: &Text,
    least: usize,
    most: usize,
) -> Result<(), AllocError>
    requires least_bytes { least ≤ length text.now }
    requires most_bytes { length text.now ≤ most }
    requires small { most < 2 ^ 16 }
    ensures ok { OnOk result (out.new.items ≡ out.old.items ++ text_bytes text.now) }
    ensures fits { OnOk result (IsString least most text.now) }
{
    let text = text.as_str();
    append_text(out, text.as_bytes())
}

fn kind(kind: SetKind) -> u8
    ensures { result ≡ kind_number kind }
{
    match kind {
        SetKind::Full => 1,
        SetKind::Log => 2,
        SetKind::File => 4,
        SetKind::Differential => 5,
    }
}

fn worth(set: bool, worth: u8) -> u8
    ensures { result ≡ flag set worth }
{
    if set { worth } else { 0 }
}

fn flags(h: &Header) -> u8
    ensures { result ≡ flags_of h.now }
{
    worth(h.copy_only, 1)
        + worth(h.bulk, 2)
        + worth(h.begins_chain, 4)
        + worth(h.checksums, 8)
        + worth(h.base.is_some(), 16)
        + worth(h.expiry.is_some(), 32)
}

fn append_base(out: &mut Vec<u8>, base: Option<Base>) -> Result<(), AllocError>
    ensures ok { OnOk result (out.new.items ≡ out.old.items ++ base_bytes (base_or_zero base)) }
    ensures fits { OnOk result (IsBase base) }
{
    match base {
        Some(base) => {
            append_guid(out, base.set)?;
            append_u64(out, base.lsn)
        }
        None => {
            append_guid(out, Guid { high: 0, low: 0 })?;
            append_u64(out, 0)
        }
    }
}

fn append_what(out: &mut Vec<u8>, h: &Header) -> Result<(), AllocError>
    ensures { OnOk result (out.new.items ≡ out.old.items ++ what_bytes h.now) }
{
    append_u16(out, h.version)?;
    append_u8(out, kind(h.kind))?;
    append_model(out, h.model)?;
    append_u8(out, flags(h))
}

fn append_ids(out: &mut Vec<u8>, set: Guid, family: Guid) -> Result<(), AllocError>
    ensures ok { OnOk result (out.new.items ≡ out.old.items ++ (guid_bytes set ++ guid_bytes family)) }
    ensures fits { OnOk result (IsGuid set × IsGuid family) }
{
    append_guid(out, set)?;
    append_guid(out, family)
}

fn append_range(out: &mut Vec<u8>, h: &Header) -> Result<(), AllocError>
    ensures ok { OnOk result (out.new.items ≡ out.old.items ++ range_bytes h.now) }
    ensures first { OnOk result (h.now.first < 2 ^ 64) }
    ensures checkpoint { OnOk result (h.now.checkpoint < 2 ^ 64) }
    ensures last { OnOk result (h.now.last < 2 ^ 64) }
    ensures database_backup { OnOk result (h.now.database_backup < 2 ^ 64) }
{
    append_u64(out, h.first)?;
    append_u64(out, h.checkpoint)?;
    append_u64(out, h.last)?;
    append_u64(out, h.database_backup)
}

fn append_times(out: &mut Vec<u8>, h: &Header) -> Result<(), AllocError>
    ensures { OnOk result (out.new.items ≡ out.old.items ++ times_bytes h.now) }
{
    append_u64(out, h.start)?;
    append_u64(out, h.finish)?;
    append_u64(out, h.expiry.unwrap_or(0))
}

fn append_fixed(out: &mut Vec<u8>, h: &Header) -> Result<(), AllocError>
    ensures ok { OnOk result (out.new.items ≡ out.old.items ++ fixed_bytes h.now) }
    ensures fits { OnOk result (HasRanges h.now) }
{
    append_what(out, h)?;
    append_ids(out, h.set, h.family)?;
    append_range(out, h)?;
    append_base(out, h.base)?;
    append_times(out, h)
}

fn append_branch(out: &mut Vec<u8>, branch: Branch) -> Result<(), AllocError>
    ensures ok { OnOk result (out.new.items ≡ out.old.items ++ branch_bytes branch) }
    ensures fits { OnOk result (IsGuid branch.guid) }
{
    append_guid(out, branch.guid)?;
    append_u64(out, branch.start)
}

fn append_path(out: &mut Vec<u8>, path: &[Branch]) -> Result<(), AllocError>
    requires { length path.now ≤ 64 }
    ensures ok { OnOk result (out.new.items ≡ out.old.items ++ (bytes_of 2 (length path.now) ++ flat_map branch_bytes path.now)) }
    ensures fits { OnOk result (AllByRecursion (λ b. IsGuid b.guid) path.now) }
{
    append_u16(out, path.len() as u16)?;
    for branch in path {
        append_branch(out, *branch)?;
    }
    Ok(())
}

fn append_groups(out: &mut Vec<u8>, groups: &[Name]) -> Result<(), AllocError>
    requires { length groups.now ≤ 8 }
    ensures ok { OnOk result (out.new.items ≡ out.old.items ++ (bytes_of 1 (length groups.now) ++ flat_map text_bytes groups.now)) }
    ensures fits { OnOk result (AllByRecursion (IsString 1 64) groups.now) }
{
    append_u8(out, groups.len() as u8)?;
    for group in groups {
        append_name(out, group)?;
    }
    Ok(())
}

fn append_file(out: &mut Vec<u8>, file: &HeaderFile) -> Result<(), AllocError>
    requires { HasPath file.now }
    ensures ok { OnOk result (out.new.items ≡ out.old.items ++ file_bytes file.now) }
    ensures fits { OnOk result (HasFileRanges file.now) }
{
    append_u16(out, file.spec.number)?;
    append_u8(out, file.spec.group)?;
    append_u32(out, file.spec.extents)?;
    append_u8(out, worth(file.in_set, 1))?;
    append_name(out, &file.spec.name)?;
    append_string(out, &file.spec.path, 1, 100)
}

fn append_files(out: &mut Vec<u8>, files: &[HeaderFile]) -> Result<(), AllocError>
    requires few { length files.now ≤ 16 }
    requires paths { All HasPath files.now }
    ensures ok { OnOk result (out.new.items ≡ out.old.items ++ (bytes_of 2 (length files.now) ++ flat_map file_bytes files.now)) }
    ensures fits { OnOk result (AllByRecursion HasFileRanges files.now) }
{
    append_u16(out, files.len() as u16)?;
    for file in files {
        append_file(out, file)?;
    }
    Ok(())
}

fn append_lists(out: &mut Vec<u8>, h: &Header) -> Result<(), AllocError>
    requires { KeepsConditions h.now }
    ensures ok { OnOk result (out.new.items ≡ out.old.items ++ lists_bytes h.now) }
    ensures fits { OnOk result (HasListRanges h.now) }
{
    append_name(out, &h.database)?;
    append_string(out, &h.name, 0, 65535)?;
    append_path(out, h.path.as_slice())?;
    append_groups(out, h.groups.as_slice())?;
    append_files(out, h.files.as_slice())?;
    append_name(out, &h.log_name)?;
    append_string(out, &h.log_path, 1, 100)
}

/// Appends the spelling of a header. Where there is no memory, `out` stays as it was.
#[tactic(auto, unfolding(crate::specs::Spelling::spelling))]
pub fn encode(alloc: Global, h: &Header, out: &mut Vec<u8>) -> Result<(), AllocError>
    requires { KeepsConditions h.now }
    ensures ok { OnOk result (out.new.items ≡ out.old.items ++ spelling h.now) }
    ensures fits { OnOk result (IsHeader h.now) }
    ensures err { OnErr result (out.new.items ≡ out.old.items) }
{
    let mut bytes = Vec::new(alloc);
    append_fixed(&mut bytes, h)?;
    append_lists(&mut bytes, h)?;
    out.extend_from_slice(&bytes)
}
