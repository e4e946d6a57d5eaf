// Writing a record.
ghost use Rattle.std.specs.Prelude.{◌≡◌, ◌≤◌, ◌<◌, ◌^◌, ◌+◌, ◌*◌, ◌++◌, Some, length, vec_len, IfOk, OnOk};
ghost use Rattle.std.specs.List.{AllByRecursion, flat_map};
ghost use Rattle.bk_bytes.specs.Codec.{IsString};
ghost use Rattle.bk_bytes.specs.Field.{bytes_of};
ghost use Rattle.bk_fields.specs.Guids.{IsGuid, guid_bytes};
ghost use Rattle.bk_master.specs.Spelling.{HasPath, IsEntry, IsOwnPart, IsShort, IsShortPath, IsSmall, IsStaging, IsUnfinished, KeepsOwn, KeepsRecord, copying_bytes, entry_bytes, own_bytes, path_bytes, paths_bytes, read_record, record_bytes, staging_bytes, text_bytes, unfinished_bytes};

use crate::record::{Entry, Own, Record, Unfinished};
use bk_bytes::{append_text, append_u8, append_u16, append_u32, append_u64};
use bk_fields::append_guid;
use bk_ids::{Guid, Text};
use std::alloc::{AllocError, Global};

fn append_path(out: &mut Vec<u8>, making: &Option<Text>) -> Result<(), AllocError>
    requires { IsShort making.now }
    ensures ok { OnOk result (out.new.items ≡ out.old.items ++ text_bytes (path_bytes making.now)) }
    ensures path { OnOk result (HasPath making.now) }
{
    match making {
        Some(path) => append_text(out, path.as_str().as_bytes()),
        None => append_text(out, &[]),
    }
}

fn append_staging(out: &mut Vec<u8>, staging: Option<Guid>) -> Result<(), AllocError>
    ensures ok { OnOk result (out.new.items ≡ out.old.items ++ staging_bytes staging) }
    ensures fits { OnOk result (IsStaging staging) }
{
    match staging {
        Some(set) => {
            append_u8(out, 1)?;
            append_guid(out, set)
        }
        None => append_u8(out, 0),
    }
}

fn append_set(out: &mut Vec<u8>, set: Guid) -> Result<(), AllocError>
    ensures ok { OnOk result (out.new.items ≡ out.old.items ++ guid_bytes set) }
    ensures fits { OnOk result (IsGuid set) }
{
    append_guid(out, set)
}

fn append_copying(out: &mut Vec<u8>, sets: &[Guid]) -> Result<(), AllocError>
    requires few { length sets.now ≤ 16 }
    ensures ok { OnOk result (out.new.items ≡ out.old.items ++ copying_bytes sets.now) }
    ensures fits { OnOk result (AllByRecursion IsGuid sets.now) }
{
    append_u16(out, sets.len() as u16)?;
    for set in sets {
        append_set(out, *set)?;
    }
    Ok(())
}

fn append_own(out: &mut Vec<u8>, own: &Own) -> Result<(), AllocError>
    requires { KeepsOwn own.now }
    ensures ok { OnOk result (out.new.items ≡ out.old.items ++ own_bytes own.now) }
    ensures fits { OnOk result (IsOwnPart own.now) }
{
    append_u64(out, own.number)?;
    append_u64(out, own.counter)?;
    append_path(out, &own.making)?;
    append_staging(out, own.staging)?;
    append_copying(out, own.copying.as_slice())
}

fn append_entry(out: &mut Vec<u8>, entry: &Entry) -> Result<(), AllocError>
    ensures ok { OnOk result (out.new.items ≡ out.old.items ++ entry_bytes entry.now) }
    ensures fits { OnOk result (IsEntry entry.now) }
{
    append_u32(out, entry.store)?;
    append_u8(out, u8::from(entry.is_stored))
}

fn append_entries(out: &mut Vec<u8>, entries: &[Entry]) -> Result<(), AllocError>
    requires few { length entries.now ≤ 16 }
    ensures ok { OnOk result (out.new.items ≡ out.old.items ++ (bytes_of 2 (length entries.now) ++ flat_map entry_bytes entries.now)) }
    ensures fits { OnOk result (AllByRecursion IsEntry entries.now) }
{
    append_u16(out, entries.len() as u16)?;
    for entry in entries {
        append_entry(out, entry)?;
    }
    Ok(())
}

fn append_short(out: &mut Vec<u8>, path: &Text) -> Result<(), AllocError>
    requires { IsShortPath path.now }
    ensures ok { OnOk result (out.new.items ≡ out.old.items ++ text_bytes path.now) }
    ensures fits { OnOk result (IsString 1 100 path.now) }
{
    append_text(out, path.as_str().as_bytes())
}

fn append_paths(out: &mut Vec<u8>, paths: &[Text]) -> Result<(), AllocError>
    requires few { length paths.now ≤ 16 }
    requires short { AllByRecursion IsShortPath paths.now }
    ensures ok { OnOk result (out.new.items ≡ out.old.items ++ paths_bytes paths.now) }
    ensures fits { OnOk result (AllByRecursion (IsString 1 100) paths.now) }
{
    append_u16(out, paths.len() as u16)?;
    for path in paths {
        append_short(out, path)?;
    }
    Ok(())
}

fn append_unfinished(out: &mut Vec<u8>, store: &Unfinished) -> Result<(), AllocError>
    requires { IsSmall store.now }
    ensures ok { OnOk result (out.new.items ≡ out.old.items ++ unfinished_bytes store.now) }
    ensures fits { OnOk result (IsUnfinished store.now) }
{
    append_u32(out, store.store)?;
    append_paths(out, store.paths.as_slice())
}

fn append_all_unfinished(out: &mut Vec<u8>, stores: &[Unfinished]) -> Result<(), AllocError>
    requires few { length stores.now ≤ 2 }
    requires small { AllByRecursion IsSmall stores.now }
    ensures ok { OnOk result (out.new.items ≡ out.old.items ++ (bytes_of 2 (length stores.now) ++ flat_map unfinished_bytes stores.now)) }
    ensures fits { OnOk result (AllByRecursion IsUnfinished stores.now) }
{
    append_u16(out, stores.len() as u16)?;
    for store in stores {
        append_unfinished(out, store)?;
    }
    Ok(())
}

/// The bytes of a record.
#[tactic(auto, unfolding(crate::specs::Spelling::record_bytes))]
pub fn spell_record(alloc: Global, kept: &Record) -> Result<Vec<u8>, AllocError>
    requires { KeepsRecord kept.now }
    ensures read { IfOk result (λ bytes. read_record bytes.items ≡ Some kept.now) }
    ensures short { IfOk result (λ bytes. vec_len bytes ≤ 65536) }
{
    let mut bytes = Vec::new(alloc);
    append_own(&mut bytes, &kept.own)?;
    append_u32(&mut bytes, kept.next)?;
    append_entries(&mut bytes, kept.databases.as_slice())?;
    append_all_unfinished(&mut bytes, kept.unfinished.as_slice())?;
    Ok(bytes)
}
