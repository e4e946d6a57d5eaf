//! Writing a row.

ghost use Rattle.std.specs.Prelude.{◌≡◌, ◌≤◌, ◌<◌, ◌^◌, ◌++◌, Some, length, IfOk, OnOk};
ghost use Rattle.bk_bytes.specs.Codec.{IsString};
ghost use Rattle.bk_bytes.specs.Field.{bytes_of};
ghost use Rattle.bk_fields.specs.Guids.{IsGuid, guid_bytes};
ghost use Rattle.bk_header.specs.Conditions.{KeepsConditions};
ghost use Rattle.bk_header.specs.Spelling.{kind_number, text_bytes};
ghost use Rattle.bk_msdb.specs.Spelling.{IsBackup, IsDescription, IsMark, IsRestore, IsRow, IsShortStop, IsStop, KeepsRow, backup_bytes, description_bytes, flag, kind_worth, mark_bytes, read_row, restore_bytes, row_bytes, stop_bytes};

use bk_bytes::{append_text, append_u8, append_u32, append_u64};
use bk_fields::append_guid;
use bk_header::encode;
use bk_ids::{Description, Guid, Name, Text};
use bk_machine::HistoryRow;
use bk_world::{BackupRow, MarkRow, RestoreKind, RestoreRow, SetKind};
use std::alloc::{AllocError, Global};

fn append_name(out: &mut Vec<u8>, name: &Name) -> Result<(), AllocError>
    ensures ok { OnOk result (out.new.items ≡ out.old.items ++ text_bytes name.now) }
    ensures fits { OnOk result (IsString 1 64 name.now) }
{
    let text = name.as_str();
    append_text(out, text.as_bytes())
}

fn append_backup(alloc: Global, out: &mut Vec<u8>, row: &BackupRow) -> Result<(), AllocError>
    requires { KeepsConditions row.now.header }
    ensures ok { OnOk result (out.new.items ≡ out.old.items ++ backup_bytes row.now) }
    ensures fits { OnOk result (IsBackup row.now) }
{
    append_u32(out, row.position)?;
    encode(alloc, &row.header, out)
}

fn set_number(kind: SetKind) -> u8
    ensures { result ≡ kind_number kind }
{
    match kind {
        SetKind::Full => 1,
        SetKind::Log => 2,
        SetKind::File => 4,
        SetKind::Differential => 5,
    }
}

fn kind_number(kind: RestoreKind) -> u8
    ensures { result ≡ kind_worth kind }
{
    match kind {
        RestoreKind::Set(kind) => set_number(kind),
        RestoreKind::Files => 6,
        RestoreKind::Pages => 7,
    }
}

fn append_stop(out: &mut Vec<u8>, stop: &Option<Text>) -> Result<(), AllocError>
    requires { IsShortStop stop.now }
    ensures ok { OnOk result (out.new.items ≡ out.old.items ++ stop_bytes stop.now) }
    ensures fits { OnOk result (IsStop stop.now) }
{
    match stop {
        Some(stop) => {
            append_u8(out, 1)?;
            let text = stop.as_str();
            append_text(out, text.as_bytes())
        }
        None => append_u8(out, 0),
    }
}

// Whether REPLACE was given and RECOVERY asked for, and the stop.
fn append_ending(out: &mut Vec<u8>, row: &RestoreRow) -> Result<(), AllocError>
    requires { IsShortStop row.now.stop }
    ensures ok { OnOk result (out.new.items ≡ out.old.items ++ (bytes_of 1 (flag row.now.replace) ++ (bytes_of 1 (flag row.now.recovery) ++ stop_bytes row.now.stop))) }
    ensures fits { OnOk result (IsStop row.now.stop) }
{
    append_u8(out, u8::from(row.replace))?;
    append_u8(out, u8::from(row.recovery))?;
    append_stop(out, &row.stop)
}

fn append_set(out: &mut Vec<u8>, set: Guid) -> Result<(), AllocError>
    ensures ok { OnOk result (out.new.items ≡ out.old.items ++ guid_bytes set) }
    ensures fits { OnOk result (IsGuid set) }
{
    append_guid(out, set)
}

fn append_restore(out: &mut Vec<u8>, row: &RestoreRow) -> Result<(), AllocError>
    requires { IsShortStop row.now.stop }
    ensures ok { OnOk result (out.new.items ≡ out.old.items ++ restore_bytes row.now) }
    ensures fits { OnOk result (IsRestore row.now) }
{
    append_u64(out, row.time)?;
    append_name(out, &row.database)?;
    append_set(out, row.set)?;
    append_u8(out, kind_number(row.kind))?;
    append_ending(out, row)
}

fn append_description(
    out: &mut Vec<u8>,
    description: &Option<Description>,
) -> Result<(), AllocError>
    ensures ok { OnOk result (out.new.items ≡ out.old.items ++ text_bytes (description_bytes description.now)) }
    ensures fits { OnOk result (IsDescription description.now) }
{
    match description {
        Some(description) => {
            let text = description.as_str();
            append_text(out, text.as_bytes())
        }
        None => append_text(out, &[]),
    }
}

fn append_mark(out: &mut Vec<u8>, row: &MarkRow) -> Result<(), AllocError>
    ensures ok { OnOk result (out.new.items ≡ out.old.items ++ mark_bytes row.now) }
    ensures fits { OnOk result (IsMark row.now) }
{
    append_name(out, &row.database)?;
    append_name(out, &row.mark.name)?;
    append_description(out, &row.mark.description)?;
    append_u64(out, row.lsn)?;
    append_u64(out, row.time)
}

#[tactic(auto, unfolding(crate::specs::Spelling::row_bytes))]
fn append_row(alloc: Global, out: &mut Vec<u8>, row: &HistoryRow) -> Result<(), AllocError>
    requires { KeepsRow row.now }
    ensures ok { OnOk result (out.new.items ≡ out.old.items ++ row_bytes row.now) }
    ensures fits { OnOk result (IsRow row.now) }
{
    match row {
        HistoryRow::Backup(row) => {
            append_u8(out, 1)?;
            append_backup(alloc, out, row)
        }
        HistoryRow::Restore(row) => {
            append_u8(out, 2)?;
            append_restore(out, row)
        }
        HistoryRow::Mark(row) => {
            append_u8(out, 3)?;
            append_mark(out, row)
        }
    }
}

/// The bytes of a row.
pub fn spell_row(alloc: Global, row: &HistoryRow) -> Result<Vec<u8>, AllocError>
    requires { KeepsRow row.now }
    ensures { IfOk result (λ bytes. read_row bytes.items ≡ Some row.now) }
{
    let mut bytes = Vec::new(alloc);
    append_row(alloc, &mut bytes, row)?;
    Ok(bytes)
}
