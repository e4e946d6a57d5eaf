//! Reading a row.

ghost use Rattle.std.specs.Prelude.{◌≡◌};
ghost use Rattle.bk_bytes.specs.Codec.{Gives, string};
ghost use Rattle.bk_header.specs.Reading.{header_form};
ghost use Rattle.bk_msdb.specs.Spelling.{backup_form, description_form, flag_form, kind_form, mark_form, read_row, restore_form, row_form, stop_form};
ghost use Rattle.bk_reading.specs.Reading.{Reads};

use bk_bytes::{split_str, split_u8, split_u32, split_u64};
use bk_fields::split_guid;
use bk_header::decode;
use bk_ids::{Description, Mark, Name, Text};
use bk_machine::HistoryRow;
use bk_reading::Unread;
use bk_world::{BackupRow, Header, MarkRow, RestoreKind, RestoreRow, SetKind};
use std::alloc::Global;

fn read_header(alloc: Global, bytes: &[u8]) -> Result<(Header, &[u8]), Unread>
    ensures { Reads (λ x. (x.0, x.1.now)) result (header_form.reading bytes.now) }
{
    match decode(alloc, bytes)? {
        Some((header, size)) => Ok((header, &bytes[size..])),
        None => Err(Unread::Unspelled),
    }
}

#[tactic(auto, unfolding(crate::specs::Spelling::backup_form))]
fn read_backup(alloc: Global, bytes: &[u8]) -> Result<(BackupRow, &[u8]), Unread>
    ensures { Reads (λ x. (x.0, x.1.now)) result (backup_form.reading bytes.now) }
{
    let Some((position, rest)) = split_u32(bytes) else {
        return Err(Unread::Unspelled);
    };
    let (header, rest) = read_header(alloc, rest)?;
    Ok((BackupRow { position, header }, rest))
}

fn read_name(alloc: Global, bytes: &[u8]) -> Result<(Name, &[u8]), Unread>
    ensures { Reads (λ x. (x.0, x.1.now)) result ((string 1 64).reading bytes.now) }
{
    match bk_fields::read_name(alloc, bytes)? {
        Some(read) => Ok(read),
        None => Err(Unread::Unspelled),
    }
}

#[tactic(auto, unfolding(crate::specs::Spelling::kind_form))]
fn split_kind(bytes: &[u8]) -> Option<(RestoreKind, &[u8])>
    ensures { Gives (λ x. (x.0, x.1.now)) result (kind_form.reading bytes.now) }
{
    let (kind, rest) = split_u8(bytes)?;
    match kind {
        1 => Some((RestoreKind::Set(SetKind::Full), rest)),
        2 => Some((RestoreKind::Set(SetKind::Log), rest)),
        4 => Some((RestoreKind::Set(SetKind::File), rest)),
        5 => Some((RestoreKind::Set(SetKind::Differential), rest)),
        6 => Some((RestoreKind::Files, rest)),
        7 => Some((RestoreKind::Pages, rest)),
        _ => None,
    }
}

#[tactic(auto, unfolding(crate::specs::Spelling::flag_form))]
fn split_flag(bytes: &[u8]) -> Option<(bool, &[u8])>
    ensures { Gives (λ x. (x.0, x.1.now)) result (flag_form.reading bytes.now) }
{
    let (flag, rest) = split_u8(bytes)?;
    match flag {
        0 => Some((false, rest)),
        1 => Some((true, rest)),
        _ => None,
    }
}

fn read_text(alloc: Global, bytes: &[u8]) -> Result<(Text, &[u8]), Unread>
    ensures { Reads (λ x. (x.0, x.1.now)) result ((string 0 65535).reading bytes.now) }
{
    let Some((text, rest)) = split_str(bytes, 0, 65535) else {
        return Err(Unread::Unspelled);
    };
    let text = Text::new(String::from_str(alloc, text)?);
    Ok((text, rest))
}

#[tactic(auto, unfolding(crate::specs::Spelling::stop_form))]
fn read_stop(alloc: Global, bytes: &[u8]) -> Result<(Option<Text>, &[u8]), Unread>
    ensures { Reads (λ x. (x.0, x.1.now)) result (stop_form.reading bytes.now) }
{
    let Some((kind, rest)) = split_u8(bytes) else {
        return Err(Unread::Unspelled);
    };
    match kind {
        0 => Ok((None, rest)),
        1 => {
            let (stop, rest) = read_text(alloc, rest)?;
            Ok((Some(stop), rest))
        }
        _ => Err(Unread::Unspelled),
    }
}

#[tactic(auto, unfolding(crate::specs::Spelling::restore_form))]
fn read_restore(alloc: Global, bytes: &[u8]) -> Result<(RestoreRow, &[u8]), Unread>
    ensures { Reads (λ x. (x.0, x.1.now)) result (restore_form.reading bytes.now) }
{
    let Some((time, rest)) = split_u64(bytes) else {
        return Err(Unread::Unspelled);
    };
    let (database, rest) = read_name(alloc, rest)?;
    let Some((set, rest)) = split_guid(rest) else {
        return Err(Unread::Unspelled);
    };
    let Some((kind, rest)) = split_kind(rest) else {
        return Err(Unread::Unspelled);
    };
    let Some((replace, rest)) = split_flag(rest) else {
        return Err(Unread::Unspelled);
    };
    let Some((recovery, rest)) = split_flag(rest) else {
        return Err(Unread::Unspelled);
    };
    let (stop, rest) = read_stop(alloc, rest)?;
    let row = RestoreRow {
        time,
        database,
        set,
        kind,
        replace,
        recovery,
        stop,
    };
    Ok((row, rest))
}

#[tactic(auto, unfolding(crate::specs::Spelling::description_form))]
fn read_description(alloc: Global, bytes: &[u8]) -> Result<(Option<Description>, &[u8]), Unread>
    ensures { Reads (λ x. (x.0, x.1.now)) result (description_form.reading bytes.now) }
{
    let Some((text, rest)) = split_str(bytes, 0, 65535) else {
        return Err(Unread::Unspelled);
    };
    if text.is_empty() {
        return Ok((None, rest));
    }
    let description = Description::new(alloc, text)?;
    Ok((Some(description), rest))
}

#[tactic(auto, unfolding(crate::specs::Spelling::mark_form))]
fn read_mark(alloc: Global, bytes: &[u8]) -> Result<(MarkRow, &[u8]), Unread>
    ensures { Reads (λ x. (x.0, x.1.now)) result (mark_form.reading bytes.now) }
{
    let (database, rest) = read_name(alloc, bytes)?;
    let (name, rest) = read_name(alloc, rest)?;
    let (description, rest) = read_description(alloc, rest)?;
    let Some((lsn, rest)) = split_u64(rest) else {
        return Err(Unread::Unspelled);
    };
    let Some((time, rest)) = split_u64(rest) else {
        return Err(Unread::Unspelled);
    };
    let mark = Mark { name, description };
    let row = MarkRow {
        database,
        mark,
        lsn,
        time,
    };
    Ok((row, rest))
}

#[tactic(auto, unfolding(crate::specs::Spelling::row_form))]
fn read_front(alloc: Global, bytes: &[u8]) -> Result<(HistoryRow, &[u8]), Unread>
    ensures { Reads (λ x. (x.0, x.1.now)) result (row_form.reading bytes.now) }
{
    let Some((table, rest)) = split_u8(bytes) else {
        return Err(Unread::Unspelled);
    };
    match table {
        1 => {
            let (row, rest) = read_backup(alloc, rest)?;
            Ok((HistoryRow::Backup(row), rest))
        }
        2 => {
            let (row, rest) = read_restore(alloc, rest)?;
            Ok((HistoryRow::Restore(row), rest))
        }
        3 => {
            let (row, rest) = read_mark(alloc, rest)?;
            Ok((HistoryRow::Mark(row), rest))
        }
        _ => Err(Unread::Unspelled),
    }
}

/// The row that all of these bytes spell.
#[tactic(auto, unfolding(crate::specs::Spelling::read_row))]
pub fn read_row(alloc: Global, bytes: &[u8]) -> Result<HistoryRow, Unread>
    ensures { Reads (λ r. r) result (read_row bytes.now) }
{
    let (row, rest) = read_front(alloc, bytes)?;
    if !rest.is_empty() {
        return Err(Unread::Unspelled);
    }
    Ok(row)
}
