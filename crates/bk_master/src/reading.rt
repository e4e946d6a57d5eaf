// Reading a record.
ghost use Rattle.bk_bytes.specs.Codec.{Gives, counted, string, times};
ghost use Rattle.bk_fields.specs.Guids.{guid_form};
ghost use Rattle.bk_master.specs.Spelling.{entry_form, own_form, path_form, read_record, record_form, staging_form, unfinished_form};
ghost use Rattle.bk_reading.specs.Reading.{Reads};

use crate::record::{Entry, Own, Record, Unfinished};
use bk_bytes::{split_str, split_u8, split_u16, split_u32, split_u64};
use bk_fields::split_guid;
use bk_ids::{Guid, Sequence, Text};
use bk_reading::Unread;
use std::alloc::Global;

#[tactic(auto, unfolding(crate::specs::Spelling::path_form))]
fn read_path(alloc: Global, bytes: &[u8]) -> Result<(Option<Text>, &[u8]), Unread>
    ensures { Reads (λ x. (x.0, x.1.now)) result (path_form.reading bytes.now) }
{
    let Some((path, rest)) = split_str(bytes, 0, 100) else {
        return Err(Unread::Unspelled);
    };
    if path.is_empty() {
        return Ok((None, rest));
    }
    let path = Text::new(String::from_str(alloc, path)?);
    Ok((Some(path), rest))
}

#[tactic(auto, unfolding(crate::specs::Spelling::staging_form))]
fn split_staging(bytes: &[u8]) -> Option<(Option<Guid>, &[u8])>
    ensures { Gives (λ x. (x.0, x.1.now)) result (staging_form.reading bytes.now) }
{
    let (kind, rest) = split_u8(bytes)?;
    match kind {
        0 => Some((None, rest)),
        1 => {
            let (set, rest) = split_guid(rest)?;
            Some((Some(set), rest))
        }
        _ => None,
    }
}

fn read_set(bytes: &[u8]) -> Result<(Guid, &[u8]), Unread>
    ensures { Reads (λ x. (x.0, x.1.now)) result (guid_form.reading bytes.now) }
{
    split_guid(bytes).ok_or(Unread::Unspelled)
}

fn read_so_many_sets(alloc: Global, count: u16, bytes: &[u8]) -> Result<(Vec<Guid>, &[u8]), Unread>
    ensures { Reads (λ x. (x.0.items, x.1.now)) result ((times guid_form count).reading bytes.now) }
{
    let mut sets = Vec::new(alloc);
    let mut rest = bytes;
    for _ in 0..count {
        let (set, after) = read_set(rest)?;
        sets.push(set)?;
        rest = after;
    }
    Ok((sets, rest))
}

#[tactic(auto, unfolding(bk_bytes::specs::Codec::list_at))]
fn read_copying(alloc: Global, bytes: &[u8]) -> Result<(Sequence<Guid>, &[u8]), Unread>
    ensures { Reads (λ x. (x.0, x.1.now)) result ((counted 2 guid_form).reading bytes.now) }
{
    let Some((count, rest)) = split_u16(bytes) else {
        return Err(Unread::Unspelled);
    };
    let (sets, rest) = read_so_many_sets(alloc, count, rest)?;
    Ok((Sequence::new(sets), rest))
}

#[tactic(auto, unfolding(crate::specs::Spelling::own_form))]
fn read_own(alloc: Global, bytes: &[u8]) -> Result<(Own, &[u8]), Unread>
    ensures { Reads (λ x. (x.0, x.1.now)) result (own_form.reading bytes.now) }
{
    let Some((number, rest)) = split_u64(bytes) else {
        return Err(Unread::Unspelled);
    };
    let Some((counter, rest)) = split_u64(rest) else {
        return Err(Unread::Unspelled);
    };
    let (making, rest) = read_path(alloc, rest)?;
    let Some((staging, rest)) = split_staging(rest) else {
        return Err(Unread::Unspelled);
    };
    let (copying, rest) = read_copying(alloc, rest)?;
    let own = Own {
        number,
        counter,
        making,
        staging,
        copying,
    };
    Ok((own, rest))
}

#[tactic(auto, unfolding(crate::specs::Spelling::entry_form))]
fn read_entry(bytes: &[u8]) -> Result<(Entry, &[u8]), Unread>
    ensures { Reads (λ x. (x.0, x.1.now)) result (entry_form.reading bytes.now) }
{
    let Some((store, rest)) = split_u32(bytes) else {
        return Err(Unread::Unspelled);
    };
    let Some((flag, rest)) = split_u8(rest) else {
        return Err(Unread::Unspelled);
    };
    let is_stored = match flag {
        0 => false,
        1 => true,
        _ => return Err(Unread::Unspelled),
    };
    Ok((Entry { store, is_stored }, rest))
}

fn read_so_many_entries(
    alloc: Global,
    count: u16,
    bytes: &[u8],
) -> Result<(Vec<Entry>, &[u8]), Unread>
    ensures { Reads (λ x. (x.0.items, x.1.now)) result ((times entry_form count).reading bytes.now) }
{
    let mut entries = Vec::new(alloc);
    let mut rest = bytes;
    for _ in 0..count {
        let (entry, after) = read_entry(rest)?;
        entries.push(entry)?;
        rest = after;
    }
    Ok((entries, rest))
}

#[tactic(auto, unfolding(bk_bytes::specs::Codec::list_at))]
fn read_entries(alloc: Global, bytes: &[u8]) -> Result<(Sequence<Entry>, &[u8]), Unread>
    ensures { Reads (λ x. (x.0, x.1.now)) result ((counted 2 entry_form).reading bytes.now) }
{
    let Some((count, rest)) = split_u16(bytes) else {
        return Err(Unread::Unspelled);
    };
    let (entries, rest) = read_so_many_entries(alloc, count, rest)?;
    Ok((Sequence::new(entries), rest))
}

// A path of 1 to 100 bytes.
fn read_text(alloc: Global, bytes: &[u8]) -> Result<(Text, &[u8]), Unread>
    ensures { Reads (λ x. (x.0, x.1.now)) result ((string 1 100).reading bytes.now) }
{
    let Some((path, rest)) = split_str(bytes, 1, 100) else {
        return Err(Unread::Unspelled);
    };
    let path = Text::new(String::from_str(alloc, path)?);
    Ok((path, rest))
}

fn read_so_many_paths(alloc: Global, count: u16, bytes: &[u8]) -> Result<(Vec<Text>, &[u8]), Unread>
    ensures { Reads (λ x. (x.0.items, x.1.now)) result ((times (string 1 100) count).reading bytes.now) }
{
    let mut paths = Vec::new(alloc);
    let mut rest = bytes;
    for _ in 0..count {
        let (path, after) = read_text(alloc, rest)?;
        paths.push(path)?;
        rest = after;
    }
    Ok((paths, rest))
}

#[tactic(auto, unfolding(bk_bytes::specs::Codec::list_at))]
fn read_paths(alloc: Global, bytes: &[u8]) -> Result<(Sequence<Text>, &[u8]), Unread>
    ensures { Reads (λ x. (x.0, x.1.now)) result ((counted 2 (string 1 100)).reading bytes.now) }
{
    let Some((count, rest)) = split_u16(bytes) else {
        return Err(Unread::Unspelled);
    };
    let (paths, rest) = read_so_many_paths(alloc, count, rest)?;
    Ok((Sequence::new(paths), rest))
}

#[tactic(auto, unfolding(crate::specs::Spelling::unfinished_form))]
fn read_unfinished(alloc: Global, bytes: &[u8]) -> Result<(Unfinished, &[u8]), Unread>
    ensures { Reads (λ x. (x.0, x.1.now)) result (unfinished_form.reading bytes.now) }
{
    let Some((store, rest)) = split_u32(bytes) else {
        return Err(Unread::Unspelled);
    };
    let (paths, rest) = read_paths(alloc, rest)?;
    Ok((Unfinished { store, paths }, rest))
}

fn read_so_many_unfinished(
    alloc: Global,
    count: u16,
    bytes: &[u8],
) -> Result<(Vec<Unfinished>, &[u8]), Unread>
    ensures { Reads (λ x. (x.0.items, x.1.now)) result ((times unfinished_form count).reading bytes.now) }
{
    let mut stores = Vec::new(alloc);
    let mut rest = bytes;
    for _ in 0..count {
        let (store, after) = read_unfinished(alloc, rest)?;
        stores.push(store)?;
        rest = after;
    }
    Ok((stores, rest))
}

#[tactic(auto, unfolding(bk_bytes::specs::Codec::list_at))]
fn read_all_unfinished(alloc: Global, bytes: &[u8]) -> Result<(Sequence<Unfinished>, &[u8]), Unread>
    ensures { Reads (λ x. (x.0, x.1.now)) result ((counted 2 unfinished_form).reading bytes.now) }
{
    let Some((count, rest)) = split_u16(bytes) else {
        return Err(Unread::Unspelled);
    };
    let (stores, rest) = read_so_many_unfinished(alloc, count, rest)?;
    Ok((Sequence::new(stores), rest))
}

#[tactic(auto, unfolding(crate::specs::Spelling::record_form))]
fn read_front(alloc: Global, bytes: &[u8]) -> Result<(Record, &[u8]), Unread>
    ensures { Reads (λ x. (x.0, x.1.now)) result (record_form.reading bytes.now) }
{
    let (own, rest) = read_own(alloc, bytes)?;
    let Some((next, rest)) = split_u32(rest) else {
        return Err(Unread::Unspelled);
    };
    let (databases, rest) = read_entries(alloc, rest)?;
    let (unfinished, rest) = read_all_unfinished(alloc, rest)?;
    let record = Record {
        own,
        next,
        databases,
        unfinished,
    };
    Ok((record, rest))
}

/// The record that all of these bytes spell.
#[tactic(auto, unfolding(crate::specs::Spelling::read_record))]
pub fn read_record(alloc: Global, bytes: &[u8]) -> Result<Record, Unread>
    ensures { Reads (λ r. r) result (read_record bytes.now) }
{
    let (record, rest) = read_front(alloc, bytes)?;
    if !rest.is_empty() {
        return Err(Unread::Unspelled);
    }
    Ok(record)
}
