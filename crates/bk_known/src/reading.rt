//! Reading what is kept of a database in a note.

ghost use Rattle.bk_bytes.specs.Codec.{Gives, counted, times};
ghost use Rattle.bk_header.specs.Reading.{branch_form};
ghost use Rattle.bk_known.specs.Known.{as_of_form, database_form, known_form, table_form};
ghost use Rattle.bk_reading.specs.Reading.{Reads};

use crate::known::{AsOf, DatabaseSpec, Known};
use bk_bytes::{split_u8, split_u16, split_u32, split_u64};
use bk_fields::{split_guid, split_model};
use bk_ids::{Branch, Path, Sequence};
use bk_reading::Unread;
use bk_storage::{read_name, read_storage};
use bk_world::TableSpec;
use std::alloc::Global;

#[tactic(auto, unfolding(bk_header::specs::Reading::branch_form))]
fn split_branch(bytes: &[u8]) -> Option<(Branch, &[u8])>
    ensures { Gives (λ x. (x.0, x.1.now)) result (branch_form.reading bytes.now) }
{
    let (guid, rest) = split_guid(bytes)?;
    let (start, rest) = split_u64(rest)?;
    Some((Branch { guid, start }, rest))
}

fn read_branches(alloc: Global, count: u16, bytes: &[u8]) -> Result<(Vec<Branch>, &[u8]), Unread>
    ensures { Reads (λ x. (x.0.items, x.1.now)) result ((times branch_form count).reading bytes.now) }
{
    let mut branches = Vec::new(alloc);
    let mut rest = bytes;
    for _ in 0..count {
        let Some((branch, after)) = split_branch(rest) else {
            return Err(Unread::Unspelled);
        };
        branches.push(branch)?;
        rest = after;
    }
    Ok((branches, rest))
}

#[tactic(auto, unfolding(bk_bytes::specs::Codec::list_at))]
fn read_path(alloc: Global, bytes: &[u8]) -> Result<(Path, &[u8]), Unread>
    ensures { Reads (λ x. (x.0, x.1.now)) result ((counted 2 branch_form).reading bytes.now) }
{
    let Some((count, rest)) = split_u16(bytes) else {
        return Err(Unread::Unspelled);
    };
    let (branches, rest) = read_branches(alloc, count, rest)?;
    Ok((Path::new(branches), rest))
}

#[tactic(auto, unfolding(crate::specs::Known::table_form))]
fn read_table(alloc: Global, bytes: &[u8]) -> Result<(TableSpec, &[u8]), Unread>
    ensures { Reads (λ x. (x.0, x.1.now)) result (table_form.reading bytes.now) }
{
    let Some((number, rest)) = split_u32(bytes) else {
        return Err(Unread::Unspelled);
    };
    let (name, rest) = read_name(alloc, rest)?;
    let Some((group, rest)) = split_u8(rest) else {
        return Err(Unread::Unspelled);
    };
    let table = TableSpec {
        number,
        name,
        group,
    };
    Ok((table, rest))
}

fn read_so_many(alloc: Global, count: u16, bytes: &[u8]) -> Result<(Vec<TableSpec>, &[u8]), Unread>
    ensures { Reads (λ x. (x.0.items, x.1.now)) result ((times table_form count).reading bytes.now) }
{
    let mut tables = Vec::new(alloc);
    let mut rest = bytes;
    for _ in 0..count {
        let (table, after) = read_table(alloc, rest)?;
        tables.push(table)?;
        rest = after;
    }
    Ok((tables, rest))
}

#[tactic(auto, unfolding(bk_bytes::specs::Codec::list_at))]
fn read_tables(alloc: Global, bytes: &[u8]) -> Result<(Sequence<TableSpec>, &[u8]), Unread>
    ensures { Reads (λ x. (x.0, x.1.now)) result ((counted 2 table_form).reading bytes.now) }
{
    let Some((count, rest)) = split_u16(bytes) else {
        return Err(Unread::Unspelled);
    };
    let (tables, rest) = read_so_many(alloc, count, rest)?;
    Ok((Sequence::new(tables), rest))
}

#[tactic(auto, unfolding(crate::specs::Known::database_form))]
fn read_database(alloc: Global, bytes: &[u8]) -> Result<(DatabaseSpec, &[u8]), Unread>
    ensures { Reads (λ x. (x.0, x.1.now)) result (database_form.reading bytes.now) }
{
    let (name, rest) = read_name(alloc, bytes)?;
    let Some((family, rest)) = split_guid(rest) else {
        return Err(Unread::Unspelled);
    };
    let (path, rest) = read_path(alloc, rest)?;
    let (storage, rest) = read_storage(alloc, rest)?;
    let spec = DatabaseSpec {
        name,
        family,
        path,
        storage,
    };
    Ok((spec, rest))
}

#[tactic(auto, unfolding(crate::specs::Known::as_of_form))]
fn read_as_of(alloc: Global, bytes: &[u8]) -> Result<(AsOf, &[u8]), Unread>
    ensures { Reads (λ x. (x.0, x.1.now)) result (as_of_form.reading bytes.now) }
{
    let Some((from, rest)) = split_u64(bytes) else {
        return Err(Unread::Unspelled);
    };
    let (tables, rest) = read_tables(alloc, rest)?;
    let Some((model, rest)) = split_model(rest) else {
        return Err(Unread::Unspelled);
    };
    let Some((time, rest)) = split_u64(rest) else {
        return Err(Unread::Unspelled);
    };
    let as_of = AsOf {
        from,
        tables,
        model,
        time,
    };
    Ok((as_of, rest))
}

/// What is kept of a database at the front of a note, and the note of the layer above behind it. `Unspelled` is answered exactly where nothing of the kind is spelled there.
#[tactic(auto, unfolding(crate::specs::Known::known_form))]
pub fn read_known(alloc: Global, bytes: &[u8]) -> Result<(Known, &[u8]), Unread>
    ensures { Reads (λ x. (x.0, x.1.now)) result (known_form.reading bytes.now) }
{
    let (spec, rest) = read_database(alloc, bytes)?;
    let (as_of, rest) = read_as_of(alloc, rest)?;
    Ok((Known { spec, as_of }, rest))
}
