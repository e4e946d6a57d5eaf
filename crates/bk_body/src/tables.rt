//! The tables of a set.

ghost use Rattle.std.specs.Prelude.{◌≡◌, ◌≤◌, ◌<◌, ◌+◌, ◌++◌, length, nat_lt, OnOk, IfOk};
ghost use Rattle.std.specs.List.{flat_map, list_all, list_any, AllByRecursion};
ghost use Rattle.bk_bytes.specs.Codec.{times, counted};
ghost use Rattle.bk_bytes.specs.Field.{bytes_of};
ghost use Rattle.bk_reading.specs.Reading.{Reads};
ghost use Rattle.bk_body.specs.Conditions as conditions;
ghost use Rattle.bk_body.specs.Conditions.{IsTable};
ghost use Rattle.bk_body.specs.Reading.{table_form, differ, are_different, keep_tables};
ghost use Rattle.bk_body.specs.Spelling.{table_bytes};

use bk_bytes::{append_text, append_u8, append_u16, append_u32, split_u8, split_u16, split_u32};
use bk_fields::read_name;
use bk_ids::{Name, Sequence};
use bk_reading::Unread;
use bk_world::TableSpec;
use std::alloc::{AllocError, Global};

// ---- writing

fn append_table(out: &mut Vec<u8>, table: &TableSpec) -> Result<(), AllocError>
    ensures ok { OnOk result (out.new.items ≡ out.old.items ++ table_bytes table.now) }
    ensures fits { OnOk result (IsTable table.now) }
{
    append_u32(out, table.number)?;
    let name = table.name.as_str();
    append_text(out, name.as_bytes())?;
    append_u8(out, table.group)
}

/// Appends the tables behind their number.
pub fn append_tables(out: &mut Vec<u8>, tables: &[TableSpec]) -> Result<(), AllocError>
    requires { length tables.now ≤ 64 }
    ensures ok { OnOk result (out.new.items ≡ out.old.items ++ (bytes_of 2 (length tables.now) ++ flat_map table_bytes tables.now)) }
    ensures fits { OnOk result (AllByRecursion IsTable tables.now) }
{
    append_u16(out, tables.len() as u16)?;
    for table in tables {
        append_table(out, table)?;
    }
    Ok(())
}

// ---- reading

#[tactic(auto, unfolding(crate::specs::Reading::table_form))]
fn read_table(alloc: Global, bytes: &[u8]) -> Result<(TableSpec, &[u8]), Unread>
    ensures { Reads (λ x. (x.0, x.1.now)) result (table_form.reading bytes.now) }
{
    let Some((number, rest)) = split_u32(bytes) else {
        return Err(Unread::Unspelled);
    };
    let Some((name, rest)) = read_name(alloc, rest)? else {
        return Err(Unread::Unspelled);
    };
    let Some((group, rest)) = split_u8(rest) else {
        return Err(Unread::Unspelled);
    };
    let table = TableSpec {
        number,
        name,
        group,
    };
    Ok((table, rest))
}

fn read_so_many(alloc: Global, count: u16, bytes: &[u8]) -> Result<(Vec<TableSpec>, &[u8]), Unread>
    ensures { Reads (λ x. (x.0.items, x.1.now)) result ((times table_form count).reading bytes.now) }
{
    let mut tables = Vec::new(alloc);
    let mut rest = bytes;
    for _ in 0..count {
        let (table, after) = read_table(alloc, rest)?;
        tables.push(table)?;
        rest = after;
    }
    Ok((tables, rest))
}

/// The tables behind their number, and what follows them.
#[tactic(auto, unfolding(bk_bytes::specs::Codec::list_at))]
pub fn read_tables(alloc: Global, bytes: &[u8]) -> Result<(Sequence<TableSpec>, &[u8]), Unread>
    ensures { Reads (λ x. (x.0, x.1.now)) result ((counted 2 table_form).reading bytes.now) }
{
    let Some((count, rest)) = split_u16(bytes) else {
        return Err(Unread::Unspelled);
    };
    let (tables, rest) = read_so_many(alloc, count, rest)?;
    Ok((Sequence::new(tables), rest))
}

// ---- the conditions

fn differs(table: &TableSpec, other: &TableSpec) -> bool
    ensures { result ≡ differ table.now other.now }
{
    table.number != other.number && !table.name.same(&other.name)
}

fn differs_from_all(table: &TableSpec, others: &[TableSpec]) -> bool
    ensures { result ≡ list_all (differ table.now) others.now }
{
    others.iter().all(|other| differs(table, other))
}

fn all_differ(tables: &[TableSpec]) -> bool
    ensures { result ≡ are_different tables.now }
{
    for (i, table) in tables.iter().enumerate() {
        if !differs_from_all(table, &tables[i + 1..]) {
            return false;
        }
    }
    true
}

fn have_groups(tables: &[TableSpec], groups: usize) -> bool
    ensures { result ≡ list_all (λ table. nat_lt table.group groups) tables.now }
{
    tables.iter().all(|table| usize::from(table.group) < groups)
}

/// Whether there are at most 64 tables, which differ, each in one of so many filegroups.
pub fn are_tables(groups: usize, tables: &[TableSpec]) -> bool
    ensures { result ≡ keep_tables groups tables.now }
{
    tables.len() <= 64 && have_groups(tables, groups) && all_differ(tables)
}

// ---- tables of a log

fn is_same_table(table: &TableSpec, other: &TableSpec) -> bool
    ensures { result ≡ conditions.same_table table.now other.now }
{
    table.number == other.number
        && table.name.as_str().as_bytes() == other.name.as_str().as_bytes()
        && table.group == other.group
}

fn is_among(tables: &[TableSpec], table: &TableSpec) -> bool
    ensures { result ≡ list_any (conditions.same_table table.now) tables.now }
{
    tables.iter().any(|other| is_same_table(table, other))
}

/// Adds a table behind others, where it isn't among them.
pub fn add_table(tables: &mut Vec<TableSpec>, table: TableSpec) -> Result<(), AllocError>
    ensures { OnOk result (tables.new.items ≡ conditions.with_table tables.old.items table) }
{
    if is_among(tables, &table) {
        drop(table);
        return Ok(());
    }
    tables.push(table)?;
    Ok(())
}

fn copy_table(alloc: Global, table: &TableSpec) -> Result<TableSpec, AllocError>
    ensures { IfOk result (λ copy. copy ≡ table.now) }
{
    let name = table.name.copy(alloc)?;
    Ok(TableSpec {
        number: table.number,
        name,
        group: table.group,
    })
}

/// A copy of these tables.
pub fn copy_tables(alloc: Global, tables: &[TableSpec]) -> Result<Vec<TableSpec>, AllocError>
    ensures { IfOk result (λ copy. copy.items ≡ tables.now) }
{
    let mut copies = Vec::new(alloc);
    for table in tables {
        let copy = copy_table(alloc, table)?;
        copies.push(copy)?;
    }
    Ok(copies)
}
