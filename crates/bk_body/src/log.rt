//! The log of a set.

ghost use Rattle.std.specs.Prelude.{◌≡◌, ◌≤◌, ◌==◌, ◌&&◌, None, List, length, nat_lt, IfOk, OnOk};
ghost use Rattle.std.specs.List.{list_all};
ghost use Rattle.bk_ids.specs.declared.record.Rec.{Rec};
ghost use Rattle.bk_record.specs.Extents.{extents_shown};
ghost use Rattle.bk_record.specs.Log.{IsLog};
ghost use Rattle.bk_record.specs.Spelling.{IsBody};
ghost use Rattle.bk_record.specs.View.{body_of};
ghost use Rattle.bk_body.specs.Conditions as conditions;
ghost use Rattle.bk_body.specs.Conditions.{made_by, joined};
ghost use Rattle.bk_body.specs.Reading as reading;

use crate::extents::has_extent;
use crate::tables::{add_table, are_tables, copy_tables};
use bk_ids::{Lsn, Name, NameError};
use bk_record::{BodyRef, Extents, RecRef, Records, cursor};
use bk_world::{Header, HeaderFile, TableSpec};
use std::alloc::{AllocError, Global};

/// 9999-12-31 23:59:59.999, in milliseconds since 1970-01-01 00:00:00 UTC.
const LAST_TIME: u64 = 253_402_300_799_999;

/// No database has more tables.
const MOST_TABLES: usize = 64;

fn have_extents(files: &[HeaderFile], extents: Extents<'_>) -> bool
    ensures { result ≡ list_all (λ e. conditions.has_extent files.now e.file e.extent) (extents_shown extents.entry) }
{
    for extent in extents {
        if !has_extent(files, extent.file, extent.extent) {
            return false;
        }
    }
    true
}

// Whether what a record tells of lies in the files and the filegroups of the header, and not after the last time.
fn keeps_deed(header: &Header, deed: BodyRef<'_>) -> bool
    ensures { result ≡ reading.keeps_deed header.now (body_of deed.entry) }
{
    let files = header.files.as_slice();
    match deed {
        BodyRef::Database { time, .. }
        | BodyRef::Commit { time, .. }
        | BodyRef::Checkpoint { time }
        | BodyRef::Stamp { time, .. }
        | BodyRef::Model { time, .. } => time <= LAST_TIME,
        BodyRef::Table { time, group, .. } => {
            time <= LAST_TIME && usize::from(group) < header.groups.as_slice().len()
        }
        BodyRef::Write { place, .. } | BodyRef::Compensation { place, .. } => {
            has_extent(files, place.file, place.page / 8)
        }
        BodyRef::Bulk { extents, .. } => have_extents(files, extents),
        BodyRef::Begin | BodyRef::RollbackEnd | BodyRef::Recovery { .. } => true,
    }
}

fn spec_of(alloc: Global, number: u32, name: &str, group: u8) -> Result<TableSpec, AllocError>
    requires some { 1 ≤ length name.now }
    requires short { length name.now ≤ 64 }
    ensures { IfOk result (λ table. table ≡ record { number = number; name = name.now; group = group }) }
{
    match Name::new(alloc, name) {
        Ok(name) => Ok(TableSpec {
            number,
            name,
            group,
        }),
        Err(NameError::NoMemory) => Err(AllocError),
        Err(NameError::TooLong { .. }) => unreachable!(),
    }
}

// Takes in the table that a record makes, if it makes one.
fn take_in(alloc: Global, tables: &mut Vec<TableSpec>, deed: BodyRef<'_>) -> Result<(), AllocError>
    requires { IsBody (body_of deed) }
    ensures { OnOk result (tables.new.items ≡ joined tables.old.items (made_by (body_of deed.entry))) }
{
    let BodyRef::Table {
        number,
        name,
        group,
        ..
    } = deed
    else {
        return Ok(());
    };
    let table = spec_of(alloc, number, name, group)?;
    add_table(tables, table)
}

// Whether a record may be the one of this number in the log of a set with this header.
fn fits_next(header: &Header, next: Lsn, logged: RecRef<'_>) -> bool
    ensures { result ≡ (nat_lt next header.now.last && logged.entry.lsn == next && reading.keeps_deed header.now (body_of logged.entry.body)) }
{
    next < header.last && logged.lsn == next && keeps_deed(header, logged.body)
}

/// Whether whole records are the log of a set with this header and these tables.
pub fn is_log_of(
    alloc: Global,
    header: &Header,
    tables: &[TableSpec],
    log: &Records,
) -> Result<bool, AllocError>
    ensures { IfOk result (λ is. (records : List Rec) → IsLog log.now records None → is ≡ reading.keep_records header.now tables.now records) }
{
    let mut all = copy_tables(alloc, tables)?;
    let mut next = header.first;
    let last = header.last;
    for record in cursor(log.as_slice()) {
        let Ok(record) = record else {
            return Ok(false);
        };
        if !fits_next(header, next, record) {
            return Ok(false);
        }
        if all.len() > MOST_TABLES {
            return Ok(false);
        }
        take_in(alloc, &mut all, record.body)?;
        next += 1;
    }
    if next != last {
        return Ok(false);
    }
    let groups = header.groups.as_slice().len();
    Ok(are_tables(groups, &all))
}
