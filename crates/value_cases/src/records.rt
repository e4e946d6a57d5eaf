// Log records.
ghost use Rattle.std.specs.Prelude.{IfSome};
ghost use Rattle.bk_record.specs.Spelling.{KeepsLimits};

use bk_bytes::Cell;
use bk_ids::{Body, Rec};
use bk_record::{BodyRef, Extents, PlaceRef, RecRef, cursor, encode};
use std::alloc::{AllocError, Global};

// What a record tells, where that is neither a name nor a text nor cells.
fn plain(body: BodyRef<'_>) -> Option<Body>
    ensures { IfSome result KeepsLimits }
{
    match body {
        BodyRef::Database {
            time,
            family,
            branch,
        } => Some(Body::Database {
            time,
            family,
            branch,
        }),
        BodyRef::Begin => Some(Body::Begin),
        BodyRef::RollbackEnd => Some(Body::RollbackEnd),
        BodyRef::Checkpoint { time } => Some(Body::Checkpoint { time }),
        BodyRef::Stamp { time, set } => Some(Body::Stamp { time, set }),
        BodyRef::Model { time, model } => Some(Body::Model { time, model }),
        BodyRef::Recovery { branch } => Some(Body::Recovery { branch }),
        _ => None,
    }
}

// Appends the spelling of a record that tells neither a name nor a text nor cells.
fn append(alloc: Global, logged: &RecRef<'_>, all: &mut Vec<u8>) -> Result<(), AllocError> {
    let Some(body) = plain(logged.body) else {
        return Ok(());
    };
    let (lsn, begin) = (logged.lsn, logged.begin);
    let own = Rec { lsn, begin, body };
    let done = encode(alloc, &own, all);
    drop(own);
    done
}

// The extents of a bulk load, a line each.
fn show_extents(extents: Extents<'_>, out: &mut String) -> Result<(), AllocError> {
    let count = extents.len();
    writeln!(out, "{count} extents")?;
    for extent in extents {
        writeln!(out, "{extent:?}")?;
    }
    Ok(())
}

fn show_write(
    place: PlaceRef,
    before: &[u8; 128],
    after: &[u8; 128],
    out: &mut String,
) -> Result<(), AllocError> {
    let (before, after) = (Cell::read(before), Cell::read(after));
    writeln!(out, "Write {place:?} {before:?} {after:?}")
}

fn show_compensation(
    place: PlaceRef,
    cell: &[u8; 128],
    undone: u64,
    out: &mut String,
) -> Result<(), AllocError> {
    let cell = Cell::read(cell);
    writeln!(out, "Compensation {place:?} {cell:?} {undone}")
}

fn show_body(body: BodyRef<'_>, out: &mut String) -> Result<(), AllocError> {
    match body {
        BodyRef::Write {
            place,
            before,
            after,
        } => show_write(place, before, after, out),
        BodyRef::Compensation {
            place,
            cell,
            undone,
        } => show_compensation(place, cell, undone, out),
        BodyRef::Bulk {
            table,
            first,
            count,
            value,
            extents,
        } => {
            write!(out, "Bulk {table} {first} {count} {value:?} ")?;
            show_extents(extents, out)
        }
        other => writeln!(out, "{other:?}"),
    }
}

fn show_record(record: &RecRef<'_>, out: &mut String) -> Result<(), AllocError> {
    write!(out, "{} {} ", record.lsn, record.begin)?;
    show_body(record.body, out)
}

/// The records that bytes spell, where no record is spelled, and whether the plain ones are spelled as all these bytes.
pub fn show(alloc: Global, bytes: &[u8], out: &mut String) -> Result<(), AllocError> {
    let mut again = Vec::new(alloc);
    for record in cursor(bytes) {
        match record {
            Ok(record) => {
                show_record(&record, out)?;
                append(alloc, &record, &mut again)?;
            }
            Err(bad) => writeln!(out, "{bad}")?,
        }
    }
    if again.as_slice() != bytes {
        return Ok(());
    }
    out.push_str("spelled so\n")
}
