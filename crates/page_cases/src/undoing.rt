//! What is to be undone by the log.

use crate::paging::show_cell;
use bk_ids::{Body, Rec};
use bk_page::Cell;
use bk_undo::{losers, open_part};
use std::alloc::{AllocError, Global};

/// The compensation below a number, a line for each record.
pub(crate) fn show_losers(
    alloc: Global,
    log: &[u8],
    below: u64,
    out: &mut String,
) -> Result<(), AllocError> {
    match losers(alloc, log, below) {
        Ok(undoing) => show_records(&undoing, out),
        Err(error) => writeln!(out, "{error}"),
    }
}

/// How many bytes of the log have to be read for it.
pub(crate) fn show_part(
    alloc: Global,
    log: &[u8],
    below: u64,
    out: &mut String,
) -> Result<(), AllocError> {
    let part = open_part(alloc, log, below)?;
    writeln!(out, "{} bytes", part.len())
}

fn show_records(undoing: &[Rec], out: &mut String) -> Result<(), AllocError> {
    for record in undoing {
        show_record(record, out)?;
    }
    Ok(())
}

fn show_record(r: &Rec, out: &mut String) -> Result<(), AllocError> {
    let Body::Compensation {
        place,
        cell,
        undone,
    } = &r.body
    else {
        return out.push_str("no compensation\n");
    };
    write!(out, "lsn {} begin {} undoes {undone} ", r.lsn, r.begin)?;
    let slot = place.slot.get();
    write!(
        out,
        "at file {} page {} slot {slot}: ",
        place.file, place.page
    )?;
    show_cell(Cell::read(&cell.bytes), out)
}
