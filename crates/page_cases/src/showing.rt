//! Commands on what a log shows.

use crate::grouping::{files_of, show_place};
use crate::words::{number, word};
use bk_record::cursor;
use bk_shown::Shown;
use std::alloc::{AllocError, Global};

pub(crate) fn answer_shown(
    alloc: Global,
    shown: &mut Shown,
    log: &[u8],
    command: &str,
    out: &mut String,
) -> Result<(), AllocError> {
    match word(command, 1) {
        "new" => *shown = shown_of(alloc, command)?,
        "take" => return take(shown, log, out),
        "tables" => return show_tables(shown, out),
        "rows" => return show_rows(alloc, shown, command, out),
        _ => return show_row(shown, command, out),
    }
    Ok(())
}

// Nothing in two files, each of a filegroup and with so many extents.
fn shown_of(alloc: Global, command: &str) -> Result<Shown, AllocError> {
    let files = files_of(alloc, command)?;
    Shown::new(alloc, &files)
}

// Takes the records of the log from the end on.
fn take(shown: &mut Shown, log: &[u8], out: &mut String) -> Result<(), AllocError> {
    let end = shown.end();
    for record in cursor(log) {
        let Ok(record) = record else {
            return out.push_str("no log\n");
        };
        if record.lsn < end {
            continue;
        }
        if let Err(error) = shown.take(record) {
            return writeln!(out, "record {}: {error}", record.lsn);
        }
    }
    Ok(())
}

fn show_tables(shown: &Shown, out: &mut String) -> Result<(), AllocError> {
    writeln!(
        out,
        "end {} time {} pending {}",
        shown.end(),
        shown.time(),
        shown.written().len()
    )?;
    for table in shown.tables() {
        writeln!(
            out,
            "table {} {} filegroup {}",
            table.number,
            table.name.as_str(),
            table.group
        )?;
    }
    Ok(())
}

fn show_rows(
    alloc: Global,
    shown: &Shown,
    command: &str,
    out: &mut String,
) -> Result<(), AllocError> {
    let rows = shown.rows(alloc, word(command, 2).parse().unwrap_or(0))?;
    for (key, value) in &rows {
        writeln!(out, "{key} {}", value.as_str())?;
    }
    Ok(())
}

fn show_row(shown: &Shown, command: &str, out: &mut String) -> Result<(), AllocError> {
    let table = word(command, 2).parse().unwrap_or(0);
    let key = number(command, 3);
    match word(command, 1) {
        "find" => show_place(shown.find(table, key), out),
        "place" => show_place(shown.place(table), out),
        "holder" => show_holder(shown, table, key, out),
        "seen" => show_seen(shown, number(command, 4), table, key, out),
        _ => out.push_str("no such command\n"),
    }
}

fn show_holder(shown: &Shown, table: u32, key: u64, out: &mut String) -> Result<(), AllocError> {
    match shown.holder(table, key) {
        Some(begin) => writeln!(out, "held by {begin}"),
        None => out.push_str("held by none\n"),
    }
}

fn show_seen(
    shown: &Shown,
    begin: u64,
    table: u32,
    key: u64,
    out: &mut String,
) -> Result<(), AllocError> {
    match shown.seen(begin, table, key) {
        Some(value) => writeln!(out, "{}", value.as_str()),
        None => out.push_str("no row\n"),
    }
}
