//! The log of a case, as bytes.

use crate::words::{number, word};
use std::alloc::{AllocError, Global};

/// Appends a record for each line: its kind, its number, that of its transaction's first record, and its fields. A field is a
/// number and in how many bytes it stands, as `8/4`.
pub(crate) fn append_records(
    alloc: Global,
    log: &mut Vec<u8>,
    lines: &str,
) -> Result<(), AllocError> {
    for line in lines.lines() {
        append_record(alloc, log, line)?;
    }
    Ok(())
}

fn append_record(alloc: Global, log: &mut Vec<u8>, line: &str) -> Result<(), AllocError> {
    let mut fields = Vec::new(alloc);
    append_fields(&mut fields, line, 3)?;
    append_number(log, (fields.len() as u64).wrapping_add(24), 4)?;
    append_number(log, number(line, 0), 4)?;
    append_number(log, number(line, 1), 8)?;
    append_number(log, number(line, 2), 8)?;
    log.extend_from_slice(&fields)
}

/// Appends fields alone.
pub(crate) fn append_bytes(log: &mut Vec<u8>, command: &str) -> Result<(), AllocError> {
    append_fields(log, command, 1)
}

// Appends the fields that the words of a line from this one on name.
fn append_fields(log: &mut Vec<u8>, line: &str, first: usize) -> Result<(), AllocError> {
    for field in line.split(' ').skip(first) {
        let (number, bytes) = field.split_once('/').unwrap_or((field, "1"));
        append_number(log, number.parse().unwrap_or(0), bytes.parse().unwrap_or(1))?;
    }
    Ok(())
}

// Appends a number in so many bytes, the lowest first.
fn append_number(log: &mut Vec<u8>, number: u64, bytes: u64) -> Result<(), AllocError> {
    let mut rest = number;
    for _ in 0..bytes {
        log.push((rest % 256) as u8)?;
        rest /= 256;
    }
    Ok(())
}
