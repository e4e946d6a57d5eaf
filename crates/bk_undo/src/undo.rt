// Undoing from the log alone.
ghost use Rattle.std.specs.Prelude.{◌≡◌, List, None, map, reverse, IfOk, IfErr, OnOk};
ghost use Rattle.std.specs.List.{AllByRecursion};
ghost use Rattle.bk_ids.specs.declared.record.Rec.{Rec};
ghost use Rattle.bk_record.specs.Log.{IsLog};
ghost use Rattle.bk_record.specs.Spelling.{KeepsLimits};
ghost use Rattle.bk_undo.specs.Losers.{pending, records_below, compensation, compensation_of};
ghost use Rattle.bk_undo.specs.Cause.{IsCause};

use crate::error::UndoError;
use crate::pending::{Pending, note};
use bk_ids::{Lsn, Rec};
use bk_record::cursor;
use std::alloc::{AllocError, Global};

/// The compensation of the transactions that have begun and not ended below this LSN: for each of their writes below it
/// that no record below it undoes, one record with what the cell held before, the last write first. The records have
/// the number 0, which is to be set where they are appended, and keep the limits of a record that is encoded.
///
/// `BadRecord` is answered exactly where the bytes aren't whole records alone.
pub fn losers(alloc: Global, log: &[u8], below: Lsn) -> Result<Vec<Rec>, UndoError>
    ensures compensation { IfOk result (λ undoing. (records : List Rec) × IsLog log.now records None × (undoing.items ≡ compensation below records)) }
    ensures limits { IfOk result (λ undoing. AllByRecursion (λ r. KeepsLimits r.body) undoing.items) }
    ensures cause { IfErr result (IsCause log.now) }
{
    let writes = read_pending(alloc, log, below)?;
    let undoing = compensate(alloc, writes)?;
    Ok(undoing)
}

// The writes that are pending below an LSN, the first one first.
fn read_pending(alloc: Global, log: &[u8], below: Lsn) -> Result<Vec<Pending>, UndoError>
    ensures pending { IfOk result (λ writes. (records : List Rec) × IsLog log.now records None × (writes.items ≡ pending (records_below below records))) }
    ensures cause { IfErr result (IsCause log.now) }
{
    let mut writes = Vec::new(alloc);
    for record in cursor(log) {
        let record = record?;
        note(&mut writes, record, below)?;
    }
    Ok(writes)
}

// The records that undo these writes, the last one first.
fn compensate(alloc: Global, writes: Vec<Pending>) -> Result<Vec<Rec>, AllocError>
    ensures { IfOk result (λ undoing. undoing.items ≡ map compensation_of (reverse writes.items)) }
{
    let mut left = writes;
    let mut undoing = Vec::with_capacity(alloc, left.len())?;
    'writes: while let Some(write) = left.pop() {
        undoing.push(write.compensation())?;
    }
    Ok(undoing)
}
