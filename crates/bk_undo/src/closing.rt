// Where in a log all is closed that was written before.
ghost use Rattle.std.specs.Prelude.{◌≡◌, ◌==◌, List, None, true, not, IfOk, OnOk};
ghost use Rattle.std.specs.List.{filter, list_any};
ghost use Rattle.bk_ids.specs.declared.record.Rec.{Rec};
ghost use Rattle.bk_record.specs.Log.{IsLog};
ghost use Rattle.bk_record.specs.Skims.{Shows};
ghost use Rattle.bk_record.specs.View.{record_of};
ghost use Rattle.bk_undo.specs.Losers.{noted};
ghost use Rattle.bk_undo.specs.OpenPart.{Covers, Suffices};
ghost use Rattle.bk_undo.specs.declared.pending.Pending.{Pending};

use bk_ids::Lsn;
use bk_record::{BodyRef, RecRef, Skimmed, skim_at};
use std::alloc::{AllocError, Global};

// Adds a transaction, by the number of its first record, to those of which a write may be pending.
fn add_begun(begun: &mut Vec<Lsn>, begin: Lsn) -> Result<(), AllocError>
    ensures covers { (ws : List Pending) → Covers begun.old.items ws → OnOk result (Covers begun.new.items ws) }
    ensures added { OnOk result (list_any (λ b. b == begin) begun.new.items ≡ true) }
{
    if begun.contains(&begin) {
        return Ok(());
    }
    begun.push(begin)?;
    Ok(())
}

// Takes one away.
fn drop_begun(begun: &mut Vec<Lsn>, begin: Lsn)
    ensures { begun.new.items ≡ filter (λ b. not (b == begin)) begun.old.items }
{
    begun.retain(|b| *b != begin);
}

// Makes of the transactions that cover what is pending before a record those that do behind it.
fn note_record(begun: &mut Vec<Lsn>, logged: RecRef<'_>, below: Lsn) -> Result<(), AllocError>
    ensures { (ws : List Pending) → Covers begun.old.items ws → OnOk result (Covers begun.new.items (noted below (record_of logged.entry) ws)) }
{
    if logged.lsn >= below {
        return Ok(());
    }
    match logged.body {
        BodyRef::Write { .. } => add_begun(begun, logged.begin)?,
        BodyRef::Commit { .. } | BodyRef::RollbackEnd => drop_begun(begun, logged.begin),
        _ => {}
    }
    Ok(())
}

// The same for a record that was seen at a glance.
fn note_skimmed(begun: &mut Vec<Lsn>, skimmed: Skimmed<'_>, below: Lsn) -> Result<(), AllocError>
    ensures { (r : Rec) (ws : List Pending) → Shows skimmed.entry r → Covers begun.old.items ws → OnOk result (Covers begun.new.items (noted below r ws)) }
{
    match skimmed {
        Skimmed::Write { lsn, begin } => {
            if lsn < below {
                add_begun(begun, begin)?;
            }
            Ok(())
        }
        Skimmed::Other(logged) => note_record(begun, logged, below),
    }
}

/// The part of a log behind the last place where no write below this LSN was pending. Its records have the compensation of all, so `losers` needs to read it alone.
pub fn open_part(alloc: Global, log: &[u8], below: Lsn) -> Result<&[u8], AllocError>
    ensures { (records : List Rec) → IsLog log.now records None → IfOk result (λ part. Suffices below records part.now) }
{
    let mut begun = Vec::new(alloc);
    let mut at = 0;
    let mut closed = 0;
    'records: while let Some((skimmed, next)) = skim_at(log, at) {
        note_skimmed(&mut begun, skimmed, below)?;
        at = next;
        if begun.is_empty() {
            closed = at;
        }
    }
    Ok(&log[closed..])
}
