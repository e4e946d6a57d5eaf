//! `COMMIT`: its check and its plan.

ghost use Rattle.std.specs.Prelude.{◌≡◌, ◌==◌, ◌++◌, ◌∷◌, ℕ, IfOk, OnOk};
ghost use Rattle.std.specs.List.{list_any};
ghost use Rattle.bk_acts.specs.Meaning.{Spell};
ghost use Rattle.bk_acts.specs.Conditions.{KeepRecords, KeepsAct};
ghost use Rattle.bk_items.specs.declared.item.ScriptItem.TheVariants as script;
ghost use Rattle.bk_kept.specs.Keeps.{ShowsLog, database_of};
ghost use Rattle.bk_kept.specs.Numbers.{CanEnd, LeaveNumbers};
ghost use Rattle.bk_machine.specs.World.{World, log_of};
ghost use Rattle.bk_machine.specs.statements.Commit as committing;
ghost use Rattle.bk_plans.specs.Planning.{KeepsPlan, Plans};
ghost use Rattle.bk_planning.specs.Marking.{IsCommit, NotesMark, mark_part, marked_row};
ghost use Rattle.bk_planning.specs.Undoing.{Commits};
ghost use Rattle.bk_plans.specs.declared.parts.Part.TheVariants.{Stored};
ghost use Rattle.bk_world.specs.Pending.{of_transaction, pending};
ghost use Rattle.bk_world.specs.Says.{commit_said};

use crate::ending::{held_or_refuse, open_without};
use bk_acts::StoredAct;
use bk_ids::{Body, Lsn, Mark, Rec, Sequence};
use bk_kept::{DatabaseView, InstanceView};
use bk_machine::{HistoryRow, statements_do_what_they_may};
use bk_plans::{Part, Plan, logged, refused, said_time, say_one};
use bk_shown::Written;
use bk_world::{MarkRow, Open, Reply};
use std::alloc::{AllocError, Global};

// Whether one of some writes is of the transaction that begins with this record.
fn has_written(written: &[Written], begin: Lsn) -> bool
    ensures { result ≡ list_any (λ w. w.begin == begin) written.now }
{
    written.iter().any(|w| w.begin == begin)
}

// The mark of a transaction.
fn own_mark(alloc: Global, transaction: &Open) -> Result<Option<Mark>, AllocError>
    ensures { IfOk result (λ mark. mark ≡ transaction.now.mark) }
{
    let copy = transaction.copy(alloc)?;
    Ok(copy.mark)
}

// The mark that the commit of a transaction gets: none where it has written nothing.
fn mark_with(
    alloc: Global,
    database: &DatabaseView<'_>,
    transaction: &Open,
) -> Result<Option<Mark>, AllocError>
    ensures { (w : World) → ShowsLog w.history database.now
        → IfOk result (λ mark. mark ≡ committing.mark_with (of_transaction transaction.now.begin (pending (log_of w.history (database_of database.now)))) transaction.now.mark) }
{
    if has_written(database.shown.written(), transaction.begin) {
        return own_mark(alloc, transaction);
    }
    Ok(None)
}

// The record of a commit at a time.
fn commit_record(
    alloc: Global,
    database: &DatabaseView<'_>,
    begin: Lsn,
    time: u64,
    mark: Option<Mark>,
) -> Result<Sequence<Rec>, AllocError>
    ensures said { IfOk result (λ records. Spell records database.now.shown.«end» (commit_said begin time mark)) }
    ensures keep { IfOk result KeepRecords }
{
    say_one(
        alloc,
        database.shown.end(),
        begin,
        Body::Commit { time, mark },
    )
}

// The act by which a transaction is committed in a database at `now`.
fn commit_act(
    alloc: Global,
    database: &DatabaseView<'_>,
    transaction: &Open,
    now: u64,
) -> Result<StoredAct, AllocError>
    requires { CanEnd database.now }
    ensures commits { IfOk result (Commits database.now now transaction.now) }
    ensures keeps { IfOk result KeepsAct }
{
    let mark = mark_with(alloc, database, transaction)?;
    let time = said_time(database, now);
    let records = commit_record(alloc, database, transaction.begin, time, mark)?;
    match open_without(alloc, database, transaction.begin) {
        Ok(others) => logged(alloc, database, others, records),
        Err(error) => {
            drop(records);
            Err(error)
        }
    }
}

// The row of a mark, which the record of this number has at a time.
fn row_with(
    alloc: Global,
    database: &DatabaseView<'_>,
    mark: Option<Mark>,
    time: u64,
) -> Result<Option<MarkRow>, AllocError>
    ensures { IfOk result (λ row. row ≡ marked_row database.now.name database.now.shown.«end» time mark) }
{
    match mark {
        Some(mark) => {
            let name = database.name.copy(alloc)?;
            Ok(Some(MarkRow {
                database: name,
                mark,
                lsn: database.shown.end(),
                time,
            }))
        }
        None => Ok(None),
    }
}

// The row of logmarkhistory of a transaction that is committed in a database at `now`: none where the commit gets no mark.
fn mark_row(
    alloc: Global,
    database: &DatabaseView<'_>,
    transaction: &Open,
    now: u64,
) -> Result<Option<MarkRow>, AllocError>
    ensures { IfOk result (NotesMark database.now now transaction.now) }
{
    let mark = mark_with(alloc, database, transaction)?;
    let time = said_time(database, now);
    row_with(alloc, database, mark, time)
}

// One part more, if there is a row.
fn note(parts: &mut Vec<Part>, row: Option<MarkRow>) -> Result<(), AllocError>
    ensures { OnOk result (parts.new.items ≡ parts.old.items ++ mark_part row) }
{
    if let Some(row) = row {
        parts.push(Part::Noted {
            row: HistoryRow::Mark(row),
        })?;
    }
    Ok(())
}

// The parts of a commit: its act, and then its row.
fn commit_parts(
    alloc: Global,
    act: StoredAct,
    row: Option<MarkRow>,
) -> Result<Vec<Part>, AllocError>
    ensures { IfOk result (λ parts. parts.items ≡ Stored act ∷ mark_part row) }
{
    let mut parts = vec![in alloc; Part::Stored(act)]?;
    note(&mut parts, row)?;
    Ok(parts)
}

// The plan of a commit by its act and its row.
fn commit_plan(alloc: Global, act: StoredAct, row: Option<MarkRow>) -> Result<Plan, AllocError>
    requires { KeepsAct act }
    ensures parts { IfOk result (IsCommit act row) }
    ensures keeps { IfOk result KeepsPlan }
{
    let parts = commit_parts(alloc, act, row)?;
    Ok(Plan::Parts {
        parts,
        reply: Reply::Done,
    })
}

// What `COMMIT` comes to at `now`, in milliseconds since 1970-01-01 00:00:00 UTC, on any line.
pub(crate) fn plan_commit(
    kept: &InstanceView<'_>,
    alloc: Global,
    now: u64,
) -> Result<Plan, AllocError>
    requires { LeaveNumbers kept.now.databases.items }
    ensures plans { IfOk result (λ plan. (line : ℕ) → Plans kept.now (λ w. Unit {0}) (record { item = script.Commit; line = line }) now plan) }
    ensures keeps { IfOk result KeepsPlan }
{
    statements_do_what_they_may();
    match held_or_refuse(kept) {
        Ok(held) => {
            let act = commit_act(alloc, held.database, held.transaction, now)?;
            let row = mark_row(alloc, held.database, held.transaction, now)?;
            commit_plan(alloc, act, row)
        }
        Err(refusal) => refused(refusal),
    }
}
