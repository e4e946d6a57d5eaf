//! The pending writes of a log, from the end of it in which each of their transactions began.

ghost use Rattle.std.specs.Prelude.{◌≡◌, ◌==◌, ◌&&◌, not, ℕ, List, [], filter, map, IfOk, OnOk, IsErrOf};
ghost use Rattle.bk_record.specs.View.{body_of};
ghost use Rattle.bk_world.specs.declared.database.FileSpec.{FileSpec};
ghost use Rattle.bk_world.specs.Pending.{pending};
ghost use Rattle.bk_world.specs.Records.{Counts, Logged};
ghost use Rattle.bk_world.specs.SoundLogs.{IsSound};
ghost use Rattle.bk_shown.specs.Ends.{HoldsPending};
ghost use Rattle.bk_shown.specs.Shown.{ArePlaced, pending_of};
ghost use Rattle.bk_shown.specs.Steps.{IsUnnoted, NotesBody};
ghost use Rattle.bk_shown.specs.Writes.{others_of};
ghost use Rattle.bk_shown.specs.declared.error.TakeError.TheVariants.{Unfit};

use crate::error::TakeError;
use crate::shown::Written;
use crate::taking::push;
use crate::writing::{placed, written};
use bk_ids::Lsn;
use bk_record::{BodyRef, RecRef, Records, cursor};
use std::alloc::Global;

// Leaves the writes of a transaction out.
fn drop_transaction(writes: &mut Vec<Written>, begin: Lsn)
    ensures { writes.new.items ≡ others_of begin writes.old.items }
{
    writes.retain(|w| w.begin != begin);
}

// Leaves one write of a transaction out.
fn drop_write(writes: &mut Vec<Written>, begin: Lsn, lsn: Lsn)
    ensures { writes.new.items ≡ filter (λ w. not (w.begin == begin && w.lsn == lsn)) writes.old.items }
{
    writes.retain(|w| w.begin != begin || w.lsn != lsn);
}

// What a record makes of the writes that were pending before it.
fn note(alloc: Global, writes: &mut Vec<Written>, taken: RecRef<'_>) -> Result<(), TakeError>
    ensures ok { OnOk result (NotesBody taken.entry.lsn taken.entry.begin (body_of taken.entry.body) writes.old.items writes.new.items) }
    ensures unfit { IsErrOf result Unfit → IsUnnoted (body_of taken.entry.body) }
{
    match taken.body {
        BodyRef::Write {
            place,
            before,
            after,
        } => {
            let place = placed(place)?;
            let write = written(alloc, taken.lsn, taken.begin, place, before, after)?;
            push(writes, write)?;
        }
        BodyRef::Commit { .. } | BodyRef::RollbackEnd => drop_transaction(writes, taken.begin),
        BodyRef::Compensation { undone, .. } => drop_write(writes, taken.begin, undone),
        BodyRef::Bulk { .. } => return Err(TakeError::Unfit),
        _ => {}
    }
    Ok(())
}

/// The writes that are pending in a log, in the order of their records, from an end of the log in which each of their
/// transactions began. `Unfit` comes only where it is no such end.
pub fn pending_in(alloc: Global, log: &Records) -> Result<Vec<Written>, TakeError>
    ensures pending { IfOk result (λ writes. (files : List FileSpec) (rs : List Logged) (first «end» : ℕ) → Counts 1 rs «end» → IsSound rs → ArePlaced files [] rs
        → HoldsPending rs first log.now → map pending_of writes.items ≡ pending rs) }
    ensures unfit { IsErrOf result Unfit → (files : List FileSpec) (rs : List Logged) (first «end» : ℕ) → Counts 1 rs «end» → IsSound rs → ArePlaced files [] rs
        → HoldsPending rs first log.now → ⊥ }
{
    let mut writes = Vec::new(alloc);
    for record in cursor(log.as_slice()) {
        let record = record?;
        note(alloc, &mut writes, record)?;
    }
    Ok(writes)
}
