//! The act by which an open transaction of a database is rolled back.

ghost use Rattle.std.specs.Prelude.{◌≡◌, ◌+◌, ◌≤◌, ◌^◌, Some, length, map, IfOk};
ghost use Rattle.bk_acts.specs.Meaning.{Spell};
ghost use Rattle.bk_acts.specs.Conditions.{KeepRecords, KeepsAct};
ghost use Rattle.bk_kept.specs.Keeps.{ShowsLog, database_of};
ghost use Rattle.bk_kept.specs.Numbers.{CanEnd};
ghost use Rattle.bk_kept.specs.Stored.{IsDone};
ghost use Rattle.bk_machine.specs.MayDo.{MayDo};
ghost use Rattle.bk_machine.specs.World.{World, database_named, without_begin};
ghost use Rattle.bk_machine.specs.statements.Rollback.{rolls_back};
ghost use Rattle.bk_planning.specs.Undoing.{SaysOf};
ghost use Rattle.bk_shown.specs.Shown.{pending_of};
ghost use Rattle.bk_world.specs.Says.{rollback_said};

use crate::ending::open_without;
use bk_acts::StoredAct;
use bk_ids::{Body, Lsn, Rec, Sequence};
use bk_kept::DatabaseView;
use bk_plans::{logged, say, undo};
use bk_shown::Written;
use bk_world::Open;
use std::alloc::{AllocError, Global};

// What is said where a transaction is rolled back.
fn rollback_records(
    alloc: Global,
    written: &[Written],
    begin: Lsn,
    first: Lsn,
) -> Result<Sequence<Rec>, AllocError>
    requires { first + (length written.now + 1) ≤ 2 ^ 62 }
    ensures said { IfOk result (λ records. Spell records first (rollback_said begin (map pending_of written.now))) }
    ensures keep { IfOk result KeepRecords }
{
    let mut said = undo(alloc, written, Some(begin), first)?;
    say(&mut said.records, said.next, begin, Body::RollbackEnd)?;
    Ok(Sequence::new(said.records))
}

/// The act by which an open transaction of a database is rolled back: its pending writes are undone, the last one first, and it ends.
pub fn rollback_act(
    alloc: Global,
    database: &DatabaseView<'_>,
    transaction: &Open,
) -> Result<StoredAct, AllocError>
    requires { CanEnd database.now }
    ensures says { IfOk result (SaysOf database.now (rollback_said transaction.now.begin) (without_begin database.now.transactions transaction.now.begin)) }
    ensures is_done { IfOk result (λ act. (w : World) → database_named w.databases database.now.name ≡ Some (database_of database.now) → ShowsLog w.history database.now
        → MayDo w (rolls_back w (record { database = database_of database.now; transaction = transaction.now }))
        → IsDone w act (rolls_back w (record { database = database_of database.now; transaction = transaction.now }))) }
    ensures keeps { IfOk result KeepsAct }
{
    let written = database.shown.written();
    let records = rollback_records(alloc, written, transaction.begin, database.shown.end())?;
    match open_without(alloc, database, transaction.begin) {
        Ok(others) => logged(alloc, database, others, records),
        Err(error) => {
            drop(records);
            Err(error)
        }
    }
}
