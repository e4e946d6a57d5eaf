//! One row that is written, as it is planned.

ghost use Rattle.std.specs.Prelude.{◌≡◌, ◌≤◌, false, List, Option, ℕ, Some, None, length, IfOk};
ghost use Rattle.std.specs.Option.{option_map};
ghost use Rattle.bk_acts.specs.Meaning.{Spell};
ghost use Rattle.bk_acts.specs.Conditions.{KeepRecords, KeepsAct, MayTell};
ghost use Rattle.bk_bytes.specs.Cell.{IsCell};
ghost use Rattle.bk_ids.specs.declared.record.Body.TheVariants.{Write};
ghost use Rattle.bk_machine.specs.Checks as checks;
ghost use Rattle.bk_machine.specs.statements.Target.{row_said};
ghost use Rattle.bk_plans.specs.Planned.{SaysNow, SaysThen, StoresOne};
ghost use Rattle.bk_plans.specs.Planning.{KeepsPlan};
ghost use Rattle.bk_row_plans.specs.Targets.{AreCells};
ghost use Rattle.bk_world.specs.Entry.{RowChange};
ghost use Rattle.bk_world.specs.Says.{single_said};
ghost use Rattle.bk_world.specs.declared.reply.Reply.TheVariants.{Counted};

use bk_acts::{StoredAct, said_law};
use bk_ids::{Body, CellImage, Lsn, Place, Rec, Sequence, Text, Value};
use bk_images::{free_image, row_image};
use bk_kept::{DatabaseView, copy_transactions};
use bk_plans::{Plan, logged, said_time, say, say_one, stored};
use bk_world::{Open, Reply};
use std::alloc::{AllocError, Global};

/// The cell of a row that is written: as it was, and as it is then.
#[derive(Clone, Copy)]
pub(crate) struct Images {
    pub old: CellImage,
    pub new: CellImage,
}

/// The cells of a new row.
pub(crate) fn new_cells(table: u32, key: u64, value: &Text) -> Images
    requires low { key ≤ 9223372036854775807 }
    requires short { length value.now ≤ 112 }
    ensures are { AreCells result.old result.new (record { table = table; key = key; value = Some value.now }) None }
    ensures cells { IsCell result.old.bytes × IsCell result.new.bytes }
{
    Images {
        old: free_image(),
        new: row_image(table, key, value.as_str()),
    }
}

/// The cells of a row that gets another value.
pub(crate) fn changed_cells(table: u32, key: u64, before: &Value, value: &Text) -> Images
    requires low { key ≤ 9223372036854775807 }
    requires short { length value.now ≤ 112 }
    ensures are { AreCells result.old result.new (record { table = table; key = key; value = Some value.now }) (Some before.now) }
    ensures cells { IsCell result.old.bytes × IsCell result.new.bytes }
{
    Images {
        old: row_image(table, key, before.as_str()),
        new: row_image(table, key, value.as_str()),
    }
}

/// The cells of a row that goes.
pub(crate) fn gone_cells(table: u32, key: u64, before: &Value) -> Images
    requires { key ≤ 9223372036854775807 }
    ensures are { AreCells result.old result.new (record { table = table; key = key; value = None }) (Some before.now) }
    ensures cells { IsCell result.old.bytes × IsCell result.new.bytes }
{
    Images {
        old: row_image(table, key, before.as_str()),
        new: free_image(),
    }
}

// The write of a row in its cell.
fn write_of(place: &Place, cells: Images) -> Body
    requires { IsCell cells.old.bytes × IsCell cells.new.bytes }
    ensures is { result ≡ Write place.now cells.old cells.new }
    ensures tells { MayTell result }
{
    Body::Write {
        place: *place,
        before: cells.old,
        after: cells.new,
    }
}

// What a transaction of its own says that writes one row in its cell.
fn single_records(
    alloc: Global,
    place: &Place,
    cells: Images,
    lsn: Lsn,
    time: u64,
) -> Result<Sequence<Rec>, AllocError>
    requires cells { IsCell cells.old.bytes × IsCell cells.new.bytes }
    requires left { checks.used_up lsn ≡ false }
    ensures said { IfOk result (λ records. (c : RowChange) (before : Option (List ℕ)) → AreCells cells.old cells.new c before → Spell records lsn (single_said lsn place.now before c time)) }
    ensures keep { IfOk result KeepRecords }
{
    said_law();
    let mut records = Vec::new(alloc);
    say(&mut records, lsn, lsn, Body::Begin)?;
    say(&mut records, lsn + 1, lsn, write_of(place, cells))?;
    say(
        &mut records,
        lsn + 2,
        lsn,
        Body::Commit { time, mark: None },
    )?;
    Ok(Sequence::new(records))
}

// What is said of one row that is written in its cell: in an open transaction, or by one of its own.
fn row_records(
    alloc: Global,
    own: Option<&Open>,
    place: &Place,
    cells: Images,
    lsn: Lsn,
    time: u64,
) -> Result<Sequence<Rec>, AllocError>
    requires cells { IsCell cells.old.bytes × IsCell cells.new.bytes }
    requires left { checks.used_up lsn ≡ false }
    ensures said { IfOk result (λ records. (c : RowChange) (before : Option (List ℕ)) → AreCells cells.old cells.new c before
        → Spell records lsn (row_said (option_map (λ t. t.now) own.entry) lsn place.now before c time)) }
    ensures keep { IfOk result KeepRecords }
{
    match own {
        Some(transaction) => say_one(alloc, lsn, transaction.begin, write_of(place, cells)),
        None => single_records(alloc, place, cells, lsn, time),
    }
}

// The act by which one row is written in its cell at a time.
fn row_act(
    alloc: Global,
    database: &DatabaseView<'_>,
    own: Option<&Open>,
    place: &Place,
    cells: Images,
    time: u64,
) -> Result<StoredAct, AllocError>
    requires cells { IsCell cells.old.bytes × IsCell cells.new.bytes }
    requires left { checks.used_up database.now.shown.«end» ≡ false }
    ensures says { IfOk result (λ act. (c : RowChange) (before : Option (List ℕ)) → AreCells cells.old cells.new c before
        → SaysNow database.now (row_said (option_map (λ t. t.now) own.entry) database.now.shown.«end» place.now before c time) database.now.transactions act) }
    ensures keeps { IfOk result KeepsAct }
{
    let transactions = copy_transactions(alloc, database.transactions.as_slice())?;
    match row_records(alloc, own, place, cells, database.shown.end(), time) {
        Ok(records) => logged(alloc, database, transactions, records),
        Err(error) => {
            drop(transactions);
            Err(error)
        }
    }
}

/// One row is written in its cell, in the session's open transaction, or by one of its own.
pub(crate) fn row_plan(
    alloc: Global,
    database: &DatabaseView<'_>,
    own: Option<&Open>,
    place: &Place,
    cells: Images,
    now: u64,
) -> Result<Plan, AllocError>
    requires cells { IsCell cells.old.bytes × IsCell cells.new.bytes }
    requires left { checks.used_up database.now.shown.«end» ≡ false }
    ensures says { IfOk result (λ plan. (c : RowChange) (before : Option (List ℕ)) → AreCells cells.old cells.new c before
        → StoresOne (SaysThen database.now now (row_said (option_map (λ t. t.now) own.entry) database.now.shown.«end» place.now before c) database.now.transactions) (Counted 1) plan) }
    ensures keeps { IfOk result KeepsPlan }
{
    let time = said_time(database, now);
    let act = row_act(alloc, database, own, place, cells, time)?;
    stored(alloc, act, Reply::Counted { rows: 1 })
}
