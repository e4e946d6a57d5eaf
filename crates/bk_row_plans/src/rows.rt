//! The statements on the rows of a table: their checks and their plans.

ghost use Rattle.std.specs.Prelude.{◌≡◌, ◌<◌, ◌≤◌, ℕ, List, length, false, IfOk, IfSome, MatchOption, Some, None};
ghost use Rattle.bk_items.specs.declared.item.ScriptItem.TheVariants as script;
ghost use Rattle.bk_items.specs.declared.rows.RowStatement.TheVariants as row;
ghost use Rattle.bk_kept.specs.Keeps.{Sees, ShowsLog, database_of};
ghost use Rattle.bk_machine.specs.Checks as checks;
ghost use Rattle.bk_machine.specs.Seen.{visible};
ghost use Rattle.bk_machine.specs.Sound.{IsSound};
ghost use Rattle.bk_machine.specs.TargetLaws.{IsTarget};
ghost use Rattle.bk_machine.specs.World.{World};
ghost use Rattle.bk_machine.specs.statements.Delete as delete;
ghost use Rattle.bk_machine.specs.statements.Insert as insert;
ghost use Rattle.bk_machine.specs.statements.Target as target;
ghost use Rattle.bk_machine.specs.statements.Target.{MayPlace};
ghost use Rattle.bk_machine.specs.statements.Update as update;
ghost use Rattle.bk_plans.specs.Checking.{IsCheck};
ghost use Rattle.bk_plans.specs.Planning.{KeepsPlan, Plans};
ghost use Rattle.bk_row_plans.specs.Targets.{target_of};
ghost use Rattle.bk_world.specs.Telling.{row_at};

use crate::cells::{check_room, own_cell};
use crate::limits::{check_key, check_left, check_lock, check_value};
use crate::row::{changed_cells, gone_cells, new_cells, row_plan};
use crate::select::plan_select;
use crate::tables::check_table;
use bk_asked::{own_open, seen_row, sees_key};
use bk_ids::{Place, Text, Value};
use bk_items::RowStatement;
use bk_kept::{DatabaseView, InstanceView};
use bk_machine::statements_do_what_they_may;
use bk_plans::{Plan, Refusal, refuse_if, refused};
use bk_shown::placed_logs;
use bk_world::{Reply, Rule, TableSpec};
use std::alloc::{AllocError, Global};

// The cell of a row that is new in a table.
fn check_new(
    kept: &InstanceView<'_>,
    alloc: Global,
    database: &DatabaseView<'_>,
    table: &TableSpec,
    key: u64,
) -> Result<Place, Refusal>
    ensures check { (w : World) (name : List ℕ) → IsSound w → Sees w kept.now → ShowsLog w.history database.now → IsTarget w name (target_of database.now table.now)
        → IsCheck (λ at. target_of database.now table.now) result (target.check_new w (target_of database.now table.now) key) }
    ensures low { IfOk result (λ at. key ≤ 9223372036854775807) }
    ensures left { IfOk result (λ at. checks.used_up database.now.shown.«end» ≡ false) }
    ensures cell { (w : World) (name : List ℕ) → IsSound w → ShowsLog w.history database.now → IsTarget w name (target_of database.now table.now)
        → IfOk result (λ at. MayPlace w (target_of database.now table.now) (table.now.number, key) at) }
{
    check_lock(kept, database, table, key)?;
    refuse_if(
        sees_key(kept, database, table, key),
        Rule::DuplicateKey { key },
    )?;
    check_key(key)?;
    check_left(kept, database, true)?;
    let place = check_room(alloc, database, table, key)?;
    Ok(place)
}

// A row that is put into a table, and its cell.
#[derive(Clone, Copy)]
struct NewRow<'a> {
    database: &'a DatabaseView<'a>,
    table: &'a TableSpec,
    place: Place,
}

// The row that `INSERT` puts into a table.
#[tactic(auto, unfolding(bk_machine::specs::statements::Insert::check_insert))]
fn check_insert<'a>(
    kept: &'a InstanceView<'a>,
    alloc: Global,
    table: &Text,
    key: u64,
    value: &Text,
) -> Result<NewRow<'a>, Refusal>
    ensures check { (w : World) → IsSound w → Sees w kept.now → IsCheck (λ r. target_of r.database.now r.table.now) result (insert.check_insert w table.now key value.now) }
    ensures low { IfOk result (λ r. key ≤ 9223372036854775807) }
    ensures short { IfOk result (λ r. length value.now ≤ 112) }
    ensures left { IfOk result (λ r. checks.used_up r.database.now.shown.«end» ≡ false) }
    ensures shows { (w : World) → Sees w kept.now → IfOk result (λ r. ShowsLog w.history r.database.now) }
    ensures its { (w : World) → Sees w kept.now → IfOk result (λ r. IsTarget w table.now (target_of r.database.now r.table.now)) }
    ensures cell { (w : World) → IsSound w → Sees w kept.now
        → IfOk result (λ r. MayPlace w (target_of r.database.now r.table.now) (r.table.now.number, key) r.place) }
{
    let to = check_table(kept, table)?;
    check_value(value)?;
    let place = check_new(kept, alloc, to.database, to.table, key)?;
    Ok(NewRow {
        database: to.database,
        table: to.table,
        place,
    })
}

// What `INSERT` comes to.
fn plan_insert(
    kept: &InstanceView<'_>,
    alloc: Global,
    table: &Text,
    key: u64,
    value: &Text,
    now: u64,
) -> Result<Plan, AllocError>
    ensures plans { IfOk result (λ plan. (line : ℕ) → Plans kept.now (λ w. Unit {0}) (record { item = script.Rows table.now (row.Insert key value.now); line = line }) now plan) }
    ensures keeps { IfOk result KeepsPlan }
{
    statements_do_what_they_may();
    match check_insert(kept, alloc, table, key, value) {
        Ok(new) => {
            let cells = new_cells(new.table.number, key, value);
            let own = own_open(kept, new.database);
            row_plan(alloc, new.database, own, &new.place, cells, now)
        }
        Err(refusal) => refused(refusal),
    }
}

// A row that is seen, and its cell.
#[derive(Clone, Copy)]
struct SeenRow<'a> {
    before: &'a Value,
    place: Place,
}

// The row of a key, if it is seen.
fn found_row<'a>(
    kept: &InstanceView<'_>,
    database: &'a DatabaseView<'a>,
    table: &TableSpec,
    key: u64,
) -> Option<SeenRow<'a>>
    ensures { (w : World) (name : List ℕ) → IsSound w → Sees w kept.now → ShowsLog w.history database.now → IsTarget w name (target_of database.now table.now)
        → MatchOption result (row_at (visible w (database_of database.now) table.now) key ≡ None)
        (λ r. (row_at (visible w (database_of database.now) table.now) key ≡ Some r.before.now) × MayPlace w (target_of database.now table.now) (table.now.number, key) r.place) }
{
    placed_logs();
    let before = seen_row(kept, database, table, key)?;
    let place = own_cell(database, table, key)?;
    Some(SeenRow { before, place })
}

// The row of a key, if it is seen, as a statement may write it.
fn check_write<'a>(
    kept: &InstanceView<'_>,
    database: &'a DatabaseView<'a>,
    table: &TableSpec,
    key: u64,
) -> Result<Option<SeenRow<'a>>, Refusal>
    ensures check { (w : World) (name : List ℕ) → IsSound w → Sees w kept.now → ShowsLog w.history database.now → IsTarget w name (target_of database.now table.now)
        → IsCheck (λ seen. target_of database.now table.now) result (target.check_write w (target_of database.now table.now) key) }
    ensures low { IfOk result (λ seen. key ≤ 9223372036854775807) }
    ensures left { IfOk result (λ seen. IfSome seen (λ r. checks.used_up database.now.shown.«end» ≡ false)) }
    ensures seen { (w : World) (name : List ℕ) → IsSound w → Sees w kept.now → ShowsLog w.history database.now → IsTarget w name (target_of database.now table.now)
        → IfOk result (λ seen. MatchOption seen (row_at (visible w (database_of database.now) table.now) key ≡ None)
        (λ r. (row_at (visible w (database_of database.now) table.now) key ≡ Some r.before.now) × MayPlace w (target_of database.now table.now) (table.now.number, key) r.place)) }
{
    check_lock(kept, database, table, key)?;
    check_key(key)?;
    let seen = found_row(kept, database, table, key);
    check_left(kept, database, seen.is_some())?;
    Ok(seen)
}

// A table, and the row of it that a statement writes, if it is seen.
#[derive(Clone, Copy)]
struct Found<'a> {
    database: &'a DatabaseView<'a>,
    table: &'a TableSpec,
    seen: Option<SeenRow<'a>>,
}

// The row that `UPDATE` writes.
#[tactic(auto, unfolding(bk_machine::specs::statements::Update::check_update))]
fn check_update<'a>(
    kept: &'a InstanceView<'a>,
    table: &Text,
    key: u64,
    value: &Text,
) -> Result<Found<'a>, Refusal>
    ensures check { (w : World) → IsSound w → Sees w kept.now → IsCheck (λ f. target_of f.database.now f.table.now) result (update.check_update w table.now key value.now) }
    ensures low { IfOk result (λ f. key ≤ 9223372036854775807) }
    ensures value { IfOk result (λ f. length value.now ≤ 112) }
    ensures left { IfOk result (λ f. IfSome f.seen (λ r. checks.used_up f.database.now.shown.«end» ≡ false)) }
    ensures shows { (w : World) → Sees w kept.now → IfOk result (λ f. ShowsLog w.history f.database.now) }
    ensures its { (w : World) → Sees w kept.now → IfOk result (λ f. IsTarget w table.now (target_of f.database.now f.table.now)) }
    ensures seen { (w : World) → IsSound w → Sees w kept.now → IfOk result (λ f. MatchOption f.seen (row_at (visible w (database_of f.database.now) f.table.now) key ≡ None)
        (λ r. (row_at (visible w (database_of f.database.now) f.table.now) key ≡ Some r.before.now) × MayPlace w (target_of f.database.now f.table.now) (f.table.now.number, key) r.place)) }
{
    let to = check_table(kept, table)?;
    check_value(value)?;
    match check_write(kept, to.database, to.table, key) {
        Ok(seen) => Ok(Found {
            database: to.database,
            table: to.table,
            seen,
        }),
        Err(refusal) => Err(refusal),
    }
}

// What `UPDATE` comes to.
fn plan_update(
    kept: &InstanceView<'_>,
    alloc: Global,
    table: &Text,
    key: u64,
    value: &Text,
    now: u64,
) -> Result<Plan, AllocError>
    ensures plans { IfOk result (λ plan. (line : ℕ) → Plans kept.now (λ w. Unit {0}) (record { item = script.Rows table.now (row.Update key value.now); line = line }) now plan) }
    ensures keeps { IfOk result KeepsPlan }
{
    statements_do_what_they_may();
    let found = match check_update(kept, table, key, value) {
        Ok(found) => found,
        Err(refusal) => return refused(refusal),
    };
    let Found {
        database,
        table: spec,
        seen,
    } = found;
    match seen {
        Some(seen) => {
            let cells = changed_cells(spec.number, key, seen.before, value);
            let own = own_open(kept, database);
            row_plan(alloc, database, own, &seen.place, cells, now)
        }
        None => Ok(Plan::Answered {
            reply: Reply::Counted { rows: 0 },
        }),
    }
}

// The row that `DELETE` takes out of a table.
#[tactic(auto, unfolding(bk_machine::specs::statements::Delete::check_delete))]
fn check_delete<'a>(
    kept: &'a InstanceView<'a>,
    table: &Text,
    key: u64,
) -> Result<Found<'a>, Refusal>
    ensures check { (w : World) → IsSound w → Sees w kept.now → IsCheck (λ f. target_of f.database.now f.table.now) result (delete.check_delete w table.now key) }
    ensures low { IfOk result (λ f. key ≤ 9223372036854775807) }
    ensures left { IfOk result (λ f. IfSome f.seen (λ r. checks.used_up f.database.now.shown.«end» ≡ false)) }
    ensures shows { (w : World) → Sees w kept.now → IfOk result (λ f. ShowsLog w.history f.database.now) }
    ensures its { (w : World) → Sees w kept.now → IfOk result (λ f. IsTarget w table.now (target_of f.database.now f.table.now)) }
    ensures seen { (w : World) → IsSound w → Sees w kept.now → IfOk result (λ f. MatchOption f.seen (row_at (visible w (database_of f.database.now) f.table.now) key ≡ None)
        (λ r. (row_at (visible w (database_of f.database.now) f.table.now) key ≡ Some r.before.now) × MayPlace w (target_of f.database.now f.table.now) (f.table.now.number, key) r.place)) }
{
    let to = check_table(kept, table)?;
    match check_write(kept, to.database, to.table, key) {
        Ok(seen) => Ok(Found {
            database: to.database,
            table: to.table,
            seen,
        }),
        Err(refusal) => Err(refusal),
    }
}

// What `DELETE` comes to.
fn plan_delete(
    kept: &InstanceView<'_>,
    alloc: Global,
    table: &Text,
    key: u64,
    now: u64,
) -> Result<Plan, AllocError>
    ensures plans { IfOk result (λ plan. (line : ℕ) → Plans kept.now (λ w. Unit {0}) (record { item = script.Rows table.now (row.Delete key); line = line }) now plan) }
    ensures keeps { IfOk result KeepsPlan }
{
    statements_do_what_they_may();
    let found = match check_delete(kept, table, key) {
        Ok(found) => found,
        Err(refusal) => return refused(refusal),
    };
    let Found {
        database,
        table: spec,
        seen,
    } = found;
    match seen {
        Some(seen) => {
            let cells = gone_cells(spec.number, key, seen.before);
            let own = own_open(kept, database);
            row_plan(alloc, database, own, &seen.place, cells, now)
        }
        None => Ok(Plan::Answered {
            reply: Reply::Counted { rows: 0 },
        }),
    }
}

/// What a statement on the rows of a table comes to at `now`, in milliseconds since 1970-01-01 00:00:00 UTC.
pub fn plan_rows(
    kept: &InstanceView<'_>,
    alloc: Global,
    line: u32,
    table: &Text,
    statement: &RowStatement,
    now: u64,
) -> Result<Plan, AllocError>
    ensures plans { IfOk result (Plans kept.now (λ w. Unit {0}) (record { item = script.Rows table.now statement.now; line = line }) now) }
    ensures keeps { IfOk result KeepsPlan }
{
    match statement {
        RowStatement::Insert { key, value } => { plan_insert(kept, alloc, table, *key, value, now) }
        RowStatement::Update { key, value } => { plan_update(kept, alloc, table, *key, value, now) }
        RowStatement::Delete { key } => plan_delete(kept, alloc, table, *key, now),
        RowStatement::Select { key } => plan_select(kept, alloc, table, *key),
        RowStatement::BulkInsert { .. } => Ok(Plan::Refused {
            rule: Rule::NotBuilt { line },
        }),
    }
}
