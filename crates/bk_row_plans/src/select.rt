//! `SELECT` of rows: its check and its plan.

ghost use Rattle.std.specs.Prelude.{◌≡◌, ℕ, IfOk};
ghost use Rattle.std.specs.Option.{option_map};
ghost use Rattle.bk_items.specs.declared.item.ScriptItem.TheVariants as script;
ghost use Rattle.bk_items.specs.declared.rows.RowStatement.TheVariants as row;
ghost use Rattle.bk_kept.specs.Keeps.{Sees, ShowsLog, database_of};
ghost use Rattle.bk_machine.specs.Seen.{visible};
ghost use Rattle.bk_machine.specs.World.{World};
ghost use Rattle.bk_machine.specs.statements.Select as selecting;
ghost use Rattle.bk_plans.specs.Planning.{KeepsPlan, Plans};

use crate::tables::check_table;
use bk_asked::{seen_row, seen_rows};
use bk_ids::{Sequence, Text, Value};
use bk_kept::{DatabaseView, InstanceView};
use bk_plans::{Plan, refused};
use bk_world::{Reply, TableSpec};
use std::alloc::{AllocError, Global};

// The row of a key, if there is one.
fn row_of(alloc: Global, key: u64, value: Option<&Value>) -> Result<Vec<(u64, Value)>, AllocError>
    ensures { IfOk result (λ rows. rows.items ≡ selecting.row_of key (option_map (λ v. v.now) value.entry)) }
{
    match value {
        Some(value) => {
            let row = (key, value.copy(alloc)?);
            let rows = vec![in alloc; row]?;
            Ok(rows)
        }
        None => Ok(Vec::new(alloc)),
    }
}

// The rows of a table that are asked for, as the current session sees them: all of them, or the one of a key.
fn asked_rows(
    alloc: Global,
    kept: &InstanceView<'_>,
    database: &DatabaseView<'_>,
    table: &TableSpec,
    key: Option<u64>,
) -> Result<Vec<(u64, Value)>, AllocError>
    ensures { IfOk result (λ rows. (w : World) → Sees w kept.now → ShowsLog w.history database.now → rows.items ≡ selecting.asked_rows key (visible w (database_of database.now) table.now)) }
{
    match key {
        None => seen_rows(alloc, kept, database, table),
        Some(key) => {
            let value = seen_row(kept, database, table, key);
            row_of(alloc, key, value)
        }
    }
}

// What `SELECT` comes to.
pub(crate) fn plan_select(
    kept: &InstanceView<'_>,
    alloc: Global,
    table: &Text,
    key: Option<u64>,
) -> Result<Plan, AllocError>
    ensures plans { IfOk result (λ plan. (line now : ℕ) → Plans kept.now (λ w. Unit {0}) (record { item = script.Rows table.now (row.Select key); line = line }) now plan) }
    ensures keeps { IfOk result KeepsPlan }
{
    match check_table(kept, table) {
        Ok(to) => {
            let rows = Sequence::new(asked_rows(alloc, kept, to.database, to.table, key)?);
            Ok(Plan::Answered {
                reply: Reply::Selected { rows },
            })
        }
        Err(refusal) => refused(refusal),
    }
}
