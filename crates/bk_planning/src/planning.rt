//! What statements come to.

ghost use Rattle.std.specs.Prelude.{◌≡◌, IfOk};
ghost use Rattle.bk_kept.specs.Numbers.{LeaveNumbers};
ghost use Rattle.bk_plans.specs.Planning.{KeepsPlan, Plans, ReadsNoMedium};

use crate::begin::plan_begin;
use crate::checkpoint::plan_checkpoint;
use crate::commit::plan_commit;
use crate::create_table::plan_create_table;
use crate::drop_database::plan_drop_database;
use crate::job::{plan_start, plan_step};
use crate::rollback::plan_rollback;
use crate::session::plan_session;
use crate::use_database::plan_use;
use bk_items::{ScriptEntry, ScriptItem};
use bk_kept::InstanceView;
use bk_new_plans::plan_create_database;
use bk_plans::Plan;
use bk_row_plans::plan_rows;
use bk_world::Rule;
use std::alloc::{AllocError, Global};

/// What a statement comes to at `now`, in milliseconds since 1970-01-01 00:00:00 UTC, that reads no medium.
pub fn plan(
    kept: &InstanceView<'_>,
    alloc: Global,
    statement: &ScriptEntry,
    now: u64,
) -> Result<Plan, AllocError>
    requires { LeaveNumbers kept.now.databases.items }
    ensures plans { IfOk result (λ plan. ReadsNoMedium statement.now.item → Plans kept.now (λ w. Unit {0}) statement.now now plan) }
    ensures keeps { IfOk result KeepsPlan }
{
    let line = statement.line;
    match &statement.item {
        ScriptItem::CreateDatabase {
            database,
            primary,
            groups,
            log,
        } => plan_create_database(kept, alloc, line, database, primary, groups, log, now),
        ScriptItem::DropDatabase { database } => plan_drop_database(kept, alloc, database),
        ScriptItem::Use { database } => plan_use(kept, alloc, database),
        ScriptItem::CreateTable { table, group } => {
            plan_create_table(kept, alloc, line, table, group, now)
        }
        ScriptItem::Rows { table, statement } => {
            plan_rows(kept, alloc, line, table, statement, now)
        }
        ScriptItem::Begin { transaction } => plan_begin(kept, alloc, line, transaction),
        ScriptItem::Commit => plan_commit(kept, alloc, now),
        ScriptItem::Rollback => plan_rollback(kept, alloc),
        ScriptItem::Checkpoint => plan_checkpoint(kept, alloc, now),
        ScriptItem::Session { number } => plan_session(kept, line, *number),
        ScriptItem::Start => plan_start(kept, alloc),
        ScriptItem::Step { count } => plan_step(kept, alloc, *count),
        ScriptItem::Syntax { line } => Ok(Plan::Refused {
            rule: Rule::Syntax { line: *line },
        }),
        ScriptItem::TooLong => Ok(Plan::Refused {
            rule: Rule::TooLong,
        }),
        _ => Ok(Plan::Refused {
            rule: Rule::NotBuilt { line },
        }),
    }
}
