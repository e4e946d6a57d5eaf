//! Tables of the current database, refused where there is none.

ghost use Rattle.std.specs.Prelude.{◌≡◌, IfOk};
ghost use Rattle.bk_machine.specs.Checks.{or_refuse, table_named};
ghost use Rattle.bk_machine.specs.Seen.{tables_in};
ghost use Rattle.bk_machine.specs.TargetLaws.{IsTarget};
ghost use Rattle.bk_machine.specs.World.{World};
ghost use Rattle.bk_machine.specs.statements.Target as target;
ghost use Rattle.bk_world.specs.declared.rule.Rule.TheVariants.{NoSuchTable};
ghost use Rattle.bk_kept.specs.Keeps.{Sees, ShowsLog, database_of};
ghost use Rattle.bk_plans.specs.Checking.{IsCheck};
ghost use Rattle.bk_row_plans.specs.Targets.{target_of};

use bk_ids::Text;
use bk_kept::{DatabaseView, InstanceView};
use bk_plans::{Refusal, current_or_refuse, online};
use bk_world::{Rule, TableSpec};

/// A table of a database.
#[derive(Clone, Copy)]
pub(crate) struct Target<'a> {
    pub database: &'a DatabaseView<'a>,
    pub table: &'a TableSpec,
}

// A table of a database by its name, refused where there is none.
fn table_or_refuse<'a>(database: &'a DatabaseView<'a>, name: &str) -> Result<&'a TableSpec, Refusal>
    ensures { (w : World) → ShowsLog w.history database.now
        → IsCheck (λ t. t.now) result (or_refuse (table_named (tables_in w (database_of database.now)) name.now) NoSuchTable) }
{
    match database.table_named(name) {
        Some(table) => Ok(table),
        None => Err(Refusal::Broken(Rule::NoSuchTable)),
    }
}

// The table of this name in the current database, which is online.
#[tactic(auto, unfolding(bk_machine::specs::statements::Target::check_table))]
pub(crate) fn check_table<'a>(
    kept: &'a InstanceView<'a>,
    name: &Text,
) -> Result<Target<'a>, Refusal>
    ensures check { (w : World) → Sees w kept.now → IsCheck (λ t. target_of t.database.now t.table.now) result (target.check_table w name.now) }
    ensures shows { (w : World) → Sees w kept.now → IfOk result (λ t. ShowsLog w.history t.database.now) }
    ensures its { (w : World) → Sees w kept.now → IfOk result (λ t. IsTarget w name.now (target_of t.database.now t.table.now)) }
{
    let current = current_or_refuse(kept)?;
    let database = online(current)?;
    let table = table_or_refuse(database, name.as_str())?;
    Ok(Target { database, table })
}
