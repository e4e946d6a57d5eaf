//! `DROP DATABASE`: its check and its plan.

ghost use Rattle.std.specs.Prelude.{◌≡◌, ℕ, IfOk};
ghost use Rattle.bk_items.specs.declared.item.ScriptItem.TheVariants as script;
ghost use Rattle.bk_machine.specs.World.{World};
ghost use Rattle.bk_machine.specs.statements.DropDatabase as dropping;
ghost use Rattle.bk_kept.specs.Keeps.{Sees, database_of};
ghost use Rattle.bk_plans.specs.Checking.{IsCheck};
ghost use Rattle.bk_plans.specs.Planning.{KeepsPlan, Plans};

use bk_acts::StoredAct;
use bk_ids::Text;
use bk_kept::{DatabaseView, InstanceView};
use bk_machine::statements_do_what_they_may;
use bk_plans::{Plan, Refusal, named_or_refuse, outside, refused, stored, unused, without_job};
use bk_world::Reply;
use std::alloc::{AllocError, Global};

// The database that `DROP DATABASE` drops.
#[tactic(auto, unfolding(bk_machine::specs::statements::DropDatabase::check_drop_database))]
fn check_drop_database<'a>(
    kept: &'a InstanceView<'a>,
    name: &Text,
) -> Result<&'a DatabaseView<'a>, Refusal>
    ensures check { (w : World) → Sees w kept.now → IsCheck (λ d. database_of d.now) result (dropping.check_drop_database w name.now) }
{
    outside(kept)?;
    let database = named_or_refuse(kept, name.as_str())?;
    unused(database)?;
    without_job(database)?;
    Ok(database)
}

// What `DROP DATABASE` comes to, on any line and at any time.
pub(crate) fn plan_drop_database(
    kept: &InstanceView<'_>,
    alloc: Global,
    name: &Text,
) -> Result<Plan, AllocError>
    ensures plans { IfOk result (λ plan. (line now : ℕ) → Plans kept.now (λ w. Unit {0}) (record { item = script.DropDatabase name.now; line = line }) now plan) }
    ensures keeps { IfOk result KeepsPlan }
{
    statements_do_what_they_may();
    match check_drop_database(kept, name) {
        Ok(database) => {
            let name = database.name.copy(alloc)?;
            stored(alloc, StoredAct::Dropped { name }, Reply::Done)
        }
        Err(refusal) => refused(refusal),
    }
}
