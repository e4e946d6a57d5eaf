//! Databases, refused where there is none.

ghost use Rattle.std.specs.Prelude.{◌≡◌, IfOk};
ghost use Rattle.bk_machine.specs.Checks.{or_refuse};
ghost use Rattle.bk_machine.specs.World.{World, current_database, database_named};
ghost use Rattle.bk_world.specs.declared.rule.Rule.TheVariants.{NoSuchDatabase};
ghost use Rattle.bk_kept.specs.Keeps.{IsSeenOf, Sees, database_of};
ghost use Rattle.bk_plans.specs.Checking.{IsCheck};

use crate::refusal::Refusal;
use bk_kept::{DatabaseView, InstanceView};
use bk_world::Rule;

/// The database of this name, in any case of ASCII letters, refused where there is none.
pub fn named_or_refuse<'a>(
    kept: &'a InstanceView<'a>,
    name: &str,
) -> Result<&'a DatabaseView<'a>, Refusal>
    ensures check { (w : World) → Sees w kept.now → IsCheck (λ d. database_of d.now) result (or_refuse (database_named w.databases name.now) NoSuchDatabase) }
    ensures seen { (w : World) → Sees w kept.now → IfOk result (λ d. IsSeenOf w.history d.now) }
{
    match kept.named(name) {
        Some(database) => Ok(database),
        None => Err(Refusal::Broken(Rule::NoSuchDatabase)),
    }
}

/// The current session's current database, refused where there is none.
pub fn current_or_refuse<'a>(kept: &'a InstanceView<'a>) -> Result<&'a DatabaseView<'a>, Refusal>
    ensures check { (w : World) → Sees w kept.now → IsCheck (λ d. database_of d.now) result (or_refuse (current_database w) NoSuchDatabase) }
    ensures seen { (w : World) → Sees w kept.now → IfOk result (λ d. IsSeenOf w.history d.now) }
{
    match kept.current_database() {
        Some(database) => Ok(database),
        None => Err(Refusal::Broken(Rule::NoSuchDatabase)),
    }
}
