//! Cells of rows: where a row lies, or may lie.

ghost use Rattle.std.specs.Prelude.{◌≡◌, ◌==◌, List, ℕ, IfOk, MatchOption, Some};
ghost use Rattle.std.specs.List.{find};
ghost use Rattle.bk_ids.specs.declared.record.Place.{Place};
ghost use Rattle.bk_kept.specs.Keeps.{ShowsLog, database_of};
ghost use Rattle.bk_machine.specs.Checks as checks;
ghost use Rattle.bk_machine.specs.Seen.{tables_in};
ghost use Rattle.bk_machine.specs.Sound.{IsSound};
ghost use Rattle.bk_machine.specs.TargetLaws.{IsTarget};
ghost use Rattle.bk_machine.specs.World.{World, log_of};
ghost use Rattle.bk_machine.specs.statements.Target as target;
ghost use Rattle.bk_machine.specs.statements.Target.{MayPlace};
ghost use Rattle.bk_plans.specs.Checking.{IsBrokenBy, IsCheck};
ghost use Rattle.bk_row_plans.specs.Targets.{target_of};
ghost use Rattle.bk_world.specs.Places.{place_of};
ghost use Rattle.bk_world.specs.declared.rule.Rule.TheVariants.{GroupFull};

use bk_ids::{Place, Text};
use bk_kept::DatabaseView;
use bk_machine::groups_are_full_where_no_cell_is_free;
use bk_plans::Refusal;
use bk_shown::placed_logs;
use bk_world::{Rule, TableSpec};
use std::alloc::{AllocError, Global};

// The cell of a row, if it has one.
pub(crate) fn own_cell(database: &DatabaseView<'_>, table: &TableSpec, key: u64) -> Option<Place>
    ensures { (w : World) → ShowsLog w.history database.now → result ≡ place_of (log_of w.history (database_of database.now)) (table.now.number, key) }
{
    database.shown.find(table.number, key)
}

// The cell of a row of a table, or, where it has none, a free one of the table's group; `None` exactly where there is no such cell.
fn cell_for(database: &DatabaseView<'_>, table: &TableSpec, key: u64) -> Option<Place>
    ensures { (w : World) → ShowsLog w.history database.now → find (λ t. t.number == table.now.number) (tables_in w (database_of database.now)) ≡ Some table.now
        → MatchOption result ((at : Place) → ¬ MayPlace w (target_of database.now table.now) (table.now.number, key) at)
        (λ at. MayPlace w (target_of database.now table.now) (table.now.number, key) at) }
{
    placed_logs();
    match own_cell(database, table, key) {
        Some(place) => Some(place),
        None => database.shown.place(table.number),
    }
}

// The name of a filegroup of a database; no letters where it has no such group.
fn group_name(alloc: Global, database: &DatabaseView<'_>, group: u8) -> Result<Text, AllocError>
    ensures { IfOk result (λ name. name ≡ target.group_name (database_of database.now) group) }
{
    let name = match database.groups.as_slice().get(usize::from(group)) {
        Some(name) => name.as_str(),
        None => "",
    };
    Ok(Text::new(String::from_str(alloc, name)?))
}

// The refusal by a filegroup that is full.
fn group_full(alloc: Global, database: &DatabaseView<'_>, group: u8) -> Refusal
    ensures { IsBrokenBy (GroupFull (target.group_name (database_of database.now) group)) result }
{
    match group_name(alloc, database, group) {
        Ok(group) => Refusal::Broken(Rule::GroupFull { group }),
        Err(_) => Refusal::NoMemory,
    }
}

// The cell of a row of a table, its own or a free one; refused where its group is full.
pub(crate) fn check_room(
    alloc: Global,
    database: &DatabaseView<'_>,
    table: &TableSpec,
    key: u64,
) -> Result<Place, Refusal>
    ensures check { (w : World) (name : List ℕ) → IsSound w → ShowsLog w.history database.now → IsTarget w name (target_of database.now table.now)
        → IsCheck (λ at. tt) result
        (checks.refuse_if (target.is_full_for w (target_of database.now table.now) key) (GroupFull (target.group_name (database_of database.now) table.now.group))) }
    ensures cell { (w : World) (name : List ℕ) → IsSound w → ShowsLog w.history database.now → IsTarget w name (target_of database.now table.now)
        → IfOk result (λ at. MayPlace w (target_of database.now table.now) (table.now.number, key) at) }
{
    groups_are_full_where_no_cell_is_free();
    match cell_for(database, table, key) {
        Some(place) => Ok(place),
        None => Err(group_full(alloc, database, table.group)),
    }
}
