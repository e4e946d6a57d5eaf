//! What the log of a kept database tells.

ghost use Rattle.std.specs.Prelude.{◌≡◌};
ghost use Rattle.std.specs.List.{find};
ghost use Rattle.std.specs.Option.{option_map};
ghost use Rattle.bk_ids.specs.Name.{same_name};
ghost use Rattle.bk_machine.specs.Acts as acts;

use crate::views::DatabaseView;
use bk_ids::RecoveryModel;
use bk_world::TableSpec;

// The first table of a name, in any case of ASCII letters.
fn first_table<'a>(tables: &'a [TableSpec], name: &str) -> Option<&'a TableSpec>
    ensures { option_map (λ t. t.now) result ≡ find (λ t. same_name t.name name.now) tables.now }
{
    tables
        .iter()
        .find(|t| t.name.as_str().eq_ignore_ascii_case(name))
}

/// Whether a log isn't kept for backups under this model.
pub fn is_simple(model: RecoveryModel) -> bool
    ensures { result ≡ acts.is_simple model }
{
    matches!(model, RecoveryModel::Simple)
}

impl<'a> DatabaseView<'a> {
    ghost use Rattle.std.specs.Prelude.{◌≡◌};
    ghost use Rattle.std.specs.Option.{option_map};
    ghost use Rattle.bk_machine.specs.Acts as acts;
    ghost use Rattle.bk_machine.specs.Checks as checks;
    ghost use Rattle.bk_machine.specs.Seen as seen;
    ghost use Rattle.bk_machine.specs.World.{World, log_of};
    ghost use Rattle.bk_world.specs.Telling as telling;
    ghost use Rattle.bk_kept.specs.Keeps.{ShowsLog, database_of};

    /// Its tables, in the order in which they were made.
    pub fn tables(&self) -> &[TableSpec]
        ensures { (w : World) → ShowsLog w.history self.now → seen.tables_in w (database_of self.now) ≡ result.now }
    {
        self.shown.tables()
    }

    /// The table of this name, in any case of ASCII letters.
    pub fn table_named(&self, name: &str) -> Option<&TableSpec>
        ensures { (w : World) → ShowsLog w.history self.now → option_map (λ t. t.now) result ≡ checks.table_named (seen.tables_in w (database_of self.now)) name.now }
    {
        first_table(self.tables(), name)
    }

    /// Whether its log isn't kept for backups.
    pub fn is_simple(&self) -> bool
        ensures { (w : World) → ShowsLog w.history self.now → result ≡ acts.is_simple (telling.model (log_of w.history (database_of self.now))) }
    {
        is_simple(self.shown.model())
    }
}
