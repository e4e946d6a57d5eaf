//! Looking for databases.

ghost use Rattle.std.specs.Prelude.{◌≡◌};
ghost use Rattle.std.specs.List.{find};
ghost use Rattle.std.specs.Option.{option_map};
ghost use Rattle.bk_ids.specs.Name.{same_name};

use crate::views::{DatabaseView, InstanceView};
use bk_machine::Job;

// The first database of a name, in any case of ASCII letters.
fn first_named<'a>(databases: &'a [DatabaseView<'a>], name: &str) -> Option<&'a DatabaseView<'a>>
    ensures { option_map (λ d. d.now) result ≡ find (λ d. same_name d.name name.now) databases.now }
{
    databases
        .iter()
        .find(|d| d.name.as_str().eq_ignore_ascii_case(name))
}

impl<'a> InstanceView<'a> {
    ghost use Rattle.std.specs.Prelude.{◌≡◌, IfSome};
    ghost use Rattle.std.specs.Option.{option_map};
    ghost use Rattle.bk_machine.specs.World.{World, database_named, current_database};
    ghost use Rattle.bk_machine.specs.Writes.{current_job};
    ghost use Rattle.bk_kept.specs.Keeps.{IsSeenOf, Sees, database_of};

    /// The database of this name, in any case of ASCII letters.
    pub fn named(&'a self, name: &str) -> Option<&'a DatabaseView<'a>>
        ensures found { (w : World) → Sees w self.now → option_map (λ d. database_of d.now) result ≡ database_named w.databases name.now }
        ensures seen { (w : World) → Sees w self.now → IfSome result (λ d. IsSeenOf w.history d.now) }
    {
        first_named(&self.databases, name)
    }

    /// The current session's current database.
    pub fn current_database(&'a self) -> Option<&'a DatabaseView<'a>>
        ensures found { (w : World) → Sees w self.now → option_map (λ d. database_of d.now) result ≡ current_database w }
        ensures seen { (w : World) → Sees w self.now → IfSome result (λ d. IsSeenOf w.history d.now) }
    {
        let name = self.current()?;
        self.named(name.as_str())
    }

    /// The backup of the current session's current database, if one runs.
    pub fn job(&'a self) -> Option<&'a Job>
        ensures { (w : World) → Sees w self.now → option_map (λ job. job.now) result ≡ current_job w }
    {
        let database = self.current_database()?;
        database.job.as_ref()
    }
}
