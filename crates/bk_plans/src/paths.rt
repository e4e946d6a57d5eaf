//! Paths of data files that are in use.

ghost use Rattle.std.specs.Prelude.{◌≡◌, ◌&&◌, not, map};
ghost use Rattle.std.specs.List.{list_any};
ghost use Rattle.bk_ids.specs.Name.{same_name};
ghost use Rattle.bk_machine.specs.Checks.{has_path, paths_of, others};
ghost use Rattle.bk_kept.specs.Keeps.{database_of};
ghost use Rattle.bk_plans.specs.Checking.{IsInUse};
ghost use Rattle.bk_plans.specs.Paths as paths;

use crate::refusal::Refusal;
use bk_ids::Text;
use bk_kept::DatabaseView;
use bk_world::Rule;
use std::alloc::Global;

// Whether a data file of a database has a path.
fn has_file(database: &DatabaseView<'_>, path: &str) -> bool
    ensures { result ≡ paths.has_file database.now.files path.now }
{
    let files = database.files.as_slice();
    files.iter().any(|file| file.path.as_str() == path)
}

// Whether one of some databases has a file with a path.
fn any_has_file(databases: &[DatabaseView<'_>], path: &str) -> bool
    ensures { result ≡ list_any (λ d. paths.has_file d.files path.now) databases.now }
{
    databases.iter().any(|database| has_file(database, path))
}

// Whether one of some databases of another name has a file with a path.
fn any_other_has_file(databases: &[DatabaseView<'_>], name: &str, path: &str) -> bool
    ensures { result ≡ list_any (λ d. not (same_name d.name name.now) && paths.has_file d.files path.now) databases.now }
{
    databases.iter().any(|database| {
        !database.name.as_str().eq_ignore_ascii_case(name) && has_file(database, path)
    })
}

/// Whether a path of a data file is in use.
pub fn is_in_use(databases: &[DatabaseView<'_>], path: &str) -> bool
    ensures { result ≡ has_path (paths_of (map database_of databases.now)) path.now }
{
    any_has_file(databases, path)
}

/// Whether a path of a data file is in use by a database of another name.
pub fn is_in_use_by_others(databases: &[DatabaseView<'_>], name: &str, path: &str) -> bool
    ensures { result ≡ has_path (paths_of (others (map database_of databases.now) name.now)) path.now }
{
    any_other_has_file(databases, name, path)
}

/// The refusal by a name or a path that is in use.
pub fn taken(alloc: Global, what: &str) -> Refusal
    ensures { IsInUse what.now result }
{
    match String::from_str(alloc, what) {
        Ok(what) => Refusal::Broken(Rule::FileInUse {
            what: Text::new(what),
        }),
        Err(_) => Refusal::NoMemory,
    }
}

/// The refusal by a path that is in use.
pub fn in_use(alloc: Global, path: &Text) -> Refusal
    ensures { IsInUse path.now result }
{
    taken(alloc, path.as_str())
}
