//! The checks of a whole restore, by the header of its set.

ghost use Rattle.std.specs.Prelude.{◌≡◌, [], map, IfSome};
ghost use Rattle.std.specs.List.{find};
ghost use Rattle.std.specs.Option.{option_map};
ghost use Rattle.bk_machine.specs.Checks as checks;
ghost use Rattle.bk_machine.specs.Checks.{has_path, paths_of, others};
ghost use Rattle.bk_machine.specs.World.{World, database_named};
ghost use Rattle.bk_machine.specs.statements.Restore as restore;
ghost use Rattle.bk_kept.specs.Keeps.{IsSeenOf, Sees, database_of};
ghost use Rattle.bk_plans.specs.Checking.{IsCheck};
ghost use Rattle.bk_media_plans.specs.SetPaths as paths;
ghost use Rattle.bk_media_plans.specs.SetPaths.{file_check};

use crate::moving::check_moves;
use bk_ids::Text;
use bk_items::RestoreOptions;
use bk_kept::{DatabaseView, InstanceView, used_up};
use bk_plans::{
    MOST_DATABASES, Refusal, in_use, is_in_use_by_others, limit, refuse_if, unused, without_job,
};
use bk_world::{Header, HeaderFile, Limit, Rule, Status};
use std::alloc::Global;

// How many branches a path has before no more are added.
const MOST_BRANCHES: usize = 64;

// The database isn't there, or no session has an open transaction in it and no backup of it runs.
fn check_unused(named: Option<&DatabaseView<'_>>) -> Result<(), Refusal>
    ensures { IsCheck (λ u. u) result (restore.check_unused (option_map (λ d. database_of d.now) named.entry)) }
{
    match named {
        Some(database) => {
            unused(database)?;
            without_job(database)
        }
        None => Ok(()),
    }
}

// A set of another family, unless the database may be replaced.
fn check_family(
    named: Option<&DatabaseView<'_>>,
    replace: bool,
    header: &Header,
) -> Result<(), Refusal>
    ensures { IsCheck (λ u. u) result (restore.check_family (option_map (λ d. database_of d.now) named.entry) replace header.now) }
{
    match named {
        Some(d) if !replace && d.family != header.family => Err(Refusal::Broken(
            Rule::OtherFamily {
                database: d.family,
                set: header.family,
            },
        )),
        _ => Ok(()),
    }
}

// Whether the end of a database's log isn't backed up, and would be lost with the database.
fn has_tail(database: &DatabaseView<'_>) -> bool
    ensures { (w : World) → IsSeenOf w.history database.now → result ≡ restore.has_tail w (database_of database.now) }
{
    matches!(database.status, Status::Online)
        && !database.is_simple()
        && database.chain
        && database.archive < database.shown.end()
}

// The end of the log isn't backed up, unless the database may be replaced.
fn check_tail(named: Option<&DatabaseView<'_>>, replace: bool) -> Result<(), Refusal>
    ensures { (w : World) → IfSome named.entry (λ d. IsSeenOf w.history d.now)
        → IsCheck (λ u. u) result (restore.check_tail w (option_map (λ d. database_of d.now) named.entry) replace) }
{
    match named {
        Some(d) if has_tail(d) && !replace => Err(Refusal::Broken(Rule::TailNotBackedUp {
            archive: d.archive,
            end: d.shown.end(),
        })),
        _ => Ok(()),
    }
}

// One database more than there may be, where the one that is restored isn't there.
fn check_number(
    databases: &[DatabaseView<'_>],
    named: Option<&DatabaseView<'_>>,
) -> Result<(), Refusal>
    ensures { IsCheck (λ u. u) result (restore.check_number (map database_of databases.now) (option_map (λ d. database_of d.now) named.entry)) }
{
    match named {
        None if databases.len() >= MOST_DATABASES => Err(Refusal::Broken(Rule::LimitReached {
            which: Limit::Databases,
        })),
        _ => Ok(()),
    }
}

// Whether one of some files has a path.
fn stands(files: &[HeaderFile], path: &str) -> bool
    ensures { result ≡ paths.stands files.now path.now }
{
    files.iter().any(|file| file.spec.path.as_str() == path)
}

// The first file of a set whose path a database of another name uses.
fn first_used<'a>(
    databases: &[DatabaseView<'_>],
    name: &str,
    files: &'a [HeaderFile],
) -> Option<&'a HeaderFile>
    ensures { option_map (λ f. f.now) result ≡ find (λ f. has_path (paths_of (others (map database_of databases.now) name.now)) f.spec.path) files.now }
{
    files.iter().find(|file| is_in_use_by_others(databases, name, file.spec.path.as_str()))
}

// The first file of a set whose path one before it has.
fn first_repeated(files: &[HeaderFile]) -> Option<&HeaderFile>
    ensures { option_map (λ f. f.now) result ≡ paths.first_repeated [] files.now }
{
    for (i, file) in files.iter().enumerate() {
        if stands(&files[..i], file.spec.path.as_str()) {
            return Some(file);
        }
    }
    None
}

// Refused at a file, if one was found.
fn refuse_file(alloc: Global, found: Option<&HeaderFile>) -> Result<(), Refusal>
    ensures { IsCheck (λ u. u) result (file_check (option_map (λ f. f.now) found.entry)) }
{
    match found {
        Some(file) => Err(in_use(alloc, &file.spec.path)),
        None => Ok(()),
    }
}

// The paths of a set's files, which no database of another name may have.
fn free_paths(
    alloc: Global,
    databases: &[DatabaseView<'_>],
    name: &str,
    files: &[HeaderFile],
) -> Result<(), Refusal>
    ensures { IsCheck (λ u. u) result (checks.free_paths (paths_of (others (map database_of databases.now) name.now)) (map (λ f. f.spec.path) files.now)) }
{
    refuse_file(alloc, first_used(databases, name, files))
}

// The paths of a set's files, no two of which may be the same.
fn different_paths(alloc: Global, files: &[HeaderFile]) -> Result<(), Refusal>
    ensures { IsCheck (λ u. u) result (checks.different_paths [] (map (λ f. f.spec.path) files.now)) }
{
    refuse_file(alloc, first_repeated(files))
}

// Whether the files of a set may be used, its path can take a branch more, and numbers are left.
#[tactic(auto, unfolding(bk_machine::specs::statements::Restore::check_room))]
fn check_room(
    kept: &InstanceView<'_>,
    alloc: Global,
    name: &Text,
    header: &Header,
) -> Result<(), Refusal>
    ensures { (w : World) → Sees w kept.now → IsCheck (λ u. header.now) result (restore.check_room w name.now header.now) }
{
    let files = header.files.as_slice();
    free_paths(alloc, &kept.databases, name.as_str(), files)?;
    different_paths(alloc, files)?;
    refuse_if(
        header.path.as_slice().len() >= MOST_BRANCHES,
        Rule::PathFull,
    )?;
    limit(used_up(header.last) || used_up(kept.counter))
}

// The database of this name, if there is one.
fn named_in<'a>(kept: &'a InstanceView<'a>, name: &Text) -> Option<&'a DatabaseView<'a>>
    ensures found { (w : World) → Sees w kept.now → option_map (λ d. database_of d.now) result ≡ database_named w.databases name.now }
    ensures seen { (w : World) → Sees w kept.now → IfSome result (λ d. IsSeenOf w.history d.now) }
{
    let database = kept.named(name.as_str())?;
    Some(database)
}

// Whether the set with this header, whose files are moved so, may take the place of the database of this name, or come behind the others.
#[tactic(auto, unfolding(bk_machine::specs::statements::Restore::check_set))]
pub(crate) fn check_set(
    kept: &InstanceView<'_>,
    alloc: Global,
    name: &Text,
    options: &RestoreOptions,
    header: &Header,
    moved: &Header,
) -> Result<(), Refusal>
    requires { moved.now ≡ restore.moved options.now.moves header.now }
    ensures { (w : World) → Sees w kept.now → IsCheck (λ u. moved.now) result (restore.check_set w name.now options.now header.now) }
{
    let named = named_in(kept, name);
    check_unused(named)?;
    check_family(named, options.replace, header)?;
    check_moves(alloc, header, options.moves.as_slice())?;
    check_tail(named, options.replace)?;
    check_number(&kept.databases, named)?;
    check_room(kept, alloc, name, moved)
}
