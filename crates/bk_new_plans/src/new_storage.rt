//! The filegroups, data files and log of a new database.

ghost use Rattle.std.specs.Prelude.{◌≡◌, true, codes, map, IfOk};
ghost use Rattle.std.specs.List.{list_all, list_any};
ghost use Rattle.std.specs.Option.{option_map};
ghost use Rattle.std.specs.Str.{bytes_eq};
ghost use Rattle.bk_machine.specs.Fits.{FitsStorage};
ghost use Rattle.bk_ids.specs.Name.{same_name};
ghost use Rattle.bk_kept.specs.Keeps.{database_of};
ghost use Rattle.bk_machine.specs.statements.CreateDatabase as create;
ghost use Rattle.bk_plans.specs.Checking.{IsCheck};

use crate::log_name::log_names;
use crate::new_files::{extents_in, has_too_many_files, new_files};
use bk_ids::{Name, Sequence, Text};
use bk_items::{NewFile, NewGroup};
use bk_kept::DatabaseView;
use bk_plans::{MOST_GROUPS, Refusal, is_in_use, is_name, is_path, name_in, refuse_if, taken};
use bk_world::{FileSpec, Limit, Rule, Storage};
use std::alloc::{AllocError, Global};

// How many extents a database has at most.
const MOST_EXTENTS: u64 = 4096;

// Names and paths.

fn is_named_file(file: &NewFile) -> bool
    ensures { result ≡ create.is_named_file file.now }
{
    is_name(file.name.as_str()) && is_path(file.path.as_str())
}

fn are_named_files(files: &[NewFile]) -> bool
    ensures { result ≡ list_all create.is_named_file files.now }
{
    files.iter().all(is_named_file)
}

fn is_named_group(group: &NewGroup) -> bool
    ensures { result ≡ create.is_named_group group.now }
{
    is_name(group.name.as_str()) && are_named_files(group.files.as_slice())
}

fn are_named_groups(groups: &[NewGroup]) -> bool
    ensures { result ≡ list_all create.is_named_group groups.now }
{
    groups.iter().all(is_named_group)
}

fn is_named_log(log: &Option<NewFile>) -> bool
    ensures { result ≡ create.is_named_log log.now }
{
    match log {
        Some(file) => is_named_file(file),
        None => true,
    }
}

// Whether all names of a new database have 1 to 64 bytes, and all its paths 1 to 100.
pub(crate) fn are_named(
    name: &str,
    primary: &[NewFile],
    groups: &[NewGroup],
    log: &Option<NewFile>,
) -> bool
    ensures { result ≡ create.are_named name.now primary.now groups.now log.now }
{
    is_name(name) && are_named_files(primary) && are_named_groups(groups) && is_named_log(log)
}

// Limits.

// The first filegroup.
fn primary_name(alloc: Global) -> Result<Name, AllocError>
    ensures { IfOk result (λ name. name ≡ codes "PRIMARY") }
{
    // 1 to 64 bytes: memory alone may be wanting
    Name::new(alloc, "PRIMARY").map_err(|_| AllocError)
}

// The filegroups of a new database.
fn new_groups(alloc: Global, groups: &[NewGroup]) -> Result<Sequence<Name>, AllocError>
    requires { list_all create.is_named_group groups.now ≡ true }
    ensures { IfOk result (λ names. names ≡ create.new_groups groups.now) }
{
    let mut names = vec![in alloc; primary_name(alloc)?]?;
    for group in groups {
        names.push(name_in(alloc, &group.name)?)?;
    }
    Ok(Sequence::new(names))
}

// These files, with the filegroups and the log of a new database.
fn with_files(
    alloc: Global,
    name: &Text,
    files: Vec<FileSpec>,
    groups: &[NewGroup],
    log: &Option<NewFile>,
) -> Result<Storage, AllocError>
    requires groups { list_all create.is_named_group groups.now ≡ true }
    requires log { create.is_named_log log.now ≡ true }
    ensures { IfOk result (λ s. s ≡ record {
      groups = create.new_groups groups.now;
      files = files.items;
      log_name = create.new_log_name name.now log.now;
      log_path = create.new_log_path name.now log.now;
    }) }
{
    let groups = new_groups(alloc, groups)?;
    let (log_name, log_path) = log_names(alloc, name, log)?;
    Ok(Storage {
        groups,
        files: Sequence::new(files),
        log_name,
        log_path,
    })
}

// The filegroups, data files and log of a new database, refused where there are too many files, filegroups or extents.
#[tactic(auto, unfolding(bk_machine::specs::statements::CreateDatabase::check_limits))]
pub(crate) fn storage_within(
    alloc: Global,
    name: &Text,
    primary: &[NewFile],
    groups: &[NewGroup],
    log: &Option<NewFile>,
) -> Result<Storage, Refusal>
    requires { create.are_named name.now primary.now groups.now log.now ≡ true }
    ensures check { IsCheck (λ s. tt) result (create.check_limits (create.new_storage name.now primary.now groups.now log.now)) }
    ensures is { IfOk result (λ s. s ≡ create.new_storage name.now primary.now groups.now log.now) }
    ensures fits { IfOk result FitsStorage }
{
    refuse_if(
        has_too_many_files(primary, groups),
        Rule::LimitReached {
            which: Limit::Files,
        },
    )?;
    refuse_if(
        groups.len() >= MOST_GROUPS,
        Rule::LimitReached {
            which: Limit::Groups,
        },
    )?;
    let files = new_files(alloc, name, primary, groups)?;
    refuse_if(
        extents_in(&files) > MOST_EXTENTS,
        Rule::LimitReached {
            which: Limit::Extents,
        },
    )?;
    Ok(with_files(alloc, name, files, groups, log)?)
}

// What is in use.

// The first file whose path a file of a database has.
fn used_file<'a>(databases: &[DatabaseView<'_>], files: &'a [FileSpec]) -> Option<&'a FileSpec>
    ensures { option_map (λ f. f.now) result ≡ create.used_file (map database_of databases.now) files.now }
{
    files
        .iter()
        .find(|file| is_in_use(databases, file.path.as_str()))
}

fn has_name(files: &[FileSpec], name: &Name) -> bool
    ensures { result ≡ list_any (λ f. same_name name.now f.name) files.now }
{
    files.iter().any(|file| name.same(&file.name))
}

// The first file that has the name of one behind it.
fn namesake(files: &[FileSpec]) -> Option<&FileSpec>
    ensures { option_map (λ f. f.now) result ≡ create.namesake files.now }
{
    for (i, file) in files.iter().enumerate() {
        if has_name(&files[i + 1..], &file.name) {
            return Some(file);
        }
    }
    None
}

fn has_group(groups: &[Name], name: &Name) -> bool
    ensures { result ≡ list_any (same_name name.now) groups.now }
{
    groups.iter().any(|group| name.same(group))
}

// The first filegroup that has the name of one behind it.
fn same_group(groups: &[Name]) -> Option<&Name>
    ensures { option_map (λ g. g.now) result ≡ create.repeated same_name groups.now }
{
    for (i, group) in groups.iter().enumerate() {
        if has_group(&groups[i + 1..], group) {
            return Some(group);
        }
    }
    None
}

fn has_path(files: &[FileSpec], path: &Text) -> bool
    ensures { result ≡ list_any (λ f. bytes_eq path.now f.path) files.now }
{
    let path = path.as_str();
    files.iter().any(|file| path == file.path.as_str())
}

// The first file that has the path of one behind it.
fn same_path(files: &[FileSpec]) -> Option<&FileSpec>
    ensures { option_map (λ f. f.now) result ≡ create.same_path files.now }
{
    for (i, file) in files.iter().enumerate() {
        if has_path(&files[i + 1..], &file.path) {
            return Some(file);
        }
    }
    None
}

// Refused by the path of a file, if one was found.
fn refuse_path(alloc: Global, found: Option<&FileSpec>) -> Result<(), Refusal>
    ensures { IsCheck (λ u. u) result (create.refuse_found (option_map (λ f. f.path) (option_map (λ f. f.now) found.entry))) }
{
    match found {
        Some(file) => Err(taken(alloc, file.path.as_str())),
        None => Ok(()),
    }
}

// Refused by the name of a file, if one was found.
fn refuse_name(alloc: Global, found: Option<&FileSpec>) -> Result<(), Refusal>
    ensures { IsCheck (λ u. u) result (create.refuse_found (option_map (λ f. f.name) (option_map (λ f. f.now) found.entry))) }
{
    match found {
        Some(file) => Err(taken(alloc, file.name.as_str())),
        None => Ok(()),
    }
}

// Refused by the name of a filegroup, if one was found.
fn refuse_group(alloc: Global, found: Option<&Name>) -> Result<(), Refusal>
    ensures { IsCheck (λ u. u) result (create.refuse_found (option_map (λ g. g.now) found.entry)) }
{
    match found {
        Some(group) => Err(taken(alloc, group.as_str())),
        None => Ok(()),
    }
}

// Refused where a path is in use, or two files or filegroups are alike.
#[tactic(auto, unfolding(bk_machine::specs::statements::CreateDatabase::check_in_use))]
pub(crate) fn check_in_use(
    alloc: Global,
    databases: &[DatabaseView<'_>],
    storage: &Storage,
) -> Result<(), Refusal>
    ensures { IsCheck (λ u. u) result (create.check_in_use (map database_of databases.now) storage.now) }
{
    let files = storage.files.as_slice();
    refuse_path(alloc, used_file(databases, files))?;
    refuse_name(alloc, namesake(files))?;
    refuse_group(alloc, same_group(storage.groups.as_slice()))?;
    refuse_path(alloc, same_path(files))
}
