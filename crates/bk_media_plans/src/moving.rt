//! Files of a set that are moved: they are restored to other paths.

ghost use Rattle.std.specs.Prelude.{◌≡◌, map, IfOk};
ghost use Rattle.std.specs.List.{find};
ghost use Rattle.std.specs.Option.{option_map};
ghost use Rattle.bk_ids.specs.Name.{same_name};
ghost use Rattle.bk_machine.specs.statements.Restore as restore;
ghost use Rattle.bk_media_plans.specs.Moves as naming;
ghost use Rattle.bk_media_plans.specs.Moves.{IsNotInSet, move_check};
ghost use Rattle.bk_plans.specs.Checking.{IsCheck};

use bk_ids::{Name, Sequence, Text};
use bk_items::FileMove;
use bk_kept::copy_groups;
use bk_plans::Refusal;
use bk_world::{FileSpec, Header, HeaderFile, Rule};
use std::alloc::{AllocError, Global};

// Whether a move names a file: the names are the same, in any case of ASCII letters.
fn is_named(file: &Name, name: &Text) -> bool
    ensures { result ≡ same_name file.now name.now }
{
    file.as_str().eq_ignore_ascii_case(name.as_str())
}

// Whether a move is of a file of this name.
fn moves_file(file: &FileMove, name: &Name) -> bool
    ensures { result ≡ same_name file.now.name name.now }
{
    file.name.as_str().eq_ignore_ascii_case(name.as_str())
}

// The path to which a file of this name is moved: that of the last move that names it, or its own.
fn moved_path<'a>(moves: &'a [FileMove], name: &Name, own: &'a Text) -> &'a Text
    ensures { result.now ≡ restore.moved_path moves.now name.now own.now }
{
    let mut path = own;
    for file in moves {
        if moves_file(file, name) {
            path = &file.path;
        }
    }
    path
}

// A data file of a set, moved.
fn moved_file(
    alloc: Global,
    moves: &[FileMove],
    file: &HeaderFile,
) -> Result<HeaderFile, AllocError>
    ensures { IfOk result (λ made. made ≡ restore.moved_file moves.now file.now) }
{
    let spec = &file.spec;
    let path = moved_path(moves, &spec.name, &spec.path).copy(alloc)?;
    let spec = FileSpec {
        number: spec.number,
        group: spec.group,
        extents: spec.extents,
        name: spec.name.copy(alloc)?,
        path,
    };
    Ok(HeaderFile {
        spec,
        in_set: file.in_set,
    })
}

// The data files of a set, each moved.
fn moved_files(
    alloc: Global,
    moves: &[FileMove],
    files: &[HeaderFile],
) -> Result<Sequence<HeaderFile>, AllocError>
    ensures { IfOk result (λ made. made ≡ map (restore.moved_file moves.now) files.now) }
{
    let mut made = Vec::new(alloc);
    for file in files {
        made.push(moved_file(alloc, moves, file)?)?;
    }
    Ok(Sequence::new(made))
}

// Whether a data file of a set has this name.
fn names_file(header: &Header, name: &str) -> bool
    ensures { result ≡ restore.names_file header.now name.now }
{
    header
        .files
        .as_slice()
        .iter()
        .any(|file| file.spec.name.as_str().eq_ignore_ascii_case(name))
}

// The path to which the log of a set is moved: a name that a data file has means that one.
fn moved_log<'a>(moves: &'a [FileMove], header: &'a Header) -> &'a Text
    ensures { result.now ≡ restore.moved_log moves.now header.now }
{
    if names_file(header, header.log_name.as_str()) {
        &header.log_path
    } else {
        moved_path(moves, &header.log_name, &header.log_path)
    }
}

// A header with these names, files and log path in place of its own.
fn renamed(
    alloc: Global,
    header: &Header,
    files: Sequence<HeaderFile>,
    log_path: Text,
) -> Result<Header, AllocError>
    ensures { IfOk result (λ made. made ≡ record header.now { files = files; log_path = log_path }) }
{
    Ok(Header {
        version: header.version,
        kind: header.kind,
        model: header.model,
        copy_only: header.copy_only,
        bulk: header.bulk,
        begins_chain: header.begins_chain,
        checksums: header.checksums,
        set: header.set,
        family: header.family,
        first: header.first,
        checkpoint: header.checkpoint,
        last: header.last,
        database_backup: header.database_backup,
        base: header.base,
        start: header.start,
        finish: header.finish,
        expiry: header.expiry,
        database: header.database.copy(alloc)?,
        name: header.name.copy(alloc)?,
        path: header.path.copy(alloc)?,
        groups: copy_groups(alloc, header.groups.as_slice())?,
        files,
        log_name: header.log_name.copy(alloc)?,
        log_path,
    })
}

// The header of a set as it is restored, with its files at the paths to which they are moved.
pub(crate) fn moved(
    alloc: Global,
    moves: &[FileMove],
    header: &Header,
) -> Result<Header, AllocError>
    ensures { IfOk result (λ made. made ≡ restore.moved moves.now header.now) }
{
    let files = moved_files(alloc, moves, header.files.as_slice())?;
    let log_path = moved_log(moves, header).copy(alloc)?;
    renamed(alloc, header, files, log_path)
}

// Whether a move names no file of a set.
fn is_lost(header: &Header, file: &FileMove) -> bool
    ensures { result ≡ naming.is_lost header.now file.now }
{
    !names_file(header, file.name.as_str()) && !is_named(&header.log_name, &file.name)
}

// The first move that names no file of a set.
fn first_lost<'a>(header: &Header, moves: &'a [FileMove]) -> Option<&'a FileMove>
    ensures { option_map (λ m. m.now) result ≡ find (naming.is_lost header.now) moves.now }
{
    moves.iter().find(|file| is_lost(header, *file))
}

// The refusal by a name that no file of a set has.
fn not_in_set(alloc: Global, name: &Text) -> Refusal
    ensures { IsNotInSet name.now result }
{
    match name.copy(alloc) {
        Ok(unit) => Refusal::Broken(Rule::UnitNotInSet { unit }),
        Err(_) => Refusal::NoMemory,
    }
}

// Refused at a move, if one was found.
fn refuse_move(alloc: Global, found: Option<&FileMove>) -> Result<(), Refusal>
    ensures { IsCheck (λ u. u) result (move_check (option_map (λ m. m.now) found.entry)) }
{
    match found {
        Some(file) => Err(not_in_set(alloc, &file.name)),
        None => Ok(()),
    }
}

// The moves, each of which has to name a file of the set.
pub(crate) fn check_moves(alloc: Global, header: &Header, moves: &[FileMove]) -> Result<(), Refusal>
    ensures { IsCheck (λ u. u) result (restore.check_moves header.now moves.now) }
{
    refuse_move(alloc, first_lost(header, moves))
}
