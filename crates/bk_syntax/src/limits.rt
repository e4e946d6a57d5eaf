//! Lengths above their limits, and where reading goes on behind a fault.

ghost use Rattle.std.specs.Prelude.{◌≡◌};
ghost use Rattle.std.specs.List.{list_any};
ghost use Rattle.bk_syntax.specs.Limits as spec;

use bk_ids::Text;
use bk_items::{
    Ending, FileMove, NewFile, NewGroup, RestoreOptions, RestoredUnits, ScriptItem, UnitName,
};
use bk_token::{Kind, Token};

fn long_name(name: &Text) -> bool
    ensures { result ≡ spec.long_name name.now }
{
    name.as_str().len() > 64
}

fn long_path(path: &Text) -> bool
    ensures { result ≡ spec.long_path path.now }
{
    path.as_str().len() > 100
}

fn long_file(file: &NewFile) -> bool
    ensures { result ≡ spec.long_file file.now }
{
    long_name(&file.name) || long_path(&file.path)
}

fn long_files(files: &[NewFile]) -> bool
    ensures { result ≡ list_any spec.long_file files.now }
{
    files.iter().any(|file| long_file(file))
}

fn long_group(group: &NewGroup) -> bool
    ensures { result ≡ spec.long_group group.now }
{
    long_name(&group.name) || long_files(group.files.as_slice())
}

fn long_groups(groups: &[NewGroup]) -> bool
    ensures { result ≡ list_any spec.long_group groups.now }
{
    groups.iter().any(|group| long_group(group))
}

fn long_unit(unit: &UnitName) -> bool
    ensures { result ≡ spec.long_unit unit.now }
{
    match unit {
        UnitName::File(name) => long_name(name),
        UnitName::Group(name) => long_name(name),
    }
}

fn long_units(units: &[UnitName]) -> bool
    ensures { result ≡ list_any spec.long_unit units.now }
{
    units.iter().any(|unit| long_unit(unit))
}

fn long_restored(units: &RestoredUnits) -> bool
    ensures { result ≡ spec.long_units units.now }
{
    match units {
        RestoredUnits::Named { units } => long_units(units.as_slice()),
        RestoredUnits::Pages { .. } => false,
    }
}

fn long_disk(disk: &Option<Text>) -> bool
    ensures { result ≡ spec.long_disk disk.now }
{
    match disk {
        Some(path) => long_path(path),
        None => false,
    }
}

fn long_ending(ending: &Option<Ending>) -> bool
    ensures { result ≡ spec.long_ending ending.now }
{
    match ending {
        Some(Ending::Standby { path }) => long_path(path),
        _ => false,
    }
}

fn long_move(file: &FileMove) -> bool
    ensures { result ≡ spec.long_move file.now }
{
    long_name(&file.name) || long_path(&file.path)
}

fn long_moves(moves: &[FileMove]) -> bool
    ensures { result ≡ list_any spec.long_move moves.now }
{
    moves.iter().any(|file| long_move(file))
}

fn long_options(options: &RestoreOptions) -> bool
    ensures { result ≡ spec.long_options options.now }
{
    long_ending(&options.ending) || long_moves(options.moves.as_slice())
}

/// A name or a path of the item is above its limit.
#[tactic(auto, unfolding(crate::specs::Limits::is_long))]
pub fn is_long(item: &ScriptItem) -> bool
    ensures { result ≡ spec.is_long item.now }
{
    match item {
        ScriptItem::CreateDatabase {
            database,
            primary,
            groups,
            log,
        } => {
            long_name(database)
                || long_files(primary.as_slice())
                || long_groups(groups.as_slice())
                || match log {
                    Some(file) => long_file(file),
                    None => false,
                }
        }
        ScriptItem::BackupDatabase {
            database,
            units,
            disk,
            ..
        } => long_name(database) || long_units(units.as_slice()) || long_path(disk),
        ScriptItem::BackupLog { database, disk, .. } => long_name(database) || long_path(disk),
        ScriptItem::RestoreDatabase {
            database,
            units,
            disk,
            options,
        } => {
            long_name(database) || long_restored(units) || long_disk(disk) || long_options(options)
        }
        ScriptItem::RestoreLog {
            database,
            disk,
            options,
        } => long_name(database) || long_disk(disk) || long_options(options),
        ScriptItem::QueryMedium { disk, .. } => long_path(disk),
        ScriptItem::CreateTable { table, group } => {
            long_name(table)
                || match group {
                    Some(group) => long_name(group),
                    None => false,
                }
        }
        ScriptItem::Rows { table, .. } => long_name(table),
        ScriptItem::Begin { transaction } => match transaction {
            Some(transaction) => long_name(&transaction.name),
            None => false,
        },
        ScriptItem::Use { database } => long_name(database),
        ScriptItem::SetRecovery { database, .. } => long_name(database),
        ScriptItem::DropDatabase { database } => long_name(database),
        _ => false,
    }
}

/// The token ends a statement: a semicolon, or GO alone on its line.
pub fn ends(token: &Token) -> bool
    ensures { result ≡ spec.ends token.now.kind }
{
    token.kind == Kind::Sign(b';') || token.kind == Kind::Go
}

/// The tokens before the rest take more than 65,536 bytes, from the first to the last.
pub fn is_wide(tokens: &[Token], rest: &[Token]) -> bool
    ensures { result ≡ spec.is_wide tokens.now rest.now }
{
    let last = tokens.len().saturating_sub(rest.len()).saturating_sub(1);
    match (tokens.first(), tokens.get(last)) {
        (Some(first), Some(last)) => last.end.saturating_sub(first.start) > 65_536,
        _ => false,
    }
}
