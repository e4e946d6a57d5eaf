//! The check of `BACKUP DATABASE`.

ghost use Rattle.std.specs.Prelude.{◌≡◌, nat_le, true, false, length, None, Ok, Option, IfOk};
ghost use Rattle.bk_machine.specs.Checks as checks;
ghost use Rattle.bk_machine.specs.World.{World};
ghost use Rattle.bk_machine.specs.statements.Backup as backup;
ghost use Rattle.bk_world.specs.Medium.{Reading, medium_at};
ghost use Rattle.bk_kept.specs.Keeps.{Sees, ShowsLog, database_of};
ghost use Rattle.bk_plans.specs.Checking.{IsCheck};

use bk_ids::{Sequence, Text};
use bk_items::{BackupOptions, UnitName};
use bk_kept::{DatabaseView, InstanceView, used_up};
use bk_plans::{
    Refusal, is_path, limit, named_or_refuse, online, outside, refuse_if, unwritten, without_job,
};
use bk_world::Rule;
use std::alloc::Global;

// How many bytes the name of a set has at most.
const MOST_SET_NAME_BYTES: usize = 65_535;

/// A database that may be backed up, and its medium.
#[derive(Clone, Copy)]
pub(crate) struct Backing<'a> {
    pub database: &'a DatabaseView<'a>,
    /// How many sets are on the medium, or `None` where no medium is.
    pub sets: Option<u64>,
}

/// Whether a switch is on.
pub(crate) fn is_on(switch: Option<bool>) -> bool
    ensures { result ≡ backup.is_on switch }
{
    match switch {
        Some(on) => on,
        None => false,
    }
}

// Whether a switch is off, or isn't there.
fn is_off(switch: Option<bool>) -> bool
    ensures { result ≡ backup.is_off switch }
{
    !is_on(switch)
}

// Whether the name of a set, if one is given, has at most as many bytes as it may have.
fn has_short_name(name: &Option<Text>) -> bool
    ensures { result ≡ nat_le (length (backup.set_name name.now)) backup.most_set_name_bytes }
{
    match name {
        Some(name) => name.as_str().len() <= MOST_SET_NAME_BYTES,
        None => true,
    }
}

// Whether all options of a backup are built: its medium isn't emptied, its set doesn't expire, and it is no copy and no differential.
fn has_built_options(o: &BackupOptions) -> bool
    ensures { result ≡ backup.has_built_options o.now }
{
    is_off(o.init)
        && is_off(o.format)
        && is_off(o.skip)
        && o.expire.is_none()
        && o.retain.is_none()
        && !(o.copy_only || o.differential || o.no_recovery || o.no_truncate)
        && has_short_name(&o.name)
}

// Whether a whole database is backed up, by options that are built.
fn is_whole_backup(units: &Sequence<UnitName>, options: &BackupOptions) -> bool
    ensures { result ≡ backup.is_whole_backup units.now options.now }
{
    units.as_slice().is_empty() && has_built_options(options)
}

// How many sets are on a medium that has room for one more, or `None` where none is there; refused by the rule that was found.
fn room_or_refuse(room: Result<Option<u64>, Rule>) -> Result<Option<u64>, Refusal>
    ensures check { (reading : Option Reading) → backup.ShowsRoom reading room → IsCheck (λ sets. tt) result (backup.check_medium reading) }
    ensures same { IfOk result (λ sets. room ≡ Ok sets) }
{
    match room {
        Ok(sets) => Ok(sets),
        Err(rule) => Err(Refusal::Broken(rule)),
    }
}

// The database that `BACKUP DATABASE` on this line backs up, where this was found at the path of its medium.
#[tactic(auto, unfolding(bk_machine::specs::statements::Backup::check_backup))]
pub(crate) fn check_backup<'a>(
    kept: &'a InstanceView<'a>,
    alloc: Global,
    line: u32,
    name: &Text,
    units: &Sequence<UnitName>,
    disk: &Text,
    options: &BackupOptions,
    room: Result<Option<u64>, Rule>,
) -> Result<Backing<'a>, Refusal>
    ensures check { (w : World) → Sees w kept.now → backup.ShowsRoom (medium_at w.media disk.now) room
        → IsCheck (λ b. database_of b.database.now) result (backup.check_backup w line name.now units.now disk.now options.now) }
    ensures room { IfOk result (λ b. room ≡ Ok b.sets) }
    ensures shows { (w : World) → Sees w kept.now → IfOk result (λ b. ShowsLog w.history b.database.now) }
    ensures path { IfOk result (λ b. checks.is_path disk.now ≡ true) }
    ensures left { IfOk result (λ b. checks.used_up b.database.now.shown.«end» ≡ false) }
    ensures idle { IfOk result (λ b. b.database.now.job ≡ None) }
{
    refuse_if(
        !(is_whole_backup(units, options) && is_path(disk.as_str())),
        Rule::NotBuilt { line },
    )?;
    outside(kept)?;
    let named = named_or_refuse(kept, name.as_str())?;
    let database = online(named)?;
    without_job(database)?;
    unwritten(kept, alloc, disk)?;
    let sets = room_or_refuse(room)?;
    limit(used_up(database.shown.end()) || used_up(kept.counter))?;
    Ok(Backing { database, sets })
}
