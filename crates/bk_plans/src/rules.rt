//! Checks that several statements make.

ghost use Rattle.std.specs.Prelude.{◌≡◌, false, IfNone, IfOk, Some};
ghost use Rattle.std.specs.List.{list_any};
ghost use Rattle.bk_machine.specs.Checks as checks;
ghost use Rattle.bk_machine.specs.World.{World};
ghost use Rattle.bk_world.specs.Lines.{RecordLines};
ghost use Rattle.bk_world.specs.declared.database.Status.TheVariants.{Down, Online};
ghost use Rattle.bk_kept.specs.Keeps.{IsSeenOf, Sees, ShowsLog, database_of};
ghost use Rattle.bk_plans.specs.Checking.{IsCheck};

use crate::refusal::Refusal;
use bk_asked::{least_session, own_held};
use bk_kept::{DatabaseView, InstanceView};
use bk_world::{Limit, Rule, State, Status, StatusWord, Unit};

/// How many databases an instance has at most.
pub const MOST_DATABASES: usize = 16;

/// How many filegroups a database has at most.
pub const MOST_GROUPS: usize = 8;

/// Refused by this rule where the test holds.
pub fn refuse_if(test: bool, rule: Rule) -> Result<(), Refusal>
    ensures check { IsCheck (λ u. u) result (checks.refuse_if test rule) }
    ensures passes { IfOk result (λ u. test ≡ false) }
{
    if test {
        return Err(Refusal::Broken(rule));
    }
    drop(rule);
    Ok(())
}

/// Refused where numbers are used up.
pub fn limit(used_up: bool) -> Result<(), Refusal>
    ensures check { IsCheck (λ u. u) result (checks.limit used_up) }
    ensures passes { IfOk result (λ u. used_up ≡ false) }
{
    if used_up {
        return Err(Refusal::Broken(Rule::LimitReached { which: Limit::Lsn }));
    }
    Ok(())
}

/// Refused inside a transaction of the current session.
pub fn outside(kept: &InstanceView<'_>) -> Result<(), Refusal>
    ensures { (w : World) → Sees w kept.now → IsCheck (λ u. u) result (checks.outside w) }
{
    refuse_if(own_held(kept).is_some(), Rule::InTransaction)
}

/// Refused where a session has an open transaction in the database.
pub fn unused(database: &DatabaseView<'_>) -> Result<(), Refusal>
    ensures { IsCheck (λ u. u) result (checks.unused (database_of database.now)) }
{
    match least_session(database) {
        Some(session) => Err(Refusal::Broken(Rule::DatabaseInUse { session })),
        None => Ok(()),
    }
}

/// Whether a text has 1 to 64 bytes, as a name has.
pub fn is_name(text: &str) -> bool
    ensures { result ≡ checks.is_name text.now }
{
    0 < text.len() && text.len() <= 64
}

/// Whether a text has 1 to 100 bytes, as the path of a medium has.
pub fn is_path(text: &str) -> bool
    ensures { result ≡ checks.is_path text.now }
{
    0 < text.len() && text.len() <= 100
}

/// Whether the server keeps a name for itself: master, msdb or tempdb, in any case of ASCII letters.
pub fn is_system(name: &str) -> bool
    ensures { result ≡ checks.is_system name.now }
{
    name.eq_ignore_ascii_case("master")
        || name.eq_ignore_ascii_case("msdb")
        || name.eq_ignore_ascii_case("tempdb")
}

fn is_restoring(unit: &Unit) -> bool
    ensures { result ≡ checks.is_restoring unit.now.state }
{
    matches!(unit.state, State::Restoring { .. })
}

// Whether one of some units was restored.
fn has_restored(units: &[Unit]) -> bool
    ensures { result ≡ list_any (λ u. checks.is_restoring u.state) units.now }
{
    units.iter().any(is_restoring)
}

// The word of a database that is down.
fn word_when_down(units: &[Unit]) -> StatusWord
    ensures { Some result ≡ checks.word_of Down units.now }
{
    if has_restored(units) {
        return StatusWord::Restoring;
    }
    StatusWord::Interrupted
}

// The word of a database that isn't online.
fn word(status: &Status, units: &[Unit]) -> Option<StatusWord>
    ensures word { result ≡ checks.word_of status.now units.now }
    ensures none { IfNone result (status.now ≡ Online) }
{
    match status {
        Status::Online => None,
        Status::Standby(_) => Some(StatusWord::Standby),
        Status::Down => Some(word_when_down(units)),
    }
}

/// The database, refused where it isn't online.
pub fn online<'a>(database: &'a DatabaseView<'a>) -> Result<&'a DatabaseView<'a>, Refusal>
    ensures check { IsCheck (λ d. database_of d.now) result (checks.online (database_of database.now)) }
    ensures same { IfOk result (λ d. d.now ≡ database.now) }
    ensures online { IfOk result (λ d. d.now.status ≡ Online) }
    ensures shows { (history : RecordLines) → IsSeenOf history database.now → IfOk result (λ d. ShowsLog history d.now) }
{
    match word(database.status, database.units.as_slice()) {
        Some(status) => Err(Refusal::Broken(Rule::NotOnline { status })),
        None => Ok(database),
    }
}
