//! Checks that ask for the backups that run.

ghost use Rattle.std.specs.Prelude.{◌≡◌, None, Some, IfOk};
ghost use Rattle.std.specs.List.{list_any};
ghost use Rattle.bk_machine.specs.Checks as checks;
ghost use Rattle.bk_machine.specs.World.{World};
ghost use Rattle.bk_machine.specs.statements.Backup as backup;
ghost use Rattle.bk_machine.specs.statements.Job as jobs;
ghost use Rattle.bk_world.specs.declared.rule.Rule.TheVariants.{NoJob};
ghost use Rattle.bk_kept.specs.Keeps.{IsSeenOf, Sees, database_of};
ghost use Rattle.bk_plans.specs.Checking.{IsCheck};

use crate::finding::current_or_refuse;
use crate::paths::taken;
use crate::refusal::Refusal;
use crate::rules::refuse_if;
use bk_ids::Text;
use bk_kept::{DatabaseView, InstanceView};
use bk_machine::Job;
use bk_world::Rule;
use std::alloc::Global;

/// A database, and the backup of it that runs.
#[derive(Clone, Copy)]
pub struct Running<'a> {
    pub database: &'a DatabaseView<'a>,
    pub job: &'a Job,
}

/// Refused while a backup of the database runs.
pub fn without_job(database: &DatabaseView<'_>) -> Result<(), Refusal>
    ensures check { IsCheck (λ u. u) result (checks.without_job (database_of database.now)) }
    ensures passes { IfOk result (λ u. database.now.job ≡ None) }
{
    refuse_if(database.job.is_some(), Rule::JobRunning)
}

// Whether the backup of a database, if one runs, writes to the medium at a path.
fn is_written_by(path: &str, job: &Option<Job>) -> bool
    ensures { result ≡ backup.is_written_by path.now job.now }
{
    match job {
        Some(job) => job.medium.as_str() == path,
        None => false,
    }
}

// Whether that of one of some databases does.
fn is_written(databases: &[DatabaseView<'_>], path: &str) -> bool
    ensures { result ≡ list_any (λ d. backup.is_written_by path.now d.job) databases.now }
{
    databases
        .iter()
        .any(|database| is_written_by(path, database.job))
}

/// Refused where the backup of some database writes to the medium at this path.
pub fn unwritten(kept: &InstanceView<'_>, alloc: Global, path: &Text) -> Result<(), Refusal>
    ensures { (w : World) → Sees w kept.now → IsCheck (λ u. u) result (backup.check_unwritten w.databases path.now) }
{
    if is_written(&kept.databases, path.as_str()) {
        return Err(taken(alloc, path.as_str()));
    }
    Ok(())
}

// The backup of a database that runs, refused where none does.
fn running_in<'a>(database: &'a DatabaseView<'a>) -> Result<Running<'a>, Refusal>
    ensures check { IsCheck (λ r. r.job.now) result (checks.or_refuse database.now.job NoJob) }
    ensures same { IfOk result (λ r. r.database.now ≡ database.now) }
    ensures runs { IfOk result (λ r. r.database.now.job ≡ Some r.job.now) }
{
    match database.job {
        Some(job) => Ok(Running { database, job }),
        None => Err(Refusal::Broken(Rule::NoJob)),
    }
}

/// The current session's current database and the backup of it that runs, refused where there is no such database, or none runs in it.
#[tactic(auto, unfolding(bk_machine::specs::statements::Job::check_job))]
pub fn job_or_refuse<'a>(kept: &'a InstanceView<'a>) -> Result<Running<'a>, Refusal>
    ensures check { (w : World) → Sees w kept.now → IsCheck (λ r. record { database = database_of r.database.now; job = r.job.now }) result (jobs.check_job w) }
    ensures runs { IfOk result (λ r. r.database.now.job ≡ Some r.job.now) }
    ensures seen { (w : World) → Sees w kept.now → IfOk result (λ r. IsSeenOf w.history r.database.now) }
{
    let database = current_or_refuse(kept)?;
    running_in(database)
}
