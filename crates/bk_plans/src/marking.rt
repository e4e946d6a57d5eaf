//! The act by which a database marks a checkpoint.

ghost use Rattle.std.specs.Prelude.{◌≡◌, IfOk};
ghost use Rattle.bk_acts.specs.Conditions.{KeepsAct};
ghost use Rattle.bk_machine.specs.Acts as acts;
ghost use Rattle.bk_plans.specs.Planned.{IsKeptBehind, MarksNow};

use bk_acts::StoredAct;
use bk_ids::Lsn;
use bk_kept::DatabaseView;
use bk_machine::Job;
use std::alloc::{AllocError, Global};

// The first number that a backup that runs needs, at most this one.
fn job_first(job: &Option<Job>, n: Lsn) -> Lsn
    ensures { result ≡ acts.job_first job.now n }
{
    match job {
        Some(job) => job.first.min(n),
        None => n,
    }
}

// The least number that the live log of a database holds behind a checkpoint at its end.
#[tactic(auto, unfolding(bk_machine::specs::World::log_of))]
fn kept_behind(database: &DatabaseView<'_>) -> Lsn
    ensures { IsKeptBehind database.now result }
{
    if !database.is_simple() && database.chain {
        return database.kept;
    }
    let end = database.shown.end();
    let needed = database.least_begin(end).min(job_first(database.job, end));
    database.kept.max(end.min(needed))
}

/// The act by which a database marks a checkpoint at its end, at a time in milliseconds since 1970-01-01 00:00:00 UTC. What is open in it
/// stays open.
pub fn marked(
    alloc: Global,
    database: &DatabaseView<'_>,
    time: u64,
) -> Result<StoredAct, AllocError>
    ensures marks { IfOk result (MarksNow database.now time) }
    ensures keeps { IfOk result KeepsAct }
{
    let kept = kept_behind(database);
    let name = database.name.copy(alloc)?;
    Ok(StoredAct::Checkpointed { name, time, kept })
}
