//! The console's lines `:start` and `:step n`: their checks and their plans.

ghost use Rattle.std.specs.Prelude.{◌≡◌, ◌∷◌, [], ℕ, IfOk};
ghost use Rattle.bk_items.specs.declared.item.ScriptItem.TheVariants as script;
ghost use Rattle.bk_planning.specs.Stepping.{IsStep};
ghost use Rattle.bk_plans.specs.Planning.{KeepsPlan, Plans};

use bk_kept::{DatabaseView, InstanceView};
use bk_machine::statements_do_what_they_may;
use bk_plans::{Part, Plan, job_or_refuse, refused};
use bk_world::Reply;
use std::alloc::{AllocError, Global};

// What `:start` comes to, on any line and at any time: the session's next backup only starts.
pub(crate) fn plan_start(kept: &InstanceView<'_>, alloc: Global) -> Result<Plan, AllocError>
    ensures plans { IfOk result (λ plan. (line now : ℕ) → Plans kept.now (λ w. Unit {0}) (record { item = script.Start; line = line }) now plan) }
    ensures keeps { IfOk result KeepsPlan }
{
    let _kept = kept;
    let parts = Vec::new(alloc);
    Ok(Plan::Readied {
        parts,
        starts: true,
        reply: Reply::Nothing,
    })
}

// So many extents more are copied that are left to the backup of a database.
fn step(alloc: Global, database: &DatabaseView<'_>, count: u64) -> Result<Plan, AllocError>
    ensures steps { IfOk result (IsStep database.now.name count) }
    ensures keeps { IfOk result KeepsPlan }
{
    let name = database.name.copy(alloc)?;
    let parts = vec![in alloc; Part::JobStepped { name, count }]?;
    Ok(Plan::Parts {
        parts,
        reply: Reply::Done,
    })
}

// What `:step` comes to, on any line and at any time.
pub(crate) fn plan_step(
    kept: &InstanceView<'_>,
    alloc: Global,
    count: u64,
) -> Result<Plan, AllocError>
    ensures plans { IfOk result (λ plan. (line now : ℕ) → Plans kept.now (λ w. Unit {0}) (record { item = script.Step count; line = line }) now plan) }
    ensures keeps { IfOk result KeepsPlan }
{
    statements_do_what_they_may();
    match job_or_refuse(kept) {
        Ok(running) => step(alloc, running.database, count),
        Err(refusal) => refused(refusal),
    }
}
