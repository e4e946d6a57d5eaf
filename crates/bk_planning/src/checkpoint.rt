//! `CHECKPOINT`: its check and its plan.

ghost use Rattle.std.specs.Prelude.{◌≡◌, ℕ, false, IfOk};
ghost use Rattle.bk_items.specs.declared.item.ScriptItem.TheVariants as script;
ghost use Rattle.bk_kept.specs.Keeps.{Sees, ShowsLog, database_of};
ghost use Rattle.bk_machine.specs.Checks as checks;
ghost use Rattle.bk_machine.specs.World.{World};
ghost use Rattle.bk_machine.specs.statements.Checkpoint as marking;
ghost use Rattle.bk_plans.specs.Checking.{IsCheck};
ghost use Rattle.bk_plans.specs.Planned.{MarksThen, StoresOne};
ghost use Rattle.bk_plans.specs.Planning.{KeepsPlan, Plans};
ghost use Rattle.bk_world.specs.declared.reply.Reply.TheVariants.{Done};

use bk_kept::{DatabaseView, InstanceView, used_up};
use bk_machine::statements_do_what_they_may;
use bk_plans::{
    Plan, Refusal, current_or_refuse, limit, marked, online, refused, said_time, stored,
};
use bk_world::Reply;
use std::alloc::{AllocError, Global};

// The database that `CHECKPOINT` marks, whatever is open in it.
#[tactic(auto, unfolding(bk_machine::specs::statements::Checkpoint::check_checkpoint))]
fn check_checkpoint<'a>(kept: &'a InstanceView<'a>) -> Result<&'a DatabaseView<'a>, Refusal>
    ensures check { (w : World) → Sees w kept.now → IsCheck (λ d. database_of d.now) result (marking.check_checkpoint w) }
    ensures left { IfOk result (λ d. checks.used_up d.now.shown.«end» ≡ false) }
    ensures shows { (w : World) → Sees w kept.now → IfOk result (λ d. ShowsLog w.history d.now) }
{
    let database = online(current_or_refuse(kept)?)?;
    limit(used_up(database.shown.end()))?;
    Ok(database)
}

// A checkpoint is marked at `now`.
fn mark_plan(alloc: Global, database: &DatabaseView<'_>, now: u64) -> Result<Plan, AllocError>
    ensures marks { IfOk result (StoresOne (MarksThen database.now now) Done) }
    ensures keeps { IfOk result KeepsPlan }
{
    let time = said_time(database, now);
    let act = marked(alloc, database, time)?;
    stored(alloc, act, Reply::Done)
}

// What `CHECKPOINT` comes to at `now`, in milliseconds since 1970-01-01 00:00:00 UTC, on any line.
pub(crate) fn plan_checkpoint(
    kept: &InstanceView<'_>,
    alloc: Global,
    now: u64,
) -> Result<Plan, AllocError>
    ensures plans { IfOk result (λ plan. (line : ℕ) → Plans kept.now (λ w. Unit {0}) (record { item = script.Checkpoint; line = line }) now plan) }
    ensures keeps { IfOk result KeepsPlan }
{
    statements_do_what_they_may();
    match check_checkpoint(kept) {
        Ok(database) => mark_plan(alloc, database, now),
        Err(refusal) => refused(refusal),
    }
}
