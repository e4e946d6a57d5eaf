//! The console's line `:session n`: its check and its plan.

ghost use Rattle.std.specs.Prelude.{◌≡◌, ◌≤◌, ℕ, IfOk};
ghost use Rattle.bk_items.specs.declared.item.ScriptItem.TheVariants as script;
ghost use Rattle.bk_machine.specs.World.{World};
ghost use Rattle.bk_machine.specs.statements.Session as seating;
ghost use Rattle.bk_plans.specs.Checking.{IsCheck};
ghost use Rattle.bk_plans.specs.Planning.{KeepsPlan, Plans};

use bk_kept::InstanceView;
use bk_plans::{Plan, Refusal, refused};
use bk_world::Rule;
use std::alloc::AllocError;

// How many sessions there are.
const MOST_SESSIONS: u64 = 32;

// The session of this number, from 1 to 32.
#[tactic(auto, unfolding(bk_machine::specs::statements::Session::check_session))]
fn check_session(line: u32, number: u64) -> Result<u8, Refusal>
    ensures { IsCheck (λ session. session) result (seating.check_session line number) }
{
    if 0 < number && number <= MOST_SESSIONS {
        return Ok(number as u8);
    }
    Err(Refusal::Broken(Rule::NotBuilt { line }))
}

// What `:session` on this line comes to, at any time.
pub(crate) fn plan_session(
    kept: &InstanceView<'_>,
    line: u32,
    number: u64,
) -> Result<Plan, AllocError>
    ensures plans { IfOk result (λ plan. (now : ℕ) → Plans kept.now (λ w. Unit {0}) (record { item = script.Session number; line = line }) now plan) }
    ensures keeps { IfOk result KeepsPlan }
{
    match check_session(line, number) {
        Ok(session) => Ok(Plan::Seated { session }),
        Err(refusal) => refused(refusal),
    }
}
