//! `ROLLBACK`: its plan.

ghost use Rattle.std.specs.Prelude.{◌≡◌, ℕ, IfOk};
ghost use Rattle.bk_items.specs.declared.item.ScriptItem.TheVariants as script;
ghost use Rattle.bk_kept.specs.Numbers.{LeaveNumbers};
ghost use Rattle.bk_plans.specs.Planning.{KeepsPlan, Plans};

use crate::ending::held_or_refuse;
use crate::undoing::rollback_act;
use bk_kept::InstanceView;
use bk_machine::statements_do_what_they_may;
use bk_plans::{Plan, refused, stored};
use bk_world::Reply;
use std::alloc::{AllocError, Global};

// What `ROLLBACK` comes to, on any line and at any time.
pub(crate) fn plan_rollback(kept: &InstanceView<'_>, alloc: Global) -> Result<Plan, AllocError>
    requires { LeaveNumbers kept.now.databases.items }
    ensures plans { IfOk result (λ plan. (line now : ℕ) → Plans kept.now (λ w. Unit {0}) (record { item = script.Rollback; line = line }) now plan) }
    ensures keeps { IfOk result KeepsPlan }
{
    statements_do_what_they_may();
    match held_or_refuse(kept) {
        Ok(held) => {
            let act = rollback_act(alloc, held.database, held.transaction)?;
            stored(alloc, act, Reply::Done)
        }
        Err(refusal) => refused(refusal),
    }
}
