//! `USE`: its check and its plan.

ghost use Rattle.std.specs.Prelude.{◌≡◌, ℕ, IfOk};
ghost use Rattle.std.specs.Option.{option_map};
ghost use Rattle.bk_items.specs.declared.item.ScriptItem.TheVariants as script;
ghost use Rattle.bk_machine.specs.World.{World};
ghost use Rattle.bk_machine.specs.statements.Use as using;
ghost use Rattle.bk_kept.specs.Keeps.{Sees};
ghost use Rattle.bk_plans.specs.Checking.{IsCheck};
ghost use Rattle.bk_plans.specs.Planning.{KeepsPlan, Plans};

use bk_ids::Text;
use bk_kept::InstanceView;
use bk_plans::{Plan, Refusal, is_system, outside, refused};
use bk_world::Rule;
use std::alloc::{AllocError, Global};

// The name that `USE` sets outside of a transaction, if it sets one.
#[tactic(auto, unfolding(bk_machine::specs::statements::Use::check_used))]
fn check_used<'a>(kept: &InstanceView<'_>, name: &'a Text) -> Result<Option<&'a Text>, Refusal>
    ensures { (w : World) → Sees w kept.now → IsCheck (λ found. option_map (λ n. n.now) found) result (using.check_used w name.now) }
{
    if is_system(name.as_str()) {
        return Ok(None);
    }
    match kept.named(name.as_str()) {
        Some(_) => Ok(Some(name)),
        None => Err(Refusal::Broken(Rule::NoSuchDatabase)),
    }
}

// The name that `USE` sets, if it sets one.
#[tactic(auto, unfolding(bk_machine::specs::statements::Use::check_use))]
fn check_use<'a>(kept: &InstanceView<'_>, name: &'a Text) -> Result<Option<&'a Text>, Refusal>
    ensures { (w : World) → Sees w kept.now → IsCheck (λ found. option_map (λ n. n.now) found) result (using.check_use w name.now) }
{
    outside(kept)?;
    let found = check_used(kept, name)?;
    Ok(found)
}

// A copy of a text, if there is one.
fn copied(alloc: Global, text: Option<&Text>) -> Result<Option<Text>, AllocError>
    ensures { IfOk result (λ copy. copy ≡ option_map (λ t. t.now) text.entry) }
{
    match text {
        Some(text) => Ok(Some(text.copy(alloc)?)),
        None => Ok(None),
    }
}

// What `USE` comes to, on any line and at any time.
pub(crate) fn plan_use(
    kept: &InstanceView<'_>,
    alloc: Global,
    name: &Text,
) -> Result<Plan, AllocError>
    ensures plans { IfOk result (λ plan. (line now : ℕ) → Plans kept.now (λ w. Unit {0}) (record { item = script.Use name.now; line = line }) now plan) }
    ensures keeps { IfOk result KeepsPlan }
{
    match check_use(kept, name) {
        Ok(found) => {
            let name = copied(alloc, found)?;
            Ok(Plan::Turned { name })
        }
        Err(refusal) => refused(refusal),
    }
}
