//! Transactions that end: the one of the current session, refused where it has none, and what is open without one.

ghost use Rattle.std.specs.Prelude.{◌≡◌, ◌==◌, not, IfOk};
ghost use Rattle.std.specs.List.{filter};
ghost use Rattle.bk_asked.specs.Asked.{held_of};
ghost use Rattle.bk_kept.specs.Keeps.{Sees, ShowsLog};
ghost use Rattle.bk_kept.specs.Numbers.{CanEnd, LeaveNumbers};
ghost use Rattle.bk_machine.specs.Checks as checks;
ghost use Rattle.bk_machine.specs.World as world;
ghost use Rattle.bk_machine.specs.World.{World};
ghost use Rattle.bk_plans.specs.Checking.{IsCheck};
ghost use Rattle.bk_world.specs.declared.rule.Rule.TheVariants.{NoTransaction};

use bk_asked::{Held, own_held};
use bk_ids::{Lsn, Sequence};
use bk_kept::{DatabaseView, InstanceView, copy_transactions};
use bk_plans::Refusal;
use bk_world::{Open, Rule};
use std::alloc::{AllocError, Global};

/// The open transaction of the current session, refused where it has none.
pub(crate) fn held_or_refuse<'a>(kept: &'a InstanceView<'a>) -> Result<Held<'a>, Refusal>
    ensures check { (w : World) → Sees w kept.now → IsCheck held_of result (checks.or_refuse (world.own_held w) NoTransaction) }
    ensures shows { LeaveNumbers kept.now.databases.items → (w : World) → Sees w kept.now → IfOk result (λ h. ShowsLog w.history h.database.now) }
    ensures numbers { LeaveNumbers kept.now.databases.items → IfOk result (λ h. CanEnd h.database.now) }
{
    match own_held(kept) {
        Some(held) => Ok(held),
        None => Err(Refusal::Broken(Rule::NoTransaction)),
    }
}

// Leaves out the transaction that begins with this record.
fn leave_out(transactions: &mut Vec<Open>, begin: Lsn)
    ensures { transactions.new.items ≡ filter (λ t. not (t.begin == begin)) transactions.old.items }
{
    transactions.retain(|t| t.begin != begin);
}

/// What is open in a database without the transaction that begins with this record.
pub(crate) fn open_without(
    alloc: Global,
    database: &DatabaseView<'_>,
    begin: Lsn,
) -> Result<Sequence<Open>, AllocError>
    ensures { IfOk result (λ ts. ts ≡ world.without_begin database.now.transactions begin) }
{
    let copy = copy_transactions(alloc, database.transactions.as_slice())?;
    let mut transactions = copy.into_vec();
    leave_out(&mut transactions, begin);
    Ok(Sequence::new(transactions))
}
