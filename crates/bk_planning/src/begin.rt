//! `BEGIN TRANSACTION`: its check and its plan.

ghost use Rattle.std.specs.Prelude.{◌≡◌, ◌≤◌, ◌∷◌, ◌++◌, [], ℕ, true, false, length, IfOk};
ghost use Rattle.bk_acts.specs.Conditions.{KeepsAct};
ghost use Rattle.bk_items.specs.declared.item.ScriptItem.TheVariants as script;
ghost use Rattle.bk_kept.specs.Keeps.{Sees, ShowsLog, database_of};
ghost use Rattle.bk_machine.specs.Checks as checks;
ghost use Rattle.bk_machine.specs.World.{World};
ghost use Rattle.bk_machine.specs.statements.Begin as beginning;
ghost use Rattle.bk_plans.specs.Checking.{IsCheck};
ghost use Rattle.bk_plans.specs.Planned.{SaysNow};
ghost use Rattle.bk_plans.specs.Planning.{KeepsPlan, Plans};
ghost use Rattle.bk_planning.specs.Opening.{begun_in};
ghost use Rattle.bk_world.specs.Says.{begin_said};

use bk_acts::StoredAct;
use bk_ids::{Body, DESCRIPTION_BYTES, Description, Mark, Sequence, Text};
use bk_items::{Marking, NamedTransaction};
use bk_kept::{DatabaseView, InstanceView, copy_transactions, used_up};
use bk_machine::statements_do_what_they_may;
use bk_plans::{
    Plan, Refusal, current_or_refuse, is_name, limit, logged, name_in, online, outside, refuse_if,
    refused, say_one, stored,
};
use bk_world::{Open, Reply, Rule};
use std::alloc::{AllocError, Global};

// Whether a description, if there is one, isn't too long.
fn is_short(marking: &Marking) -> bool
    ensures { result ≡ beginning.is_short marking.now }
{
    match marking {
        Marking::Unmarked | Marking::Marked => true,
        Marking::Described(text) => text.as_str().len() <= DESCRIPTION_BYTES,
    }
}

// Whether the name of a transaction, where it has one, is a name, and its description isn't too long.
fn has_fit_texts(transaction: &Option<NamedTransaction>) -> bool
    ensures { result ≡ beginning.has_fit_texts transaction.now }
{
    match transaction {
        Some(named) => is_name(named.name.as_str()) && is_short(&named.marking),
        None => true,
    }
}

// The database in which `BEGIN` on this line begins a transaction.
#[tactic(auto, unfolding(bk_machine::specs::statements::Begin::check_begin))]
fn check_begin<'a>(
    kept: &'a InstanceView<'a>,
    line: u32,
    transaction: &Option<NamedTransaction>,
) -> Result<&'a DatabaseView<'a>, Refusal>
    ensures check { (w : World) → Sees w kept.now → IsCheck (λ d. database_of d.now) result (beginning.check_begin w line transaction.now) }
    ensures fit { IfOk result (λ d. beginning.has_fit_texts transaction.now ≡ true) }
    ensures left { IfOk result (λ d. checks.used_up d.now.shown.«end» ≡ false) }
    ensures shows { (w : World) → Sees w kept.now → IfOk result (λ d. ShowsLog w.history d.now) }
{
    refuse_if(!has_fit_texts(transaction), Rule::NotBuilt { line })?;
    outside(kept)?;
    let database = online(current_or_refuse(kept)?)?;
    limit(used_up(database.shown.end()))?;
    Ok(database)
}

// A description: an empty text is none.
fn described(alloc: Global, text: &Text) -> Result<Option<Description>, AllocError>
    requires { length text.now ≤ 65535 }
    ensures { IfOk result (λ description. description ≡ beginning.described text.now) }
{
    if text.as_str().is_empty() {
        return Ok(None);
    }
    Ok(Some(Description::new(alloc, text.as_str())?))
}

// The mark of a transaction of this name.
fn mark_by(alloc: Global, name: &Text, marking: &Marking) -> Result<Option<Mark>, AllocError>
    requires name { checks.is_name name.now ≡ true }
    requires short { beginning.is_short marking.now ≡ true }
    ensures { IfOk result (λ mark. mark ≡ beginning.mark_by name.now marking.now) }
{
    let description = match marking {
        Marking::Unmarked => return Ok(None),
        Marking::Marked => None,
        Marking::Described(text) => described(alloc, text)?,
    };
    let name = name_in(alloc, name)?;
    Ok(Some(Mark { name, description }))
}

// The mark that the commit of a transaction gets.
fn mark_of(
    alloc: Global,
    transaction: &Option<NamedTransaction>,
) -> Result<Option<Mark>, AllocError>
    requires { beginning.has_fit_texts transaction.now ≡ true }
    ensures { IfOk result (λ mark. mark ≡ beginning.mark_of transaction.now) }
{
    match transaction {
        Some(named) => mark_by(alloc, &named.name, &named.marking),
        None => Ok(None),
    }
}

// What is open in a database with one transaction more.
fn with_one(
    alloc: Global,
    database: &DatabaseView<'_>,
    new: Open,
) -> Result<Sequence<Open>, AllocError>
    ensures { IfOk result (λ ts. ts ≡ database.now.transactions ++ new ∷ []) }
{
    match copy_transactions(alloc, database.transactions.as_slice()) {
        Ok(transactions) => {
            let mut transactions = transactions.into_vec();
            transactions.push(new)?;
            Ok(Sequence::new(transactions))
        }
        Err(error) => {
            drop(new);
            Err(error)
        }
    }
}

// The act by which a transaction of the current session begins in a database.
fn begin_act(
    kept: &InstanceView<'_>,
    alloc: Global,
    database: &DatabaseView<'_>,
    mark: Option<Mark>,
) -> Result<StoredAct, AllocError>
    ensures says { IfOk result (SaysNow database.now (begin_said database.now.shown.«end») (begun_in database.now kept.now.session mark)) }
    ensures keeps { IfOk result KeepsAct }
{
    let end = database.shown.end();
    let new = Open {
        session: kept.session,
        begin: end,
        mark,
    };
    let transactions = with_one(alloc, database, new)?;
    match say_one(alloc, end, end, Body::Begin) {
        Ok(records) => logged(alloc, database, transactions, records),
        Err(error) => {
            drop(transactions);
            Err(error)
        }
    }
}

// What `BEGIN` on this line comes to, at any time.
pub(crate) fn plan_begin(
    kept: &InstanceView<'_>,
    alloc: Global,
    line: u32,
    transaction: &Option<NamedTransaction>,
) -> Result<Plan, AllocError>
    ensures plans { IfOk result (λ plan. (now : ℕ) → Plans kept.now (λ w. Unit {0}) (record { item = script.Begin transaction.now; line = line }) now plan) }
    ensures keeps { IfOk result KeepsPlan }
{
    statements_do_what_they_may();
    match check_begin(kept, line, transaction) {
        Ok(database) => {
            let mark = mark_of(alloc, transaction)?;
            let act = begin_act(kept, alloc, database, mark)?;
            stored(alloc, act, Reply::Done)
        }
        Err(refusal) => refused(refusal),
    }
}
