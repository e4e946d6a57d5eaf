//! Plans of one part, and what parts are made of.

ghost use Rattle.std.specs.Prelude.{◌≡◌, ℕ, ◌+◌, true, [], ◌∷◌, ◌++◌, List, length, IfOk, OnOk};
ghost use Rattle.bk_acts.specs.declared.act.StoredAct.TheVariants.{Logged};
ghost use Rattle.bk_acts.specs.Meaning.{Spell, under};
ghost use Rattle.bk_acts.specs.Conditions.{KeepRecords, KeepsAct, MayTell};
ghost use Rattle.bk_machine.specs.Acts as acts;
ghost use Rattle.bk_machine.specs.Checks as checks;
ghost use Rattle.bk_machine.specs.World.{World};
ghost use Rattle.bk_kept.specs.Keeps.{ShowsLog, database_of};
ghost use Rattle.bk_plans.specs.declared.parts.Part.TheVariants.{Stored};
ghost use Rattle.bk_plans.specs.Planned.{IsOne, IsRefusedBy};
ghost use Rattle.bk_plans.specs.Planning.{KeepsPlan};
ghost use Rattle.bk_world.specs.Records.{Said};

use crate::parts::{Part, Plan};
use crate::refusal::Refusal;
use bk_acts::{StoredAct, said_law};
use bk_ids::{Body, Lsn, Name, Rec, Sequence, Text};
use bk_kept::DatabaseView;
use bk_world::{Open, Reply};
use std::alloc::{AllocError, Global};

/// 9999-12-31 23:59:59.999 in milliseconds since 1970-01-01 00:00:00 UTC.
pub const LATEST: u64 = 253_402_300_799_999;

/// The plan of a statement that is refused.
pub fn refused(refusal: Refusal) -> Result<Plan, AllocError>
    ensures rule { IfOk result (IsRefusedBy refusal) }
    ensures keeps { IfOk result KeepsPlan }
{
    match refusal {
        Refusal::Broken(rule) => Ok(Plan::Refused { rule }),
        Refusal::NoMemory => Err(AllocError),
    }
}

// One act that is stored, as a part.
fn one_part(alloc: Global, act: StoredAct) -> Result<Vec<Part>, AllocError>
    ensures { IfOk result (λ parts. parts.items ≡ Stored act ∷ []) }
{
    let parts = vec![in alloc; Part::Stored(act)]?;
    Ok(parts)
}

/// The plan that stores one act, and replies.
pub fn stored(alloc: Global, act: StoredAct, reply: Reply) -> Result<Plan, AllocError>
    requires { KeepsAct act }
    ensures one { IfOk result (IsOne act reply) }
    ensures keeps { IfOk result KeepsPlan }
{
    match one_part(alloc, act) {
        Ok(parts) => Ok(Plan::Parts { parts, reply }),
        Err(error) => {
            drop(reply);
            Err(error)
        }
    }
}

/// The act by which a database says these records at its end, and then these transactions are open.
pub fn logged(
    alloc: Global,
    database: &DatabaseView<'_>,
    transactions: Sequence<Open>,
    records: Sequence<Rec>,
) -> Result<StoredAct, AllocError>
    requires { KeepRecords records }
    ensures is { IfOk result (λ act. act ≡ Logged database.now.name transactions records) }
    ensures keeps { IfOk result KeepsAct }
{
    match database.name.copy(alloc) {
        Ok(name) => Ok(StoredAct::Logged {
            name,
            transactions,
            records,
        }),
        Err(error) => {
            drop(records);
            drop(transactions);
            Err(error)
        }
    }
}

/// The name that a text of 1 to 64 bytes spells.
pub fn name_in(alloc: Global, text: &Text) -> Result<Name, AllocError>
    requires { checks.is_name text.now ≡ true }
    ensures { IfOk result (λ name. name ≡ text.now) }
{
    // 1 to 64 bytes: memory alone may be wanting
    Name::new(alloc, text.as_str()).map_err(|_| AllocError)
}

/// The time of what a database says now: never below the last time in its log.
#[tactic(auto, unfolding(bk_machine::specs::Acts::said_time, bk_machine::specs::World::log_of))]
pub fn said_time(database: &DatabaseView<'_>, now: u64) -> u64
    ensures { (w : World) → ShowsLog w.history database.now → result ≡ acts.said_time w (database_of database.now) now }
{
    now.min(LATEST).max(database.shown.time())
}

/// One record more is said under a number, in the transaction of this first record, or in none.
pub fn say(records: &mut Vec<Rec>, lsn: Lsn, begin: Lsn, body: Body) -> Result<(), AllocError>
    requires { MayTell body }
    ensures said { OnOk result ((n : ℕ) (said : List Said) (s : Said) → Spell records.old.items n said → lsn ≡ n + length said
        → under lsn s ≡ record { lsn = lsn; begin = begin; body = body } → Spell records.new.items n (said ++ s ∷ [])) }
    ensures keep { OnOk result (KeepRecords records.old.items → KeepRecords records.new.items) }
{
    said_law();
    let record = Rec { lsn, begin, body };
    records.push(record)?;
    Ok(())
}

/// One record, in the transaction of this first record, or in none.
pub fn say_one(alloc: Global, lsn: Lsn, begin: Lsn, body: Body) -> Result<Sequence<Rec>, AllocError>
    requires { MayTell body }
    ensures said { IfOk result (λ records. (s : Said) → under lsn s ≡ record { lsn = lsn; begin = begin; body = body } → Spell records lsn (s ∷ [])) }
    ensures keep { IfOk result KeepRecords }
{
    said_law();
    let mut records = Vec::new(alloc);
    say(&mut records, lsn, begin, body)?;
    Ok(Sequence::new(records))
}
