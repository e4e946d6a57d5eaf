//! The limits of a row and of a transaction, and the lock of a row.

ghost use Rattle.std.specs.Prelude.{◌≡◌, ◌≤◌, true, false, length, IfOk};
ghost use Rattle.bk_kept.specs.Keeps.{Sees, ShowsLog};
ghost use Rattle.bk_machine.specs.Checks as checks;
ghost use Rattle.bk_machine.specs.World.{World};
ghost use Rattle.bk_machine.specs.statements.Target as target;
ghost use Rattle.bk_plans.specs.Checking.{IsCheck};
ghost use Rattle.bk_row_plans.specs.Targets as targets;
ghost use Rattle.bk_row_plans.specs.Targets.{target_of};
ghost use Rattle.bk_world.specs.declared.database.TableSpec.{TableSpec as Spec};

use bk_asked::{holder, own_writes};
use bk_ids::{Text, VALUE_BYTES};
use bk_kept::{DatabaseView, InstanceView, used_up};
use bk_plans::{Refusal, limit, refuse_if};
use bk_world::{Limit, Rule, TableSpec};

// The greatest key.
const GREATEST_KEY: u64 = 9_223_372_036_854_775_807;

// How many writes a transaction has at most.
const MOST_WRITES: usize = 1024;

// Refused where a text is too long for a value of a row.
pub(crate) fn check_value(value: &Text) -> Result<(), Refusal>
    ensures check { IsCheck (λ u. u) result (target.check_value value.now) }
    ensures short { IfOk result (λ u. length value.now ≤ 112) }
{
    let bytes = value.as_str().len();
    refuse_if(
        bytes > VALUE_BYTES,
        Rule::ValueTooLong {
            bytes: bytes as u64,
        },
    )
}

// Refused where a number is no key of a row.
pub(crate) fn check_key(key: u64) -> Result<(), Refusal>
    ensures check { IsCheck (λ u. u) result (target.check_key key) }
    ensures low { IfOk result (λ u. key ≤ 9223372036854775807) }
{
    refuse_if(key > GREATEST_KEY, Rule::LimitReached { which: Limit::Key })
}

// Refused where the open transaction of another session has written a row.
pub(crate) fn check_lock(
    kept: &InstanceView<'_>,
    database: &DatabaseView<'_>,
    table: &TableSpec,
    key: u64,
) -> Result<(), Refusal>
    ensures { (w : World) → Sees w kept.now → ShowsLog w.history database.now
        → IsCheck (λ u. u) result (target.check_lock w (target_of database.now table.now) key) }
{
    match holder(kept, database, table, key) {
        Some(transaction) => Err(Refusal::Broken(Rule::Locked {
            session: transaction.session,
        })),
        None => Ok(()),
    }
}

// Whether the current session's transaction has as many writes in a database as it may have.
fn has_all_writes(kept: &InstanceView<'_>, database: &DatabaseView<'_>) -> bool
    ensures { (w : World) (table : Spec) → Sees w kept.now → ShowsLog w.history database.now → result ≡ target.has_all_writes w (target_of database.now table) }
{
    own_writes(kept, database) >= MOST_WRITES
}

// Refused where the current session's transaction has as many writes as it may have, or numbers are used up.
fn check_more(kept: &InstanceView<'_>, database: &DatabaseView<'_>) -> Result<(), Refusal>
    ensures check { (w : World) (table : Spec) → Sees w kept.now → ShowsLog w.history database.now → IsCheck (λ u. u) result (targets.check_more w (target_of database.now table)) }
    ensures left { IfOk result (λ u. checks.used_up database.now.shown.«end» ≡ false) }
{
    let all = has_all_writes(kept, database);
    refuse_if(
        all,
        Rule::LimitReached {
            which: Limit::Writes,
        },
    )?;
    limit(used_up(database.shown.end()))
}

// That is checked where a row is written.
pub(crate) fn check_left(
    kept: &InstanceView<'_>,
    database: &DatabaseView<'_>,
    writes: bool,
) -> Result<(), Refusal>
    ensures check { (w : World) (table : Spec) → Sees w kept.now → ShowsLog w.history database.now
        → IsCheck (λ u. u) result (targets.check_left w (target_of database.now table) writes) }
    ensures left { IfOk result (λ u. writes ≡ true → checks.used_up database.now.shown.«end» ≡ false) }
{
    if writes {
        check_more(kept, database)
    } else {
        Ok(())
    }
}
