//! Which row is locked, and how much a transaction has written.

ghost use Rattle.std.specs.Prelude.{◌≡◌, ◌==◌, ◌&&◌, not, filter, length};
ghost use Rattle.std.specs.List.{find};
ghost use Rattle.std.specs.Option.{option_map};
ghost use Rattle.bk_machine.specs.World.{World, log_of};
ghost use Rattle.bk_machine.specs.statements.Target as target;
ghost use Rattle.bk_shown.specs.Writes.{own_of};
ghost use Rattle.bk_kept.specs.Keeps.{Sees, ShowsLog, database_of};

use crate::opens::own_open;
use bk_ids::Lsn;
use bk_kept::{DatabaseView, InstanceView};
use bk_shown::Written;
use bk_world::{Open, TableSpec};

// Among some transactions the one with this first record, if it isn't this session's.
fn of_another(transactions: &[Open], session: u8, begin: Lsn) -> Option<&Open>
    ensures { option_map (λ t. t.now) result ≡ find (λ t. not (t.session == session) && t.begin == begin) transactions.now }
{
    transactions
        .iter()
        .find(|t| t.session != session && t.begin == begin)
}

/// The open transaction of another session that has written a row of a table, if there is one.
pub fn holder<'a>(
    kept: &InstanceView<'_>,
    database: &DatabaseView<'a>,
    table: &TableSpec,
    key: u64,
) -> Option<&'a Open>
    ensures { (w : World) → Sees w kept.now → ShowsLog w.history database.now
        → option_map (λ t. t.now) result ≡ target.holder w (database_of database.now) (table.now.number, key) }
{
    let begin = database.shown.holder(table.number, key)?;
    of_another(database.transactions.as_slice(), kept.session, begin)
}

// How many of some writes are of the transaction with this first record.
fn count_of(written: &[Written], begin: Lsn) -> usize
    ensures { result ≡ length (own_of begin written.now) }
{
    written.iter().filter(|w| w.begin == begin).count()
}

/// How many pending writes the current session's transaction has in a database: none where it has no transaction there.
pub fn own_writes(kept: &InstanceView<'_>, database: &DatabaseView<'_>) -> usize
    ensures { (w : World) → Sees w kept.now → ShowsLog w.history database.now
        → result ≡ target.writes_of (log_of w.history (database_of database.now)) (target.own_open w (database_of database.now)) }
{
    match own_open(kept, database) {
        Some(transaction) => count_of(database.shown.written(), transaction.begin),
        None => 0,
    }
}
