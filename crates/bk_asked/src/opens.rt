//! What is open.

ghost use Rattle.std.specs.Prelude.{◌≡◌, ◌==◌, fold, map, reverse, List, None, Some, [], IfSome, MatchOption};
ghost use Rattle.std.specs.List.{AllByRecursion, find};
ghost use Rattle.std.specs.Option.{option_map};
ghost use Rattle.bk_machine.specs.Checks as checks;
ghost use Rattle.bk_machine.specs.Closing.{IsFirst};
ghost use Rattle.bk_machine.specs.World as world;
ghost use Rattle.bk_machine.specs.World.{World};
ghost use Rattle.bk_machine.specs.statements.Target as target;
ghost use Rattle.bk_world.specs.Lines.{RecordLines};
ghost use Rattle.bk_kept.specs.Keeps.{IsSeenOf, Sees, ShowsLog, database_of};
ghost use Rattle.bk_kept.specs.Numbers.{CanEnd, LeaveNumbers};
ghost use Rattle.bk_asked.specs.Asked.{held_of, least_in, least_with};

use bk_kept::{DatabaseView, InstanceView};
use bk_world::Open;

/// An open transaction, and the database in which it is open.
#[derive(Clone, Copy)]
pub struct Held<'a> {
    pub database: &'a DatabaseView<'a>,
    pub transaction: &'a Open,
}

// The open transaction of a session, among some.
fn first_of(transactions: &[Open], session: u8) -> Option<&Open>
    ensures { option_map (λ t. t.now) result ≡ find (λ t. t.session == session) transactions.now }
{
    transactions.iter().find(|t| t.session == session)
}

// The open transaction of a session in a database.
fn open_of<'a>(database: &DatabaseView<'a>, session: u8) -> Option<&'a Open>
    ensures { option_map (λ t. t.now) result ≡ world.transaction_of database.now.transactions session }
{
    first_of(database.transactions.as_slice(), session)
}

/// The open transaction of the current session in a database, if it has one there.
pub fn own_open<'a>(kept: &InstanceView<'_>, database: &DatabaseView<'a>) -> Option<&'a Open>
    ensures { (w : World) → Sees w kept.now → option_map (λ t. t.now) result ≡ target.own_open w (database_of database.now) }
{
    open_of(database, kept.session)
}

// The open transaction of a session, in whichever of some databases it is.
fn held_among<'a>(databases: &'a [DatabaseView<'a>], session: u8) -> Option<Held<'a>>
    ensures found { option_map held_of result ≡ world.held_in (map database_of databases.now) session }
    ensures shows { LeaveNumbers databases.now → (history : RecordLines) → AllByRecursion (IsSeenOf history) databases.now → IfSome result (λ h. ShowsLog history h.database.now) }
    ensures numbers { LeaveNumbers databases.now → IfSome result (λ h. CanEnd h.database.now) }
{
    for database in databases {
        if let Some(transaction) = open_of(database, session) {
            return Some(Held {
                database,
                transaction,
            });
        }
    }
    None
}

/// The open transaction of a session, in whichever database it is.
pub fn held_by<'a>(kept: &'a InstanceView<'a>, session: u8) -> Option<Held<'a>>
    ensures found { (w : World) → Sees w kept.now → option_map held_of result ≡ world.held_in w.databases session }
    ensures shows { LeaveNumbers kept.now.databases.items → (w : World) → Sees w kept.now → IfSome result (λ h. ShowsLog w.history h.database.now) }
    ensures numbers { LeaveNumbers kept.now.databases.items → IfSome result (λ h. CanEnd h.database.now) }
{
    held_among(&kept.databases, session)
}

/// The open transaction of the current session, in whichever database it is.
pub fn own_held<'a>(kept: &'a InstanceView<'a>) -> Option<Held<'a>>
    ensures found { (w : World) → Sees w kept.now → option_map held_of result ≡ world.own_held w }
    ensures shows { LeaveNumbers kept.now.databases.items → (w : World) → Sees w kept.now → IfSome result (λ h. ShowsLog w.history h.database.now) }
    ensures numbers { LeaveNumbers kept.now.databases.items → IfSome result (λ h. CanEnd h.database.now) }
{
    held_by(kept, kept.session)
}

// The lesser of a session and another one, if there is one.
fn lesser(session: u8, other: Option<u8>) -> u8
    ensures { result ≡ checks.lesser session other }
{
    match other {
        Some(other) => session.min(other),
        None => session,
    }
}

// The least session of some transactions and of this one, if there is one, from the last transaction on.
fn least_from(transactions: &[Open], last: Option<u8>) -> Option<u8>
    ensures { result ≡ fold (λ least t. Some (checks.lesser t.session least)) last (reverse transactions.now) }
{
    let from_last = transactions.iter().rev();
    from_last.fold(last, |least, t| Some(lesser(t.session, least)))
}

// The least session of some transactions and of this one, if there is one.
fn least_of(transactions: &[Open], other: Option<u8>) -> Option<u8>
    ensures { result ≡ least_with transactions.now other }
{
    least_from(transactions, other)
}

/// The least session that has an open transaction in a database, if one has.
pub fn least_session(database: &DatabaseView<'_>) -> Option<u8>
    ensures { result ≡ checks.least_session (database_of database.now).transactions }
{
    least_of(database.transactions.as_slice(), None)
}

// The least session that has an open transaction in some databases, if one has, from the last of them on.
fn least_among(databases: &[DatabaseView<'_>]) -> Option<u8>
    ensures { result ≡ fold (λ least d. least_with d.transactions least) None (reverse databases.now) }
{
    let from_last = databases.iter().rev();
    from_last.fold(None, |least, d| least_of(d.transactions.as_slice(), least))
}

// The least session that has an open transaction in any database, if one has.
fn least_open(kept: &InstanceView<'_>) -> Option<u8>
    ensures { (w : World) → Sees w kept.now → result ≡ least_in w.databases }
{
    least_among(&kept.databases)
}

/// An open transaction of the least session of all that have one: the one that is rolled back first where a run ends.
pub fn first_held<'a>(kept: &'a InstanceView<'a>) -> Option<Held<'a>>
    ensures first { (w : World) → Sees w kept.now → MatchOption result (AllByRecursion (λ db. db.transactions ≡ []) w.databases) (λ h. IsFirst w (held_of h)) }
    ensures shows { LeaveNumbers kept.now.databases.items → (w : World) → Sees w kept.now → IfSome result (λ h. ShowsLog w.history h.database.now) }
    ensures numbers { LeaveNumbers kept.now.databases.items → IfSome result (λ h. CanEnd h.database.now) }
{
    let session = least_open(kept)?;
    held_by(kept, session)
}
