//! Numbers that are used up, and numbers that are left.

ghost use Rattle.std.specs.Prelude.{◌≡◌, ◌+◌, true, nat_le};
ghost use Rattle.std.specs.List.{list_all};
ghost use Rattle.bk_machine.specs.Checks as checks;
ghost use Rattle.bk_machine.specs.statements.Restore as restore;
ghost use Rattle.bk_kept.specs.Numbers as numbers;
ghost use Rattle.bk_kept.specs.Numbers.{LeaveNumbers};

use crate::views::{DatabaseView, InstanceView};
use bk_ids::Lsn;
use bk_world::Status;

// Log sequence numbers and GUIDs from here on, 2^62 - 2^32, are kept for what is never refused.
const KEPT_NUMBERS: u64 = 4_611_686_014_132_420_608;

// Numbers from here on, 2^62, are never given.
const LAST_NUMBER: u64 = 1 << 62;

/// Whether log sequence numbers, or the low numbers of GUIDs, are used up at `n`: from 2^62 - 2^32 on.
pub fn used_up(n: u64) -> bool
    ensures { result ≡ checks.used_up n }
{
    n >= KEPT_NUMBERS
}

// Whether a database is online.
fn is_online(status: &Status) -> bool
    ensures { result ≡ restore.is_online status.now }
{
    matches!(status, Status::Online)
}

// Whether numbers from this end on are left for so many pending writes and open transactions.
fn are_left(end: Lsn, writes: usize, transactions: usize) -> bool
    ensures { result ≡ nat_le («end» + (writes + transactions)) checks.last_number }
{
    match writes.checked_add(transactions) {
        Some(both) => end <= LAST_NUMBER && both as u64 <= LAST_NUMBER - end,
        None => false,
    }
}

// Whether a database leaves numbers where it is online, and nothing is open in it where it isn't.
fn leaves_numbers(database: &DatabaseView<'_>) -> bool
    ensures { result ≡ numbers.leaves_numbers database.now }
{
    let transactions = database.transactions.as_slice().len();
    if is_online(database.status) {
        let writes = database.shown.written().len();
        return are_left(database.shown.end(), writes, transactions);
    }
    transactions == 0
}

// Whether each of some databases does.
fn all_leave(databases: &[DatabaseView<'_>]) -> bool
    ensures { result ≡ list_all numbers.leaves_numbers databases.now }
{
    databases.iter().all(leaves_numbers)
}

/// Whether each database leaves numbers: one to undo each pending write and one to end each open transaction where it is online;
/// and whether nothing is open in the others.
pub fn leave_numbers(view: &InstanceView<'_>) -> bool
    ensures left { result ≡ true → LeaveNumbers view.now.databases.items }
    ensures found { LeaveNumbers view.now.databases.items → result ≡ true }
{
    all_leave(&view.databases)
}
