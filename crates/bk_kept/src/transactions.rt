//! What is open in a database.

ghost use Rattle.std.specs.Prelude.{◌≡◌, fold, min, reverse, IfOk};
ghost use Rattle.bk_machine.specs.World as world;

use crate::kept::Database;
use crate::views::DatabaseView;
use bk_ids::{Lsn, Sequence};
use bk_world::Open;
use std::alloc::{AllocError, Global};

/// Transactions of their own.
pub fn copy_transactions(alloc: Global, transactions: &[Open]) -> Result<Sequence<Open>, AllocError>
    ensures { IfOk result (λ copy. copy ≡ transactions.now) }
{
    let mut copy = Vec::new(alloc);
    for transaction in transactions {
        copy.push(transaction.copy(alloc)?)?;
    }
    Ok(Sequence::new(copy))
}

// The least number of this one and the first records of transactions, from the last of them on.
fn least_of(transactions: &[Open], n: Lsn) -> Lsn
    ensures { result ≡ fold (λ least t. min t.begin least) n (reverse transactions.now) }
{
    let from_last = transactions.iter().rev();
    from_last.fold(n, |least, t| t.begin.min(least))
}

/// The least number of this one and the first records of transactions.
pub fn least_open(transactions: &[Open], n: Lsn) -> Lsn
    ensures { result ≡ world.least_begin transactions.now n }
{
    least_of(transactions, n)
}

impl Database {
    ghost use Rattle.std.specs.Prelude.{◌≡◌};
    ghost use Rattle.bk_machine.specs.World as world;

    /// The least number of this one and the first records of what is open in it.
    pub fn least_begin(&self, n: Lsn) -> Lsn
        ensures { result ≡ world.least_begin self.now.transactions n }
    {
        least_open(self.transactions.as_slice(), n)
    }
}

impl<'a> DatabaseView<'a> {
    ghost use Rattle.std.specs.Prelude.{◌≡◌};
    ghost use Rattle.bk_machine.specs.World as world;

    /// The least number of this one and the first records of what is open in it.
    pub fn least_begin(&self, n: Lsn) -> Lsn
        ensures { result ≡ world.least_begin self.now.transactions n }
    {
        least_open(self.transactions.as_slice(), n)
    }
}
