//! Transactions end, and writes are undone.

ghost use Rattle.std.specs.Prelude.{◌≡◌, ◌==◌, ◌∷◌, [], not, false, true, filter, map, IsTrue, OnErr, OnOk};
ghost use Rattle.bk_shown.specs.Rows.{KeepsRows};
ghost use Rattle.bk_shown.specs.Steps.{row_numbered};
ghost use Rattle.bk_shown.specs.Writes.{LetsGo, Settles, has_write, lacks_entry, others_of, own_of, spent};
ghost use Rattle.bk_world.specs.Records.{is_row};

use crate::error::NotNext;
use crate::rows::Rows;
use crate::shown::{Shown, Written};
use bk_groups::Groups;
use bk_ids::Lsn;

// The value of a write, if it is one of this transaction, moves into the entry of its row; false where the row has none.
fn move_value(rows: &mut Rows, write: &mut Written, begin: Lsn) -> bool
    ensures spent { IsTrue result → write.new ≡ spent begin write.old }
    ensures moved { IsTrue result → Settles (own_of begin (write.old ∷ [])) rows.old rows.new }
    ensures lacks { result ≡ false → lacks_entry begin rows.old (write.old ∷ []) ≡ true }
{
    if write.begin != begin {
        return true;
    }
    let value = write.value.take();
    rows.set(write.table, write.key, value)
}

// The values of a transaction's writes move into the entries of their rows, one after the other; false where a row has
// none.
fn move_values(rows: &mut Rows, written: &mut [Written], begin: Lsn) -> bool
    ensures spent { IsTrue result → written.new ≡ map (spent begin) written.old }
    ensures moved { IsTrue result → Settles (own_of begin written.old) rows.old rows.new }
    ensures lacks { result ≡ false → lacks_entry begin rows.old written.old ≡ true }
{
    for write in written.iter_mut() {
        if !move_value(rows, write, begin) {
            return false;
        }
    }
    true
}

// And so do those of a vector's.
fn move_all(rows: &mut Rows, written: &mut Vec<Written>, begin: Lsn) -> bool
    ensures spent { IsTrue result → written.new.items ≡ map (spent begin) written.old.items }
    ensures moved { IsTrue result → Settles (own_of begin written.old.items) rows.old rows.new }
    ensures lacks { result ≡ false → lacks_entry begin rows.old written.old.items ≡ true }
{
    move_values(rows, written.as_mut_slice(), begin)
}

// The place and the entry of a row end, if it isn't committed.
fn let_go(groups: &mut Groups, rows: &mut Rows, table: u32, key: u64)
    ensures groups { LetsGo (λ id. is_row (table, key) id) rows.new groups.old groups.new }
    ensures rows { KeepsRows (λ id. is_row (table, key) id) rows.old rows.new }
{
    if rows.has(table, key) {
        return;
    }
    rows.leave_out(table, key);
    if groups.find(table, key).is_some() {
        groups.free(table, key);
    }
}

// And so do those of the row of a write, if it is one of this transaction.
fn let_own_go(groups: &mut Groups, rows: &mut Rows, write: &Written, begin: Lsn)
    ensures groups { LetsGo (λ id. has_write (own_of begin (write.now ∷ [])) id) rows.new groups.old groups.new }
    ensures rows { KeepsRows (λ id. has_write (own_of begin (write.now ∷ [])) id) rows.old rows.new }
{
    if write.begin == begin {
        let_go(groups, rows, write.table, write.key);
    }
}

// And so do those of the rows of a transaction's writes.
fn let_all_go(groups: &mut Groups, rows: &mut Rows, written: &[Written], begin: Lsn)
    ensures groups { LetsGo (λ id. has_write (own_of begin written.now) id) rows.new groups.old groups.new }
    ensures rows { KeepsRows (λ id. has_write (own_of begin written.now) id) rows.old rows.new }
{
    for write in written {
        let_own_go(groups, rows, write, begin);
    }
}

// Leaves the writes of a transaction out.
fn drop_own(written: &mut Vec<Written>, begin: Lsn)
    ensures { written.new.items ≡ others_of begin written.old.items }
{
    written.retain(|write| write.begin != begin);
}

// The row of the first write of a number.
fn numbered(written: &[Written], number: Lsn) -> Option<(u32, u64)>
    ensures { result ≡ row_numbered written.now number }
{
    for write in written {
        if write.lsn == number {
            return Some((write.table, write.key));
        }
    }
    None
}

// Takes out the writes of a number.
fn drop_write(written: &mut Vec<Written>, number: Lsn)
    ensures { written.new.items ≡ filter (λ w. not (w.lsn == number)) written.old.items }
{
    written.retain(|write| write.lsn != number);
}

impl Shown {
    ghost use Rattle.bk_shown.specs.Steps.{Commits, Undoes};

    // The pending writes of a transaction are committed. It takes no memory.
    pub(crate) fn commit(&mut self, begin: Lsn) -> Result<(), NotNext>
        ensures ok { OnOk result (Commits begin self.old self.new) }
        ensures unfit { OnErr result (lacks_entry begin self.old.rows self.old.written.items ≡ true) }
    {
        if !move_all(&mut self.rows, &mut self.written, begin) {
            return Err(NotNext);
        }
        let_all_go(&mut self.groups, &mut self.rows, &self.written, begin);
        drop_own(&mut self.written, begin);
        Ok(())
    }

    // Whether a row has a pending write.
    fn is_written(&self, table: u32, key: u64) -> bool
        ensures { result ≡ has_write self.now.written.items (table, key) }
    {
        self.written
            .iter()
            .any(|w| w.table == table && w.key == key)
    }

    // The write of this number is undone.
    pub(crate) fn undo(&mut self, undone: Lsn)
        ensures { Undoes undone self.old self.new }
    {
        let row = numbered(&self.written, undone);
        drop_write(&mut self.written, undone);
        if let Some((table, key)) = row {
            if !self.is_written(table, key) {
                let_go(&mut self.groups, &mut self.rows, table, key);
            }
        }
    }
}
