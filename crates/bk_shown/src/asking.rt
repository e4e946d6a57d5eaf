//! What is shown, as it is asked for. Each answer is that of every log that is shown.

ghost use Rattle.std.specs.Prelude.{◌≡◌, ◌==◌, ℕ, true, List, [], Some, IfOk, IfSome, MatchOption, is_some, map, option_map};
ghost use Rattle.std.specs.List.{AllByRecursion};
ghost use Rattle.bk_world.specs.Cut.{end_behind};
ghost use Rattle.bk_world.specs.Pending as pending;
ghost use Rattle.bk_world.specs.PlacedRows.{AreRowsOf, RowsRise};
ghost use Rattle.bk_world.specs.Places.{last_of, place_of};
ghost use Rattle.bk_world.specs.Records.{Logged, id_of, is_row};
ghost use Rattle.bk_world.specs.Telling as telling;
ghost use Rattle.bk_world.specs.Telling.{row_at};
ghost use Rattle.bk_world.specs.declared.database.FileSpec.{FileSpec};
ghost use Rattle.bk_shown.specs.Rows.{value_among};
ghost use Rattle.bk_ids.specs.declared.record.Place.{Place};
ghost use Rattle.bk_shown.specs.Shown.{IsFit, IsFreeFor, Shows, pending_of};
ghost use Rattle.bk_shown.specs.Writes.{own_of, value_after, writer_of};

use crate::shown::{Shown, Written};
use bk_ids::{Lsn, Place, RecoveryModel, Value};
use bk_world::{PlacedRow, TableSpec};
use std::alloc::{AllocError, Global};

impl Shown {
    /// The number that the next record gets.
    pub fn end(&self) -> Lsn
        ensures same { result ≡ self.now.«end» }
        ensures shown { (files : List FileSpec) (rs : List Logged) → Shows files rs self.now → result ≡ end_behind rs }
    {
        self.end
    }

    /// The recovery model.
    pub fn model(&self) -> RecoveryModel
        ensures { (files : List FileSpec) (rs : List Logged) → Shows files rs self.now → result ≡ telling.model rs }
    {
        self.model
    }

    /// The last time that a record carries, in milliseconds since 1970-01-01 00:00:00 UTC; 0 where none does.
    pub fn time(&self) -> u64
        ensures { (files : List FileSpec) (rs : List Logged) → Shows files rs self.now → result ≡ telling.time rs }
    {
        self.time
    }

    /// The tables, in the order in which they were made.
    pub fn tables(&self) -> &[TableSpec]
        ensures { (files : List FileSpec) (rs : List Logged) → Shows files rs self.now → result.now ≡ telling.tables rs }
    {
        &self.tables
    }

    /// The pending writes, in the order of their records.
    pub fn written(&self) -> &[Written]
        ensures same { result.now ≡ self.now.written.items }
        ensures shown { (files : List FileSpec) (rs : List Logged) → Shows files rs self.now → map pending_of result.now ≡ pending.pending rs }
    {
        &self.written
    }

    /// The place of a row, if it has one: by its last pending write, else as a committed row.
    pub fn find(&self, table: u32, key: u64) -> Option<Place>
        ensures { (files : List FileSpec) (rs : List Logged) → Shows files rs self.now → result ≡ place_of rs (table, key) }
    {
        self.groups.find(table, key)
    }

    /// A free cell for a new row of a table, or `None` exactly where there is none: also where there is no such table. It
    /// stays free until a write of it is taken.
    pub fn place(&self, table: u32) -> Option<Place>
        ensures { MatchOption result
            ((files : List FileSpec) (rs : List Logged) → Shows files rs self.now → (at : Place) → ¬ IsFreeFor files rs table at)
            (λ at. (files : List FileSpec) (rs : List Logged) → Shows files rs self.now → IsFreeFor files rs table at) }
    {
        self.groups.group(table)?;
        self.groups.free_cell(table)
    }

    /// The committed value of a row, if it is there.
    pub fn value(&self, table: u32, key: u64) -> Option<&Value>
        ensures { (files : List FileSpec) (rs : List Logged) → Shows files rs self.now → option_map (λ text. text.now) result ≡ row_at (telling.rows rs table) key }
    {
        self.rows.value(table, key)
    }

    /// The value of a row as the transaction of this first record sees it: its own pending writes lie over the committed
    /// rows.
    pub fn seen(&self, begin: Lsn, table: u32, key: u64) -> Option<&Value>
        ensures { (files : List FileSpec) (rs : List Logged) → Shows files rs self.now → option_map (λ text. text.now) result ≡ row_at (telling.seen rs begin table) key }
    {
        seen_over(
            self.rows.value(table, key),
            &self.written,
            begin,
            table,
            key,
        )
    }

    /// The committed rows of a table, their keys and values, by rising key.
    pub fn rows(&self, alloc: Global, table: u32) -> Result<Vec<(u64, Value)>, AllocError>
        ensures { IfOk result (λ listed. (files : List FileSpec) (rs : List Logged) → Shows files rs self.now → listed.items ≡ telling.rows rs table) }
    {
        let listed = self.rows.listed(alloc, table)?;
        Ok(listed)
    }

    /// The committed rows of all tables with their places, by rising table and key.
    pub fn placed_rows(&self, alloc: Global) -> Result<Vec<PlacedRow>, AllocError>
        ensures rise { IfOk result (λ listed. RowsRise listed.items) }
        ensures rows { IfOk result (λ listed. (files : List FileSpec) (rs : List Logged) → Shows files rs self.now → AreRowsOf rs listed.items) }
        ensures fit { IfOk result (λ listed. (files : List FileSpec) (rs : List Logged) → Shows files rs self.now → AllByRecursion (IsFit (telling.tables rs)) listed.items) }
    {
        let listed = self.rows.with_places(alloc, &self.groups)?;
        Ok(listed)
    }

    /// The first record of the transaction that has a pending write of a row, if one has: no other transaction has one.
    pub fn holder(&self, table: u32, key: u64) -> Option<Lsn>
        ensures holder { (files : List FileSpec) (rs : List Logged) → Shows files rs self.now → is_some result ≡ is_some (last_of (table, key) (pending.pending rs)) }
        ensures alone { (files : List FileSpec) (rs : List Logged) → Shows files rs self.now → (begin : ℕ) → IfSome result (λ b. b ≡ begin) → AllByRecursion (λ w. is_row (id_of w.change) (table, key) ≡ true → w.begin ≡ begin) (pending.pending rs) }
    {
        first_writer(&self.written, table, key)
    }
}

// The value of a row behind a transaction's writes of it.
fn seen_over<'a>(
    committed: Option<&'a Value>,
    written: &'a [Written],
    begin: Lsn,
    table: u32,
    key: u64,
) -> Option<&'a Value>
    ensures { option_map (λ text. text.now) result ≡ value_after (table, key) (own_of begin written.now) (option_map (λ text. text.now) committed.entry) }
{
    let mut value = committed;
    for write in written {
        if write.begin == begin && write.table == table && write.key == key {
            value = write.value.as_ref();
        }
    }
    value
}

// The transaction of the first write of a row, if there is one.
fn first_writer(written: &[Written], table: u32, key: u64) -> Option<Lsn>
    ensures { result ≡ writer_of written.now (table, key) }
{
    for write in written {
        if write.table == table && write.key == key {
            return Some(write.begin);
        }
    }
    None
}
