//! The committed rows of all tables.

ghost use Rattle.std.specs.Prelude.{◌≡◌, []};

use bk_groups::Groups;
use bk_ids::Value;
use bk_world::PlacedRow;
use std::alloc::{AllocError, Global};
use std::collections::BTreeMap;
use std::marker::Model;

/// Committed rows, and entries for rows that may be committed next without memory. Contracts see the list of the entries,
/// each its table and key with its committed value, if it has one, by rising table and key.
pub struct Rows {
    values: BTreeMap<(u32, u64), Option<Value>>,
}

impl Drop for Rows {
    fn drop(self) {
        let Rows { values: _ } = self;
    }
}

impl Model for Rows {
    ghost use Rattle.bk_shown.specs.Rows.{RowEntries};

    ghost Value = { RowEntries };

    ghost view = { λ rows. rows.values.entries };
}

impl Rows {
    ghost use Rattle.std.specs.Prelude.{ℕ, IfOk, IsTrue, OnOk, None, Some, is_some, option_map};
    ghost use Rattle.bk_shown.specs.Rows.{ListsPlaced, Reserves, SetsEntry, has_entry, value_among};
    ghost use Rattle.bk_world.specs.PlacedRows as places;
    ghost use Rattle.bk_world.specs.RowLaws.{RowsRise};
    ghost use Rattle.bk_world.specs.Telling.{row_at};

    /// No rows. It takes no memory.
    pub fn new(alloc: Global) -> Self
        ensures { result ≡ [] }
    {
        Rows {
            values: BTreeMap::new(alloc),
        }
    }

    /// Gives a row its value, in the place of the one that it has.
    pub fn put(&mut self, table: u32, key: u64, value: Value) -> Result<(), AllocError>
        ensures { OnOk result (SetsEntry self.old self.new (table, key) (Some (Some value))) }
    {
        self.values.insert((table, key), Some(value))?;
        Ok(())
    }

    /// Makes an entry for a row that has none: it isn't committed.
    pub fn reserve(&mut self, table: u32, key: u64) -> Result<(), AllocError>
        ensures { OnOk result (Reserves (table, key) self.old self.new) }
    {
        if self.values.contains_key(&(table, key)) {
            return Ok(());
        }
        self.values.insert((table, key), None)?;
        Ok(())
    }

    /// Gives a row that has an entry its value, or none. It takes no memory. It returns whether the row has an entry.
    pub fn set(&mut self, table: u32, key: u64, value: Option<Value>) -> bool
        ensures there { result ≡ has_entry self.old (table, key) }
        ensures sets { IsTrue result → SetsEntry self.old self.new (table, key) (Some value) }
    {
        if !self.values.contains_key(&(table, key)) {
            return false;
        }
        self.values.insert((table, key), value).is_ok()
    }

    /// Leaves a row out with its entry, if it has one.
    pub fn leave_out(&mut self, table: u32, key: u64)
        ensures { SetsEntry self.old self.new (table, key) None }
    {
        let _gone = self.values.remove(&(table, key));
    }

    /// Whether a row is committed.
    pub fn has(&self, table: u32, key: u64) -> bool
        ensures { result ≡ is_some (value_among self.now (table, key)) }
    {
        self.value(table, key).is_some()
    }

    /// The value of a row, if it is committed.
    pub fn value(&self, table: u32, key: u64) -> Option<&Value>
        ensures { option_map (λ text. text.now) result ≡ value_among self.now (table, key) }
    {
        match self.values.get(&(table, key)) {
            Some(entry) => entry.as_ref(),
            None => None,
        }
    }

    /// Keys and values of a table's rows, by rising key.
    pub fn listed(&self, alloc: Global, table: u32) -> Result<Vec<(u64, Value)>, AllocError>
        ensures rows { IfOk result (λ listed. (key : ℕ) → row_at listed.items key ≡ value_among self.now (table, key)) }
        ensures rise { IfOk result (λ listed. RowsRise listed.items) }
    {
        let mut listed = Vec::new(alloc);
        for (row, entry) in self.values.iter() {
            let (of, key) = *row;
            if of == table {
                if let Some(value) = entry {
                    listed.push((key, value.copy(alloc)?))?;
                }
            }
        }
        Ok(listed)
    }

    /// The rows that have a place in these groups, with it, by rising table and key.
    pub fn with_places(&self, alloc: Global, groups: &Groups) -> Result<Vec<PlacedRow>, AllocError>
        ensures rows { IfOk result (λ listed. ListsPlaced groups.now self.now listed.items) }
        ensures rise { IfOk result (λ listed. places.RowsRise listed.items) }
    {
        let mut listed = Vec::new(alloc);
        for (row, entry) in self.values.iter() {
            let (table, key) = *row;
            if let Some(value) = entry {
                if let Some(place) = groups.find(table, key) {
                    listed.push(PlacedRow {
                        table,
                        key,
                        value: value.copy(alloc)?,
                        place,
                    })?;
                }
            }
        }
        Ok(listed)
    }
}
