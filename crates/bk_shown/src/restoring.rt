//! What a log shows, from its tables, its committed rows, and the end of it in which all is told of what is pending.

ghost use Rattle.std.specs.Prelude.{◌≡◌, [], List, Some, IfOk, OnOk, IsErrOf, map};
ghost use Rattle.bk_groups.specs.Groups.{AreFiles};
ghost use Rattle.bk_world.specs.Records.{Logged};
ghost use Rattle.bk_world.specs.declared.database.FileSpec.{FileSpec as FileSpecs};
ghost use Rattle.bk_world.specs.declared.database.TableSpec.{TableSpec as TableSpecs};
ghost use Rattle.bk_world.specs.declared.row.PlacedRow.{PlacedRow as PlacedRows};
ghost use Rattle.bk_shown.specs.Shown.{AreNumbered, IsOf, Shows, pending_of};
ghost use Rattle.bk_shown.specs.Steps.{AddsRow, HasRows, HasWrites, MayAdd, MayHold, MayPend, home_among};
ghost use Rattle.bk_shown.specs.declared.error.TakeError.TheVariants.{Unfit};

use crate::error::TakeError;
use crate::pending::pending_in;
use crate::shown::{Shown, Written};
use bk_ids::{Lsn, RecoveryModel};
use bk_record::Records;
use bk_world::{FileSpec, PlacedRow, TableSpec};
use std::alloc::Global;

impl Shown {
    // These tables were made, and no row is there.
    fn add_tables(&mut self, tables: &[TableSpec]) -> Result<(), TakeError>
        ensures ok { OnOk result ((files : List FileSpecs) → HasRows files [] [] self.old → HasRows files tables.now [] self.new) }
        ensures unfit { IsErrOf result Unfit → (files : List FileSpecs) → HasRows files [] [] self.old → AreNumbered 1 tables.now → ⊥ }
    {
        for table in tables {
            self.take_table(table.number, table.name.as_str(), table.group)?;
        }
        Ok(())
    }

    // A row is committed, in its cell.
    fn add_row(&mut self, row: &PlacedRow) -> Result<(), TakeError>
        ensures ok { OnOk result (AddsRow row.now self.old self.new) }
        ensures unfit { IsErrOf result Unfit → MayAdd self.old.groups row.now → ⊥ }
    {
        if self.groups.find(row.table, row.key).is_some() || !self.groups.is_free(&row.place) {
            return Err(TakeError::Unfit);
        }
        let value = row.value.copy(self.alloc)?;
        self.groups.put(row.table, row.key, &row.place)?;
        self.rows.put(row.table, row.key, value)?;
        Ok(())
    }

    // These rows are committed, each in its cell.
    fn add_rows(&mut self, rows: &[PlacedRow]) -> Result<(), TakeError>
        ensures ok { OnOk result ((files : List FileSpecs) (made : List TableSpecs) → HasRows files made [] self.old → HasRows files made rows.now self.new) }
        ensures unfit { IsErrOf result Unfit → (files : List FileSpecs) (made : List TableSpecs) → HasRows files made [] self.old → MayHold files rows.now → ⊥ }
    {
        for row in rows {
            self.add_row(row)?;
        }
        Ok(())
    }

    // These tables were made, and these rows are committed.
    fn add_all(&mut self, tables: &[TableSpec], rows: &[PlacedRow]) -> Result<(), TakeError>
        ensures ok { OnOk result ((files : List FileSpecs) → HasRows files [] [] self.old → HasRows files tables.now rows.now self.new) }
        ensures unfit { IsErrOf result Unfit → (files : List FileSpecs) → HasRows files [] [] self.old → AreNumbered 1 tables.now → MayHold files rows.now → ⊥ }
    {
        self.add_tables(tables)?;
        self.add_rows(rows)
    }

    // These writes are pending, one behind the other, each in its row's cell.
    fn add_writes(&mut self, writes: Vec<Written>) -> Result<(), TakeError>
        ensures ok { OnOk result ((files : List FileSpecs) (made : List TableSpecs) (listed : List PlacedRows) → HasWrites files made listed [] self.old → HasWrites files made listed writes.items self.new) }
        ensures unfit { IsErrOf result Unfit → (files : List FileSpecs) (made : List TableSpecs) (listed : List PlacedRows) → HasWrites files made listed [] self.old
            → MayPend files (home_among listed) (map pending_of writes.items) → ⊥ }
    {
        for write in writes {
            self.add_write(write)?;
        }
        Ok(())
    }

    /// What a log in these files shows, from its tables, its committed rows by rising table and key, the end of it in which each
    /// transaction began of which something is pending, its recovery model, its last time (milliseconds since 1970-01-01
    /// 00:00:00 UTC), and the number that its next record gets. `Unfit` comes only where there is no such log.
    pub fn restored(
        alloc: Global,
        files: &[FileSpec],
        tables: &[TableSpec],
        rows: &[PlacedRow],
        log: &Records,
        model: RecoveryModel,
        time: u64,
        end: Lsn,
    ) -> Result<Shown, TakeError>
        requires { AreFiles files.now }
        ensures at { IfOk result (λ shown. shown.«end» ≡ «end») }
        ensures ok { IfOk result (λ shown. (rs : List Logged) → IsOf files.now rs tables.now rows.now log.now model time «end» → Shows files.now rs shown) }
        ensures unfit { IsErrOf result Unfit → (rs : List Logged) → IsOf files.now rs tables.now rows.now log.now model time «end» → ⊥ }
    {
        let mut shown = Shown::new(alloc, files)?;
        shown.add_all(tables, rows)?;
        let writes = pending_in(alloc, log)?;
        shown.add_writes(writes)?;
        shown.model = model;
        shown.time = time;
        shown.end = end;
        Ok(shown)
    }
}
