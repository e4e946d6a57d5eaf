//! A row is written.

ghost use Rattle.std.specs.Prelude.{◌≡◌, ◌<◌, ℕ, List, Option, IfOk, OnOk, IsErrOf, option_map};
ghost use Rattle.bk_bytes.specs.Cell.{IsCellValue};
ghost use Rattle.bk_bytes.specs.CellView.{row_of as cell_row};
ghost use Rattle.bk_record.specs.View.{place_of};
ghost use Rattle.bk_shown.specs.Steps.{KeepsPlace, MayLie, WritesRow};
ghost use Rattle.bk_shown.specs.Values.{IsTextOf, Spells, id_in};
ghost use Rattle.bk_shown.specs.Writes.{row_of};
ghost use Rattle.bk_shown.specs.declared.error.TakeError.TheVariants.{Unfit};

use crate::error::TakeError;
use crate::shown::{Shown, Written};
use crate::taking::push;
use bk_bytes::Cell;
use bk_groups::Groups;
use bk_ids::{Lsn, Place, Value};
use bk_record::PlaceRef;
use std::alloc::{AllocError, Global};

// The row of a cell, by its table and key, if it is used.
fn row_in(cell: &Cell<'_>) -> Option<(u32, u64)>
    ensures { result ≡ id_in (cell_row cell.now) }
{
    match cell {
        Cell::Free => None,
        Cell::Used { table, key, .. } => Some((*table, *key)),
    }
}

// The value of a cell of its own, if it is used and its bytes are text.
fn value_in(alloc: Global, cell: &Cell<'_>) -> Result<Option<Value>, AllocError>
    requires { IsCellValue (cell_row cell.now) }
    ensures { IfOk result (λ found. IsTextOf (cell_row cell.now) found) }
{
    match cell {
        Cell::Free => Ok(None),
        Cell::Used { value, .. } => match str::from_utf8(value) {
            Ok(text) => Ok(Some(Value::new(alloc, text)?)),
            Err(_) => Ok(None),
        },
    }
}

// The place that a record spells, if it is one of a cell.
pub(crate) fn placed(place: PlaceRef) -> Result<Place, TakeError>
    ensures ok { IfOk result (λ at. at ≡ place_of place) }
    ensures unfit { IsErrOf result Unfit → place.slot < 63 → ⊥ }
{
    match place.place() {
        Some(place) => Ok(place),
        None => Err(TakeError::Unfit),
    }
}

// The write that two cells spell, one before it and one behind it.
pub(crate) fn written(
    alloc: Global,
    lsn: Lsn,
    begin: Lsn,
    place: Place,
    before: &[u8; 128],
    after: &[u8; 128],
) -> Result<Written, TakeError>
    ensures ok { IfOk result (λ w. (table key : ℕ) (b v : Option (List ℕ)) → Spells before.now after.now table key b v → w ≡ record { lsn = lsn; begin = begin; place = place; table = table; key = key; before = b; value = v }) }
    ensures unfit { IsErrOf result Unfit → (table key : ℕ) (b v : Option (List ℕ)) → Spells before.now after.now table key b v → ⊥ }
{
    let (Some(old), Some(new)) = (Cell::read(before), Cell::read(after)) else {
        return Err(TakeError::Unfit);
    };
    let Some((table, key)) = row_in(&new).or(row_in(&old)) else {
        return Err(TakeError::Unfit);
    };
    let before = value_in(alloc, &old)?;
    let value = value_in(alloc, &new)?;
    Ok(Written {
        lsn,
        begin,
        place,
        table,
        key,
        before,
        value,
    })
}

// A row that is written gets its place, where it has none.
fn keep_place(groups: &mut Groups, table: u32, key: u64, at: &Place) -> Result<(), TakeError>
    ensures ok { OnOk result (KeepsPlace (table, key) at.now groups.old groups.new) }
    ensures unfit { IsErrOf result Unfit → MayLie groups.old (table, key) at.now → ⊥ }
{
    match groups.find(table, key) {
        Some(place) if place == *at => Ok(()),
        None if groups.is_free(at) => {
            groups.put(table, key, at)?;
            Ok(())
        }
        _ => Err(TakeError::Unfit),
    }
}

impl Shown {
    // A write is pending, and its row lies in its cell and has an entry.
    pub(crate) fn add_write(&mut self, write: Written) -> Result<(), TakeError>
        ensures ok { OnOk result (WritesRow write self.old self.new) }
        ensures unfit { IsErrOf result Unfit → MayLie self.old.groups (row_of write) write.place → ⊥ }
    {
        keep_place(&mut self.groups, write.table, write.key, &write.place)?;
        self.rows.reserve(write.table, write.key)?;
        push(&mut self.written, write)?;
        Ok(())
    }

    // A write of a cell.
    pub(crate) fn take_write(
        &mut self,
        lsn: Lsn,
        begin: Lsn,
        place: PlaceRef,
        before: &[u8; 128],
        after: &[u8; 128],
    ) -> Result<(), TakeError>
        ensures ok { OnOk result ((table key : ℕ) (b v : Option (List ℕ)) → Spells before.now after.now table key b v → WritesRow (record { lsn = lsn; begin = begin; place = place_of place; table = table; key = key; before = b; value = v }) self.old self.new) }
        ensures unfit { IsErrOf result Unfit → (table key : ℕ) (b v : Option (List ℕ)) → Spells before.now after.now table key b v → MayLie self.old.groups (table, key) (place_of place) → place.slot < 63 → ⊥ }
    {
        let place = placed(place)?;
        let write = written(self.alloc, lsn, begin, place, before, after)?;
        self.add_write(write)
    }
}
