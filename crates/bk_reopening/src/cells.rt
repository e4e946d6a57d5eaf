// The rows in the cells of pages.
ghost use Rattle.std.specs.Prelude.{◌≡◌, ◌<◌, ◌≤◌, ◌+◌, ◌^◌, List, Option, length, IfOk, OnOk, IsErrOf};
ghost use Rattle.std.specs.Str.{IsUtf8};
ghost use Rattle.bk_bytes.specs.Cell.{Row};
ghost use Rattle.bk_bytes.specs.CellView.{row_of};
ghost use Rattle.bk_facts.specs.declared.facts.DataFile.{DataFile};
ghost use Rattle.bk_ids.specs.declared.record.Place.{Place as Places};
ghost use Rattle.bk_opening.specs.Opening.{AreIn};
ghost use Rattle.bk_reopening.specs.Cells.{AreAll, AreFound, AreInPool, HoldsCells, IsTextCell};

use crate::error::OpenError;
use bk_bytes::Cell;
use bk_frames::Page;
use bk_ids::{Place, Slot, Value};
use bk_page::read_cell;
use bk_paged::Paged;
use bk_world::PlacedRow;
use std::alloc::Global;

// The value that these bytes spell. `Foreign` is answered where they are no text of at most 112 bytes.
fn value_of(alloc: Global, bytes: &[u8]) -> Result<Value, OpenError>
    ensures value { IfOk result (λ value. value ≡ bytes.now) }
    ensures foreign { IsErrOf result OpenError.Foreign → IsUtf8 bytes.now → length bytes.now ≤ 112 → ⊥ }
    ensures fault { IsErrOf result OpenError.Fault → ⊥ }
{
    if bytes.len() > 112 {
        return Err(OpenError::Foreign);
    }
    let Ok(text) = str::from_utf8(bytes) else {
        return Err(OpenError::Foreign);
    };
    let value = Value::new(alloc, text)?;
    Ok(value)
}

// Adds the row in the cell at a place, if it is used.
fn add_cell(
    alloc: Global,
    rows: &mut Vec<PlacedRow>,
    place: Place,
    cell: Cell<'_>,
) -> Result<(), OpenError>
    ensures found { (cells : Places → Option Row) (files : List DataFile) → cells place ≡ row_of cell.entry
        → AreFound cells files place.file place.page place.slot rows.old.items → OnOk result (AreFound cells files place.file place.page (place.slot + 1) rows.new.items) }
    ensures foreign { IsErrOf result OpenError.Foreign → IsTextCell (row_of cell.entry) → ⊥ }
    ensures fault { IsErrOf result OpenError.Fault → ⊥ }
{
    if let Cell::Used { table, key, value } = cell {
        let value = value_of(alloc, value)?;
        rows.push(PlacedRow {
            table,
            key,
            value,
            place,
        })?;
    }
    Ok(())
}

// Adds the row in a slot of a page, if there is one. `Foreign` is answered where no cell is spelled there.
fn add_slot(
    alloc: Global,
    rows: &mut Vec<PlacedRow>,
    bytes: &Page,
    place: Place,
) -> Result<(), OpenError>
    ensures found { (cells : Places → Option Row) (files : List DataFile) → HoldsCells cells place.file place.page bytes.now
        → AreFound cells files place.file place.page place.slot rows.old.items → OnOk result (AreFound cells files place.file place.page (place.slot + 1) rows.new.items) }
    ensures foreign { IsErrOf result OpenError.Foreign → (cells : Places → Option Row) → HoldsCells cells place.file place.page bytes.now → ⊥ }
    ensures fault { IsErrOf result OpenError.Fault → ⊥ }
{
    let Some(cell) = read_cell(bytes, place.slot.get()) else {
        return Err(OpenError::Foreign);
    };
    add_cell(alloc, rows, place, cell)
}

// Adds the rows on a page.
fn add_page(
    alloc: Global,
    rows: &mut Vec<PlacedRow>,
    bytes: &Page,
    file: u16,
    page: u32,
) -> Result<(), OpenError>
    ensures found { (cells : Places → Option Row) (files : List DataFile) → HoldsCells cells file page bytes.now
        → AreFound cells files file page 0 rows.old.items → OnOk result (AreFound cells files file (page + 1) 0 rows.new.items) }
    ensures foreign { IsErrOf result OpenError.Foreign → (cells : Places → Option Row) → HoldsCells cells file page bytes.now → ⊥ }
    ensures fault { IsErrOf result OpenError.Fault → ⊥ }
{
    for n in 0..63 {
        let Some(slot) = Slot::new(n) else {
            unreachable!();
        };
        add_slot(alloc, rows, bytes, Place { file, page, slot })?;
    }
    Ok(())
}

// Adds the rows on the pages of a data file. `Foreign` is answered where one of them lies in no frame.
fn add_file(
    alloc: Global,
    rows: &mut Vec<PlacedRow>,
    paged: &Paged,
    file: u16,
) -> Result<(), OpenError>
    ensures found { (cells : Places → Option Row) → AreInPool cells paged.now.pool
        → AreFound cells paged.now.facts.files file 0 0 rows.old.items → OnOk result (AreFound cells paged.now.facts.files (file + 1) 0 0 rows.new.items) }
    ensures foreign { IsErrOf result OpenError.Foreign → (cells : Places → Option Row) → AreInPool cells paged.now.pool → AreIn paged.now.facts.files paged.now.pool → ⊥ }
    ensures fault { IsErrOf result OpenError.Fault → ⊥ }
{
    for page in 0..paged.pages(file) {
        let Some(bytes) = paged.peek(file, page) else {
            return Err(OpenError::Foreign);
        };
        add_page(alloc, rows, bytes, file, page)?;
    }
    Ok(())
}

// All rows in the cells of the data files, whose pages lie in frames, in the order of their places.
pub fn found_rows(alloc: Global, paged: &Paged) -> Result<Vec<PlacedRow>, OpenError>
    ensures all { IfOk result (λ rows. (cells : Places → Option Row) → AreInPool cells paged.now.pool → AreAll cells paged.now.facts.files rows.items) }
    ensures foreign { IsErrOf result OpenError.Foreign → (cells : Places → Option Row) → AreInPool cells paged.now.pool → AreIn paged.now.facts.files paged.now.pool → length paged.now.facts.files < 2 ^ 16 → ⊥ }
    ensures fault { IsErrOf result OpenError.Fault → ⊥ }
{
    let mut rows = Vec::new(alloc);
    for i in 0..paged.files().len() {
        let Ok(file) = u16::try_from(i + 1) else {
            return Err(OpenError::Foreign);
        };
        add_file(alloc, &mut rows, paged, file)?;
    }
    Ok(rows)
}
