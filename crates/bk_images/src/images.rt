//! The cells of rows, as log records hold them.

ghost use Rattle.std.specs.Prelude.{◌≡◌, ◌≤◌, ℕ, Some, None, length};
ghost use Rattle.bk_bytes.specs.Cell.{IsCell};
ghost use Rattle.bk_shown.specs.Values.{IsValue};
ghost use Rattle.bk_shown.specs.UndoSpelled as spelled;

use bk_bytes::Cell;
use bk_ids::{CellImage, Value};

/// The image of a free cell.
pub fn free_image() -> CellImage
    ensures image { (table key : ℕ) → result ≡ spelled.image table key None }
    ensures is_cell { IsCell result.bytes }
{
    CellImage {
        bytes: Cell::Free.image(),
    }
}

/// The image of the cell of a row with this value, of at most 112 bytes.
pub fn row_image(table: u32, key: u64, value: &str) -> CellImage
    requires { length value.now ≤ 112 }
    ensures image { result ≡ spelled.image table key (Some value.now) }
    ensures is_cell { IsCell result.bytes }
    ensures fits { IsValue (Some value.now) }
{
    let cell = Cell::Used {
        table,
        key,
        value: value.as_bytes(),
    };
    CellImage {
        bytes: cell.image(),
    }
}

/// The image of the cell of a row that has a value, or has none.
pub fn image_of(table: u32, key: u64, value: &Option<Value>) -> CellImage
    ensures image { result ≡ spelled.image table key value.now }
    ensures is_cell { IsCell result.bytes }
{
    match value {
        Some(value) => row_image(table, key, value.as_str()),
        None => free_image(),
    }
}
