//! The cells of a page.

ghost use Rattle.std.specs.Prelude.{◌≡◌, ◌+◌, ◌*◌, ◌<◌, MatchOption};
ghost use Rattle.bk_bytes.specs.Cell.{IsCell, IsCellValue, cell_bytes};
ghost use Rattle.bk_bytes.specs.CellView.{row_of};
ghost use Rattle.bk_page.specs.Page.{cell_at, with_cell};

use bk_bytes::Cell;
use bk_frames::Page;

const FIRST_CELL: usize = 96;

const CELL_BYTES: usize = 128;

/// The cell in a slot below 63, or `None` where its 128 bytes spell no cell.
pub fn read_cell(page: &Page, slot: u16) -> Option<Cell<'_>>
    requires { slot < 63 }
    ensures { MatchOption result (¬ IsCell (cell_at page.now slot)) (λ found. IsCellValue (row_of found) × (cell_at page.now slot ≡ cell_bytes (row_of found))) }
{
    Cell::read(cell_image(page, slot))
}

fn start_of(slot: u16) -> usize
    requires { slot < 63 }
    ensures { result ≡ 96 + 128 * slot }
{
    FIRST_CELL + CELL_BYTES * usize::from(slot)
}

fn cell_image(page: &Page, slot: u16) -> &[u8; CELL_BYTES]
    requires { slot < 63 }
    ensures { result.now ≡ cell_at page.now slot }
{
    let start = start_of(slot);
    match page[start..].first_chunk() {
        Some(image) => image,
        None => unreachable!(),
    }
}

/// Writes the 128 bytes of a cell into a slot below 63, and leaves all other bytes: the digest too, which is
/// sealed afterwards.
pub fn write_cell(page: &mut Page, slot: u16, cell: &[u8; 128])
    requires { slot < 63 }
    ensures { page.new ≡ with_cell page.old slot cell.now }
{
    let start = start_of(slot);
    page[start..start + CELL_BYTES].copy_from_slice(cell);
}
