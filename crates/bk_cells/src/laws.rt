//! Laws of the cells of pages.

ghost use Rattle.bk_cells.specs.Laws.{CellsAreOnPages, CellsAreRows};

use bk_shown::placed_logs;
use bk_undo::{cells_law as tied_law, holding_law};

/// The page as of the end of a path holds in each cell what the log says that it spells.
pub fn cells_law()
    ensures { CellsAreOnPages }
{}

/// Where nothing is pending in a log, its used cells are exactly its committed rows, each in its place.
pub fn rows_law()
    ensures { CellsAreRows }
{
    placed_logs();
    holding_law();
    tied_law();
}
