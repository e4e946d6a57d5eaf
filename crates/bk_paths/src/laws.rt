//! Laws of the records of a path.

ghost use Rattle.bk_paths.specs.Laws.{FrontIsPath, KeptAreNumbered, KeptIsEnough, LastIsPage, MoreChangesLast, MoreIsPath, MoreKeepsPage, NothingPends, RedoBringsToEnd, SettledAgain, SettledIsPath, KeepsOpenAsTheMachine, SettlesAsTheMachine, SettlingKeepsOpen, UndoingFillsNothing};

use bk_redo::{chain_law, page_law};
use bk_undo::{undo_law, undoing_law};

/// Each front of a path is a path, and so are more records behind its end. A log that is kept from a number on has the numbers
/// from there on.
pub fn path_law()
    ensures front { FrontIsPath }
    ensures more { MoreIsPath }
    ensures kept { KeptAreNumbered }
{}

/// A page as of some number of a path stays one behind more records, and redo by what a log holds brings it to the end. The page as of
/// the end is changed by each record that is said there.
pub fn pages_law()
    ensures more { MoreKeepsPage }
    ensures last { LastIsPage }
    ensures changes { MoreChangesLast }
    ensures redone { RedoBringsToEnd }
{
    page_law();
    chain_law();
}

/// A settled path has nothing pending. A crash while it is being settled leaves a path that settles to the same. What a log holds is
/// enough to settle it, where it keeps what is open; and then it still does, however much of that is written. It settles as the log of the
/// machine does whose records it spells, and has open what is open there.
pub fn settling_law()
    ensures nothing_pends { NothingPends }
    ensures path { SettledIsPath }
    ensures fills { UndoingFillsNothing }
    ensures again { SettledAgain }
    ensures enough { KeptIsEnough }
    ensures keeps { SettlingKeepsOpen }
    ensures machine { SettlesAsTheMachine }
    ensures opened { KeepsOpenAsTheMachine }
{
    undo_law();
    undoing_law();
}
