//! The cells of pages and the rows of tables, held together by the records of a log.

ghost use Rattle.std.specs.Prelude.{◌≡◌, List, [], ◌∷◌, ◌++◌, map};
ghost use Rattle.bk_ids.specs.declared.record.Place.{Place};
ghost use Rattle.bk_ids.specs.declared.record.Rec.{Rec};
ghost use Rattle.bk_undo.specs.Losers.{pending};
ghost use Rattle.bk_undo.specs.Cells.{RowId, Stored, Tied, AreRows, nothing_stored, pending_of};
ghost use Rattle.bk_undo.specs.CellSteps.{Goes, GivesPlace, EndsPlace};

/// Each record keeps cells, places, pending writes and committed rows tied, and so does a place that a row is given or gives
/// up. The writes that are pending are those that the log says are to be undone. Where none is, the used cells are
/// exactly the rows, each in one place.
pub fn cells_law()
    ensures begins { Tied nothing_stored }
    ensures kept { (r : Rec) (old new : Stored) → Goes r old new → Tied old → Tied new }
    ensures given { (row : RowId) (at : Place) (old new : Stored) → GivesPlace row at old new → Tied old → Tied new }
    ensures ended { (row : RowId) (at : Place) (old new : Stored) → EndsPlace row at old new → Tied old → Tied new }
    ensures pending { (r : Rec) (records : List Rec) (old new : Stored) → Goes r old new → Tied old → map pending_of old.pending ≡ pending records → map pending_of new.pending ≡ pending (records ++ r ∷ []) }
    ensures settled { (s : Stored) → Tied s → s.pending ≡ [] → AreRows s }
{}
