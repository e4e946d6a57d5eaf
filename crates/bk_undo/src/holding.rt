//! A store goes on holding what its log says, record by record.

ghost use Rattle.std.specs.Prelude.{◌≡◌, ◌<◌, ℕ, List, [], ◌∷◌, ◌++◌, map, not, ◌==◌, false, Option};
ghost use Rattle.std.specs.List.{AllByRecursion, filter};
ghost use Rattle.bk_ids.specs.declared.record.Mark.{Mark};
ghost use Rattle.bk_ids.specs.declared.record.Place.{Place};
ghost use Rattle.bk_world.specs.Entry.{RowChange};
ghost use Rattle.bk_world.specs.Pending.{Pending, PendingRise, pending};
ghost use Rattle.bk_world.specs.Places.{place_of};
ghost use Rattle.bk_world.specs.Records.{Logged, RowId, more};
ghost use Rattle.bk_world.specs.Says.{begin_said, commit_said, undoing, write_said};
ghost use Rattle.bk_world.specs.SoundLogs.{MayWrite};
ghost use Rattle.bk_undo.specs.Cells.{Stored, is_place, rows_written};
ghost use Rattle.bk_undo.specs.CellSteps.{SameCells, SameRows, SetsCell};
ghost use Rattle.bk_undo.specs.Holds.{Holds, cell_write, wrote};
ghost use Rattle.bk_undo.specs.Spelled.{cell};

/// A store that holds what a log says holds what it says with one record more: behind the begin of a transaction what it
/// held, behind a write that may come the row in its cell, behind a commit its rows, each that is gone without its place,
/// and behind an undone write the cell as it was.
pub fn holding_law()
    ensures begins { (rs : List Logged) (n : ℕ) (s : Stored) → Holds rs s → Holds (more rs n (begin_said n)) s }
    ensures writes { (rs : List Logged) (n begin : ℕ) (at : Place) (before : Option (List ℕ)) (c : RowChange) (s : Stored) → Holds rs s → MayWrite rs n begin at before c
        → AllByRecursion (λ w. w.lsn < n) (pending rs) → Holds (more rs n (write_said begin at before c)) (wrote s n begin at before c) }
    ensures commits { (rs : List Logged) (n begin time : ℕ) (mark : Option Mark) (old new : Stored) → Holds rs old → SameCells old new
        → new.pending ≡ filter (λ w. not (w.begin == begin)) old.pending
        → ((id : RowId) → new.rows id ≡ rows_written (filter (λ w. w.begin == begin) old.pending) old.rows id)
        → ((id : RowId) → new.places id ≡ place_of (more rs n (commit_said begin time mark)) id) → Holds (more rs n (commit_said begin time mark)) new }
    ensures undoes { (rs : List Logged) (n : ℕ) (old new : Stored) → Holds rs old → PendingRise (pending rs) → (front : List Pending) (w : Pending) (back : List Pending)
        → pending rs ≡ front ++ w ∷ back → AllByRecursion (λ v. is_place w.place v.place ≡ false) back → SetsCell old w.place (cell w.change.table w.change.key w.before) new
        → new.pending ≡ map cell_write front ++ map cell_write back → SameRows old new → ((id : RowId) → new.places id ≡ place_of (more rs n (undoing (w ∷ []))) id)
        → Holds (more rs n (undoing (w ∷ []))) new }
{}
