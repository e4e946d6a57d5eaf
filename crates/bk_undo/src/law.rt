//! What is left to undo where some of it was done, and where the log's older part isn't held.

ghost use Rattle.std.specs.Prelude.{◌≡◌, ◌≤◌, ◌<◌, ℕ, List, ◌++◌, map};
ghost use Rattle.std.specs.List.{AllByRecursion};
ghost use Rattle.bk_ids.specs.declared.record.Rec.{Rec};
ghost use Rattle.bk_undo.specs.Losers.{pending, records_below, compensation, unnumbered, Rises};
ghost use Rattle.bk_undo.specs.Laws.{EndsLeaveTheRest, ClosingLeavesTheOpen, UndoingKeepsLimits, UndoingIsSpelled, UndoingIsNoLonger, RecordsAreFew};

/// Compensation is never compensated: where a front of it is appended to the log, under any numbers, what is left to
/// undo is exactly the rest, also behind the ends of rollbacks that have nothing left to undo. Of what is pending, records that write nothing
/// leave just what none of them closes. A log gives the same compensation without an older part, if the part that is held begins
/// at or below each transaction that is to be undone.
pub fn undo_law()
    ensures rest { (n m : ℕ) (records written front back : List Rec) → Rises records → AllByRecursion (λ r. r.lsn < n) records → n ≤ m → AllByRecursion (λ r. r.lsn < m) written → compensation n records ≡ front ++ back → map unnumbered written ≡ front → compensation m (records ++ written) ≡ back }
    ensures ends { EndsLeaveTheRest }
    ensures closing { ClosingLeavesTheOpen }
    ensures held { (n begins : ℕ) (older held : List Rec) → AllByRecursion (λ r. r.lsn < begins) older → AllByRecursion (λ r. r.begin ≤ r.lsn) older → AllByRecursion (λ write. begins ≤ write.begin) (pending (records_below n (older ++ held))) → compensation n held ≡ compensation n (older ++ held) }
{}

/// What undoes the writes of a log can be written to one, under each number, and there is no more of it than there are records.
pub fn undoing_law()
    ensures limits { UndoingKeepsLimits }
    ensures spelled { UndoingIsSpelled }
    ensures no_longer { UndoingIsNoLonger }
    ensures few { RecordsAreFew }
{}
