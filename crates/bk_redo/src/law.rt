//! What redo makes of a page, by one log and by a chain of backup sets.

ghost use Rattle.std.specs.Prelude.{◌≡◌, ◌≤◌, ◌<◌, ◌^◌, ℕ, Bool, true, false, List};
ghost use Rattle.std.specs.List.{list_any};
ghost use Rattle.bk_ids.specs.declared.record.Rec.{Rec};
ghost use Rattle.bk_page.specs.Page.{fresh_page};
ghost use Rattle.bk_redo.specs.declared.place.PageAt.{PageAt};
ghost use Rattle.bk_redo.specs.PageStates.{PageState, page_of, fresh};
ghost use Rattle.bk_redo.specs.Effects.{fills};
ghost use Rattle.bk_redo.specs.Redo.{RiseFrom, Leads, records_between, as_of, redone_by};
ghost use Rattle.bk_redo.specs.Chains.{PageSet, IsChain, after_sets, last_path, last_point};
ghost use Rattle.bk_redo.specs.Laws.{FrontIsEnough, BelowIsEnough, UntouchedStays, MoreLeavesUntouched, RedoLeavesUntouched, RangesJoin, SlicesJoin};

/// The page law: a page as of c that is led to b by the records from `from` on, redone by a log with these records, is the
/// page as of b. A page that was formatted holds the fresh page, with which all of this begins.
pub fn page_law()
    ensures redone { (at : PageAt) (path log : List Rec) (c from b : ℕ) → RiseFrom 1 path → Leads at path c from b → records_between from b log ≡ records_between from b path → redone_by at (records_between from b log) (as_of at c path) ≡ as_of at b path }
    ensures fresh { (file number : ℕ) → file < 2 ^ 16 → number < 2 ^ 32 → page_of (fresh_page file number) ≡ fresh }
{}

/// The page as of a number is that of each front of the log with the records below it. Records that don't touch a page leave it,
/// as of each number and in redo.
pub fn front_law()
    ensures front { FrontIsEnough }
    ensures below { BelowIsEnough }
    ensures untouched { UntouchedStays }
    ensures more { MoreLeavesUntouched }
    ensures redone { RedoLeavesUntouched }
{}

/// Redo by two parts of a log, one after the other, is redo by both together: of a page by two ranges of numbers, and of frames by two slices
/// of the log's bytes.
pub fn slice_law()
    ensures ranges { RangesJoin }
    ensures slices { SlicesJoin }
{}

/// The chain law: pages that are as of a point, restored by sets of which each follows the one before it, are as of the last
/// set's end. Each page leads there: a copy from behind the start of the set's log, while no bulk load named it; a copy as of
/// the end; a page that no bulk load names; and one that a differential doesn't hold, which no record from its base on had
/// touched by its checkpoint.
pub fn chain_law()
    ensures chain { (pages : PageAt → Bool) (path : List Rec) (point : ℕ) (sets : List PageSet) (at : PageAt) (page : PageState) → IsChain pages path point sets → pages at ≡ true → page ≡ as_of at point path → after_sets at sets page ≡ as_of at (last_point point sets) (last_path path sets) }
    ensures copied { (at : PageAt) (path : List Rec) (c from to : ℕ) → from ≤ c → c ≤ to → list_any (fills at) (records_between c to path) ≡ false → Leads at path c from to }
    ensures copied_at_end { (at : PageAt) (path : List Rec) (from to : ℕ) → from ≤ to → Leads at path to from to }
    ensures logged { (at : PageAt) (path log : List Rec) (point from to : ℕ) → RiseFrom 1 path → from ≤ point → point ≤ to → records_between from to log ≡ records_between from to path → list_any (fills at) (records_between from to log) ≡ false → Leads at path point from to }
    ensures not_held { (at : PageAt) (path : List Rec) (base point checkpoint from to : ℕ) → RiseFrom 1 path → base ≤ point → point ≤ to → from ≤ checkpoint → checkpoint ≤ to → (as_of at checkpoint path).lsn < base → list_any (fills at) (records_between checkpoint to path) ≡ false → Leads at path point from to }
{}
