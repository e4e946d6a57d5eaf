ghost use Rattle.std.specs.Prelude.{◌≡◌, ℕ, ◌+◌, List, [], ◌++◌, length, reverse, Option, is_some};
ghost use Rattle.bk_ids.specs.declared.path.Branch.{Branch};
ghost use Rattle.bk_ids.specs.declared.record.Mark.{Mark};
ghost use Rattle.bk_world.specs.Cut.{IsCutLog, end_behind, settled};
ghost use Rattle.bk_world.specs.Lines.{RecordLines, Grew, log_below};
ghost use Rattle.bk_world.specs.Pending.{Pending, PendingRise, of_others, pending};
ghost use Rattle.bk_world.specs.Places.{homes};
ghost use Rattle.bk_world.specs.Records.{Counts, Logged, RowId, more};
ghost use Rattle.bk_world.specs.Says.{commit_said, rollback_said, settle_said, undoing};
ghost use Rattle.bk_world.specs.SoundLogs.{IsSound, NoLoadPends};
ghost use Rattle.bk_world.specs.Telling.{entries, row_at, rows, seen};

/// A path that has each number once reads the same however its history grows.
pub fn a_grown_history_reads_the_same()
    ensures { (old new : RecordLines) → Grew old new → (path : List Branch) (n : ℕ) → Counts 1 (log_below old path n) n → log_below new path n ≡ log_below old path n }
{}

/// A commit shows to all what its transaction saw. A rollback tells nothing, and leaves what is pending of the others.
pub fn ends_of_transactions()
    ensures commit { (rs : List Logged) (n begin time : ℕ) (mark : Option Mark) (table : ℕ) → rows (more rs n (commit_said begin time mark)) table ≡ seen rs begin table }
    ensures rollback { (rs : List Logged) (n begin : ℕ) → entries (more rs n (rollback_said begin (pending rs))) ≡ entries rs }
    ensures others { (rs : List Logged) (n begin : ℕ) → pending (more rs n (rollback_said begin (pending rs))) ≡ of_others begin (pending rs) }
{}

/// A log in which all that is pending was undone has nothing pending and tells what it told. It is the same however much of that was undone before.
pub fn settling()
    ensures nothing_pends { (rs : List Logged) → pending (settled rs) ≡ [] }
    ensures tells { (rs : List Logged) → entries (settled rs) ≡ entries rs }
    ensures again { (rs : List Logged) (vs us : List Pending) → PendingRise (pending rs) → reverse (pending rs) ≡ vs ++ us
        → settled (more rs (end_behind rs) (undoing vs)) ≡ settled rs }
{}

/// In a sound log that has each number once, and in which no load pends, the pending writes rise.
/// Each front of a sound log is sound, and so is what settles one.
pub fn sound_logs()
    ensures rises { (rs : List Logged) → IsSound rs → Counts 1 rs (end_behind rs) → NoLoadPends rs → PendingRise (pending rs) }
    ensures front { (rs ss : List Logged) → IsSound (rs ++ ss) → IsSound rs }
    ensures settled { (rs : List Logged) → IsSound rs → Counts 1 rs (end_behind rs) → NoLoadPends rs → IsSound (settled rs) }
{}

/// What a crash leaves of a log tells what the log told; nothing is pending in it; it has each number once, and is sound, where the log was.
pub fn logs_behind_a_crash()
    ensures tells { (begins : List ℕ) (rs left : List Logged) → IsCutLog begins rs left → entries left ≡ entries rs }
    ensures nothing_pends { (begins : List ℕ) (rs left : List Logged) → IsCutLog begins rs left → pending left ≡ [] }
    ensures counts { (begins : List ℕ) (rs left : List Logged) → IsCutLog begins rs left → Counts 1 rs (end_behind rs) → Counts 1 left (end_behind left) }
    ensures sound { (begins : List ℕ) (rs left : List Logged) → IsCutLog begins rs left → IsSound rs → Counts 1 rs (end_behind rs) → IsSound left }
{}

/// A row is committed exactly where a place is kept for it beyond its pending writes.
pub fn homes_of_rows()
    ensures { (rs : List Logged) (id : RowId) → is_some (row_at (rows rs id.0) id.1) ≡ is_some (homes rs id) }
{}
