//! Laws on logs whose records come one behind the other, each in its place.

ghost use Rattle.std.specs.Prelude.{◌≡◌, ◌≤◌, ℕ, List, [], ◌++◌, length, Some};
ghost use Rattle.bk_world.specs.Records.{Counts, Logged};
ghost use Rattle.bk_world.specs.SoundLogs.{IsSound};
ghost use Rattle.bk_world.specs.Telling.{row_at, rows};
ghost use Rattle.bk_world.specs.declared.database.FileSpec.{FileSpec};
ghost use Rattle.bk_shown.specs.Shown.{ArePlaced, LieInCells, LogKeeps};

/// Such a log keeps what every log that is shown keeps, its rows lie in cells of their tables' groups, and their values
/// have at most 112 bytes. With further records in their places it is such a log again.
pub fn placed_logs()
    ensures keeps { (files : List FileSpec) (rs : List Logged) («end» : ℕ) → Counts 1 rs «end» → IsSound rs → ArePlaced files [] rs → LogKeeps rs «end» }
    ensures lie { (files : List FileSpec) (rs : List Logged) («end» : ℕ) → Counts 1 rs «end» → IsSound rs → ArePlaced files [] rs → LieInCells files rs }
    ensures values { (files : List FileSpec) (rs : List Logged) («end» : ℕ) → Counts 1 rs «end» → IsSound rs → ArePlaced files [] rs
        → (table key : ℕ) (value : List ℕ) → row_at (rows rs table) key ≡ Some value → length value ≤ 112 }
    ensures more { (files : List FileSpec) (rs next : List Logged) → ArePlaced files [] rs → ArePlaced files rs next → ArePlaced files [] (rs ++ next) }
{}
