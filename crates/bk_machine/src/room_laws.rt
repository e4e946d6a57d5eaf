ghost use Rattle.std.specs.Prelude.{◌≡◌, ◌≤◌, ℕ, ◌*◌, ◌==◌, true, false, List, [], ◌∷◌, length, Option, None, Some, is_some};
ghost use Rattle.std.specs.List.{find, AllByRecursion};
ghost use Rattle.bk_ids.specs.declared.record.Place.{Place};
ghost use Rattle.bk_machine.specs.Built.{FreeCell, IsBuiltLog, LiesWell};
ghost use Rattle.bk_machine.specs.Files.{extents_in};
ghost use Rattle.bk_machine.specs.Room.{AreOnce, is_full};
ghost use Rattle.bk_machine.specs.Sound.{IsLog};
ghost use Rattle.bk_world.specs.Places.{place_of};
ghost use Rattle.bk_world.specs.Records.{Logged, RowId};
ghost use Rattle.bk_world.specs.Telling.{tables};
ghost use Rattle.bk_world.specs.declared.database.FileSpec.{FileSpec};
ghost use Rattle.bk_world.specs.declared.database.TableSpec.{TableSpec};

/// In a sound log in which no load was said no more rows lie anywhere than its files have cells, 504 in each extent.
pub fn rows_lie_in_cells()
    ensures { (files : List FileSpec) (rs : List Logged) (end : ℕ) → IsLog files rs end → IsBuiltLog files rs
        → (ids : List RowId) → AreOnce ids → AllByRecursion (λ id. is_some (place_of rs id) ≡ true) ids → length ids ≤ 504 * extents_in files }
{}

/// In a sound log in which no load was said, each row that lies somewhere lies in a cell of its table's group, and no two lie in
/// one. A group is full for a row that lies nowhere exactly where it has no free cell; it isn't full for one that lies there.
pub fn groups_are_full_where_no_cell_is_free()
    ensures lies { (files : List FileSpec) (rs : List Logged) (end : ℕ) → IsLog files rs end → IsBuiltLog files rs
        → (id : RowId) (at : Place) → place_of rs id ≡ Some at → LiesWell files (tables rs) id at }
    ensures alone { (files : List FileSpec) (rs : List Logged) (end : ℕ) → IsLog files rs end → IsBuiltLog files rs
        → (a b : RowId) (at : Place) → place_of rs a ≡ Some at → place_of rs b ≡ Some at → a ≡ b }
    ensures room { (files : List FileSpec) (rs : List Logged) (end : ℕ) → IsLog files rs end → IsBuiltLog files rs
        → (group : ℕ) (id : RowId) → place_of rs id ≡ None → is_full rs files group (id ∷ []) ≡ false → FreeCell rs files group }
    ensures free { (files : List FileSpec) (rs : List Logged) (end : ℕ) → IsLog files rs end → IsBuiltLog files rs
        → (group : ℕ) (id : RowId) → place_of rs id ≡ None → FreeCell rs files group → is_full rs files group (id ∷ []) ≡ false }
    ensures own { (files : List FileSpec) (rs : List Logged) (end : ℕ) → IsLog files rs end → IsBuiltLog files rs
        → (id : RowId) (at : Place) (t : TableSpec) → place_of rs id ≡ Some at → find (λ (m : TableSpec). m.number == id.0) (tables rs) ≡ Some t
        → is_full rs files t.group (id ∷ []) ≡ false }
{}
