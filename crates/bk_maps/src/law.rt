//! What the maps hold after any list of calls.

ghost use Rattle.std.specs.Prelude.{◌↔◌, ℕ, List};
ghost use Rattle.bk_maps.specs.Maps.{HasExtent, InDifferential, InBulk, new_maps};
ghost use Rattle.bk_maps.specs.Calls.{Call, AreCallsOn, SomeCall, SetsPage, SetsBulk, after, base_after, archive_after};

/// After any list of calls the differential map holds exactly the extents for which a page LSN at or above the base was
/// set, and the bulk map exactly those for which the LSN of a bulk load at or above the archive point was set.
pub fn maps_law()
    ensures differential { (sizes : List ℕ) (calls : List Call) (file extent : ℕ) → AreCallsOn (new_maps sizes) calls → HasExtent (new_maps sizes) file extent →
        (InDifferential (after (new_maps sizes) calls) file extent ↔ SomeCall (SetsPage file extent (base_after 1 calls)) calls) }
    ensures bulk { (sizes : List ℕ) (calls : List Call) (file extent : ℕ) → AreCallsOn (new_maps sizes) calls → HasExtent (new_maps sizes) file extent →
        (InBulk (after (new_maps sizes) calls) file extent ↔ SomeCall (SetsBulk file extent (archive_after 1 calls)) calls) }
{}
