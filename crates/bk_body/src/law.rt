//! What a set and its spelling keep.

ghost use Rattle.std.specs.Prelude.{◌≡◌, ◌++◌, ℕ, List};
ghost use Rattle.bk_bytes.specs.Field.{AreBytes};
ghost use Rattle.bk_body.specs.Body.{Body};
ghost use Rattle.bk_body.specs.Conditions.{IsBody};
ghost use Rattle.bk_body.specs.Slots.{Slot, holds, ReadsAs, slot_of};
ghost use Rattle.bk_body.specs.Spelling.{body_bytes, set_bytes};

/// A body has one spelling, and none is a proper front of another's. Bytes are read as one slot, which `slot_of` gives, and
/// a set that is spelled is read as its body.
pub fn set_law()
    ensures one_spelling { (body other : Body) (a b : List ℕ) → IsBody body → IsBody other → body_bytes body ++ a ≡ body_bytes other ++ b → (body ≡ other) × (a ≡ b) }
    ensures reads { (blob : List ℕ) → AreBytes blob → ReadsAs blob (slot_of blob) }
    ensures one_reading { (blob : List ℕ) (slot other : Slot) → ReadsAs blob slot → ReadsAs blob other → slot ≡ other }
    ensures spelled { (body : Body) → IsBody body → slot_of (set_bytes body) ≡ holds body }
{}
