ghost use Rattle.std.specs.Prelude.{◌≡◌, ◌<◌, ◌+◌, ℕ, List, [], ◌∷◌, ◌++◌, length};
ghost use Rattle.bk_acts.specs.Meaning.{Spell, under};
ghost use Rattle.bk_ids.specs.declared.record.Rec.{Rec};
ghost use Rattle.bk_world.specs.Records.{Said};

/// What is said under the numbers from n on is record after record, so one record more says one thing more. Records that say something
/// tell n, and each list of records says what it says from one number alone.
pub fn said_law()
    ensures nothing { (n : ℕ) → Spell [] n [] }
    ensures one_more { (records : List Rec) (n : ℕ) (said : List Said) (s : Said) → Spell records n said → Spell (records ++ under (n + length said) s ∷ []) n (said ++ s ∷ []) }
    ensures one_number { (records : List Rec) (n m : ℕ) (said others : List Said) → Spell records n said → Spell records m others → 0 < length said → n ≡ m }
    ensures from { (records : List Rec) (n m : ℕ) (said others : List Said) → Spell records n said → Spell records m others → Spell records m said }
{}
