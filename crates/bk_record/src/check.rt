//! Whole logs.

ghost use Rattle.std.specs.Prelude.{◌≡◌, List, [], ◌++◌, MatchResult, Option, Some, None, ℕ};
ghost use Rattle.std.specs.List.{flat_map, AllByRecursion};
ghost use Rattle.bk_ids.specs.declared.record.Rec.{Rec};
ghost use Rattle.bk_record.specs.Spelling.{spelling, IsRecord};
ghost use Rattle.bk_record.specs.Log.{IsLog};
ghost use Rattle.bk_record.specs.Records.{AreRecords};

use crate::walk::{BadRecord, cursor};

/// Whether the bytes are whole records alone, or where the first place is at which none is spelled.
pub fn check_log(bytes: &[u8]) -> Result<(), BadRecord>
    ensures { MatchResult result (λ _. (records : List Rec) × IsLog bytes.now records None) (λ e. (records : List Rec) × IsLog bytes.now records (Some e.at)) }
{
    for record in cursor(bytes) {
        let _record = record?;
    }
    Ok(())
}

/// A record has one spelling, and none is a proper front of another's. Bytes spell one list of records,
/// and reading them breaks off at one place.
pub fn log_law()
    ensures one_spelling { (r s : Rec) (a b : List ℕ) → IsRecord r → IsRecord s → spelling r ++ a ≡ spelling s ++ b → (r ≡ s) × (a ≡ b) }
    ensures read_back { (records : List Rec) → AllByRecursion IsRecord records → IsLog (flat_map spelling records) records None }
    ensures one_list { (bytes : List ℕ) (records others : List Rec) (bad other : Option ℕ) → IsLog bytes records bad → IsLog bytes others other → (records ≡ others) × (bad ≡ other) }
{}

/// No bytes are whole records, and one record more behind whole records leaves them whole. A walk over them finds a
/// record at each place up to their end.
pub fn records_law()
    ensures none { AreRecords [] }
    ensures one_more { (bytes : List ℕ) (r : Rec) → AreRecords bytes → IsRecord r → AreRecords (bytes ++ spelling r) }
    ensures no_bad_one { (bytes : List ℕ) (records : List Rec) (bad : Option ℕ) → AreRecords bytes → IsLog bytes records bad → bad ≡ None }
{}
