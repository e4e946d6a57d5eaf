// Where records begin in the bytes of a log.
ghost use Rattle.std.specs.Prelude.{◌≡◌, ◌≤◌, ◌+◌, List, length, drop, take};
ghost use Rattle.std.specs.List.{flat_map, AllByRecursion};
ghost use Rattle.bk_bytes.specs.Field.{number_of};
ghost use Rattle.bk_ids.specs.declared.record.Rec.{Rec};
ghost use Rattle.bk_record.specs.Spelling.{spelling, IsRecord};

use bk_bytes::get_u32;

// Where the record behind the one at this place begins.
pub fn behind(bytes: &[u8], at: usize) -> usize
    requires { at ≤ length bytes.now }
    ensures inside { result ≤ length bytes.now }
    ensures value { at + 4 ≤ length bytes.now → at + number_of 4 (drop at bytes.now) ≤ length bytes.now → result ≡ at + number_of 4 (drop at bytes.now) }
{
    let len = get_u32(bytes, at).unwrap_or(0) as usize;
    if len <= bytes.len() - at {
        at + len
    } else {
        bytes.len()
    }
}

// Where the record of this index begins, in the bytes of records.
pub fn place_of(bytes: &[u8], index: u64) -> usize
    ensures inside { result ≤ length bytes.now }
    ensures value { (rs : List Rec) → bytes.now ≡ flat_map spelling rs → AllByRecursion IsRecord rs → index ≤ length rs → result ≡ length (flat_map spelling (take index rs)) }
{
    let mut at = 0;
    for _i in 0..index {
        at = behind(bytes, at);
    }
    at
}

/// The bytes behind so many records, in the bytes of records alone.
pub fn behind_records(bytes: &[u8], count: u64) -> &[u8]
    ensures { (rs : List Rec) → bytes.now ≡ flat_map spelling rs → AllByRecursion IsRecord rs → count ≤ length rs → result.now ≡ flat_map spelling (drop count rs) }
{
    &bytes[place_of(bytes, count)..]
}
