//! The device's names of media and of sets that are being written.
ghost use Rattle.std.specs.Prelude.{◌≡◌, ◌≢◌, List, ℕ, IfOk};
ghost use Rattle.std.specs.String.{string_bytes};
ghost use Rattle.std.specs.Int.{to_be_bytes, w128};
ghost use Rattle.bk_bytes.specs.Field.{AreBytes};
ghost use Rattle.bk_fields.specs.Guids.{IsGuid, guid_number};
ghost use Rattle.bk_volume.specs.Names.{medium_file, staging_file, letter};
ghost use Rattle.bk_ids.specs.declared.guid.Guid.{Guid};

use bk_ids::Guid;
use std::alloc::{AllocError, Global};

// The first number that the lower half of a GUID can't hold.
const HALF: u128 = 1 << 64;

/// The device's name of the medium at a path: `m-` and the path's bytes in lower-case hexadecimal.
#[tactic(auto, unfolding(crate::specs::Names::medium_file))]
pub fn medium_file(alloc: Global, path: &str) -> Result<String, AllocError>
    ensures { IfOk result (λ name. string_bytes name ≡ medium_file path.now) }
{
    let digits = hex::encode(alloc, path)?;
    let mut name = String::from_str(alloc, "m-")?;
    name.push_str(&digits)?;
    Ok(name)
}

// The sixteen bytes of a GUID, the high number first.
fn bytes_of(set: Guid) -> [u8; 16]
    ensures { result ≡ to_be_bytes w128 (guid_number set) }
{
    let number = u128::from(set.high) * HALF + u128::from(set.low);
    number.to_be_bytes()
}

/// The device's name of the file in which the extents and the log of a set lie until it is sealed: `t-` and the set's GUID
/// in 32 lower-case hexadecimal digits.
#[tactic(auto, unfolding(crate::specs::Names::staging_file))]
pub fn staging_file(alloc: Global, set: Guid) -> Result<String, AllocError>
    ensures { IfOk result (λ name. string_bytes name ≡ staging_file set) }
{
    let digits = hex::encode(alloc, bytes_of(set))?;
    let mut name = String::from_str(alloc, "t-")?;
    name.push_str(&digits)?;
    Ok(name)
}

/// Different paths have different media's names, and different sets different staging files. Their letter is `m`, that of staging files is `t`: so no medium's file is a
/// staging file, nor is either one that begins with another letter, as each file of a database does.
pub fn name_law()
    ensures different { (path other : List ℕ) → AreBytes path → AreBytes other → medium_file path ≡ medium_file other → path ≡ other }
    ensures media { (path : List ℕ) → letter (medium_file path) ≡ 109 }
    ensures staging { (set : Guid) → letter (staging_file set) ≡ 116 }
    ensures sets { (set other : Guid) → IsGuid set → IsGuid other → staging_file set ≡ staging_file other → set ≡ other }
    ensures apart { (path : List ℕ) (set : Guid) → staging_file set ≢ medium_file path }
    ensures no_medium { (path name : List ℕ) → letter name ≢ 109 → name ≢ medium_file path }
    ensures no_staging { (set : Guid) (name : List ℕ) → letter name ≢ 116 → name ≢ staging_file set }
{}
