//! Which names an instance's files have.
#![tactic(auto)]

ghost use Rattle.std.specs.Prelude.{◌≡◌, true, ℕ, IfOk};
ghost use Rattle.bk_bytes.specs.Field.{AreBytes};
ghost use Rattle.bk_master.specs.Master.{IsOwn as IsOfMaster};
ghost use Rattle.bk_segments.specs.Files.{control_file, segment_file};
ghost use Rattle.bk_side.specs.Names.{data_file, side_file};
ghost use Rattle.bk_volume.specs.Names.{medium_file};
ghost use Rattle.bk_names.specs.Names.{IsOfLog, IsSideFile, IsDataFile, IsMediumFile, IsStagingFile, IsRowsFile, IsOfInstance};

use bk_ids::Guid;
use bk_segments::control_name;
use bk_settling::Names;
use bk_side::{data_file, side_file};
use bk_volume::{medium_file, staging_file};
use hex::FromHexError;
use std::alloc::{AllocError, Global};

// The first number that the lower half of a GUID can't hold.
const HALF: u128 = 1 << 64;

/// The names that an instance's files have.
pub struct Ours;

impl Names for Ours {
    ghost own = { IsOfInstance };

    fn is_own(alloc: Global, name: &str) -> Result<bool, AllocError> {
        Ok(
            is_of_master(name)
                || is_of_log(alloc, name)?
                || is_side_file(alloc, name)?
                || is_data_file(alloc, name)?
                || is_medium_file(alloc, name)?
                || is_staging_file(alloc, name)?
                || is_rows_file(name),
        )
    }
}

// Whether a name is one of the instance's own two.
fn is_of_master(name: &str) -> bool
    ensures { result ≡ true → IsOfMaster name.now }
{
    name == "sqlbak.made" || name == "sqlbak.control"
}

// Whether a name is that of the file of the rows of msdb.
fn is_rows_file(name: &str) -> bool
    ensures { result ≡ true → IsRowsFile name.now }
{
    name == "sqlbak.msdb"
}

// Whether a name is one of a log's.
fn is_of_log(alloc: Global, name: &str) -> Result<bool, AllocError>
    ensures { IfOk result (λ found. found ≡ true → IsOfLog name.now) }
{
    Ok(is_control_file(alloc, name)? || is_segment(alloc, name)?)
}

// Whether a name is a log's control file's, `c-` and the database's number.
fn is_control_file(alloc: Global, name: &str) -> Result<bool, AllocError>
    ensures { IfOk result (λ found. found ≡ true → (db : ℕ) × (name.now ≡ control_file db)) }
{
    let Some(digits) = name.strip_prefix("c-") else {
        return Ok(false);
    };
    let Ok(db) = digits.parse::<u32>() else {
        return Ok(false);
    };
    Ok(control_name(alloc, db)?.as_str() == name)
}

// Whether a name is a segment's, `g-`, the database's number, `-` and its own.
fn is_segment(alloc: Global, name: &str) -> Result<bool, AllocError>
    ensures { IfOk result (λ found. found ≡ true → (db : ℕ) × (n : ℕ) × (name.now ≡ segment_file db n)) }
{
    let Some(numbers) = name.strip_prefix("g-") else {
        return Ok(false);
    };
    let Some((database, segment)) = numbers.split_once('-') else {
        return Ok(false);
    };
    let (Ok(db), Ok(n)) = (database.parse::<u32>(), segment.parse::<u64>()) else {
        return Ok(false);
    };
    is_segment_of(alloc, name, db, n)
}

// Whether a name is that of this segment.
fn is_segment_of(alloc: Global, name: &str, db: u32, n: u64) -> Result<bool, AllocError>
    ensures { IfOk result (λ found. found ≡ true → name.now ≡ segment_file db n) }
{
    let made = format!(in alloc; "g-{db}-{n}")?;
    Ok(made.as_str() == name)
}

// Whether a name is a side file's, `b-` and the database's number.
fn is_side_file(alloc: Global, name: &str) -> Result<bool, AllocError>
    ensures { IfOk result (λ found. found ≡ true → IsSideFile name.now) }
{
    let Some(digits) = name.strip_prefix("b-") else {
        return Ok(false);
    };
    let Ok(db) = digits.parse::<u32>() else {
        return Ok(false);
    };
    Ok(side_file(alloc, db)?.as_str() == name)
}

// The bytes that hexadecimal digits stand for, if they stand for any.
fn bytes_of(alloc: Global, digits: &str) -> Result<Option<Vec<u8>>, AllocError> {
    match hex::decode(alloc, digits) {
        Ok(bytes) => Ok(Some(bytes)),
        Err(FromHexError::OutOfMemory) => Err(AllocError),
        Err(_) => Ok(None),
    }
}

// Whether a name is a data file's, `p-` and its path's bytes.
fn is_data_file(alloc: Global, name: &str) -> Result<bool, AllocError>
    ensures { IfOk result (λ found. found ≡ true → IsDataFile name.now) }
{
    let Some(digits) = name.strip_prefix("p-") else {
        return Ok(false);
    };
    let Some(bytes) = bytes_of(alloc, digits)? else {
        return Ok(false);
    };
    match str::from_utf8(&bytes) {
        Ok(path) => is_data_file_at(alloc, name, path),
        Err(_) => Ok(false),
    }
}

// Whether a name is that of the data file at this path.
fn is_data_file_at(alloc: Global, name: &str, path: &str) -> Result<bool, AllocError>
    ensures { IfOk result (λ found. found ≡ true → name.now ≡ data_file path.now) }
{
    Ok(data_file(alloc, path)?.as_str() == name)
}

// Whether a name is a medium's, `m-` and its path's bytes.
fn is_medium_file(alloc: Global, name: &str) -> Result<bool, AllocError>
    ensures { IfOk result (λ found. found ≡ true → IsMediumFile name.now) }
{
    let Some(digits) = name.strip_prefix("m-") else {
        return Ok(false);
    };
    let Some(bytes) = bytes_of(alloc, digits)? else {
        return Ok(false);
    };
    match str::from_utf8(&bytes) {
        Ok(path) => is_medium_file_at(alloc, name, path),
        Err(_) => Ok(false),
    }
}

// Whether a name is that of the medium at this path.
fn is_medium_file_at(alloc: Global, name: &str, path: &str) -> Result<bool, AllocError>
    ensures bytes { AreBytes path.now }
    ensures found { IfOk result (λ found. found ≡ true → name.now ≡ medium_file path.now) }
{
    Ok(medium_file(alloc, path)?.as_str() == name)
}

// Whether a name is that of a set that is being written, `t-` and the bytes of its GUID.
fn is_staging_file(alloc: Global, name: &str) -> Result<bool, AllocError>
    ensures { IfOk result (λ found. found ≡ true → IsStagingFile name.now) }
{
    let Some(digits) = name.strip_prefix("t-") else {
        return Ok(false);
    };
    let Some(bytes) = bytes_of(alloc, digits)? else {
        return Ok(false);
    };
    let Ok(bytes) = <[u8; 16]>::try_from(bytes.as_slice()) else {
        return Ok(false);
    };
    let number = u128::from_be_bytes(bytes);
    let set = Guid {
        high: (number / HALF) as u64,
        low: (number % HALF) as u64,
    };
    Ok(staging_file(alloc, set)?.as_str() == name)
}
