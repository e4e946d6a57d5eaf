// Reading the whole script.
ghost use Rattle.std.specs.Prelude.{◌≡◌, ◌≤◌, ◌<◌, ◌++◌, ◌+◌, List, ℕ, [], length, IfOk, IsErrOf};
ghost use Rattle.bk_device.specs.Counts.{HasRisen};
ghost use Rattle.bk_console.specs.declared.reading.ReadError.TheVariants.{TooLong, Fault, NoMemory};

use bk_device::{Failed, Source};
use std::alloc::{AllocError, Global};
use thiserror::Error;

/// The greatest length of a script, in bytes.
pub const SCRIPT_BYTES: usize = 16_777_216;

// How much is read at once, in bytes.
const CHUNK_BYTES: usize = 4096;

/// Why a script wasn't read.
#[derive(Clone, Copy, Debug, PartialEq, Eq, Error)]
pub enum ReadError {
    /// It has more than 16,777,216 bytes; one more was read.
    #[error("the script is too long")]
    TooLong,
    /// The source failed.
    #[error("the source failed")]
    Fault,
    /// Memory was wanting.
    #[error("out of memory")]
    NoMemory,
}

impl From<Failed> for ReadError {
    ghost from_gives = { λ _ e. e ≡ Fault };

    fn from(_: Failed) -> Self {
        ReadError::Fault
    }
}

impl From<AllocError> for ReadError {
    ghost from_gives = { λ _ e. e ≡ NoMemory };

    fn from(_: AllocError) -> Self {
        ReadError::NoMemory
    }
}

/// The bytes of a source, read to its end.
pub fn read_script<S: Source>(alloc: Global, source: &mut S) -> Result<Vec<u8>, ReadError>
    ensures whole { IfOk result (λ script. S.tells → (S.rest source.old ≡ script.items) × (S.rest source.new ≡ [])) }
    ensures short { IfOk result (λ script. length script.items ≤ SCRIPT_BYTES) }

    // What was read is what the source has no more, and at most one byte above the limit.
    ensures read { (bytes : List ℕ) × (length bytes ≤ SCRIPT_BYTES + 1) × (S.tells → S.rest source.old ≡ bytes ++ S.rest source.new)
        × (IsErrOf result TooLong → SCRIPT_BYTES < length bytes) × (IsErrOf result Fault → length bytes ≤ SCRIPT_BYTES) }
    ensures fault { IsErrOf result Fault → HasRisen (S.read_faults source.old) (S.read_faults source.new) }
    ensures never_falls { S.read_faults source.old ≤ S.read_faults source.new }
{
    let mut script = Vec::new(alloc);
    let mut chunk = [0; CHUNK_BYTES];
    while script.len() <= SCRIPT_BYTES {
        let room = CHUNK_BYTES.min(SCRIPT_BYTES + 1 - script.len());
        let count = source.read(&mut chunk[..room])?;
        if count == 0 {
            return Ok(script);
        }
        script.extend_from_slice(&chunk[..count])?;
    }
    Err(ReadError::TooLong)
}
