// Why pages couldn't be redone.
ghost use Rattle.std.specs.Prelude.{◌≡◌};
ghost use Rattle.bk_redo.specs.declared.error.RedoError.TheVariants as cause;

use bk_record::BadRecord;
use std::alloc::AllocError;
use thiserror::Error;

/// Why pages couldn't be redone.
#[derive(Clone, Copy, Debug, PartialEq, Eq, Error)]
pub enum RedoError {
    /// No record is spelled at this place, in bytes from the log's start.
    #[error("no log record is spelled at byte {at}")]
    BadRecord { at: usize },
    /// There was no memory.
    #[error("out of memory")]
    NoMemory,
}

impl From<BadRecord> for RedoError {
    ghost from_gives = { λ bad e. e ≡ cause.BadRecord bad.at };

    fn from(bad: BadRecord) -> RedoError {
        RedoError::BadRecord { at: bad.at }
    }
}

impl From<AllocError> for RedoError {
    ghost from_gives = { λ _ e. e ≡ cause.NoMemory };

    fn from(_: AllocError) -> RedoError {
        RedoError::NoMemory
    }
}
