// Why a log couldn't be undone.
ghost use Rattle.std.specs.Prelude.{◌≡◌};
ghost use Rattle.bk_undo.specs.declared.error.UndoError.TheVariants as cause;

use bk_record::BadRecord;
use std::alloc::AllocError;
use thiserror::Error;

/// Why a log couldn't be undone.
#[derive(Clone, Copy, Debug, PartialEq, Eq, Error)]
pub enum UndoError {
    /// No record is spelled at this place, in bytes from the log's start.
    #[error("no log record is spelled at byte {at}")]
    BadRecord { at: usize },
    /// There was no memory.
    #[error("out of memory")]
    NoMemory,
}

impl From<BadRecord> for UndoError {
    ghost from_gives = { λ bad e. e ≡ cause.BadRecord bad.at };

    fn from(bad: BadRecord) -> UndoError {
        UndoError::BadRecord { at: bad.at }
    }
}

impl From<AllocError> for UndoError {
    ghost from_gives = { λ _ e. e ≡ cause.NoMemory };

    fn from(_: AllocError) -> UndoError {
        UndoError::NoMemory
    }
}
