ghost use Rattle.std.specs.Prelude.{◌≡◌};
ghost use Rattle.bk_shown.specs.declared.error.TakeError.TheVariants.{NoMemory, Unfit};

use bk_record::BadRecord;
use std::alloc::AllocError;
use thiserror::Error;

/// Why a record wasn't taken in.
#[derive(Clone, Copy, Debug, PartialEq, Eq, Error)]
pub enum TakeError {
    /// It can't come behind the records that were taken in.
    #[error("the record can't come next")]
    Unfit,
    /// There was no memory.
    #[error("out of memory")]
    NoMemory,
}

/// A record can't come behind the records that were taken in.
#[derive(Clone, Copy, Debug, PartialEq, Eq, Error)]
#[error("the record can't come next")]
pub(crate) struct NotNext;

impl From<NotNext> for TakeError {
    ghost from_gives = { λ _ e. e ≡ Unfit };

    fn from(_: NotNext) -> TakeError {
        TakeError::Unfit
    }
}

impl From<AllocError> for TakeError {
    ghost from_gives = { λ _ e. e ≡ NoMemory };

    fn from(_: AllocError) -> TakeError {
        TakeError::NoMemory
    }
}

impl From<BadRecord> for TakeError {
    ghost from_gives = { λ _ e. e ≡ Unfit };

    fn from(_: BadRecord) -> TakeError {
        TakeError::Unfit
    }
}
