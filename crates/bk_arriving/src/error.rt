// Why a database couldn't be made of a set.
ghost use Rattle.std.specs.Prelude.{◌≡◌};
ghost use Rattle.bk_arriving.specs.Errors.{FromFill, FromRead};
ghost use Rattle.bk_arriving.specs.declared.error.ArriveError.TheVariants.{Fault, NoMemory};

use bk_device::Failed;
use bk_restoring::FillError;
use bk_volume::ReadError;
use std::alloc::AllocError;
use thiserror::Error;

/// Why a database couldn't be made of a set.
#[derive(Clone, Copy, Debug, PartialEq, Eq, Error)]
pub enum ArriveError {
    /// The set doesn't have the data extents of these data files, each once.
    #[error("the set doesn't have the extents of these data files")]
    Unfit,
    /// The device failed.
    #[error("the device has failed")]
    Fault,
    /// There was no memory.
    #[error("out of memory")]
    NoMemory,
}

impl From<Failed> for ArriveError {
    ghost from_gives = { λ _ e. e ≡ Fault };

    fn from(_: Failed) -> Self {
        ArriveError::Fault
    }
}

impl From<AllocError> for ArriveError {
    ghost from_gives = { λ _ e. e ≡ NoMemory };

    fn from(_: AllocError) -> Self {
        ArriveError::NoMemory
    }
}

impl From<FillError> for ArriveError {
    ghost from_gives = { FromFill };

    fn from(error: FillError) -> Self {
        match error {
            FillError::Fault => ArriveError::Fault,
            FillError::NoMemory => ArriveError::NoMemory,
        }
    }
}

impl From<ReadError> for ArriveError {
    ghost from_gives = { FromRead };

    fn from(error: ReadError) -> Self {
        match error {
            ReadError::Fault => ArriveError::Fault,
            ReadError::NoMemory => ArriveError::NoMemory,
        }
    }
}
