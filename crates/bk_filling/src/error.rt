// Why a call on files that are filled gave nothing.
ghost use Rattle.std.specs.Prelude.{◌≡◌};
ghost use Rattle.bk_filling.specs.Errors.{FromLog};
ghost use Rattle.bk_filling.specs.Troubles.{FromFill};
ghost use Rattle.bk_filling.specs.declared.error.FillError.TheVariants.{Fault, NoMemory};

use bk_device::{Failed, Trouble};
use bk_segments::LogError;
use std::alloc::{AllocError, AllocFailed};
use thiserror::Error;

/// Why a call on files that are filled gave nothing.
#[derive(Clone, Copy, Debug, PartialEq, Eq, Error)]
pub enum FillError {
    /// The device failed.
    #[error("the device has failed")]
    Fault,
    /// There was no memory.
    #[error("out of memory")]
    NoMemory,
}

impl From<Failed> for FillError {
    ghost from_gives = { λ _ e. e ≡ Fault };

    fn from(_: Failed) -> Self {
        FillError::Fault
    }
}

impl From<AllocError> for FillError {
    ghost from_gives = { λ _ e. e ≡ NoMemory };

    fn from(_: AllocError) -> Self {
        FillError::NoMemory
    }
}

impl<T: Drop> From<AllocFailed<T>> for FillError {
    ghost from_gives = { λ _ e. e ≡ NoMemory };

    fn from(_: AllocFailed<T>) -> Self {
        FillError::NoMemory
    }
}

impl From<LogError> for FillError {
    ghost from_gives = { FromLog };

    fn from(error: LogError) -> Self {
        match error {
            LogError::Foreign | LogError::NoMemory => FillError::NoMemory,
            LogError::Fault => FillError::Fault,
        }
    }
}

impl From<FillError> for Trouble {
    ghost from_gives = { FromFill };

    fn from(error: FillError) -> Self {
        match error {
            FillError::Fault => Trouble::Fault,
            FillError::NoMemory => Trouble::NoMemory,
        }
    }
}
