//! Why a set couldn't be sealed.
ghost use Rattle.std.specs.Prelude.{◌≡◌};
ghost use Rattle.bk_archive.specs.Errors as errors;
ghost use Rattle.bk_archive.specs.declared.error.SealError.TheVariants as sealing;

use bk_device::Failed;
use bk_volume::{LoadError, WriteError};
use std::alloc::AllocError;
use thiserror::Error;

/// Why a set couldn't be sealed.
#[derive(Clone, Copy, Debug, PartialEq, Eq, Error)]
pub enum SealError {
    /// There is no medium at the path.
    #[error("there is no medium at the path")]
    NoMedium,
    /// The device failed.
    #[error("the device has failed")]
    Fault,
    /// There was no memory.
    #[error("out of memory")]
    NoMemory,
}

impl From<Failed> for SealError {
    ghost from_gives = { λ _ e. e ≡ sealing.Fault };

    fn from(_: Failed) -> Self {
        SealError::Fault
    }
}

impl From<AllocError> for SealError {
    ghost from_gives = { λ _ e. e ≡ sealing.NoMemory };

    fn from(_: AllocError) -> Self {
        SealError::NoMemory
    }
}

impl From<LoadError> for SealError {
    ghost from_gives = { λ error e. e ≡ errors.loaded_error error };

    fn from(error: LoadError) -> Self {
        match error {
            LoadError::Missing | LoadError::NotMedia => SealError::NoMedium,
            LoadError::Fault => SealError::Fault,
            LoadError::NoMemory => SealError::NoMemory,
        }
    }
}

impl From<WriteError> for SealError {
    ghost from_gives = { λ error e. e ≡ errors.sealed_error error };

    fn from(error: WriteError) -> Self {
        match error {
            WriteError::Fault => SealError::Fault,
            WriteError::NoMemory => SealError::NoMemory,
        }
    }
}
