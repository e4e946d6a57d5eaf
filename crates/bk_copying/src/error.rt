// Why nothing was copied.
ghost use Rattle.std.specs.Prelude.{◌≡◌};
ghost use Rattle.bk_copying.specs.Errors.{FromStore};
ghost use Rattle.bk_copying.specs.Troubles.{FromCopy};
ghost use Rattle.bk_copying.specs.declared.error.CopyError.TheVariants.{Fault, NoMemory};

use bk_device::{Failed, Trouble};
use bk_store::StoreError;
use std::alloc::AllocError;
use thiserror::Error;

/// Why nothing was copied.
#[derive(Clone, Copy, Debug, PartialEq, Eq, Error)]
pub enum CopyError {
    /// The device failed.
    #[error("the device has failed")]
    Fault,
    /// There was no memory.
    #[error("out of memory")]
    NoMemory,
}

impl From<Failed> for CopyError {
    ghost from_gives = { λ _ e. e ≡ Fault };

    fn from(_: Failed) -> Self {
        CopyError::Fault
    }
}

impl From<AllocError> for CopyError {
    ghost from_gives = { λ _ e. e ≡ NoMemory };

    fn from(_: AllocError) -> Self {
        CopyError::NoMemory
    }
}

impl From<StoreError> for CopyError {
    ghost from_gives = { FromStore };

    fn from(error: StoreError) -> Self {
        match error {
            StoreError::Fault => CopyError::Fault,
            StoreError::NoMemory => CopyError::NoMemory,
        }
    }
}

impl From<CopyError> for Trouble {
    ghost from_gives = { FromCopy };

    fn from(error: CopyError) -> Self {
        match error {
            CopyError::Fault => Trouble::Fault,
            CopyError::NoMemory => Trouble::NoMemory,
        }
    }
}
