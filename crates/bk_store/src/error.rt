// Why a call on a store gave nothing.
ghost use Rattle.std.specs.Prelude.{◌≡◌};
ghost use Rattle.bk_store.specs.Errors.{FromPaged};
ghost use Rattle.bk_store.specs.Troubles.{FromStore};
ghost use Rattle.bk_store.specs.declared.error.StoreError.TheVariants.{Fault, NoMemory};

use bk_device::{Failed, Trouble};
use bk_paged::PagedError;
use bk_shown::TakeError;
use std::alloc::{AllocError, AllocFailed};
use thiserror::Error;

/// Why a call on a store gave nothing. Where files are no database's, or a record can't come next, which a caller that keeps the conditions never meets, a call ends as if memory were wanting.
#[derive(Clone, Copy, Debug, PartialEq, Eq, Error)]
pub enum StoreError {
    /// The device failed.
    #[error("the device has failed")]
    Fault,
    /// There was no memory.
    #[error("out of memory")]
    NoMemory,
}

impl From<AllocError> for StoreError {
    ghost from_gives = { λ _ e. e ≡ NoMemory };

    fn from(_: AllocError) -> Self {
        StoreError::NoMemory
    }
}

impl<T: Drop> From<AllocFailed<T>> for StoreError {
    ghost from_gives = { λ _ e. e ≡ NoMemory };

    fn from(_: AllocFailed<T>) -> Self {
        StoreError::NoMemory
    }
}

impl From<TakeError> for StoreError {
    ghost from_gives = { λ _ e. e ≡ NoMemory };

    fn from(_: TakeError) -> Self {
        StoreError::NoMemory
    }
}

impl From<Failed> for StoreError {
    ghost from_gives = { λ _ e. e ≡ Fault };

    fn from(_: Failed) -> Self {
        StoreError::Fault
    }
}

impl From<PagedError> for StoreError {
    ghost from_gives = { FromPaged };

    fn from(error: PagedError) -> Self {
        match error {
            PagedError::Foreign | PagedError::NoMemory => StoreError::NoMemory,
            PagedError::Fault => StoreError::Fault,
        }
    }
}

impl From<StoreError> for Trouble {
    ghost from_gives = { FromStore };

    fn from(error: StoreError) -> Self {
        match error {
            StoreError::Fault => Trouble::Fault,
            StoreError::NoMemory => Trouble::NoMemory,
        }
    }
}
