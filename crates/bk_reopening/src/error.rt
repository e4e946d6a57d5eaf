// Why a database wasn't opened.
ghost use Rattle.std.specs.Prelude.{◌≡◌};
ghost use Rattle.bk_reopening.specs.Errors.{FromNote, FromPaged, FromTaking};
ghost use Rattle.bk_reopening.specs.Troubles.{FromOpen};
ghost use Rattle.bk_reopening.specs.declared.error.OpenError.TheVariants.{NoMemory};

use bk_device::Trouble;
use bk_paged::PagedError;
use bk_reading::Unread;
use bk_shown::TakeError;
use std::alloc::{AllocError, AllocFailed};
use thiserror::Error;

/// Why a database wasn't opened.
#[derive(Clone, Copy, Debug, PartialEq, Eq, Error)]
pub enum OpenError {
    /// The files hold no database, or not all of one.
    #[error("the files hold no database")]
    Foreign,
    /// The device failed.
    #[error("the device has failed")]
    Fault,
    /// There was no memory.
    #[error("out of memory")]
    NoMemory,
}

impl From<AllocError> for OpenError {
    ghost from_gives = { λ _ e. e ≡ NoMemory };

    fn from(_: AllocError) -> Self {
        OpenError::NoMemory
    }
}

impl<T: Drop> From<AllocFailed<T>> for OpenError {
    ghost from_gives = { λ _ e. e ≡ NoMemory };

    fn from(_: AllocFailed<T>) -> Self {
        OpenError::NoMemory
    }
}

impl From<PagedError> for OpenError {
    ghost from_gives = { FromPaged };

    fn from(error: PagedError) -> Self {
        match error {
            PagedError::Foreign => OpenError::Foreign,
            PagedError::Fault => OpenError::Fault,
            PagedError::NoMemory => OpenError::NoMemory,
        }
    }
}

impl From<Unread> for OpenError {
    ghost from_gives = { FromNote };

    fn from(error: Unread) -> Self {
        match error {
            Unread::Unspelled => OpenError::Foreign,
            Unread::NoMemory => OpenError::NoMemory,
        }
    }
}

impl From<TakeError> for OpenError {
    ghost from_gives = { FromTaking };

    fn from(error: TakeError) -> Self {
        match error {
            TakeError::Unfit => OpenError::Foreign,
            TakeError::NoMemory => OpenError::NoMemory,
        }
    }
}

impl From<OpenError> for Trouble {
    ghost from_gives = { FromOpen };

    fn from(error: OpenError) -> Self {
        match error {
            OpenError::Foreign => Trouble::Broken,
            OpenError::Fault => Trouble::Fault,
            OpenError::NoMemory => Trouble::NoMemory,
        }
    }
}
