// Why a call on a database's log and pages gave nothing.
ghost use Rattle.std.specs.Prelude.{◌≡◌};
ghost use Rattle.bk_paged.specs.declared.error.PagedError.TheVariants.{Fault, NoMemory};
ghost use Rattle.bk_paged.specs.Errors.{FromLog, FromNote, FromSide};

use bk_device::Failed;
use bk_log::LogError;
use bk_reading::Unread;
use bk_side::SideError;
use std::alloc::{AllocError, AllocFailed};
use thiserror::Error;

/// Why a call on a database's log and pages gave nothing.
#[derive(Clone, Copy, Debug, PartialEq, Eq, Error)]
pub enum PagedError {
    /// The files are no database's, or not whole.
    #[error("the files are no database's")]
    Foreign,
    /// The device failed.
    #[error("the device has failed")]
    Fault,
    /// There was no memory.
    #[error("out of memory")]
    NoMemory,
}

impl From<Failed> for PagedError {
    ghost from_gives = { λ _ e. e ≡ Fault };

    fn from(_: Failed) -> Self {
        PagedError::Fault
    }
}

impl From<AllocError> for PagedError {
    ghost from_gives = { λ _ e. e ≡ NoMemory };

    fn from(_: AllocError) -> Self {
        PagedError::NoMemory
    }
}

impl<T: Drop> From<AllocFailed<T>> for PagedError {
    ghost from_gives = { λ _ e. e ≡ NoMemory };

    fn from(_: AllocFailed<T>) -> Self {
        PagedError::NoMemory
    }
}

impl From<LogError> for PagedError {
    ghost from_gives = { FromLog };

    fn from(error: LogError) -> Self {
        match error {
            LogError::Foreign => PagedError::Foreign,
            LogError::Fault => PagedError::Fault,
            LogError::NoMemory => PagedError::NoMemory,
        }
    }
}

impl From<SideError> for PagedError {
    ghost from_gives = { FromSide };

    fn from(error: SideError) -> Self {
        match error {
            SideError::Fault => PagedError::Fault,
            SideError::NoMemory => PagedError::NoMemory,
        }
    }
}

impl From<Unread> for PagedError {
    ghost from_gives = { FromNote };

    fn from(error: Unread) -> Self {
        match error {
            Unread::Unspelled => PagedError::Foreign,
            Unread::NoMemory => PagedError::NoMemory,
        }
    }
}
