// Why a call on a log gave nothing.
ghost use Rattle.std.specs.Prelude.{◌≡◌};
ghost use Rattle.bk_segments.specs.Troubles.{FromLog};
ghost use Rattle.bk_segments.specs.declared.error.LogError.TheVariants.{Fault, NoMemory};

use bk_device::{Failed, Trouble};
use std::alloc::AllocError;
use thiserror::Error;

/// Why a call on a log gave nothing.
#[derive(Clone, Copy, Debug, PartialEq, Eq, Error)]
pub enum LogError {
    /// The files are no log's, or there are none.
    #[error("the files are no log")]
    Foreign,
    /// The device failed.
    #[error("the device has failed")]
    Fault,
    /// There was no memory.
    #[error("out of memory")]
    NoMemory,
}

impl From<Failed> for LogError {
    ghost from_gives = { λ _ e. e ≡ Fault };

    fn from(_: Failed) -> LogError {
        LogError::Fault
    }
}

impl From<AllocError> for LogError {
    ghost from_gives = { λ _ e. e ≡ NoMemory };

    fn from(_: AllocError) -> LogError {
        LogError::NoMemory
    }
}

impl From<LogError> for Trouble {
    ghost from_gives = { FromLog };

    fn from(error: LogError) -> Self {
        match error {
            LogError::Foreign => Trouble::Broken,
            LogError::Fault => Trouble::Fault,
            LogError::NoMemory => Trouble::NoMemory,
        }
    }
}
