// Why a control file couldn't be opened or made.
ghost use Rattle.std.specs.Prelude.{◌≡◌};
ghost use Rattle.bk_control.specs.declared.error.ControlError.TheVariants.{Fault, NoMemory};

use bk_device::Failed;
use std::alloc::AllocError;
use thiserror::Error;

/// Why a control file couldn't be opened or made.
#[derive(Clone, Copy, Debug, PartialEq, Eq, Error)]
pub enum ControlError {
    /// The file holds no control, or there is none.
    #[error("the file is no control file")]
    Foreign,
    /// The device failed.
    #[error("the device has failed")]
    Fault,
    /// There was no memory. The device is as it was.
    #[error("out of memory")]
    NoMemory,
}

impl From<Failed> for ControlError {
    ghost from_gives = { λ _ e. e ≡ Fault };

    fn from(_: Failed) -> ControlError {
        ControlError::Fault
    }
}

impl From<AllocError> for ControlError {
    ghost from_gives = { λ _ e. e ≡ NoMemory };

    fn from(_: AllocError) -> ControlError {
        ControlError::NoMemory
    }
}
