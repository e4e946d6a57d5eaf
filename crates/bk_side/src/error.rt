// Why a call on a side file gave nothing.
ghost use Rattle.std.specs.Prelude.{◌≡◌};
ghost use Rattle.bk_side.specs.declared.error.SideError.TheVariants.{Fault, NoMemory};

use bk_device::Failed;
use std::alloc::AllocError;
use thiserror::Error;

/// Why a side file couldn't be opened.
#[derive(Clone, Copy, Debug, PartialEq, Eq, Error)]
pub enum SideError {
    /// The device failed.
    #[error("the device has failed")]
    Fault,
    /// There was no memory.
    #[error("out of memory")]
    NoMemory,
}

impl From<Failed> for SideError {
    ghost from_gives = { λ _ e. e ≡ Fault };

    fn from(_: Failed) -> SideError {
        SideError::Fault
    }
}

impl From<AllocError> for SideError {
    ghost from_gives = { λ _ e. e ≡ NoMemory };

    fn from(_: AllocError) -> SideError {
        SideError::NoMemory
    }
}
