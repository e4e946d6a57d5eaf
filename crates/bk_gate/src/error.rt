// Why a gate file couldn't be opened, made or sealed.
ghost use Rattle.std.specs.Prelude.{◌≡◌};
ghost use Rattle.bk_gate.specs.declared.error.GateError.TheVariants.{Fault, NoMemory};

use bk_device::Failed;
use std::alloc::AllocError;
use thiserror::Error;

/// Why a gate file couldn't be opened, made or sealed.
#[derive(Clone, Copy, Debug, PartialEq, Eq, Error)]
pub enum GateError {
    /// The file is no gate file, or there is none.
    #[error("the file is no gate file")]
    Foreign,
    /// The device failed.
    #[error("the device has failed")]
    Fault,
    /// There was no memory. The device is as it was, and so is the value.
    #[error("out of memory")]
    NoMemory,
}

impl From<Failed> for GateError {
    ghost from_gives = { λ _ e. e ≡ Fault };

    fn from(_: Failed) -> GateError {
        GateError::Fault
    }
}

impl From<AllocError> for GateError {
    ghost from_gives = { λ _ e. e ≡ NoMemory };

    fn from(_: AllocError) -> GateError {
        GateError::NoMemory
    }
}
