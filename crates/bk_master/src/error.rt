// Why a call on an instance's own files gave nothing.
ghost use Rattle.std.specs.Prelude.{◌≡◌};
ghost use Rattle.bk_master.specs.Troubles.{FromMaster};
ghost use Rattle.bk_master.specs.declared.error.MasterError.TheVariants.{Broken, Fault, NoMemory};

use bk_device::{Failed, Trouble};
use std::alloc::{AllocError, AllocFailed};
use thiserror::Error;

/// Why a call on an instance's own files gave nothing.
#[derive(Clone, Copy, Debug, PartialEq, Eq, Error)]
pub enum MasterError {
    /// The instance is made, and its control file holds no control.
    #[error("the files are no instance's")]
    NotAnInstance,
    /// The instance's control holds no record.
    #[error("the instance's own files are broken")]
    Broken,
    /// The device failed.
    #[error("the device has failed")]
    Fault,
    /// There was no memory.
    #[error("out of memory")]
    NoMemory,
}

impl From<Failed> for MasterError {
    ghost from_gives = { λ _ e. e ≡ Fault };

    fn from(_: Failed) -> MasterError {
        MasterError::Fault
    }
}

impl From<AllocError> for MasterError {
    ghost from_gives = { λ _ e. e ≡ NoMemory };

    fn from(_: AllocError) -> MasterError {
        MasterError::NoMemory
    }
}

impl<T: Drop> From<AllocFailed<T>> for MasterError {
    ghost from_gives = { λ _ e. e ≡ NoMemory };

    fn from(_: AllocFailed<T>) -> MasterError {
        MasterError::NoMemory
    }
}

impl From<MasterError> for Trouble {
    ghost from_gives = { FromMaster };

    fn from(error: MasterError) -> Self {
        match error {
            MasterError::NotAnInstance | MasterError::Broken => Trouble::Broken,
            MasterError::Fault => Trouble::Fault,
            MasterError::NoMemory => Trouble::NoMemory,
        }
    }
}
