// Why a database wasn't recovered.
ghost use Rattle.bk_recovering.specs.Errors.{FromArrive, FromOpen, FromStore};
ghost use Rattle.bk_recovering.specs.Troubles.{FromRecover};

use bk_arriving::ArriveError;
use bk_device::Trouble;
use bk_reopening::OpenError;
use bk_store::StoreError;
use thiserror::Error;

/// Why a database wasn't recovered from a set.
#[derive(Clone, Copy, Debug, PartialEq, Eq, Error)]
pub enum RecoverError {
    /// The set makes no database with these data files.
    #[error("the set makes no database with these data files")]
    Unfit,
    /// The device failed.
    #[error("the device has failed")]
    Fault,
    /// There was no memory.
    #[error("out of memory")]
    NoMemory,
}

impl From<ArriveError> for RecoverError {
    ghost from_gives = { FromArrive };

    fn from(error: ArriveError) -> Self {
        match error {
            ArriveError::Unfit => RecoverError::Unfit,
            ArriveError::Fault => RecoverError::Fault,
            ArriveError::NoMemory => RecoverError::NoMemory,
        }
    }
}

impl From<OpenError> for RecoverError {
    ghost from_gives = { FromOpen };

    fn from(error: OpenError) -> Self {
        match error {
            OpenError::Foreign => RecoverError::Unfit,
            OpenError::Fault => RecoverError::Fault,
            OpenError::NoMemory => RecoverError::NoMemory,
        }
    }
}

impl From<StoreError> for RecoverError {
    ghost from_gives = { FromStore };

    fn from(error: StoreError) -> Self {
        match error {
            StoreError::Fault => RecoverError::Fault,
            StoreError::NoMemory => RecoverError::NoMemory,
        }
    }
}

impl From<RecoverError> for Trouble {
    ghost from_gives = { FromRecover };

    fn from(error: RecoverError) -> Self {
        match error {
            RecoverError::Unfit => Trouble::Broken,
            RecoverError::Fault => Trouble::Fault,
            RecoverError::NoMemory => Trouble::NoMemory,
        }
    }
}
