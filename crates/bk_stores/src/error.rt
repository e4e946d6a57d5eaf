// Why what an instance keeps wasn't opened.
ghost use Rattle.std.specs.Prelude.{◌≡◌};
ghost use Rattle.bk_stores.specs.Errors.{FromMaster, FromTrouble};
ghost use Rattle.bk_stores.specs.declared.error.LoadError.TheVariants.{Fault};

use bk_device::{Failed, Trouble};
use bk_master::MasterError;
use thiserror::Error;

/// Why what an instance keeps wasn't opened.
#[derive(Clone, Copy, Debug, PartialEq, Eq, Error)]
pub enum LoadError {
    /// The instance is made, and its control file holds no control.
    #[error("the files are no instance's")]
    NotAnInstance,
    /// The instance's control holds no record, or the files of a store hold no database.
    #[error("the instance's files are broken")]
    Broken,
    /// The device failed.
    #[error("the device has failed")]
    Fault,
    /// There was no memory.
    #[error("out of memory")]
    NoMemory,
}

impl From<Failed> for LoadError {
    ghost from_gives = { λ _ e. e ≡ Fault };

    fn from(_: Failed) -> Self {
        LoadError::Fault
    }
}

impl From<MasterError> for LoadError {
    ghost from_gives = { FromMaster };

    fn from(error: MasterError) -> Self {
        match error {
            MasterError::NotAnInstance => LoadError::NotAnInstance,
            MasterError::Broken => LoadError::Broken,
            MasterError::Fault => LoadError::Fault,
            MasterError::NoMemory => LoadError::NoMemory,
        }
    }
}

impl From<Trouble> for LoadError {
    ghost from_gives = { FromTrouble };

    fn from(error: Trouble) -> Self {
        match error {
            Trouble::Fault => LoadError::Fault,
            Trouble::NoMemory => LoadError::NoMemory,
            Trouble::Broken => LoadError::Broken,
        }
    }
}
