//! Why a medium couldn't be opened, made or emptied, or a set couldn't be begun, sealed or read.
ghost use Rattle.std.specs.Prelude.{◌≡◌};
ghost use Rattle.bk_volume.specs.Troubles.{FromWrite};
ghost use Rattle.bk_volume.specs.declared.error.WriteError.TheVariants.{Fault, NoMemory};
ghost use Rattle.bk_volume.specs.declared.error.LoadError.TheVariants as load;
ghost use Rattle.bk_volume.specs.declared.error.SetError.TheVariants as set;
ghost use Rattle.bk_volume.specs.declared.error.ReadError.TheVariants as read;

use bk_device::{Failed, Trouble};
use std::alloc::AllocError;
use thiserror::Error;

/// Why a medium couldn't be opened.
#[derive(Clone, Copy, Debug, PartialEq, Eq, Error)]
pub enum LoadError {
    /// There is no file at its path.
    #[error("there is no file at the path of the medium")]
    Missing,
    /// The file there is no medium.
    #[error("the file is no medium")]
    NotMedia,
    /// The device failed.
    #[error("the device has failed")]
    Fault,
    /// There was no memory.
    #[error("out of memory")]
    NoMemory,
}

/// Why a medium couldn't be made, or a set couldn't be begun or sealed.
#[derive(Clone, Copy, Debug, PartialEq, Eq, Error)]
pub enum WriteError {
    /// The device failed.
    #[error("the device has failed")]
    Fault,
    /// There was no memory.
    #[error("out of memory")]
    NoMemory,
}

/// Why a set couldn't be opened.
#[derive(Clone, Copy, Debug, PartialEq, Eq, Error)]
pub enum SetError {
    /// The position is 0, or above the number of slots.
    #[error("there is no set at this position")]
    NoSuchSet,
    /// The stored digest isn't the one that was found.
    #[error("the set is damaged")]
    Damaged { stored: [u8; 32], found: [u8; 32] },
    /// The bytes in the slot are no set.
    #[error("the slot holds no set")]
    NotMedia,
    /// The device failed.
    #[error("the device has failed")]
    Fault,
    /// There was no memory.
    #[error("out of memory")]
    NoMemory,
}

/// Why the log of a set couldn't be read.
#[derive(Clone, Copy, Debug, PartialEq, Eq, Error)]
pub enum ReadError {
    /// The device failed.
    #[error("the device has failed")]
    Fault,
    /// There was no memory.
    #[error("out of memory")]
    NoMemory,
}

impl From<Failed> for WriteError {
    ghost from_gives = { λ _ e. e ≡ Fault };

    fn from(_: Failed) -> WriteError {
        WriteError::Fault
    }
}

impl From<AllocError> for WriteError {
    ghost from_gives = { λ _ e. e ≡ NoMemory };

    fn from(_: AllocError) -> WriteError {
        WriteError::NoMemory
    }
}

impl From<Failed> for LoadError {
    ghost from_gives = { λ _ e. e ≡ load.Fault };

    fn from(_: Failed) -> LoadError {
        LoadError::Fault
    }
}

impl From<AllocError> for LoadError {
    ghost from_gives = { λ _ e. e ≡ load.NoMemory };

    fn from(_: AllocError) -> LoadError {
        LoadError::NoMemory
    }
}

impl From<Failed> for SetError {
    ghost from_gives = { λ _ e. e ≡ set.Fault };

    fn from(_: Failed) -> SetError {
        SetError::Fault
    }
}

impl From<AllocError> for SetError {
    ghost from_gives = { λ _ e. e ≡ set.NoMemory };

    fn from(_: AllocError) -> SetError {
        SetError::NoMemory
    }
}

impl From<Failed> for ReadError {
    ghost from_gives = { λ _ e. e ≡ read.Fault };

    fn from(_: Failed) -> ReadError {
        ReadError::Fault
    }
}

impl From<AllocError> for ReadError {
    ghost from_gives = { λ _ e. e ≡ read.NoMemory };

    fn from(_: AllocError) -> ReadError {
        ReadError::NoMemory
    }
}

impl From<WriteError> for Trouble {
    ghost from_gives = { FromWrite };

    fn from(error: WriteError) -> Self {
        match error {
            WriteError::Fault => Trouble::Fault,
            WriteError::NoMemory => Trouble::NoMemory,
        }
    }
}
