//! Why a call on what an instance holds gave nothing.

ghost use Rattle.std.specs.Prelude.{◌≡◌};
ghost use Rattle.bk_device.specs.declared.trouble.Trouble.TheVariants.{Fault, NoMemory};

use crate::Failed;
use std::alloc::{AllocError, AllocFailed};
use thiserror::Error;

/// Why a call on what an instance holds gave nothing: one error for all layers from an instance's stores upward.
#[derive(Clone, Copy, Debug, PartialEq, Eq, Error)]
pub enum Trouble {
    /// The device failed: its count of faults rose.
    #[error("the device has failed")]
    Fault,
    /// Memory was wanting.
    #[error("out of memory")]
    NoMemory,
    /// The files stand for no world.
    #[error("the instance is broken")]
    Broken,
}

impl From<Failed> for Trouble {
    ghost from_gives = { λ _ e. e ≡ Fault };

    fn from(_: Failed) -> Self {
        Trouble::Fault
    }
}

impl From<AllocError> for Trouble {
    ghost from_gives = { λ _ e. e ≡ NoMemory };

    fn from(_: AllocError) -> Self {
        Trouble::NoMemory
    }
}

impl<T: Drop> From<AllocFailed<T>> for Trouble {
    ghost from_gives = { λ _ e. e ≡ NoMemory };

    fn from(_: AllocFailed<T>) -> Self {
        Trouble::NoMemory
    }
}
