// Why not all could be made durable.
ghost use Rattle.std.specs.Prelude.{◌≡◌};
ghost use Rattle.bk_settling.specs.declared.error.SettleError.TheVariants.{Fault, NoMemory};

use bk_device::Failed;
use std::alloc::AllocError;
use thiserror::Error;

/// Why not all could be made durable.
#[derive(Clone, Copy, Debug, PartialEq, Eq, Error)]
pub enum SettleError {
    /// The device failed.
    #[error("the device has failed")]
    Fault,
    /// There was no memory to note a name or to test one, or a name that is noted isn't one of those that may be made durable.
    #[error("out of memory")]
    NoMemory,
}

impl From<Failed> for SettleError {
    ghost from_gives = { λ _ e. e ≡ Fault };

    fn from(_: Failed) -> SettleError {
        SettleError::Fault
    }
}

impl From<AllocError> for SettleError {
    ghost from_gives = { λ _ e. e ≡ NoMemory };

    fn from(_: AllocError) -> SettleError {
        SettleError::NoMemory
    }
}
