// Why a command has no answer of its own.
use bk_device::Failed;
use std::alloc::{AllocError, AllocFailed};

/// Why a command has no answer of its own.
#[derive(Clone, Copy)]
pub enum Trouble {
    /// Memory was wanting.
    NoMemory,
    /// The command is in no form.
    NoForm,
    /// The device failed outside of a run.
    Fault,
}

impl From<AllocError> for Trouble {
    fn from(_: AllocError) -> Self {
        Trouble::NoMemory
    }
}

impl<T: Drop> From<AllocFailed<T>> for Trouble {
    fn from(_: AllocFailed<T>) -> Self {
        Trouble::NoMemory
    }
}

impl From<Failed> for Trouble {
    fn from(_: Failed) -> Self {
        Trouble::Fault
    }
}
