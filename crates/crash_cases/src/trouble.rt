// Why a command has no answer of its own.

use std::alloc::AllocError;

/// Why a command has no answer of its own.
#[derive(Clone, Copy)]
pub enum Trouble {
    /// Memory was wanting.
    NoMemory,
    /// The command is in no form.
    NoForm,
}

impl From<AllocError> for Trouble {
    fn from(_: AllocError) -> Self {
        Trouble::NoMemory
    }
}
