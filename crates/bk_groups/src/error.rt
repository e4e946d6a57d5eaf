ghost use Rattle.std.specs.Prelude.{◌≡◌};
ghost use Rattle.bk_groups.specs.declared.error.PlaceError.TheVariants.{NoMemory};

use std::alloc::AllocError;
use thiserror::Error;

/// Why a row got no place.
#[derive(Clone, Copy, Debug, PartialEq, Eq, Error)]
pub enum PlaceError {
    /// No cell of the filegroup is free.
    #[error("no cell of the filegroup is free")]
    Full,
    /// There was no memory.
    #[error("out of memory")]
    NoMemory,
}

impl From<AllocError> for PlaceError {
    ghost from_gives = { λ _ e. e ≡ NoMemory };

    fn from(_: AllocError) -> PlaceError {
        PlaceError::NoMemory
    }
}
