//! A database's data extents and log, copied from its open store into a set that is being written.
#![tactic(auto)]

mod copying;
mod error;
mod extents;

pub use copying::{copy_extent, copy_extents, copy_log};
pub use error::CopyError;
pub use extents::data_extents;
