//! A database that is made anew from a full backup set on a medium: what RESTORE makes of its files.
#![tactic(auto)]

mod arriving;
mod error;
mod extents;
mod headers;
mod pages;
mod sets;

pub use arriving::arrive;
pub use bk_volume::{Medium, StoredSet};
pub use error::ArriveError;
