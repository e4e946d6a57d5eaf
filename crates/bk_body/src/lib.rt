//! A backup set as bytes: its header, the tables of the database, data extents, its part of the log, and the digest of all
//! that. It is read and written part by part, since its extents may be many.
//!
//! A set has one spelling. Bytes are read as the set that they spell, as damaged, or as no set.
#![tactic(auto)]

mod extents;
mod front;
mod law;
mod log;
mod pages;
mod tables;

pub use extents::{has_extent, holds_extent, keeps_extent};
pub use front::{Front, read_front, spell_front};
pub use law::set_law;
pub use log::is_log_of;
