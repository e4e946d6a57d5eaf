//! A database that is made from pages and a log that were backed up: what a restore of a full backup does to files.
#![tactic(auto)]

mod arriving;

pub use arriving::Arriving;
pub use bk_filling::{FillError, remove_parts};
