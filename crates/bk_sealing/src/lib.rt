//! A database is copied into a set, and the set is sealed on a medium: what a full backup of it comes to on the device.
#![tactic(auto)]

mod copying;
mod sealing;

pub use sealing::{seal_database, seal_finishing};
