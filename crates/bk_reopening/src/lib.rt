//! Opening a database over its files: what its log and its pages show, with all undone that was pending.
#![tactic(auto)]

mod cells;
mod error;
mod loading;
mod noting;
mod restoring;

pub use error::OpenError;
pub use loading::load;
