//! How an instance over its stores executes a statement, and ends its run: each statement makes one step of the written machine.
#![tactic(auto)]

mod backing_up;
mod closing;
mod copies;
mod doing;
mod executing;
mod following;
mod listing;
mod parking;
mod planning;
mod querying;
mod restoring;
mod waiting;

pub use bk_engine::Engine;
pub use closing::close;
pub use executing::execute;
