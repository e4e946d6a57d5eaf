//! One database over its files, as a list of log records of the machine: what was said is shown, and a crash leaves a front of it.
#![tactic(auto)]

mod asking;
mod copying;
mod error;
mod founding;
mod making;
mod noting;
mod recent;
mod saying;
mod store;
mod view;

pub use error::StoreError;
pub use noting::copy_tables;
pub use recent::{Recent, told_behind};
pub use store::Store;
