//! The databases of an instance on one device: each a store of its own, and what is done to one leaves the others.
#![tactic(auto)]

mod bringing;
mod changing;
mod dropping;
mod error;
mod loading;
mod making;
mod noting;
mod numbers;
mod opening;
mod owning;
mod parking;
mod records;
mod stores;
mod swapping;
mod unused;

pub use error::LoadError;
pub use records::{data_paths, paths_of};
pub use stores::Stores;
pub use unused::share_no_path;
