//! How the filegroups, data files and log of a database are spelled.
#![tactic(auto)]

mod reading;
mod writing;

pub use reading::{read_name, read_storage};
pub use writing::{append_name, append_storage};
