//! The data files of one database, and its side file, by way of which a batch of pages is written wholly or not at all.
#![tactic(auto)]

mod copying;
mod entry;
mod error;
mod finishing;
mod making;
mod name;
mod opening;
mod reading;
mod side;

pub use error::SideError;
pub use name::{are_different, data_file, data_files, name_law, side_file};
pub use side::Side;
