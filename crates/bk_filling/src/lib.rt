//! What a backup fills anew: data files page by page, and a log whose control record is put last. Parts of a database that are removed by their names.
#![tactic(auto)]

mod error;
mod filling;
mod records;
mod removing;

pub use error::FillError;
pub use filling::{Filling, file_paths};
pub use records::Records;
pub use removing::remove_parts;
