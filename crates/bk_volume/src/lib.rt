//! The media of backups, with sets that are written and read in pieces: gate files, whose first blob is the letters
//! `SBMEDIA1`, and each further one a backup set.
#![tactic(auto)]

mod around;
mod digest;
mod error;
mod first;
mod medium;
mod name;
mod opening;
mod piece;
mod sealing;
mod staging;
mod stored;

pub use error::{LoadError, ReadError, SetError, WriteError};
pub use medium::Medium;
pub use name::{medium_file, name_law, staging_file};
pub use staging::{Staged, remove_staged};
pub use stored::StoredSet;
