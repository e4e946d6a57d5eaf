//! A database is made of a set on a medium, opened, and recovered: its store is open then, with all undone that was pending in the backup, and with the recovery's record.
#![tactic(auto)]

mod error;
mod recovering;

pub use bk_arriving::{Medium, StoredSet};
pub use error::RecoverError;
pub use recovering::recover;
