//! What the log of a database shows, kept in memory: tables, committed rows, places, and the writes that are pending. Each
//! further log record is taken in, and what is kept stays what the log says.
#![tactic(auto)]

mod asking;
mod ending;
mod error;
mod laws;
mod pending;
mod restoring;
mod rows;
mod shown;
mod taking;
mod writing;

pub use error::TakeError;
pub use laws::placed_logs;
pub use pending::pending_in;
pub use rows::Rows;
pub use shown::{Shown, Written};
