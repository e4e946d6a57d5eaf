//! What a database's store keeps of it in a note: its name, where it lies, the path it is on, and its tables, recovery model and last time as the records below a number say.
//! What is kept has one spelling.
#![tactic(auto)]

mod known;
mod reading;
mod writing;

pub use known::{AsOf, DatabaseSpec, Known};
pub use reading::read_known;
pub use writing::spell_known;
