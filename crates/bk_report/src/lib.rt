//! What RESTORE HEADERONLY and FILELISTONLY and the tables of msdb show, as lines of text.
#![tactic(auto)]

mod cells;
mod databases;
mod files;
mod histories;
mod listing;
mod sets;

pub use databases::push_database;
pub use files::push_files;
pub use histories::{push_mark, push_restore};
pub use listing::push_listing;
pub use sets::{push_backup, push_header};
