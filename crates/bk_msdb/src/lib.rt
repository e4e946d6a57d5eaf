//! The rows of msdb, in the file `sqlbak.msdb`: finished backups, accepted restores and marked commits, those of each table in order.
#![tactic(auto)]

mod adding;
mod law;
mod listing;
mod making;
mod opening;
mod reading;
mod tables;
mod writing;

pub use adding::add_row;
pub use law::row_law;
pub use listing::read_rows;
pub use tables::Tables;
