//! What databases, logs and media are, as values: log records and what they tell, files, headers, rules, replies. The
//! definitions stand in `specs/`; here are the types that the program passes along, and the laws of logs.
#![tactic(auto)]

mod database;
mod header;
mod log_laws;
mod msdb;
mod reply;
mod row;
mod rule;
mod transaction;

pub use database::{Base, Creation, FileSpec, State, Status, Storage, TableSpec, Unit};
pub use header::{Header, HeaderFile, SetKind};
pub use log_laws::{
    a_grown_history_reads_the_same, ends_of_transactions, homes_of_rows, logs_behind_a_crash,
    settling, sound_logs,
};
pub use msdb::{BackupRow, MarkRow, RestoreKind, RestoreRow};
pub use reply::{Listing, Reply};
pub use row::PlacedRow;
pub use rule::{Limit, Rule, StatusWord};
pub use transaction::Open;
