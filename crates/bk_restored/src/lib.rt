//! A database restored from the pages and the log of a backup, by the machine's records: once it is finished it is opened as any other.
#![tactic(auto)]

mod finishing;

pub use finishing::finish;
