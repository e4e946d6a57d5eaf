//! The log of one database over its files: records in memory that wait, and a value over the control record and the segments that
//! hold the others, with a note for the layer above.
#![tactic(auto)]

mod bytes;
mod log;
mod places;

pub use bk_segments::{LogError, settle};
pub use bytes::LogBytes;
pub use log::Log;
pub use places::behind_records;
