//! Log records as bytes.
//!
//! A record is its whole length in 4 bytes, its kind, 3 zero bytes, its number, the number of its
//! transaction's first record, and the fields of its kind. A record has one spelling, and no spelling is
//! a proper front of another.
#![tactic(auto)]

mod check;
mod extents;
mod lengths;
mod marks;
mod reading;
mod records;
mod skimming;
mod view;
mod walk;
mod writing;

pub use check::{check_log, log_law, records_law};
pub use extents::Extents;
pub use lengths::spelled_len;
pub use marks::{append_mark, read_mark};
pub use records::Records;
pub use skimming::{Skimmed, skim_at};
pub use view::{BodyRef, MarkRef, PlaceRef, RecRef};
pub use walk::{BadRecord, LogCursor, cursor};
pub use writing::{encode, encode_reserved};
