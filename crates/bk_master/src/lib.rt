//! An instance's own files: `sqlbak.made`, an empty file that says that the instance is made, and `sqlbak.control`, whose content is the instance's record: its databases, and what of them is
//! being made or removed.
#![tactic(auto)]

mod error;
mod making;
mod master;
mod opening;
mod reading;
mod record;
mod writing;

pub use error::MasterError;
pub use master::Master;
pub use record::{Entry, Own, Record, Unfinished};
