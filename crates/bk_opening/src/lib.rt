//! Opening a database over its files: its log and pages as the files hold them, brought to the end, with all that is pending undone.
#![tactic(auto)]

mod opening;
mod reading;

pub use opening::{Opened, load};
