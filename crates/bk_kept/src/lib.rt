//! The databases that an instance keeps in memory, and the worlds that they stand for.
#![tactic(auto)]

mod copying;
mod finding;
mod kept;
mod numbers;
mod sessions;
mod telling;
mod transactions;
mod viewing;
mod views;

pub use copying::{copy_file, copy_groups};
pub use kept::{Database, Kept, Session};
pub use numbers::{leave_numbers, used_up};
pub use sessions::{set_current, set_starts};
pub use telling::is_simple;
pub use transactions::{copy_transactions, least_open};
pub use views::{DatabaseView, InstanceView};
