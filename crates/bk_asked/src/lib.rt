//! What is asked of what an instance keeps: what is open, which row is locked, what the current session sees. Each answer is that
//! of every world that is kept.
#![tactic(auto)]

mod locks;
mod opens;
mod sights;

pub use locks::{holder, own_writes};
pub use opens::{Held, first_held, held_by, least_session, own_held, own_open};
pub use sights::{seen_row, seen_rows, sees_key};
