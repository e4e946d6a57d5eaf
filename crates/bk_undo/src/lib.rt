//! The transactions of a log that are to be undone, and the records that undo them.
#![tactic(auto)]

mod cells;
mod closing;
mod error;
mod holding;
mod law;
mod pending;
mod undo;

pub use cells::cells_law;
pub use closing::open_part;
pub use error::UndoError;
pub use holding::holding_law;
pub use law::{undo_law, undoing_law};
pub use pending::Pending;
pub use undo::losers;
