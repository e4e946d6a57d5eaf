//! Pages redone from a log: what a page is as of a number of its log, and workers that bring pages there.
#![tactic(auto)]

mod cell;
mod error;
mod index;
mod law;
mod listing;
mod place;
mod redoing;
mod share;
mod turn;
mod worker;
mod writes;

pub use error::RedoError;
pub use law::{chain_law, front_law, page_law, slice_law};
pub use place::PageAt;
pub use redoing::{redo, redo_with};
pub use turn::Turn;
