//! The filegroups of a database: where the rows of its tables lie, and which cells are free.
#![tactic(auto)]

mod error;
mod file_space;
mod files;
mod free_cells;
mod groups;

pub use error::PlaceError;
pub use groups::Groups;
