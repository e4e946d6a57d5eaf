//! Which extents were changed, and which were loaded in bulk, since a backup.
#![tactic(auto)]

mod file_marks;
mod law;
mod maps;

pub use law::maps_law;
pub use maps::Maps;
