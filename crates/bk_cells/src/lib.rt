//! What a log of the machine leaves in the cells of pages. Definitions and their laws; nothing runs.
#![tactic(auto)]

mod laws;

pub use laws::{cells_law, rows_law};
