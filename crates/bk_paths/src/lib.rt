//! The log records of a path: pages as of its numbers, what a log holds of it that was cut, and what settles it. Definitions and
//! their laws; nothing runs.
#![tactic(auto)]

mod laws;

pub use laws::{pages_law, path_law, settling_law};
