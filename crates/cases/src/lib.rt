//! Runs cases that stand as data: commands, and behind each the lines that it must answer.
#![tactic(auto)]

mod case;
mod line;
mod running;
mod subject;

pub use running::run_cases;
pub use subject::Subject;
