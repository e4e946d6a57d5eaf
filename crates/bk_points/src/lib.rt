//! What an instance keeps of a database in the note of its store, beside what `bk_known` keeps: the points of its log, its status and its units of restore. What is kept has one
//! spelling.
#![tactic(auto)]

mod points;
mod reading;
mod writing;

pub use points::Points;
pub use reading::read_points;
pub use writing::spell_points;
