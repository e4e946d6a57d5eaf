//! A device in memory of which nothing is claimed, for programs that run cases over whatever files there are.
#![tactic(auto)]

mod inside;
mod untold;

pub use inside::{cut_inside, write_inside};
pub use untold::Untold;
