//! A pool: the pages of a database that lie in memory, in a fixed number of frames.
#![tactic(auto)]

mod claim;
mod clock;
mod pool;

pub use claim::Claim;
pub use pool::Pool;
