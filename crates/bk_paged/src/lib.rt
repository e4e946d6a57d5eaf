//! One database's log and pages over its files. Its records decide; its pages follow them, in memory and in the data files, at each crash.
#![tactic(auto)]

mod appending;
mod copying;
mod error;
mod fitting;
mod looking;
mod making;
mod paged;
mod parts;
mod placing;
mod removing;

pub use error::PagedError;
pub use fitting::may_make;
pub use paged::Paged;
pub use parts::{copy_paths, pages_in};
