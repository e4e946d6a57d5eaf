//! A device that knows under which names something may be pending, so that all can be made durable at the end of a run.
#![tactic(auto)]

mod error;
mod names;
mod noted;
mod settling;

pub use error::SettleError;
pub use names::Names;
pub use settling::{Beginning, Lent, Settling};
