//! A file of one content, which each crash leaves as it was or as it became.
#![tactic(auto)]

mod control;
mod error;
mod found;
mod fresh;
mod side;
mod slot;
mod whole;

pub use control::Control;
pub use error::ControlError;
pub use side::Side;
