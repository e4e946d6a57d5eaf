//! The header of a backup set as bytes, in version 1 of its layout.
//!
//! A header has one spelling, and no spelling is a proper front of another's.
#![tactic(auto)]

mod decoding;
mod encoding;
mod fixed;
mod keeping;
mod lists;
mod making;

pub use decoding::{decode, header_law};
pub use encoding::encode;
pub use keeping::keeps;
