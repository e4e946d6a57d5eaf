//! A file of sealed blobs, which each crash leaves as it was or with the new blob.
#![tactic(auto)]

mod blob;
mod error;
mod gate;
mod read;
mod whole;

pub use error::GateError;
pub use gate::Gate;
pub use whole::{blob_behind, read_file};
