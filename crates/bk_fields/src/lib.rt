//! The fields that log records and set headers share.
#![tactic(auto)]

mod guid;
mod model;
mod name;

pub use guid::{append_guid, guid_law, split_guid};
pub use model::{append_model, model_law, split_model};
pub use name::read_name;
