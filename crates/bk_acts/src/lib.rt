//! Acts of the machine that are done to databases, as values: each with what its database and its log are told.
//!
//! What an act means is an act of `bk_machine`.
#![tactic(auto)]

mod act;
mod laws;

pub use act::StoredAct;
pub use laws::said_law;
