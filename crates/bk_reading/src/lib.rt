//! What readers of bytes that take memory return.
#![tactic(auto)]

mod unread;

pub use unread::Unread;
