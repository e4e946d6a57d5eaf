//! Files that crashes and events leave of an instance over its stores: they stand for worlds of the machine. The definitions stand in `specs/`; here are the laws.
#![tactic(auto)]

mod crash_laws;
mod event_laws;

pub use crash_laws::{
    crashes_leave_files_that_stand, crashes_leave_worlds, runs_begin_where_files_stand,
};
pub use event_laws::{empty_files_stand, events_keep_what_stands};
