//! The databases of a world as an instance hosts them, each by its store's records: what acts make of them, and what a crash leaves. The definitions stand in `specs/`; here are the laws, and what points a set's database has while it is being restored.
#![tactic(auto)]

mod act_laws;
mod crash_laws;
mod parked;

pub use act_laws::{hosted_databases_follow_acts, hosted_databases_follow_restores};
pub use crash_laws::{acts_tell_last, crashes_leave_settled_fronts, what_waits_may_be_lost};
pub use parked::{parked_points, units_of};
