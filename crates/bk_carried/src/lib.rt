//! Backup sets with data extents and a log: that they hold what their path shows, and are enough to restore it. The definitions stand in `specs/`; here are the laws.
#![tactic(auto)]

mod laws;

pub use laws::{
    backups_carry, carried_sets_stay, carried_sets_suffice, extents_lie_in_order,
    full_headers_are_of_databases, job_headers_are_of_databases, pages_are_given, sets_have_room,
};
