//! What plans of statements are made of: their parts, the checks that several statements make, and the acts by which a database
//! says something.
#![tactic(auto)]

mod finding;
mod jobs;
mod marking;
mod parts;
mod paths;
mod planning_parts;
mod refusal;
mod rules;
mod undoing;

pub use finding::{current_or_refuse, named_or_refuse};
pub use jobs::{Running, job_or_refuse, unwritten, without_job};
pub use marking::marked;
pub use parts::{Part, Plan};
pub use paths::{in_use, is_in_use, is_in_use_by_others, taken};
pub use planning_parts::{LATEST, logged, name_in, refused, said_time, say, say_one, stored};
pub use refusal::Refusal;
pub use rules::{
    MOST_DATABASES, MOST_GROUPS, is_name, is_path, is_system, limit, online, outside, refuse_if,
    unused,
};
pub use undoing::{Numbered, undo};
