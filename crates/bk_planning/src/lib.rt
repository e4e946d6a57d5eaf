//! What each statement that reads no medium comes to over what an instance keeps in memory, and the act by which a
//! transaction is rolled back, as the end of a run does, too.
#![tactic(auto)]

mod begin;
mod checkpoint;
mod commit;
mod create_table;
mod drop_database;
mod ending;
mod job;
mod planning;
mod rollback;
mod session;
mod undoing;
mod use_database;

pub use planning::plan;
pub use undoing::rollback_act;
