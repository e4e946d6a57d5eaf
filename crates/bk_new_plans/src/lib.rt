//! What `CREATE DATABASE` comes to over what an instance keeps in memory: its checks in their order, and its plan.
#![tactic(auto)]

mod create_database;
mod log_name;
mod new_files;
mod new_storage;

pub use create_database::plan_create_database;
