//! What the statements on the rows of a table come to over what an instance keeps in memory: their checks in their order, and
//! their plans.
#![tactic(auto)]

mod cells;
mod limits;
mod row;
mod rows;
mod select;
mod tables;

pub use rows::plan_rows;
