//! What `BACKUP DATABASE`, `RESTORE DATABASE` and `:wait` come to in memory: their checks in their order, and their plans.
#![tactic(auto)]

mod backing_up;
mod headers;
mod jobs;
mod moving;
mod planning_backup;
mod planning_restore;
mod planning_wait;
mod restore_plan;
mod restoring;
mod set_view;
mod wait_plan;

pub use planning_backup::plan_backup;
pub use planning_restore::{plan_restore, unbuilt_restore};
pub use planning_wait::{job_medium, plan_wait};
pub use restore_plan::RestorePlan;
pub use set_view::{SetView, position_of};
pub use wait_plan::{Finish, WaitPlan};
