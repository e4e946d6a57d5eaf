//! The written machine over logs of records: the world, what each statement may come to, what a crash leaves, what may
//! happen between runs. The definitions stand in `specs/`; here are the laws of worlds.
#![tactic(auto)]

mod act_laws;
mod backup_laws;
mod built_laws;
mod closing_laws;
mod crash_laws;
mod event_laws;
mod history_row;
mod job;
mod laws;
mod number_laws;
mod progress_laws;
mod reaching_laws;
mod recovery_laws;
mod room_laws;
mod same_laws;
mod set_laws;
mod settling_laws;
mod statement_laws;

pub use act_laws::{
    a_recovery_is_said_last, acts_keep_what_is_read, acts_keep_worlds_sound,
    what_is_said_comes_last,
};
pub use backup_laws::{sets_hold_what_is_pending, sets_of_jobs_hold_what_is_pending};
pub use built_laws::{acts_keep_worlds_built, events_keep_worlds_built, runs_keep_worlds_built};
pub use closing_laws::{
    closings_are_cut_between_acts, closings_are_cut_in_whole_worlds, runs_are_closed,
    runs_are_closed_one_by_one,
};
pub use crash_laws::{
    crashes_keep_worlds_sound, crashes_leave_what_stays, fronts_may_stay,
    runs_are_cut_between_acts, runs_are_cut_in_whole_worlds,
};
pub use event_laws::events_keep_worlds_sound;
pub use history_row::HistoryRow;
pub use job::Job;
pub use laws::{
    empty_worlds_are_sound, restarts_keep_worlds_sound, runs_begin_and_end_in_sound_worlds,
};
pub use number_laws::numbers_are_left;
pub use progress_laws::statements_come_to_outcomes;
pub use reaching_laws::reached_worlds_are_sound;
pub use recovery_laws::recoveries_undo_what_is_pending;
pub use room_laws::{groups_are_full_where_no_cell_is_free, rows_lie_in_cells};
pub use same_laws::{logs_that_stay, media_that_stay};
pub use set_laws::sets_that_stay;
pub use settling_laws::{
    crashes_leave_settled_worlds, settled_worlds, settling_ends, settling_goes_database_by_database,
};
pub use statement_laws::{
    acts_of_statements, runs_keep_worlds_sound, statements_do_what_they_may,
    what_statements_write_to,
};
