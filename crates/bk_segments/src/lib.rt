//! The files of a log: the control record, which names its segments and has a note for the layer above, and the segments, which
//! are gate files whose blobs are whole log records. Making them durable, reading and walking them, making and removing them.
#![tactic(auto)]

mod error;
mod head;
mod making;
mod names;
mod opening;
mod reading;
mod removing;
mod segments;
mod settling;
mod walk;

pub use error::LogError;
pub use head::{Head, add, spell};
pub use making::{begin_segment, make_files};
pub use names::control_name;
pub use opening::{Found, find};
pub use reading::gather;
pub use removing::{find_head, remove_named, remove_segments, tidy};
pub use segments::{
    Segment, add_segment, count_below, drop_segments, first_of, new_segment, push_segment,
};
pub use settling::settle;
