//! The media of a world as files of a device, whose sets hold data extents and a log.
#![tactic(auto)]

mod error;
mod finishing;
mod laws;
mod listing;
mod loading;
mod making;
mod opening;
mod room;
mod sealing;

pub use error::SealError;
pub use finishing::finish_medium;
pub use laws::{acts_keep_media, events_keep_media, media_stay};
pub use listing::list_sets;
pub use making::make_medium;
pub use opening::{OpenedSet, open_set};
pub use room::room_at;
pub use sealing::seal_set;
