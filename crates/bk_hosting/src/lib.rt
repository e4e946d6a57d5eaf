//! The databases that an instance hosts on its device: each an open store, with the points of its log and with what is open in it.
#![tactic(auto)]

mod asking;
mod bringing;
mod checkpointing;
mod copying;
mod hosting;
mod jobs;
mod loading;
mod logging;
mod making;
mod noting;
mod owning;
mod parking;
mod saying;
mod states;

pub use hosting::{Hosting, State};
