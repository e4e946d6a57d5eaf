//! An instance over its stores: the databases that it hosts, its media, and what it keeps in memory beside them. It does the acts of the machine, and a crash leaves the world before an act or behind it.
#![tactic(auto)]

mod bringing;
mod checkpointing;
mod closing;
mod coming;
mod copying;
mod creating;
mod drawing;
mod dropping;
mod engine;
mod finishing;
mod history;
mod loading;
mod logging;
mod making;
mod noting;
mod parking;
mod reserving;
mod resting;
mod running;
mod saying;
mod sealing;
mod seating;
mod staging;
mod viewing;

pub use engine::Engine;
pub use running::Finishing;
