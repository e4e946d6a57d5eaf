//! What a program sees of the outside: a device of named files with an output, a source of bytes, and a clock.
#![tactic(auto)]

mod cache;
mod call;
mod clock;
mod device;
mod durable;
mod fixed_clock;
mod held;
mod mem_device;
mod mem_source;
mod source;
mod trouble;

pub use clock::Clock;
pub use device::Device;
pub use durable::{remove_durably, write_durably};
pub use fixed_clock::FixedClock;
pub use mem_device::{MemDevice, crash_law};
pub use mem_source::MemSource;
pub use source::Source;
use thiserror::Error;
pub use trouble::Trouble;

/// A fault of a device or a source, whose count rose in the call that answered it.
#[derive(Clone, Copy, Debug, PartialEq, Eq, Error)]
#[error("the device or the source has failed")]
pub struct Failed;
