//! The outside as the operating system gives it: a real directory with the standard output, the standard input, and the
//! system's clock.
#![tactic(auto)]

mod directory;
mod file_device;
mod open_file;
mod read_ahead;
mod stdin_source;
mod system_clock;

pub use file_device::FileDevice;
pub use stdin_source::StdinSource;
pub use system_clock::SystemClock;
