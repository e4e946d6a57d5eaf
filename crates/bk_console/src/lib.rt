//! The console: a script in, a reply to each statement out.
#![tactic(auto)]

mod answers;
mod command_line;
mod console;
mod life_laws;
mod reading;
mod report;
mod status;

pub use command_line::{Options, WordsError, words};
pub use console::{run, run_script};
pub use life_laws::lives_of_devices;
pub use status::Status;
