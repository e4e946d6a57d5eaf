// The console over a device in memory.

use crate::recorder::Recorder;
use bk_console::run;
use bk_device::{FixedClock, MemSource};
use std::alloc::{AllocError, Global};
use std::thread::Threads;

// 2026-01-05 08:00:00.000 UTC, in milliseconds since 1970-01-01 00:00:00 UTC.
const START: u64 = 1_767_600_000_000;

// From one reading of the clock to the next, in milliseconds.
const STEP: u64 = 1000;

/// Runs a script over a device, and gives the exit status.
pub fn run_on<R: Threads + Sync>(
    rt: &R,
    alloc: Global,
    script: &[u8],
    device: &mut Recorder,
) -> Result<u8, AllocError> {
    let line = [String::from_str(alloc, "d")?];
    let mut source = MemSource::new(alloc, script)?;
    let mut clock = FixedClock::new(START, STEP);
    Ok(run(rt, alloc, &line, &mut source, device, &mut clock))
}

/// What runs a script: `run_on` with the runtime, which a method of `Subject` isn't given.
pub type Running = Box<dyn Fn(&[u8], &mut Recorder) -> Result<u8, AllocError> + Drop>;

/// The console over a device in memory.
#[derive(Drop)]
pub struct Console {
    pub running: Running,
    ghost callable: { IsAlwaysCallable running },
}

impl Console {
    /// Runs a script over a device, and gives the exit status.
    pub fn run(&self, script: &str, device: &mut Recorder) -> Result<u8, AllocError> {
        (self.running)(script.as_bytes(), device)
    }
}
