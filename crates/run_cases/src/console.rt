// The console over a device in memory.

use bk_console::run;
use bk_device::{FixedClock, MemDevice, MemSource};
use std::alloc::{AllocError, Global};
use std::thread::Threads;

// 2026-01-05 08:00:00.000 UTC, in milliseconds since 1970-01-01 00:00:00 UTC.
const START: u64 = 1_767_600_000_000;

// From one reading of the clock to the next, in milliseconds.
const STEP: u64 = 1000;

/// How a run is asked for.
#[derive(Clone, Copy)]
pub struct Asked<'a> {
    /// The words behind the program's name.
    pub line: &'a [String],
    /// What its source gives.
    pub script: &'a [u8],
    /// The number of the source's call that fails, from 1.
    pub fault: Option<u64>,
}

/// Runs a script over a device, and gives the exit status.
pub fn run_on<R: Threads + Sync>(
    rt: &R,
    alloc: Global,
    asked: &Asked<'_>,
    device: &mut MemDevice,
) -> Result<u8, AllocError> {
    let mut source = MemSource::new(alloc, asked.script)?;
    if let Some(call) = asked.fault {
        source.fail_at(call)?;
    }
    let mut clock = FixedClock::new(START, STEP);
    Ok(run(rt, alloc, asked.line, &mut source, device, &mut clock))
}

/// What runs a script: `run_on` with the runtime, which a method of `Subject` isn't given.
pub type Running = Box<
    dyn Fn(&[String], &[u8], Option<u64>, &mut MemDevice) -> Result<u8, AllocError> + Drop,
>;

/// The console over a device in memory.
#[derive(Drop)]
pub struct Console {
    pub running: Running,
    ghost callable: { IsAlwaysCallable running },
}

impl Console {
    /// Runs a script over a device, and gives the exit status.
    pub fn run(&self, asked: &Asked<'_>, device: &mut MemDevice) -> Result<u8, AllocError> {
        (self.running)(asked.line, asked.script, asked.fault, device)
    }
}

/// What a device told behind this many bytes.
pub fn told_from(device: &MemDevice, from: usize) -> &[u8] {
    device.told().get(from..).unwrap_or(&[])
}

/// Appends what was told, each line with its line end. Bytes that aren't UTF-8 are never told.
pub fn show_told(told: &[u8], out: &mut String) -> Result<(), AllocError> {
    out.push_str(std::str::from_utf8(told).unwrap_or("no UTF-8"))?;
    if matches!(told, [] | [.., b'\n']) {
        return Ok(());
    }
    out.push_str(" no line end\n")
}
