//! Runs long scripts, and looks what stands behind a crash at one write after another: what a front of the script leaves.
#![tactic(auto)]

mod console;
mod crashes;
mod moments;
mod plain;
mod recorder;
mod script;
mod states;
mod stops;
mod tried;
mod trouble;

use cases::run_cases;
use console::{Console, run_on};
use crashes::Crashes;
use recorder::Recorder;
use std::process::ExitCode;

fn main(rt: HostRuntime) -> ExitCode {
    let alloc = rt.alloc();
    let running = move |script: &[u8], device: &mut Recorder| run_on(&rt, alloc, script, device);
    let Ok(running) = Box::new(alloc, running) else {
        return ExitCode::from(6);
    };
    let mut crashes = Crashes::new(alloc, Console { running });
    match run_cases(&rt, &mut crashes) {
        Ok(true) => ExitCode::SUCCESS,
        Ok(false) => ExitCode::from(1),
        Err(_) => ExitCode::from(6),
    }
}
