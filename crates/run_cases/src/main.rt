//! Runs scripts over a device in memory: what is told, what the files hold, and what stands after each crash and fault.
//! Also the words of the command line.
#![tactic(auto)]

mod bytes;
mod console;
mod files;
mod line;
mod runs;
mod trial;
mod trials;
mod trouble;
mod with_clap;

use bk_device::MemDevice;
use cases::run_cases;
use console::{Asked, Console, run_on};
use runs::Runs;
use std::process::ExitCode;

fn main(rt: HostRuntime) -> ExitCode {
    let alloc = rt.alloc();
    let running = move |line: &[String], script: &[u8], fault, device: &mut MemDevice| {
        run_on(
            &rt,
            alloc,
            &Asked {
                line,
                script,
                fault,
            },
            device,
        )
    };
    let Ok(running) = Box::new(alloc, running) else {
        return ExitCode::from(6);
    };
    let mut runs = Runs::new(alloc, Console { running });
    match run_cases(&rt, &mut runs) {
        Ok(true) => ExitCode::SUCCESS,
        Ok(false) => ExitCode::from(1),
        Err(_) => ExitCode::from(6),
    }
}
