//! Runs cases of scripts: how bytes are cut into tokens, and which items the tokens are.
#![tactic(auto)]

mod databases;
mod items;
mod media;
mod options;
mod reading;
mod rows;
mod script;
mod scripts;
mod tokens;
mod words;

use cases::run_cases;
use scripts::Scripts;
use std::io;
use std::process::ExitCode;

fn main(rt: HostRuntime) -> io::Result<ExitCode> {
    let mut scripts = Scripts::new(rt.alloc());
    if run_cases(&rt, &mut scripts)? {
        Ok(ExitCode::SUCCESS)
    } else {
        Ok(ExitCode::FAILURE)
    }
}
