//! Cases over the outside that is real: the files of a directory with their lock, the standard input, the system's clock,
//! and runs of the console over one directory.
#![tactic(auto)]

mod calls;
mod console;
mod folder;
mod letters;
mod outside;
mod words;

use crate::folder::Folder;
use cases::run_cases;
use std::fs::File;
use std::io;
use std::process::ExitCode;
use std::rt::{Clock, Env, Files};
use std::thread::Threads;

fn run<R>(rt: &R) -> io::Result<bool>
where
    R: AllocGlobal + Clock + Env + Files<File = File> + Input + Print + Threads + Sync,
{
    console::runs(rt)?;
    let mut folder = Folder::new(rt)?;
    run_cases(rt, &mut folder)
}

fn main(rt: HostRuntime) -> ExitCode {
    match run(&rt) {
        Ok(true) => ExitCode::SUCCESS,
        Ok(false) => ExitCode::FAILURE,
        Err(_) => ExitCode::from(6),
    }
}
