//! The program: the console over a directory, the standard input and the system's clock.
#![tactic(auto)]

use bk_console::{Status, WordsError, run, words};
use bk_system::{FileDevice, StdinSource, SystemClock};
use std::alloc::AllocError;
use std::fs::File;
use std::process::ExitCode;
use std::rt::{Clock, Env, Files};
use std::thread::Threads;
use std::{env, io};

fn main(rt: HostRuntime) -> ExitCode {
    match console(&rt) {
        Ok(status) => ExitCode::from(status),
        Err(AllocError) => ExitCode::from(Status::NoMemory.code()),
    }
}

// The words behind the program's name. A command line that isn't text has none.
fn command_line<R: Env + AllocGlobal>(rt: &R) -> Result<Vec<String>, AllocError> {
    match env::args(rt) {
        Ok(args) => args.skip(1).collect(rt.alloc()),
        Err(error) if error.kind() == io::ErrorKind::OutOfMemory => Err(AllocError),
        Err(_) => Ok(Vec::new(rt.alloc())),
    }
}

// Makes the outside, and runs the console over it.
fn console<R>(rt: &R) -> Result<u8, AllocError>
where
    R: AllocGlobal + Clock + Env + Files<File = File> + Input + Print + Threads + Sync,
{
    let alloc = rt.alloc();
    let line = command_line(rt)?;
    let dir = match words(alloc, &line) {
        Ok(options) => options.dir,
        Err(WordsError::Usage) => String::from_str(alloc, ".")?,
        Err(WordsError::NoMemory) => return Err(AllocError),
    };
    let mut device = FileDevice::new(rt, alloc, dir.as_str())?;
    let mut source = StdinSource::new(rt);
    let mut clock = SystemClock::new(rt);
    Ok(run(rt, alloc, &line, &mut source, &mut device, &mut clock))
}
