//! Cases over the floor of files: control files, gate files, an instance's own files, a database's log and its data files.
//!
//! Each command opens the files anew and makes one call. What the commands of a case mean stands at the head of each file of `data/`.
#![tactic(auto)]

mod control;
mod device;
mod gate;
mod log;
mod master;
mod side;
mod trial;
mod words;

use crate::trial::{at_each_call, run};
use crate::words::word;
use cases::{Subject, run_cases};
use std::alloc::{AllocError, Global};
use std::io;
use std::process::ExitCode;
use trials::Untold;

// What the commands of a case are put to.
struct Files {
    alloc: Global,
    device: Untold,
}

impl Drop for Files {
    fn drop(self) {
        let Files {
            alloc: _,
            device: _,
        } = self;
    }
}

impl Files {
    fn new(alloc: Global) -> Result<Self, AllocError> {
        let device = Untold::new(alloc)?;
        Ok(Files { alloc, device })
    }

    // `run LAYER ..`, `find LAYER NAME`, which changes nothing, `each-call LAYER ..`, and the calls on the device.
    fn put(&mut self, words: &[&str], out: &mut String) -> Result<(), AllocError> {
        let layer = words.get(1..).unwrap_or(&[]);
        match word(words, 0) {
            "run" => run(self.alloc, &mut self.device, layer, out),
            "find" => {
                let mut device = self.device.copy()?;
                run(self.alloc, &mut device, layer, out)
            }
            "each-call" => at_each_call(self.alloc, &self.device, layer, out),
            _ => device::call(self.alloc, &mut self.device, words, out),
        }
    }
}

impl Subject for Files {
    fn begin(&mut self) -> Result<(), AllocError> {
        *self = Files::new(self.alloc)?;
        Ok(())
    }

    fn answer(&mut self, command: &str, out: &mut String) -> Result<(), AllocError> {
        let words: Vec<&str> = command.split_whitespace().collect(self.alloc)?;
        self.put(&words, out)?;
        out.push('\n')
    }
}

fn main(rt: HostRuntime) -> io::Result<ExitCode> {
    let mut files = Files::new(rt.alloc())?;
    if run_cases(&rt, &mut files)? {
        Ok(ExitCode::SUCCESS)
    } else {
        Ok(ExitCode::FAILURE)
    }
}
