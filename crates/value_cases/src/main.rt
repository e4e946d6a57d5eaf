//! Cases over the values that are spelled as bytes or texts: names, times, cells, log records, headers, and sets on media.
//!
//! Each command speaks of the bytes that `bytes` and `more` gave, or of the words behind it. The files of `data/` are the cases.
#![tactic(auto)]

mod headers;
mod ids;
mod media;
mod records;
mod sets;
mod spelled;
mod values;
mod words;

use cases::run_cases;
use std::io;
use std::process::ExitCode;
use values::Values;

fn main(rt: HostRuntime) -> io::Result<ExitCode> {
    let mut values = Values::new(rt.alloc())?;
    if run_cases(&rt, &mut values)? {
        Ok(ExitCode::SUCCESS)
    } else {
        Ok(ExitCode::FAILURE)
    }
}
