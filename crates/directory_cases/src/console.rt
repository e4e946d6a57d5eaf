// Runs of the console over one directory.
use bk_console::run;
use bk_device::{Device, FixedClock, MemSource};
use bk_system::FileDevice;
use std::alloc::{AllocError, Global};
use std::fs::{self, File};
use std::io;
use std::rt::Files;
use std::thread::Threads;

// 2026-01-05 08:00:00.000 UTC, in milliseconds since 1970-01-01 00:00:00 UTC.
const START: u64 = 1_767_600_000_000;

const DIR: &str = "instance";

// `sqlbak -b DIR`.
fn line(alloc: Global) -> Result<Vec<String>, AllocError> {
    let mut line = Vec::new(alloc);
    for word in ["-b", DIR] {
        line.push(String::from_str(alloc, word)?)?;
    }
    Ok(line)
}

// The status of a run with `-b` of the script in this file, over a device of its own. What it tells is printed.
fn status_of<R>(rt: &R, script: &str) -> io::Result<u8>
where
    R: AllocGlobal + Files<File = File> + Print + Threads + Sync,
{
    let alloc = rt.alloc();
    let line = line(alloc)?;
    let script = fs::read(rt, script)?;
    let mut source = MemSource::new(alloc, &script)?;
    let mut device = FileDevice::new(rt, alloc, DIR)?;
    let mut clock = FixedClock::new(START, 1000);
    Ok(run(rt, alloc, &line, &mut source, &mut device, &mut clock))
}

// Prints what runs over one directory tell, and their status: the first makes an instance, which the others find. The last
// one runs beside a device that has the directory.
pub fn runs<R>(rt: &R) -> io::Result<()>
where
    R: AllocGlobal + Files<File = File> + Print + Threads + Sync,
{
    rt.create_dir(DIR)?;
    for script in ["make.sql", "find.sql", "refuse.sql"] {
        let status = status_of(rt, script)?;
        println!(rt; "{script}: status {status}")?;
    }
    let mut other = FileDevice::new(rt, rt.alloc(), DIR)?;
    let is_there = other.len("sqlbak.control").is_ok();
    let status = status_of(rt, "find.sql")?;
    println!(rt; "beside another device, {is_there}: status {status}")
}
