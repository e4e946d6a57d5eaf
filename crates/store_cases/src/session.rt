// A row of calls on the databases of an instance, from its loading on.
ghost use Rattle.bk_hosting.specs.Hosting.{IsReady};

use crate::calls::call;
use crate::shown::told;
use bk_device::Trouble;
use bk_hosting::Hosting;
use bk_stores::LoadError;
use std::alloc::{AllocError, Global};
use std::thread::Threads;
use trials::Untold;

// The instance is made with this number.
const INSTANCE: u64 = 1;

// No row of calls makes so many calls on the device.
const CALLS: u64 = 2000;

// Makes the calls, and gives what the databases show then.
fn play<R: Threads + Sync>(
    rt: &R,
    alloc: Global,
    device: &mut Untold,
    hosting: &mut Hosting,
    calls: &str,
) -> Result<String, Trouble>
    requires ready { IsReady hosting.old }
{
    for line in calls.lines() {
        call(rt, alloc, device, hosting, line)?;
    }
    let told = told(alloc, hosting)?;
    Ok(told)
}

// Loads the instance, or makes it, and makes the calls.
fn played<R: Threads + Sync>(
    rt: &R,
    alloc: Global,
    device: &mut Untold,
    calls: &str,
) -> Result<String, LoadError> {
    let mut hosting = Hosting::load(rt, alloc, device, INSTANCE)?;
    let told = play(rt, alloc, device, &mut hosting, calls);
    drop(hosting);
    Ok(told?)
}

/// What the databases of the instance show once the calls are made, or why one gave nothing.
pub(crate) fn said<R: Threads + Sync>(
    rt: &R,
    alloc: Global,
    device: &mut Untold,
    calls: &str,
) -> Result<String, AllocError> {
    match played(rt, alloc, device, calls) {
        Ok(told) => Ok(told),
        Err(error) => format!(in alloc; "{error}\n"),
    }
}

// What is said where a call on the device fails, what is found then, and what is found where all that wasn't synced is gone.
fn outcome<R: Threads + Sync>(
    rt: &R,
    alloc: Global,
    start: &Untold,
    calls: &str,
    n: u64,
) -> Result<String, AllocError> {
    let mut device = start.copy()?;
    device.fail_at(n)?;
    let mut out = said(rt, alloc, &mut device, calls)?;
    out.push_str("  kept: ")?;
    out.push_str(said(rt, alloc, &mut device.copy()?, "")?.as_str())?;
    out.push_str("  lost: ")?;
    device.restart(false);
    out.push_str(said(rt, alloc, &mut device, "")?.as_str())?;
    Ok(out)
}

/// The outcome with a fault at each call on the device, until none is met; with its number where it isn't the one before.
pub(crate) fn at_each_call<R: Threads + Sync>(
    rt: &R,
    alloc: Global,
    start: &Untold,
    calls: &str,
    out: &mut String,
) -> Result<(), AllocError> {
    let mut last = String::new(alloc);
    for n in 1..CALLS {
        let next = outcome(rt, alloc, start, calls, n)?;
        if next.as_str() != last.as_str() {
            write!(out, "{n}: {next}")?;
        }
        if !next.as_str().starts_with("the device has failed") {
            return Ok(());
        }
        last = next;
    }
    Ok(())
}
