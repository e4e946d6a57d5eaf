// Runs that are cut short, each at another write or call, and what stands behind each.

use crate::console::{Asked, Console, show_told};
use crate::trial::Trial;
use crate::trouble::Trouble;
use bk_device::MemDevice;
use std::alloc::{AllocError, Global};
use std::mem;

// Before how many writes or calls a run is to have gone well.
const MOST: u64 = 2000;

// Behind each how-manieth of them a look is put twice.
const TWICE: u64 = 8;

/// How a run is cut short.
#[derive(Clone, Copy)]
pub enum Cut {
    /// The write of a number and all calls from then on fail.
    AtWrite,
    /// The call of a number fails.
    AtCall,
}

/// A run that is cut short again and again, from the same device on.
#[derive(Clone, Copy)]
pub struct Trials<'a> {
    pub alloc: Global,
    pub console: &'a Console,
    pub start: &'a MemDevice,
    pub asked: &'a Asked<'a>,
    pub cut: Cut,
    /// From the first write or call on, each how-manieth it is cut short at.
    pub every: u64,
}

// At how many writes or calls a run ended with status 4, where telling failed, and with status 5, where a call on files did.
#[derive(Clone, Copy)]
struct Faults {
    tellings: u32,
    files: u32,
}

impl Faults {
    // One more run ended with this status. Says whether it is one that may be.
    fn count(&mut self, status: u8) -> bool {
        match status {
            4 => self.tellings = self.tellings.saturating_add(1),
            5 => self.files = self.files.saturating_add(1),
            _ => return status == 0,
        }
        true
    }

    fn show(self, out: &mut String) -> Result<(), AllocError> {
        let tellings = self.tellings;
        let how = if self.files > tellings {
            "more"
        } else {
            "fewer"
        };
        writeln!(out, "status 4 at {tellings}, status 5 at {how}")
    }
}

// How many lines were told.
fn lines_told(told: &[u8]) -> u64 {
    told.iter().filter(|byte| **byte == b'\n').count() as u64
}

impl Trials<'_> {
    // What the run tells where nothing cuts it short.
    fn whole(&self) -> Result<Vec<u8>, AllocError> {
        let mut device = self.start.copy()?;
        let told = self.told_over(&mut device);
        drop(device);
        told
    }

    // All that a device has told behind the run.
    fn told_over(&self, device: &mut MemDevice) -> Result<Vec<u8>, AllocError> {
        self.console.run(self.asked, device)?;
        Vec::from_slice(self.alloc, device.told())
    }

    // The status of a run over a device that cuts it short there.
    fn cut_short(&self, device: &mut MemDevice, at: u64) -> Result<u8, AllocError> {
        match self.cut {
            Cut::AtWrite => device.stop_at(at),
            Cut::AtCall => device.fail_at(at)?,
        }
        self.console.run(self.asked, device)
    }

    // What a look over a device shows, and its status where that isn't 0.
    fn look(&self, script: &str, device: &mut MemDevice) -> Result<String, AllocError> {
        let asked = Asked {
            line: &[String::from_str(self.alloc, "d")?],
            script: script.as_bytes(),
            fault: None,
        };
        let status = self.console.run(&asked, device)?;
        let mut text = String::new(self.alloc);
        show_told(device.told(), &mut text)?;
        if status != 0 {
            writeln!(text, "status {status}")?;
        }
        Ok(text)
    }

    // What a look over a copy of a device shows.
    fn look_aside(&self, script: &str, device: &MemDevice) -> Result<String, AllocError> {
        let mut device = device.copy()?;
        let text = self.look(script, &mut device);
        drop(device);
        text
    }

    // Looks at a device that has told nothing, and twice where that is asked for. Says whether it is the same twice, and may be shown, and else answers it.
    fn looks_same(
        &self,
        trial: &mut Trial,
        lines: u64,
        is_twice: bool,
        device: &mut MemDevice,
        out: &mut String,
    ) -> Result<bool, AllocError> {
        let first = self.look(trial.look(), device)?;
        if !trial.takes(lines, first.as_str()) {
            out.push_str(&first)?;
            return Ok(false);
        }
        if !is_twice {
            return Ok(true);
        }
        let second = self.look_aside(trial.look(), device)?;
        if second.as_str() == first.as_str() {
            return Ok(true);
        }
        out.push_str(&second)?;
        Ok(false)
    }

    // Looks behind a crash of the device that keeps what wasn't synced.
    fn looks_well_kept(
        &self,
        trial: &mut Trial,
        lines: u64,
        is_twice: bool,
        device: &MemDevice,
        out: &mut String,
    ) -> Result<bool, AllocError> {
        let mut kept = device.copy()?;
        let is_well = self.looks_same(trial, lines, is_twice, &mut kept, out);
        drop(kept);
        is_well
    }

    // Looks behind a crash of the device that loses it. The device has no file afterwards.
    fn looks_well_lost(
        &self,
        trial: &mut Trial,
        lines: u64,
        is_twice: bool,
        device: &mut MemDevice,
        out: &mut String,
    ) -> Result<bool, AllocError> {
        let crashed = mem::replace(device, MemDevice::new(self.alloc)).restart(false);
        let copied = crashed.copy();
        drop(crashed);
        let mut left = copied?;
        let is_well = self.looks_same(trial, lines, is_twice, &mut left, out);
        drop(left);
        is_well
    }

    // Cuts one run short, and looks what stands behind it. Gives its status where all is as it may be.
    fn try_one(
        &self,
        trial: &mut Trial,
        whole: &[u8],
        at: u64,
        out: &mut String,
    ) -> Result<Option<u8>, AllocError> {
        let mut device = self.start.copy()?;
        let status = self.try_over(&mut device, trial, whole, at, out);
        drop(device);
        status
    }

    // The same over a device, which has no file afterwards.
    fn try_over(
        &self,
        device: &mut MemDevice,
        trial: &mut Trial,
        whole: &[u8],
        at: u64,
        out: &mut String,
    ) -> Result<Option<u8>, AllocError> {
        let status = self.cut_short(device, at)?;
        let told = device.told();
        let lines = lines_told(told);
        let is_front = whole.starts_with(told) && (status != 0 || whole == told);
        let is_twice = at % TWICE == 1;
        if is_front
            && self.looks_well_kept(trial, lines, is_twice, device, out)?
            && self.looks_well_lost(trial, lines, is_twice, device, out)?
        {
            return Ok(Some(status));
        }
        writeln!(out, "cut short at {at}, {lines} lines, status {status}")?;
        Ok(None)
    }

    /// Cuts the run short at one write or call after another, until it goes well. Behind each crash a look shows what it may show then. Answers
    /// at how many calls telling failed, and whether others failed more often, where it was cut short at each; or the first mistake.
    pub fn at_each(&self, trial: &mut Trial, out: &mut String) -> Result<(), AllocError> {
        let whole = self.whole()?;
        let mut faults = Faults {
            tellings: 0,
            files: 0,
        };
        let mut at = 1u64;
        for _ in 1..MOST {
            let Some(status) = self.try_one(trial, &whole, at, out)? else {
                return Ok(());
            };
            if status == 0 {
                break;
            }
            if !faults.count(status) {
                writeln!(out, "status {status} at {at}")?;
            }
            at = at.saturating_add(self.every);
        }
        if self.every != 1 {
            return Ok(());
        }
        faults.show(out)?;
        trial.show_unseen(out)
    }
}
