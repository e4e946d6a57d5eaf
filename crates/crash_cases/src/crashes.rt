// The commands.

use crate::console::Console;
use crate::stops::{Stops, run_whole, stop};
use crate::tried::Tried;
use crate::trouble::Trouble;
use bk_device::MemDevice;
use cases::Subject;
use std::alloc::{AllocError, Global};

/// What the commands of a case are put to.
pub struct Crashes {
    alloc: Global,
    console: Console,
    look: String,
    device: MemDevice,
    // The scripts that were run over it, a line `:run` behind each.
    before: String,
}

impl Drop for Crashes {
    fn drop(self) {
        let Crashes {
            alloc: _,
            console: _,
            look: _,
            device: _,
            before: _,
        } = self;
    }
}

// The numbers behind `stop`.
fn stops_in(words: &str) -> Result<Stops, Trouble> {
    let (every, rest) = words.split_once(' ').ok_or(Trouble::NoForm)?;
    let (again, cut) = rest.split_once(' ').ok_or(Trouble::NoForm)?;
    Ok(Stops {
        every: number(every)?,
        again: number(again)?,
        cut: number(cut)?,
    })
}

fn number(word: &str) -> Result<u64, Trouble> {
    word.parse().ok().ok_or(Trouble::NoForm)
}

impl Crashes {
    /// A look that asks nothing, and a device without files.
    pub fn new(alloc: Global, console: Console) -> Self {
        Crashes {
            alloc,
            console,
            look: String::new(alloc),
            device: MemDevice::new(alloc),
            before: String::new(alloc),
        }
    }

    // `look`: what looks, the USE and the SELECT of a database in each further line. `run`: runs the script of the further lines. `stop EVERY AGAIN CUT`: the same, with crashes, and leaves all as it was.
    fn command(
        &mut self,
        verb: &str,
        words: &str,
        more: &str,
        out: &mut String,
    ) -> Result<(), Trouble> {
        match verb {
            "look" => {
                self.look = String::from_str(self.alloc, more)?;
                Ok(())
            }
            "run" => {
                self.run(more, out)?;
                Ok(())
            }
            "stop" => self.stop(words, more, out),
            _ => Err(Trouble::NoForm),
        }
    }

    fn tried<'a>(&'a self, script: &'a str) -> Tried<'a> {
        Tried {
            alloc: self.alloc,
            console: &self.console,
            look: self.look.as_str(),
            start: &self.device,
            before: self.before.as_str(),
            script,
        }
    }

    fn run(&mut self, script: &str, out: &mut String) -> Result<(), AllocError> {
        let device = run_whole(&self.tried(script), out)?;
        self.device = device;
        writeln!(self.before, "{script}\n:run")
    }

    fn stop(&self, words: &str, script: &str, out: &mut String) -> Result<(), Trouble> {
        let stops = stops_in(words)?;
        stop(&self.tried(script), stops, out)?;
        Ok(())
    }
}

impl Subject for Crashes {
    fn begin(&mut self) -> Result<(), AllocError> {
        self.look.clear();
        self.device = MemDevice::new(self.alloc);
        self.before.clear();
        Ok(())
    }

    fn answer(&mut self, command: &str, out: &mut String) -> Result<(), AllocError> {
        let (line, more) = command.split_once('\n').unwrap_or((command, ""));
        let (verb, words) = line.split_once(' ').unwrap_or((line, ""));
        match self.command(verb, words, more, out) {
            Ok(()) => Ok(()),
            Err(Trouble::NoMemory) => Err(AllocError),
            Err(Trouble::NoForm) => out.push_str("no form\n"),
        }
    }
}
