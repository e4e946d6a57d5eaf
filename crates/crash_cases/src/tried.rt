// A script that is tried, and a look at what it leaves.

use crate::console::Console;
use crate::recorder::Recorder;
use bk_device::MemDevice;
use std::alloc::{AllocError, Global};

/// A script of one item a line, what was run before it, and a look that asks each database in a line of its own.
#[derive(Clone, Copy)]
pub struct Tried<'a> {
    pub alloc: Global,
    pub console: &'a Console,
    pub look: &'a str,
    /// The device behind the runs before.
    pub start: &'a MemDevice,
    /// The scripts of these runs, a line `:run` behind each.
    pub before: &'a str,
    pub script: &'a str,
}

impl Tried<'_> {
    /// A device with such files, which has told nothing yet.
    pub fn recorder(&self, image: &MemDevice) -> Result<Recorder, AllocError> {
        let device = image.copy()?;
        Ok(Recorder::new(self.alloc, device))
    }

    // Appends what a look over a device shows, and its status where that isn't 0.
    fn look_at(&self, image: &MemDevice, out: &mut String) -> Result<MemDevice, AllocError> {
        let mut recorder = self.recorder(image)?;
        let status = self.console.run(self.look, &mut recorder);
        let device = recorder.end();
        let told = std::str::from_utf8(device.told()).unwrap_or("no UTF-8");
        out.push_str(told)?;
        match status? {
            0 => {}
            status => writeln!(out, "status {status}")?,
        }
        Ok(device)
    }

    /// What a look shows over a copy of a device.
    pub fn look(&self, image: &MemDevice) -> Result<String, AllocError> {
        let mut text = String::new(self.alloc);
        drop(self.look_at(image, &mut text)?);
        Ok(text)
    }

    /// The same, and what a second look shows behind it, where that is another thing.
    pub fn look_twice(&self, image: &MemDevice) -> Result<String, AllocError> {
        let mut first = String::new(self.alloc);
        let mut second = String::new(self.alloc);
        let behind = self.look_at(image, &mut first)?;
        let again = self.look_at(&behind, &mut second);
        drop(behind);
        drop(again?);
        if first.as_str() != second.as_str() {
            writeln!(first, "then\n{second}")?;
        }
        Ok(first)
    }
}
