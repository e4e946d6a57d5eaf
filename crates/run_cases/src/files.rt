// Commands on the device's files, on crashes and on faults.

use crate::bytes::{bytes, number, show_bytes};
use crate::trouble::Trouble;
use bk_device::{Device, MemDevice};
use bk_master::{Master, MasterError};
use std::alloc::{AllocError, Global};
use std::mem;

/// A device in memory.
pub struct Files {
    pub alloc: Global,
    pub device: MemDevice,
}

impl Drop for Files {
    fn drop(self) {
        let Files {
            alloc: _,
            device: _,
        } = self;
    }
}

// The number of the instance, and the low number of the next GUID that isn't reserved.
fn record(alloc: Global, device: &mut MemDevice) -> Result<(u64, u64), MasterError> {
    let master = Master::load(alloc, device, 9)?;
    let own = &master.record().own;
    Ok((own.number, own.counter))
}

impl Files {
    /// A device without files.
    pub fn new(alloc: Global) -> Self {
        Files {
            alloc,
            device: MemDevice::new(alloc),
        }
    }

    // The device after a crash.
    fn restart(&mut self, keep: bool) {
        let device = mem::replace(&mut self.device, MemDevice::new(self.alloc));
        self.device = device.restart(keep);
    }

    // A file's whole content, where it is there.
    fn content(&mut self, name: &str) -> Result<Option<Vec<u8>>, Trouble> {
        let Some(len) = self.device.len(name)? else {
            return Ok(None);
        };
        let mut content = Vec::new(self.alloc);
        for _ in 0..len {
            content.push(0)?;
        }
        self.device.read(name, 0, &mut content)?;
        Ok(Some(content))
    }

    // A file holds these bytes, and nothing is pending.
    fn put(&mut self, name: &str, content: &[u8]) -> Result<(), Trouble> {
        self.device.lose(name);
        self.device.write(name, 0, content)?;
        self.restart(true);
        Ok(())
    }

    // A part of a file, or of a new one, is these bytes.
    fn overwrite(&mut self, name: &str, at: u64, part: &[u8]) -> Result<(), Trouble> {
        let Some(old) = self.content(name)? else {
            return Err(Trouble::NoForm);
        };
        let mut content = Vec::from_slice(
            self.alloc,
            old.get(..at as usize).ok_or(Trouble::NoForm)?,
        )?;
        content.extend_from_slice(part)?;
        let rest = old.get(content.len()..).unwrap_or(&[]);
        content.extend_from_slice(rest)?;
        self.put(name, &content)
    }

    // Answers a file's bytes, or that there is none.
    fn show(&mut self, name: &str, out: &mut String) -> Result<(), Trouble> {
        match self.content(name)? {
            Some(content) => show_bytes(self.alloc, &content, out)?,
            None => out.push_str("no file\n")?,
        }
        Ok(())
    }

    // Answers how many bytes a file has, or that there is none.
    fn show_len(&mut self, name: &str, out: &mut String) -> Result<(), Trouble> {
        match self.device.len(name)? {
            Some(len) => writeln!(out, "{len}")?,
            None => out.push_str("no file\n")?,
        }
        Ok(())
    }

    // Answers the bytes of a file that doesn't hold these.
    fn compare(&mut self, name: &str, wanted: &[u8], out: &mut String) -> Result<(), Trouble> {
        match self.content(name)? {
            Some(content) if content.as_slice() == wanted => {}
            Some(content) => show_bytes(self.alloc, &content, out)?,
            None => out.push_str("no file\n")?,
        }
        Ok(())
    }

    /// `record`: answers the record of the instance, as a run would find it.
    pub fn show_record(&self, out: &mut String) -> Result<(), AllocError> {
        let mut device = self.device.copy()?;
        let found = record(self.alloc, &mut device);
        drop(device);
        match found {
            Ok((number, counter)) => writeln!(out, "instance {number}, counter {counter}"),
            Err(_) => out.push_str("no instance\n"),
        }
    }

    /// `restart keep` and `restart lose`: a crash, which keeps or loses what wasn't synced. `stop-at N`: the write of this number
    /// and all calls from then on fail. `fail-at N`: the call of this number fails.
    pub fn on_crash(&mut self, verb: &str, word: &str) -> Result<(), Trouble> {
        match (verb, word) {
            ("restart", "keep") => self.restart(true),
            ("restart", "lose") => self.restart(false),
            ("stop-at", _) => self.device.stop_at(number(word)?),
            ("fail-at", _) => self.device.fail_at(number(word)?)?,
            _ => return Err(Trouble::NoForm),
        }
        Ok(())
    }

    /// `put NAME`: the file holds the bytes of the further lines. `write NAME AT`: they stand in it from that offset on. `lose NAME`: the
    /// file is gone. `file NAME`: answers its bytes. `holds NAME`: answers them where they aren't those of the further lines.
    pub fn on_file(
        &mut self,
        verb: &str,
        words: &str,
        more: &str,
        out: &mut String,
    ) -> Result<(), Trouble> {
        let (name, at) = words.split_once(' ').unwrap_or((words, "0"));
        let bytes = bytes(self.alloc, more)?;
        match verb {
            "put" => self.put(name, &bytes),
            "write" => self.overwrite(name, number(at)?, &bytes),
            "lose" => {
                self.device.lose(name);
                Ok(())
            }
            "file" => self.show(name, out),
            "len" => self.show_len(name, out),
            "holds" => self.compare(name, &bytes, out),
            _ => Err(Trouble::NoForm),
        }
    }
}
