// A device in memory that notes what is done on it.
ghost use Rattle.bk_device.specs.Replay.{disk_of};
ghost use Rattle.bk_device.specs.Replayed.{memory_lawful};

use bk_device::{Device, Failed, MemDevice};
use std::alloc::{AllocError, Global};

/// What was done on a device.
#[derive(Drop)]
pub enum Deed {
    /// These bytes were written to a file from this offset on.
    Wrote {
        /// The file.
        name: String,
        /// The offset.
        at: u64,
        /// The bytes.
        bytes: Vec<u8>,
    },
    /// This file was made durable.
    Synced(String),
    /// This file was cut to this length.
    Cut(String, u64),
    /// This file was removed.
    Removed(String),
    /// These bytes were told.
    Told(Vec<u8>),
}

impl Deed {
    /// Whether bytes were written to a file.
    pub fn is_write(&self) -> bool {
        matches!(self, Deed::Wrote { .. })
    }
}

// The deeds in their order.
struct Deeds {
    alloc: Global,
    list: Vec<Deed>,
    // One found no memory.
    is_short: bool,
}

impl Drop for Deeds {
    fn drop(self) {
        let Deeds {
            alloc: _,
            list: _,
            is_short: _,
        } = self;
    }
}

impl Deeds {
    fn name(&self, name: &str) -> Result<String, AllocError> {
        String::from_str(self.alloc, name)
    }

    fn bytes(&self, bytes: &[u8]) -> Result<Vec<u8>, AllocError> {
        Vec::from_slice(self.alloc, bytes)
    }

    fn add(&mut self, deed: Deed) -> Result<(), AllocError> {
        self.list.push(deed)?;
        Ok(())
    }

    fn add_write(&mut self, name: &str, at: u64, bytes: &[u8]) -> Result<(), AllocError> {
        let name = self.name(name)?;
        let bytes = self.bytes(bytes)?;
        self.add(Deed::Wrote { name, at, bytes })
    }

    fn add_sync(&mut self, name: &str) -> Result<(), AllocError> {
        let name = self.name(name)?;
        self.add(Deed::Synced(name))
    }

    fn add_cut(&mut self, name: &str, len: u64) -> Result<(), AllocError> {
        let name = self.name(name)?;
        self.add(Deed::Cut(name, len))
    }

    fn add_removal(&mut self, name: &str) -> Result<(), AllocError> {
        let name = self.name(name)?;
        self.add(Deed::Removed(name))
    }

    fn add_telling(&mut self, bytes: &[u8]) -> Result<(), AllocError> {
        let bytes = self.bytes(bytes)?;
        self.add(Deed::Told(bytes))
    }

    // Notes whether a deed was added.
    fn note(&mut self, added: Result<(), AllocError>) {
        if added.is_err() {
            self.is_short = true;
        }
    }
}

/// A device in memory that notes what is done on it.
#[derive(Drop)]
pub struct Recorder {
    device: MemDevice,
    deeds: Deeds,
}

impl Recorder {
    /// Over this device. Nothing is noted yet.
    pub fn new(alloc: Global, device: MemDevice) -> Self {
        Recorder {
            device,
            deeds: Deeds {
                alloc,
                list: Vec::new(alloc),
                is_short: false,
            },
        }
    }

    /// The device.
    pub fn device(&self) -> &MemDevice {
        &self.device
    }

    /// The device as it is by itself.
    pub fn end(self) -> MemDevice {
        let Recorder { device, .. } = self;
        device
    }

    /// What was done, in its order; none where a deed found no memory.
    pub fn deeds(&self) -> Option<&[Deed]> {
        if self.deeds.is_short {
            return None;
        }
        Some(self.deeds.list.as_slice())
    }

    /// The write of this number, counted from 1, and all calls from then on will fail.
    pub fn stop_at(&mut self, write: u64) {
        self.device.stop_at(write);
    }
}

impl Device for Recorder {
    ghost tells = { Unit {0} };

    ghost disk = { λ r. disk_of r.device };

    ghost disk_faults = { λ r. r.device.disk_faults };

    ghost tell_faults = { λ r. r.device.tell_faults };

    ghost lawful = { λ _ r. memory_lawful r.device };

    fn len(&mut self, name: &str) -> Result<Option<u64>, Failed> {
        self.device.len(name)
    }

    fn read(&mut self, name: &str, at: u64, buf: &mut [u8]) -> Result<usize, Failed> {
        self.device.read(name, at, buf)
    }

    fn write(&mut self, name: &str, at: u64, bytes: &[u8]) -> Result<(), Failed> {
        self.device.write(name, at, bytes)?;
        let added = self.deeds.add_write(name, at, bytes);
        self.deeds.note(added);
        Ok(())
    }

    fn sync(&mut self, name: &str) -> Result<(), Failed> {
        self.device.sync(name)?;
        let added = self.deeds.add_sync(name);
        self.deeds.note(added);
        Ok(())
    }

    fn cut(&mut self, name: &str, len: u64) -> Result<(), Failed> {
        self.device.cut(name, len)?;
        let added = self.deeds.add_cut(name, len);
        self.deeds.note(added);
        Ok(())
    }

    fn remove(&mut self, name: &str) -> Result<(), Failed> {
        self.device.remove(name)?;
        let added = self.deeds.add_removal(name);
        self.deeds.note(added);
        Ok(())
    }

    fn tell(&mut self, bytes: &[u8]) -> Result<(), Failed> {
        self.device.tell(bytes)?;
        let added = self.deeds.add_telling(bytes);
        self.deeds.note(added);
        Ok(())
    }
}
