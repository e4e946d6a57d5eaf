// The files of a run that was recorded, deed by deed.

use crate::recorder::Deed;
use bk_device::{Device, Failed, MemDevice};
use std::alloc::{AllocError, Global};
use trials::{cut_inside, write_inside};

/// What a crash leaves behind some of the deeds: one that keeps what wasn't synced, and one that loses it.
pub struct Moments {
    alloc: Global,
    kept: MemDevice,
    lost: MemDevice,
    told: Vec<u8>,
    is_lost_new: bool,
}

impl Drop for Moments {
    fn drop(self) {
        let Moments {
            alloc: _,
            kept: _,
            lost: _,
            told: _,
            is_lost_new: _,
        } = self;
    }
}

// A file's whole content, where it is there.
fn content(alloc: Global, device: &mut MemDevice, name: &str) -> Result<Option<Vec<u8>>, Failed> {
    let Some(len) = device.len(name)? else {
        return Ok(None);
    };
    let Ok(mut content) = vec![in alloc; 0u8; len as usize] else {
        return Err(Failed);
    };
    device.read(name, 0, &mut content)?;
    Ok(Some(content))
}

impl Moments {
    /// Before the first deed on such a device.
    pub fn new(alloc: Global, start: &MemDevice) -> Result<Self, AllocError> {
        let kept = start.copy()?;
        let lost = start.copy()?;
        Ok(Moments {
            alloc,
            kept,
            lost,
            told: Vec::new(alloc),
            is_lost_new: true,
        })
    }

    /// What a crash leaves that keeps what wasn't synced.
    pub fn kept(&self) -> &MemDevice {
        &self.kept
    }

    /// What a crash leaves that loses it.
    pub fn lost(&self) -> &MemDevice {
        &self.lost
    }

    /// What was told.
    pub fn told(&self) -> &[u8] {
        &self.told
    }

    /// Whether a deed has changed what a crash leaves that loses what wasn't synced, since this was asked last; it has the first time.
    pub fn is_lost_new(&mut self) -> bool {
        std::mem::replace(&mut self.is_lost_new, false)
    }

    // What a file holds is what it holds behind a crash.
    fn sync(&mut self, name: &str) -> Result<(), Failed> {
        self.is_lost_new = true;
        self.lost.lose(name);
        match content(self.alloc, &mut self.kept, name)? {
            Some(content) => self.lost.write(name, 0, &content),
            None => Ok(()),
        }
    }

    fn tell(&mut self, bytes: &[u8]) -> Result<(), Failed> {
        match self.told.extend_from_slice(bytes) {
            Ok(()) => Ok(()),
            Err(_) => Err(Failed),
        }
    }

    /// Behind one deed more. It fails where there is no memory.
    pub fn next(&mut self, deed: &Deed) -> Result<(), Failed> {
        match deed {
            Deed::Wrote { name, at, bytes } => write_inside(&mut self.kept, name, *at, bytes),
            Deed::Synced(name) => self.sync(name),
            Deed::Cut(name, len) => cut_inside(&mut self.kept, name, *len),
            Deed::Removed(name) => self.kept.remove(name),
            Deed::Told(bytes) => self.tell(bytes),
        }
    }
}
