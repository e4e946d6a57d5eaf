// A device in memory of which nothing is claimed, so that a case may open whatever files there are.
ghost use Rattle.std.specs.Prelude.{◌≡◌, ◌≤◌, Ok, IfOk, OnErr};
ghost use Rattle.bk_device.specs.Counts.{HasRisen, one_more};
ghost use Rattle.bk_device.specs.Disk.{unknown_disk};

use crate::inside::{cut_inside, has_bytes, write_inside};
use bk_device::{Device, Failed, MemDevice};
use std::alloc::{AllocError, Global};
use std::mem;

/// A device in memory of which nothing is claimed, so that a case may open whatever files there are.
pub struct Untold {
    alloc: Global,
    device: Box<MemDevice>,
    // how often a call on a file, or on the output, failed
    disk_faults: u64,
    tell_faults: u64,
}

impl Drop for Untold {
    fn drop(self) {
        let Untold {
            alloc: _,
            device: _,
            disk_faults: _,
            tell_faults: _,
        } = self;
    }
}

// Puts another byte at a place of a file. Tells whether there is such a place.
fn damage_inside(device: &mut MemDevice, name: &str, place: u64) -> bool {
    if place == u64::MAX {
        return false;
    }
    let Ok(true) = has_bytes(device, name, place + 1) else {
        return false;
    };
    device.damage(name, place);
    true
}

// A crash, which keeps what was written since each file's last sync, or loses it.
fn crash(alloc: Global, device: &mut MemDevice, keep: bool) {
    let old = mem::replace(device, MemDevice::new(alloc));
    *device = old.restart(keep);
}

impl Untold {
    fn around(alloc: Global, device: MemDevice) -> Result<Self, AllocError> {
        Ok(Untold {
            alloc,
            device: Box::new(alloc, device)?,
            disk_faults: 0,
            tell_faults: 0,
        })
    }

    /// A device without files.
    pub fn new(alloc: Global) -> Result<Self, AllocError> {
        Untold::around(alloc, MemDevice::new(alloc))
    }

    /// A device with the files as a read gives them now, of which no call is to fail.
    pub fn copy(&self) -> Result<Self, AllocError> {
        Untold::around(self.alloc, self.device.copy()?)
    }

    /// A crash, which keeps what was written since each file's last sync, or loses it. No call is to fail then.
    pub fn restart(&mut self, keep: bool) {
        crash(self.alloc, &mut self.device, keep);
    }

    /// The write of this number, counted from 1, and all calls from then on will fail.
    pub fn stop_at(&mut self, write: u64) {
        self.device.stop_at(write);
    }

    /// The call of this number, counted from 1, will fail.
    pub fn fail_at(&mut self, call: u64) -> Result<(), AllocError> {
        self.device.fail_at(call)
    }

    /// Puts another byte at a place of a file. Tells whether there is such a place.
    pub fn damage(&mut self, file: &str, place: u64) -> bool {
        damage_inside(&mut self.device, file, place)
    }

    /// A file is gone.
    pub fn lose(&mut self, file: &str) {
        self.device.lose(file);
    }

    fn on_disk<T>(&mut self, done: Result<T, Failed>) -> Result<T, Failed>
        ensures ok { IfOk result (λ x. done ≡ Ok x) }
        ensures fault { OnErr result (self.new.disk_faults ≡ one_more self.old.disk_faults) }
        ensures never_falls { self.old.disk_faults ≤ self.new.disk_faults }
        ensures tell_faults { self.new.tell_faults ≡ self.old.tell_faults }
    {
        if done.is_err() {
            self.disk_faults = self.disk_faults.saturating_add(1);
        }
        done
    }
}

impl Device for Untold {
    ghost tells = { ⊥ };

    ghost disk = { λ _. unknown_disk };

    ghost disk_faults = { λ d. d.disk_faults };

    ghost tell_faults = { λ d. d.tell_faults };

    ghost lawful = { λ no. absurd no };

    fn len(&mut self, name: &str) -> Result<Option<u64>, Failed> {
        let done = self.device.len(name);
        self.on_disk(done)
    }

    fn read(&mut self, name: &str, at: u64, buf: &mut [u8]) -> Result<usize, Failed> {
        let done = self.device.read(name, at, buf);
        self.on_disk(done)
    }

    fn write(&mut self, name: &str, at: u64, bytes: &[u8]) -> Result<(), Failed> {
        let done = write_inside(&mut self.device, name, at, bytes);
        self.on_disk(done)
    }

    fn sync(&mut self, name: &str) -> Result<(), Failed> {
        let done = self.device.sync(name);
        self.on_disk(done)
    }

    fn cut(&mut self, name: &str, len: u64) -> Result<(), Failed> {
        let done = cut_inside(&mut self.device, name, len);
        self.on_disk(done)
    }

    fn remove(&mut self, name: &str) -> Result<(), Failed> {
        let done = self.device.remove(name);
        self.on_disk(done)
    }

    fn tell(&mut self, bytes: &[u8]) -> Result<(), Failed> {
        match self.device.tell(bytes) {
            Ok(()) => Ok(()),
            Err(_) => {
                self.tell_faults = self.tell_faults.saturating_add(1);
                Err(Failed)
            }
        }
    }
}
