// A real directory and the standard output. Nothing is claimed of what they hold.
ghost use Rattle.std.specs.Prelude.{◌≡◌, ◌≤◌, ◌<◌, ◌+◌, ◌^◌, length, IfOk, OnOk, OnErr};
ghost use Rattle.bk_device.specs.Counts.{HasRisen, one_more};
ghost use Rattle.bk_device.specs.Disk.{unknown_disk};

use crate::directory::Directory;
use bk_device::{Device, Failed};
use std::alloc::{AllocError, Global};
use std::fs::File;
use std::io;
use std::rt::Files;

/// The regular files of a directory, and the standard output.
///
/// The first call on a file locks the directory, and the lock ends where the device is dropped. Where the directory is
/// missing, or another device or process has locked it, each call on a file fails. So does one on what is no regular
/// file, which is never opened, and on a name with a slash.
#[derive(Drop)]
pub struct FileDevice<'a, R: Files<File = File> + Print> {
    rt: &'a R,
    directory: Directory<'a, R>,
    disk_faults: u64,
    tell_faults: u64,
}

impl<'a, R: Files<File = File> + Print> FileDevice<'a, R> {
    /// The files of the directory `dir`. Touches nothing.
    pub fn new(rt: &'a R, alloc: Global, dir: &str) -> Result<FileDevice<'a, R>, AllocError> {
        Ok(FileDevice {
            rt,
            directory: Directory::new(rt, alloc, dir)?,
            disk_faults: 0,
            tell_faults: 0,
        })
    }

    fn on_disk<T>(&mut self, done: io::Result<T>) -> Result<T, Failed>
        ensures ok { IfOk result (λ x. done ≡ Ok x) }
        ensures fault { OnErr result (self.new.disk_faults ≡ one_more self.old.disk_faults) }
        ensures never_falls { self.old.disk_faults ≤ self.new.disk_faults }
        ensures tell_faults { self.new.tell_faults ≡ self.old.tell_faults }
    {
        match done {
            Ok(x) => Ok(x),
            Err(_) => {
                self.disk_faults = self.disk_faults.saturating_add(1);
                Err(Failed)
            }
        }
    }
}

impl<'a, R: Files<File = File> + Print> Device for FileDevice<'a, R> {
    ghost tells = { ⊥ };

    ghost disk = { λ _. unknown_disk };

    ghost disk_faults = { λ d. d.disk_faults };

    ghost tell_faults = { λ d. d.tell_faults };

    ghost lawful = { λ no. absurd no };

    fn len(&mut self, name: &str) -> Result<Option<u64>, Failed> {
        let done = self.directory.len(name);
        self.on_disk(done)
    }

    fn read(&mut self, name: &str, at: u64, buf: &mut [u8]) -> Result<usize, Failed> {
        let done = self.directory.read(name, at, buf);
        self.on_disk(done)
    }

    fn write(&mut self, name: &str, at: u64, bytes: &[u8]) -> Result<(), Failed> {
        let done = self.directory.write(name, at, bytes);
        self.on_disk(done)
    }

    fn sync(&mut self, name: &str) -> Result<(), Failed> {
        let done = self.directory.sync(name);
        self.on_disk(done)
    }

    fn cut(&mut self, name: &str, len: u64) -> Result<(), Failed> {
        let done = self.directory.cut(name, len);
        self.on_disk(done)
    }

    fn remove(&mut self, name: &str) -> Result<(), Failed> {
        let done = self.directory.remove(name);
        self.on_disk(done)
    }

    fn tell(&mut self, bytes: &[u8]) -> Result<(), Failed> {
        match self.rt.write_all(bytes) {
            Ok(()) => Ok(()),
            Err(_) => {
                self.tell_faults = self.tell_faults.saturating_add(1);
                Err(Failed)
            }
        }
    }
}
