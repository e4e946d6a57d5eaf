// A directory that is locked, and its regular files. Nobody else that heeds the lock changes them meanwhile, so what is
// known of an open file stays true.
ghost use Rattle.std.specs.Prelude.{◌≤◌, ◌<◌, ◌+◌, ◌^◌, length, IfOk, OnOk};

use crate::open_file::OpenFile;
use lru::LruCache;
use std::alloc::{AllocError, Global};
use std::fs::{self, File};
use std::io::{self, ErrorKind};
use std::num::NonZeroUsize;
use std::rt::Files;

// A write that ends here or past it is refused.
const END: u64 = 1 << 62;

// How many files are open at most.
const MOST_OPEN: usize = 16;

#[derive(Drop)]
pub struct Directory<'a, R: Files<File = File>> {
    rt: &'a R,
    alloc: Global,
    path: String,
    // those that are open, by name
    files: LruCache<String, OpenFile>,
    // whether a file may have been made or removed since the directory was synced, also before it was locked
    has_new_names: bool,
    // whether a sync has failed: the system may have dropped what it couldn't write
    has_lost: bool,
    // the directory itself, once it is locked
    lock: Option<File>,
}

impl<'a, R: Files<File = File>> Directory<'a, R> {
    // Touches nothing.
    pub fn new(rt: &'a R, alloc: Global, path: &str) -> Result<Directory<'a, R>, AllocError> {
        Ok(Directory {
            rt,
            alloc,
            path: String::from_str(alloc, path)?,
            files: LruCache::new(alloc, NonZeroUsize::new(MOST_OPEN).unwrap())?,
            has_new_names: true,
            has_lost: false,
            lock: None,
        })
    }

    pub fn len(&mut self, name: &str) -> io::Result<Option<u64>> {
        self.open(name)?;
        Ok(self.files.get(name).map(|file| file.len()))
    }

    pub fn read(&mut self, name: &str, at: u64, buf: &mut [u8]) -> io::Result<usize>
        ensures { IfOk result (λ n. n ≤ length buf.old) }
    {
        self.open(name)?;
        match self.files.get_mut(name) {
            Some(file) => file.read(at, buf),
            None => Ok(0),
        }
    }

    pub fn write(&mut self, name: &str, at: u64, bytes: &[u8]) -> io::Result<()>
        ensures { OnOk result (at + length bytes.now < 2 ^ 62) }
    {
        if at >= END || bytes.len() as u64 >= END - at {
            return Err(io::Error::from(ErrorKind::InvalidInput));
        }
        self.open_or_make(name)?;
        let done = match self.files.get_mut(name) {
            Some(file) => file.write(at, bytes),
            None => not_found(),
        };
        self.close_failed(name, done)
    }

    pub fn cut(&mut self, name: &str, len: u64) -> io::Result<()> {
        self.open(name)?;
        let done = match self.files.get_mut(name) {
            Some(file) => file.cut(len),
            None => not_found(),
        };
        self.close_failed(name, done)
    }

    pub fn remove(&mut self, name: &str) -> io::Result<()> {
        self.enter()?;
        self.files.pop(name);
        let path = self.path_of(name)?;
        if !self.is_there(&path)? {
            return Ok(());
        }
        self.has_new_names = true;
        self.rt.remove_file(&path)
    }

    // Once one has failed each further one fails, since the system tells of what it couldn't write only once.
    pub fn sync(&mut self, name: &str) -> io::Result<()> {
        self.open(name)?;
        if self.has_lost {
            return Err(io::Error::from(ErrorKind::Other));
        }
        let done = self.sync_open(name);
        self.has_lost = done.is_err();
        done
    }

    // The file where it is there, and then the directory, which holds its name.
    fn sync_open(&mut self, name: &str) -> io::Result<()> {
        if let Some(file) = self.files.get_mut(name) {
            file.sync()?;
        }
        self.sync_names()
    }

    fn sync_names(&mut self) -> io::Result<()> {
        if self.has_new_names
            && let Some(directory) = &self.lock
        {
            directory.sync_all()?;
            self.has_new_names = false;
        }
        Ok(())
    }

    // Locks the directory, where this isn't done.
    fn enter(&mut self) -> io::Result<()> {
        if self.lock.is_none() {
            self.lock = Some(self.locked()?);
        }
        Ok(())
    }

    // The directory, with the lock on it, which ends where it is closed. That it is opened by a name within makes
    // opening fail, and not wait, where the path is a pipe's.
    fn locked(&self) -> io::Result<File> {
        let directory = fs::open(self.rt, self.path_of(".")?.as_str())?;
        directory.try_lock()?;
        Ok(directory)
    }

    fn path_of(&self, name: &str) -> io::Result<String> {
        if name.contains('/') {
            return Err(io::Error::from(ErrorKind::InvalidFilename));
        }
        let path = self.path.as_str();
        Ok(format!(in self.alloc; "{path}/{name}")?)
    }

    // Whether there is a file of this path. An error where that is no regular file, or where the directory is gone.
    fn is_there(&self, path: &str) -> io::Result<bool> {
        match self.rt.symlink_metadata(path) {
            Ok(found) if found.is_file() => Ok(true),
            Ok(_) => Err(io::Error::from(ErrorKind::InvalidInput)),
            Err(error) if error.kind() == ErrorKind::NotFound => {
                self.rt.metadata(self.path.as_str())?;
                Ok(false)
            }
            Err(error) => Err(error),
        }
    }

    // Opens the file where it is there.
    fn open(&mut self, name: &str) -> io::Result<()> {
        self.enter()?;
        if self.files.contains(name) {
            return Ok(());
        }
        let path = self.path_of(name)?;
        if !self.is_there(&path)? {
            return Ok(());
        }
        let file = OpenFile::open(self.rt, self.alloc, &path)?;
        self.keep(name, file)
    }

    fn open_or_make(&mut self, name: &str) -> io::Result<()> {
        self.open(name)?;
        if self.files.contains(name) {
            return Ok(());
        }
        let path = self.path_of(name)?;
        self.has_new_names = true;
        let file = OpenFile::make(self.rt, self.alloc, &path)?;
        self.keep(name, file)
    }

    // The file that was used the longest time ago is closed where there are too many.
    fn keep(&mut self, name: &str, file: OpenFile) -> io::Result<()> {
        self.files.put(String::from_str(self.alloc, name)?, file)?;
        Ok(())
    }

    // Closes a file where changing it failed, since its length isn't known then.
    fn close_failed(&mut self, name: &str, done: io::Result<()>) -> io::Result<()> {
        if done.is_err() {
            self.files.pop(name);
        }
        done
    }
}

fn not_found() -> io::Result<()> {
    Err(io::Error::from(ErrorKind::NotFound))
}
