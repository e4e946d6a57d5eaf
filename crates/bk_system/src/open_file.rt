// A regular file that is open to be read and written.
ghost use Rattle.std.specs.Prelude.{◌≤◌, length, IfOk};

use crate::read_ahead::ReadAhead;
use std::alloc::Global;
use std::fs::{self, File, OpenOptions};
use std::io::{self, ErrorKind};
use std::os::unix::fs::FileExt;
use std::rt::Files;

#[derive(Drop)]
pub struct OpenFile {
    file: File,
    // in bytes
    len: u64,
    // at the last sync
    synced_len: Option<u64>,
    is_synced: bool,
    ahead: ReadAhead,
}

impl OpenFile {
    // Opens the file at this path, which was seen to be a regular one.
    pub fn open<R: Files<File = File>>(rt: &R, alloc: Global, path: &str) -> io::Result<OpenFile> {
        let file = open_existing(rt, path)?;
        let found = file.metadata()?;
        if !found.is_file() {
            return Err(io::Error::from(ErrorKind::InvalidInput));
        }
        Ok(OpenFile::with_len(alloc, file, found.len()))
    }

    // Makes an empty file at this path, where nothing is.
    pub fn make<R: Files<File = File>>(rt: &R, alloc: Global, path: &str) -> io::Result<OpenFile> {
        let mut how = OpenOptions::new();
        how.read(true).write(true).create_new(true);
        let file = how.open(rt, path)?;
        Ok(OpenFile::with_len(alloc, file, 0))
    }

    // What was done to the file before isn't known, so it isn't synced.
    fn with_len(alloc: Global, file: File, len: u64) -> OpenFile {
        OpenFile {
            file,
            len,
            synced_len: None,
            is_synced: false,
            ahead: ReadAhead::new(alloc),
        }
    }

    pub fn len(&self) -> u64 {
        self.len
    }

    // Reads into the front of the buffer as many bytes as are there, and says how many.
    pub fn read(&mut self, at: u64, buf: &mut [u8]) -> io::Result<usize>
        ensures { IfOk result (λ n. n ≤ length buf.old) }
    {
        let rest = self.len.saturating_sub(at) as usize;
        let n = buf.len().min(rest);
        if n > 0 {
            self.ahead.read(&self.file, at, rest, &mut buf[..n])?;
        }
        Ok(n)
    }

    pub fn write(&mut self, at: u64, bytes: &[u8]) -> io::Result<()> {
        self.change();
        self.file.write_all_at(bytes, at)?;
        self.len = self.len.max(at.saturating_add(bytes.len() as u64));
        Ok(())
    }

    pub fn cut(&mut self, len: u64) -> io::Result<()> {
        self.change();
        self.file.set_len(len)?;
        self.len = len;
        Ok(())
    }

    fn change(&mut self) {
        self.is_synced = false;
        self.ahead.clear();
    }

    // Makes what was written durable, where it isn't.
    pub fn sync(&mut self) -> io::Result<()> {
        if self.is_synced {
            return Ok(());
        }
        if self.synced_len == Some(self.len) {
            self.file.sync_data()?;
        } else {
            self.file.sync_all()?;
        }
        self.synced_len = Some(self.len);
        self.is_synced = true;
        Ok(())
    }
}

// To be read and written, or to be read alone where that is all that is allowed. A pipe that took the file's place
// meanwhile doesn't make it wait, since it would be opened at both ends.
fn open_existing<R: Files<File = File>>(rt: &R, path: &str) -> io::Result<File> {
    let mut how = OpenOptions::new();
    how.read(true).write(true);
    match how.open(rt, path) {
        Ok(file) => Ok(file),
        Err(error) => match error.kind() {
            ErrorKind::PermissionDenied | ErrorKind::ReadOnlyFilesystem => fs::open(rt, path),
            _ => Err(error),
        },
    }
}
