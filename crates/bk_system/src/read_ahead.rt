// A piece of a file that is read ahead, so that many small reads are few calls of the system.
ghost use Rattle.std.specs.Prelude.{◌≡◌, length, IfSome};

use std::alloc::Global;
use std::fs::File;
use std::io;
use std::os::unix::fs::FileExt;

// How many bytes are read ahead. As many are read directly.
const PIECE: usize = 65536;

#[derive(Drop)]
pub struct ReadAhead {
    // where the piece begins in the file
    at: u64,
    bytes: Vec<u8>,
}

impl ReadAhead {
    // Holds nothing yet.
    pub fn new(alloc: Global) -> ReadAhead {
        ReadAhead {
            at: 0,
            bytes: Vec::new(alloc),
        }
    }

    // Forgets the piece. To be called at each change of the file.
    pub fn clear(&mut self) {
        self.bytes.clear();
    }

    // Fills the buffer from offset `at` on. The file has `rest` bytes there, as many as the buffer or more.
    pub fn read(&mut self, file: &File, at: u64, rest: usize, buf: &mut [u8]) -> io::Result<()> {
        if buf.len() >= PIECE {
            return file.read_exact_at(buf, at);
        }
        if self.part(at, buf.len()).is_none() {
            self.fill(file, at, rest.min(PIECE))?;
        }
        match self.part(at, buf.len()) {
            Some(part) => {
                buf.copy_from_slice(part);
                Ok(())
            }
            None => Err(io::Error::from(io::ErrorKind::UnexpectedEof)),
        }
    }

    // So many bytes from this offset on, where the piece has them.
    fn part(&self, at: u64, n: usize) -> Option<&[u8]>
        ensures { IfSome result (λ part. length part.now ≡ n) }
    {
        let start = at.checked_sub(self.at)? as usize;
        let (_, behind) = self.bytes.split_at_checked(start)?;
        let (part, _) = behind.split_at_checked(n)?;
        Some(part)
    }

    // Takes `n` bytes from offset `at` on as the piece.
    fn fill(&mut self, file: &File, at: u64, n: usize) -> io::Result<()> {
        self.bytes.clear();
        self.bytes.resize(n, 0)?;
        self.at = at;
        let done = file.read_exact_at(self.bytes.as_mut_slice(), at);
        if done.is_err() {
            self.bytes.clear();
        }
        done
    }
}
