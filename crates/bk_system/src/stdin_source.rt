// The standard input. Nothing is claimed of its bytes.
ghost use Rattle.std.specs.Prelude.{[]};

use bk_device::{Failed, Source};
use std::io::Read;

/// The standard input.
#[derive(Drop)]
pub struct StdinSource<'a, R: Input> {
    rt: &'a R,
    read_faults: u64,
}

impl<'a, R: Input> StdinSource<'a, R> {
    /// The standard input of this runtime. Reads nothing yet.
    pub fn new(rt: &'a R) -> StdinSource<'a, R> {
        StdinSource { rt, read_faults: 0 }
    }
}

impl<'a, R: Input> Source for StdinSource<'a, R> {
    ghost tells = { ⊥ };

    ghost rest = { λ _. [] };

    ghost read_faults = { λ s. s.read_faults };

    fn read(&mut self, buf: &mut [u8]) -> Result<usize, Failed> {
        match self.rt.reader().read(buf) {
            Ok(n) => Ok(n),
            Err(_) => {
                self.read_faults = self.read_faults.saturating_add(1);
                Err(Failed)
            }
        }
    }
}
