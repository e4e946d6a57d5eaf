// What the commands of a case are put to.
use crate::words::{append_words, word};
use crate::{ids, media, spelled};
use cases::Subject;
use std::alloc::{AllocError, Global};
use trials::Untold;

/// The bytes that a case has given, and a device with media.
pub struct Values {
    alloc: Global,
    bytes: Vec<u8>,
    device: Untold,
}

impl Drop for Values {
    fn drop(self) {
        let Values {
            alloc: _,
            bytes: _,
            device: _,
        } = self;
    }
}

impl Values {
    /// No bytes, and no media.
    pub fn new(alloc: Global) -> Result<Self, AllocError> {
        let device = Untold::new(alloc)?;
        Ok(Values {
            alloc,
            bytes: Vec::new(alloc),
            device,
        })
    }

    fn begin_bytes(&mut self, words: &[&str]) -> Result<(), AllocError> {
        self.bytes.clear();
        append_words(self.alloc, words, 1, &mut self.bytes)
    }

    // Commands on media.
    fn media(&mut self, words: &[&str], out: &mut String) -> Result<(), AllocError> {
        media::put(self.alloc, &mut self.device, words, &self.bytes, out)
    }

    fn put(&mut self, words: &[&str], out: &mut String) -> Result<(), AllocError> {
        let alloc = self.alloc;
        match word(words, 0) {
            "bytes" => self.begin_bytes(words),
            "more" => append_words(alloc, words, 1, &mut self.bytes),
            "with" => spelled::show_with(alloc, words, &self.bytes, out),
            "cell" | "log" | "header" => spelled::show(alloc, word(words, 0), &self.bytes, out),
            "name" | "same" | "text" | "guid" | "digest" | "time-text" => {
                ids::show(alloc, words, &self.bytes, out)
            }
            _ => self.media(words, out),
        }
    }
}

// The text in quotes behind the word `time`.
fn quoted_time(command: &str) -> Option<&str> {
    command.strip_prefix("time \"")?.strip_suffix("\"")
}

impl Subject for Values {
    fn begin(&mut self) -> Result<(), AllocError> {
        *self = Values::new(self.alloc)?;
        Ok(())
    }

    fn answer(&mut self, command: &str, out: &mut String) -> Result<(), AllocError> {
        if let Some(text) = quoted_time(command) {
            return ids::show_time(text, out);
        }
        let words: Vec<&str> = command.split_whitespace().collect(self.alloc)?;
        self.put(&words, out)
    }
}
