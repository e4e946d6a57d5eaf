// What may stand behind a run that was cut short.

use crate::bytes::number;
use crate::trouble::Trouble;
use std::alloc::{AllocError, Global};

// A text that a look may show, by the number of lines that were told before.
struct Shown {
    least: u64,
    most: u64,
    text: String,
    is_seen: bool,
}

impl Drop for Shown {
    fn drop(self) {
        let Shown {
            least: _,
            most: _,
            text: _,
            is_seen: _,
        } = self;
    }
}

/// The script that looks, and what it may show.
pub struct Trial {
    alloc: Global,
    look: String,
    shown: Vec<Shown>,
}

impl Drop for Trial {
    fn drop(self) {
        let Trial {
            alloc: _,
            look: _,
            shown: _,
        } = self;
    }
}

impl Trial {
    /// An empty script, which may show nothing yet.
    pub fn new(alloc: Global) -> Self {
        Trial {
            alloc,
            look: String::new(alloc),
            shown: Vec::new(alloc),
        }
    }

    /// The script that looks.
    pub fn look(&self) -> &str {
        self.look.as_str()
    }

    /// `look`: another script looks, and nothing may be shown yet.
    pub fn set_look(&mut self, script: &str) -> Result<(), AllocError> {
        self.shown.clear();
        self.look.clear();
        self.look.push_str(script)
    }

    /// `may-show LEAST MOST`: this may be shown where so many lines were told.
    pub fn may_show(&mut self, words: &str, lines: &str) -> Result<(), Trouble> {
        let (least, most) = words.split_once(' ').ok_or(Trouble::NoForm)?;
        let (least, most) = (number(least)?, number(most)?);
        let text = with_line_end(self.alloc, lines)?;
        self.shown.push(Shown {
            least,
            most,
            text,
            is_seen: false,
        })?;
        Ok(())
    }

    /// Whether this may be shown behind so many lines.
    pub fn takes(&mut self, lines: u64, text: &str) -> bool {
        for shown in self.shown.iter_mut() {
            if shown.least <= lines && lines <= shown.most && shown.text.as_str() == text {
                shown.is_seen = true;
                return true;
            }
        }
        false
    }

    /// Answers what was never shown.
    pub fn show_unseen(&self, out: &mut String) -> Result<(), AllocError> {
        for shown in &self.shown {
            if !shown.is_seen {
                writeln!(out, "never shown:\n{}", shown.text)?;
            }
        }
        Ok(())
    }
}

// Lines with a line end behind the last one.
fn with_line_end(alloc: Global, lines: &str) -> Result<String, AllocError> {
    if lines.is_empty() {
        return Ok(String::new(alloc));
    }
    format!(in alloc; "{lines}\n")
}
