// What a look may show behind a run that was cut short.

use crate::plain::{Plain, database_in, made_by};
use crate::script::answered_at;
use crate::tried::Tried;
use std::alloc::AllocError;

/// What a look may show where so many items of the script were answered.
pub struct States {
    answered: usize,
    texts: Vec<String>,
}

impl Drop for States {
    fn drop(self) {
        let States {
            answered: _,
            texts: _,
        } = self;
    }
}

// What the look shows behind the script's front with so many items that are answered.
fn state(tried: &Tried<'_>, answered: usize) -> Result<String, AllocError> {
    let mut plain = Plain::behind(tried.alloc, tried.before, tried.script, answered)?;
    let text = plain.shown(tried.look);
    drop(plain);
    text
}

// The same where a database is down, in this word.
fn state_without(
    tried: &Tried<'_>,
    answered: usize,
    name: &str,
    word: &str,
) -> Result<String, AllocError> {
    let mut plain = Plain::behind(tried.alloc, tried.before, tried.script, answered)?;
    let down = plain.bring_down(name, word);
    let text = plain.shown(tried.look);
    drop(plain);
    down?;
    text
}

// The same where a medium is made, without a set.
fn state_with(tried: &Tried<'_>, answered: usize, path: &str) -> Result<String, AllocError> {
    let mut plain = Plain::behind(tried.alloc, tried.before, tried.script, answered)?;
    let made = plain.make_medium(path);
    let text = plain.shown(tried.look);
    drop(plain);
    made?;
    text
}

impl States {
    /// What it may show where none was.
    pub fn new(tried: &Tried<'_>) -> Result<Self, AllocError> {
        let mut states = States {
            answered: 0,
            texts: Vec::new(tried.alloc),
        };
        let added = states.add(tried);
        match added {
            Ok(()) => Ok(states),
            Err(error) => {
                drop(states);
                Err(error)
            }
        }
    }

    // What the answered items leave, and those with one more; within it also that the database of a restore is down, or that the medium of a backup is made.
    fn add(&mut self, tried: &Tried<'_>) -> Result<(), AllocError> {
        let before = state(tried, self.answered)?;
        self.texts.push(before)?;
        let behind = state(tried, self.answered.saturating_add(1))?;
        self.texts.push(behind)?;
        match answered_at(tried.script, self.answered) {
            Some((item, reply)) => self.add_within(tried, item, reply),
            None => Ok(()),
        }
    }

    fn add_within(&mut self, tried: &Tried<'_>, item: &str, reply: &str) -> Result<(), AllocError> {
        if reply.starts_with("Recovered ") {
            return self.add_down(tried, database_in(item));
        }
        if let Some(path) = made_by(item, reply) {
            let made = state_with(tried, self.answered, path)?;
            self.texts.push(made)?;
        }
        Ok(())
    }

    fn add_down(&mut self, tried: &Tried<'_>, name: &str) -> Result<(), AllocError> {
        let interrupted = state_without(tried, self.answered, name, "INTERRUPTED")?;
        self.texts.push(interrupted)?;
        let restoring = state_without(tried, self.answered, name, "RESTORING")?;
        self.texts.push(restoring)?;
        Ok(())
    }

    /// Whether it may show this where so many items were answered.
    pub fn take(
        &mut self,
        tried: &Tried<'_>,
        answered: usize,
        text: &str,
    ) -> Result<bool, AllocError> {
        if self.answered != answered {
            self.answered = answered;
            self.texts.clear();
            self.add(tried)?;
        }
        Ok(self.texts.iter().any(|may| may.as_str() == text))
    }
}
