// A case that is being run.
use crate::Subject;
use std::alloc::{AllocError, Global};
use std::io;

// The case whose lines are being read: its command that waits for its whole answer, and how the case went so far.
#[derive(Drop)]
pub(crate) struct Case {
    alloc: Global,
    title: String,
    command: Option<String>,
    wanted: String,
    differs: bool,
}

impl Case {
    // No case yet, with no title.
    pub(crate) fn new(alloc: Global) -> Self {
        Case {
            alloc,
            title: String::new(alloc),
            command: None,
            wanted: String::new(alloc),
            differs: false,
        }
    }

    // A case that begins.
    pub(crate) fn begin(alloc: Global, title: &str) -> Result<Self, AllocError> {
        let title = String::from_str(alloc, title)?;
        Ok(Case {
            title,
            ..Case::new(alloc)
        })
    }

    // Takes a further line of the command.
    pub(crate) fn take_more(&mut self, line: &str) -> Result<(), AllocError> {
        if let Some(command) = &mut self.command {
            command.push('\n')?;
            command.push_str(line)?;
        }
        Ok(())
    }

    // Takes a line of the answer that is wanted. Before the first command it is a comment.
    pub(crate) fn take_wanted(&mut self, line: &str) -> Result<(), AllocError> {
        if self.command.is_some() {
            self.wanted.push_str(line)?;
            self.wanted.push('\n')?;
        }
        Ok(())
    }

    // Puts the command that waits, and prints where its answer isn't what is wanted.
    pub(crate) fn put<R: Print, S: Subject>(&mut self, rt: &R, subject: &mut S) -> io::Result<()> {
        let Some(command) = &self.command else {
            return Ok(());
        };
        let mut answer = String::new(self.alloc);
        subject.answer(command.as_str(), &mut answer)?;
        if answer.as_str() != self.wanted.as_str() {
            self.differs = true;
            println!(rt; "> {command}\nwanted:\n{}answered:\n{answer}", self.wanted)?;
        }
        Ok(())
    }

    // Puts the command that waits, and has the next one wait.
    pub(crate) fn next<R: Print, S: Subject>(
        &mut self,
        rt: &R,
        subject: &mut S,
        command: &str,
    ) -> io::Result<()> {
        self.put(rt, subject)?;
        self.command = Some(String::from_str(self.alloc, command)?);
        self.wanted = String::new(self.alloc);
        Ok(())
    }

    // Puts the last command, prints how the case went, and says whether all its answers were as wanted.
    pub(crate) fn end<R: Print, S: Subject>(mut self, rt: &R, subject: &mut S) -> io::Result<bool> {
        self.put(rt, subject)?;
        let how = if self.differs { "DIFFERS" } else { "ok" };
        if !self.title.is_empty() {
            println!(rt; "{how} {}", self.title)?;
        }
        Ok(!self.differs)
    }
}
