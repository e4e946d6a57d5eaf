// The commands.

use crate::bytes::number;
use crate::console::{Asked, Console, show_told, told_from};
use crate::files::Files;
use crate::line::{line_of, show_with_clap, show_words};
use crate::trial::Trial;
use crate::trials::{Cut, Trials};
use crate::trouble::Trouble;
use cases::Subject;
use std::alloc::{AllocError, Global};

/// What the commands of a case are put to.
pub struct Runs {
    console: Console,
    alloc: Global,
    files: Files,
    // The number of the next run's source call that fails.
    fault: Option<u64>,
    trial: Trial,
}

impl Drop for Runs {
    fn drop(self) {
        let Runs {
            console: _,
            alloc: _,
            files: _,
            fault: _,
            trial: _,
        } = self;
    }
}

impl Runs {
    /// A device without files.
    pub fn new(alloc: Global, console: Console) -> Self {
        Runs {
            console,
            alloc,
            files: Files::new(alloc),
            fault: None,
            trial: Trial::new(alloc),
        }
    }

    // Runs a script over the device, and answers what it told and its status.
    fn run(&mut self, words: &str, script: &[u8], out: &mut String) -> Result<(), AllocError> {
        let line = line_of(self.alloc, words)?;
        let asked = Asked {
            line: &line,
            script,
            fault: self.fault.take(),
        };
        let before = self.files.device.told().len();
        let status = self.console.run(&asked, &mut self.files.device)?;
        show_told(told_from(&self.files.device, before), out)?;
        writeln!(out, "status {status}")
    }

    // Runs a script of so many blanks.
    fn run_blanks(&mut self, words: &str, out: &mut String) -> Result<(), Trouble> {
        let (count, words) = words.split_once(' ').ok_or(Trouble::NoForm)?;
        let mut script = Vec::new(self.alloc);
        for _ in 0..number(count)? {
            script.push(b' ')?;
        }
        self.run(words, &script, out)?;
        Ok(())
    }

    // Cuts a run short at one write or call after another.
    fn at_each(
        &mut self,
        cut: Cut,
        every: u64,
        words: &str,
        script: &str,
        out: &mut String,
    ) -> Result<(), AllocError> {
        let line = line_of(self.alloc, words)?;
        let trials = Trials {
            alloc: self.alloc,
            console: &self.console,
            start: &self.files.device,
            asked: &Asked {
                line: &line,
                script: script.as_bytes(),
                fault: None,
            },
            cut,
            every,
        };
        trials.at_each(&mut self.trial, out)
    }

    // `run WORDS`: runs the script of the further lines. `at-each-write WORDS` and `at-each-call WORDS`: cuts it short. `look` and `may-show LEAST MOST`:
    // what may stand behind that. `words WORDS` and `with-clap WORDS`: reads words alone.
    fn on_script(
        &mut self,
        verb: &str,
        words: &str,
        more: &str,
        out: &mut String,
    ) -> Result<(), AllocError> {
        match verb {
            "run" => self.run(words, more.as_bytes(), out),
            "at-each-write" => self.at_each(Cut::AtWrite, 1, words, more, out),
            "at-each-call" => self.at_each(Cut::AtCall, 1, words, more, out),
            "look" => self.trial.set_look(more),
            "words" => show_words(self.alloc, words, out),
            "with-clap" => show_with_clap(self.alloc, words, out),
            "record" => self.files.show_record(out),
            _ => out.push_str("no such command\n"),
        }
    }

    // Cuts a run short at each write or call of so many.
    fn at_every(
        &mut self,
        cut: Cut,
        words: &str,
        script: &str,
        out: &mut String,
    ) -> Result<(), Trouble> {
        let (every, words) = words.split_once(' ').ok_or(Trouble::NoForm)?;
        self.at_each(cut, number(every)?, words, script, out)?;
        Ok(())
    }

    // `at-every-write N WORDS` and `at-every-call N WORDS`: cuts a run short at each N-th from the first on. `run-blanks N WORDS`: runs a script of so many blanks. `source-fails-at N`: the next run's source fails at this call. The other commands are those
    // of scripts, files and crashes.
    fn command(
        &mut self,
        verb: &str,
        words: &str,
        more: &str,
        out: &mut String,
    ) -> Result<(), Trouble> {
        match verb {
            "run-blanks" => self.run_blanks(words, out),
            "source-fails-at" => self.fail_source(words),
            "may-show" => self.trial.may_show(words, more),
            "at-every-write" => self.at_every(Cut::AtWrite, words, more, out),
            "at-every-call" => self.at_every(Cut::AtCall, words, more, out),
            "restart" | "stop-at" | "fail-at" => self.files.on_crash(verb, words),
            "put" | "write" | "lose" | "file" | "len" | "holds" => self
                .files
                .on_file(verb, words, more, out),
            _ => {
                self.on_script(verb, words, more, out)?;
                Ok(())
            }
        }
    }

    fn fail_source(&mut self, word: &str) -> Result<(), Trouble> {
        self.fault = Some(number(word)?);
        Ok(())
    }
}

impl Subject for Runs {
    fn begin(&mut self) -> Result<(), AllocError> {
        let alloc = self.alloc;
        self.files = Files::new(alloc);
        self.fault = None;
        self.trial = Trial::new(alloc);
        Ok(())
    }

    fn answer(&mut self, command: &str, out: &mut String) -> Result<(), AllocError> {
        let (line, more) = command.split_once('\n').unwrap_or((command, ""));
        let (verb, words) = line.split_once(' ').unwrap_or((line, ""));
        match self.command(verb, words, more, out) {
            Ok(()) => Ok(()),
            Err(Trouble::NoMemory) => Err(AllocError),
            Err(Trouble::NoForm) => out.push_str("no form\n"),
            Err(Trouble::Fault) => out.push_str("the device failed\n"),
        }
    }
}
