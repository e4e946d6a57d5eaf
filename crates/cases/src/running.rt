// The loop over files, lines and commands.
use crate::Subject;
use crate::case::Case;
use crate::line::{Line, read_line};
use std::rt::{Env, Files};
use std::{env, fs, io};

/// Runs the cases of each file that the command line names, and prints a line for each: `ok` or `DIFFERS`, and its title.
/// Says whether every answer was as wanted.
pub fn run_cases<R: AllocGlobal + Env + Files + Print, S: Subject>(
    rt: &R,
    subject: &mut S,
) -> io::Result<bool> {
    let mut is_well = true;
    for file in env::args(rt)?.skip(1) {
        let text = fs::read_to_string(rt, file.as_str())?;
        is_well = run_text(rt, subject, text.as_str())? && is_well;
    }
    Ok(is_well)
}

// Runs the cases of a file.
fn run_text<R: AllocGlobal + Print, S: Subject>(
    rt: &R,
    subject: &mut S,
    text: &str,
) -> io::Result<bool> {
    let mut is_well = true;
    let mut case = Case::new(rt.alloc());
    for line in text.lines() {
        match read_line(line) {
            Line::Title(title) => {
                let next = Case::begin(rt.alloc(), title)?;
                is_well = std::mem::replace(&mut case, next).end(rt, subject)? && is_well;
                subject.begin()?;
            }
            Line::Command(command) => case.next(rt, subject, command)?,
            Line::More(more) => case.take_more(more)?,
            Line::Other(wanted) => case.take_wanted(wanted)?,
            Line::Blank => {}
        }
    }
    Ok(case.end(rt, subject)? && is_well)
}
