//! Cases of the floor of pages: frames, pages, a pool, filegroups, redo, undo, and what a log shows.
//!
//! What the commands of a case mean stands at the head of each file of cases in `data/`.
#![tactic(auto)]

mod floor;
mod framing;
mod grouping;
mod paging;
mod pooling;
mod records;
mod redoing;
mod showing;
mod undoing;
mod words;

use cases::run_cases;
use floor::{Answered, Answering, Desk, Floor, answer_command};
use std::io;
use std::process::ExitCode;
use std::rt::{Env, Files};

fn main(rt: HostRuntime) -> ExitCode {
    let answering = move |floor: &mut Floor, command: &str, out: &mut String| -> Answered {
        answer_command(&rt, floor, command, out)
    };
    let Ok(answering) = Box::new(rt.alloc(), answering) else {
        return ExitCode::from(6);
    };
    match run(&rt, answering) {
        Ok(true) => ExitCode::SUCCESS,
        Ok(false) => ExitCode::from(1),
        Err(_) => ExitCode::from(6),
    }
}

// Whether every case of the files that the command line names went well.
fn run<R: AllocGlobal + Env + Files + Print>(rt: &R, answering: Answering) -> io::Result<bool>
    requires { IsAlwaysCallable answering }
{
    let mut desk = Desk::new(rt.alloc(), answering)?;
    run_cases(rt, &mut desk)
}
