//! Cases over the databases that an instance hosts: what is said is shown, and a crash leaves a front of it; sets of them, and databases restored from these.
//!
//! What the commands of a case mean stands at the head of `data/store`.
#![tactic(auto)]

mod backed_up;
mod calls;
mod desk;
mod headers;
mod made;
mod medium;
mod points;
mod restored;
mod said;
mod session;
mod shown;
mod words;

use cases::run_cases;
use desk::{Answered, Answering, Desk, answer_command};
use std::io;
use std::process::ExitCode;
use std::rt::{Env, Files};
use trials::Untold;

fn main(rt: HostRuntime) -> ExitCode {
    let alloc = rt.alloc();
    let answering = move |device: &mut Untold, command: &str, out: &mut String| -> Answered {
        answer_command(&rt, alloc, device, command, out)
    };
    let Ok(answering) = Box::new(alloc, answering) else {
        return ExitCode::from(6);
    };
    match run(&rt, answering) {
        Ok(true) => ExitCode::SUCCESS,
        Ok(false) => ExitCode::from(1),
        Err(_) => ExitCode::from(6),
    }
}

// Whether every case of the files that the command line names went well.
fn run<R: AllocGlobal + Env + Files + Print>(rt: &R, answering: Answering) -> io::Result<bool>
    requires { IsAlwaysCallable answering }
{
    let mut desk = Desk::new(rt.alloc(), answering)?;
    run_cases(rt, &mut desk)
}
