// What the commands of a case are put to.
use crate::medium::show_set;
use crate::session::{at_each_call, said};
use crate::words::{number, word};
use cases::Subject;
use std::alloc::{AllocError, Global};
use std::thread::Threads;
use trials::Untold;

/// Nothing, or that memory ran out.
pub(crate) type Answered = Result<(), AllocError>;

/// What does what a command says.
pub(crate) type Answering = Box<dyn Fn(&mut Untold, &str, &mut String) -> Answered + Drop>;

/// The device of the case that runs, and what does what its commands say.
#[derive(Drop)]
pub(crate) struct Desk {
    alloc: Global,
    device: Untold,
    answering: Answering,
    ghost callable: { IsAlwaysCallable answering },
}

impl Desk {
    /// With no file yet.
    pub(crate) fn new(alloc: Global, answering: Answering) -> Result<Self, AllocError>
        requires { IsAlwaysCallable answering }
    {
        let device = Untold::new(alloc)?;
        Ok(Desk {
            alloc,
            device,
            answering,
        })
    }
}

impl Subject for Desk {
    fn begin(&mut self) -> Result<(), AllocError> {
        self.device = Untold::new(self.alloc)?;
        Ok(())
    }

    fn answer(&mut self, command: &str, out: &mut String) -> Result<(), AllocError> {
        (self.answering)(&mut self.device, command, out)
    }
}

// `damage FILE PLACE`, `lose FILE`, `restart keep` or `restart lose`.
fn harm(device: &mut Untold, words: &[&str], out: &mut String) -> Result<(), AllocError> {
    let name = word(words, 1);
    match word(words, 0) {
        "damage" => {
            let is_there = device.damage(name, number(words, 2));
            return writeln!(out, "{is_there}");
        }
        "lose" => device.lose(name),
        "restart" => device.restart(name == "keep"),
        _ => return out.push_str("no such command\n"),
    }
    Ok(())
}

/// Does what a command says: `run`, `show`, `each-call`, with their calls on further lines, `set PATH`, and what harms files.
pub(crate) fn answer_command<R: Threads + Sync>(
    rt: &R,
    alloc: Global,
    device: &mut Untold,
    command: &str,
    out: &mut String,
) -> Result<(), AllocError> {
    let (head, calls) = command.split_once('\n').unwrap_or((command, ""));
    let words: Vec<&str> = head.split_whitespace().collect(alloc)?;
    match word(&words, 0) {
        "run" => out.push_str(said(rt, alloc, device, calls)?.as_str()),
        "show" => {
            let mut copy = device.copy()?;
            out.push_str(said(rt, alloc, &mut copy, calls)?.as_str())
        }
        "each-call" => at_each_call(rt, alloc, device, calls, out),
        "set" => show_set(alloc, device, word(&words, 1), out),
        _ => harm(device, &words, out),
    }
}
