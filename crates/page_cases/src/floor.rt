//! What the commands of a case work on.

use crate::framing::answer_frames;
use crate::grouping::answer_groups;
use crate::paging::{answer_page, show_digests};
use crate::pooling::answer_pool;
use crate::records::{append_bytes, append_records};
use crate::redoing::redo_frames;
use crate::showing::answer_shown;
use crate::undoing::{show_losers, show_part};
use crate::words::{number, word};
use bk_frames::Frames;
use bk_groups::Groups;
use bk_pool::Pool;
use bk_shown::Shown;
use cases::Subject;
use std::alloc::{AllocError, Global};
use std::thread::Threads;

/// Some frames, a pool, filegroups, a log, and what is shown of one.
pub(crate) struct Floor {
    alloc: Global,
    frames: Frames,
    pool: Pool,
    groups: Groups,
    log: Vec<u8>,
    shown: Shown,
}

impl Drop for Floor {
    fn drop(self) {
        let Floor {
            alloc: _,
            frames: _,
            pool: _,
            groups: _,
            log: _,
            shown: _,
        } = self;
    }
}

impl Floor {
    /// Nothing of all this yet.
    pub(crate) fn new(alloc: Global) -> Result<Self, AllocError> {
        Ok(Floor {
            alloc,
            frames: Frames::new(alloc, 0)?,
            pool: Pool::new(alloc, 0)?,
            groups: Groups::new(alloc, &[])?,
            log: Vec::new(alloc),
            shown: Shown::new(alloc, &[])?,
        })
    }
}

/// Does what a command says, by threads where it speaks of them.
pub(crate) fn answer_command<R: Threads + Sync>(
    rt: &R,
    floor: &mut Floor,
    command: &str,
    out: &mut String,
) -> Result<(), AllocError> {
    let (head, lines) = command.split_once('\n').unwrap_or((command, ""));
    match word(head, 0) {
        "frames" => answer_frames(floor.alloc, &mut floor.frames, head, out),
        "page" => answer_page(&mut floor.frames, head, out),
        "digests" => show_digests(rt, floor.alloc, &floor.frames, out),
        "pool" => answer_pool(floor.alloc, &mut floor.pool, head, out),
        "groups" => answer_groups(floor.alloc, &mut floor.groups, head, out),
        "log" => append_records(floor.alloc, &mut floor.log, lines),
        "bytes" => append_bytes(&mut floor.log, head),
        "redo" => redo_frames(rt, floor.alloc, &mut floor.frames, &floor.log, head, out),
        "shown" => answer_shown(floor.alloc, &mut floor.shown, &floor.log, head, out),
        "part" => show_part(floor.alloc, &floor.log, number(head, 1), out),
        "losers" => show_losers(floor.alloc, &floor.log, number(head, 1), out),
        _ => out.push_str("no such command\n"),
    }
}

/// Nothing, or that memory ran out.
pub(crate) type Answered = Result<(), AllocError>;

/// What does what a command says.
pub(crate) type Answering = Box<dyn Fn(&mut Floor, &str, &mut String) -> Answered + Drop>;

/// The floor of the case that runs, and what does what its commands say.
#[derive(Drop)]
pub(crate) struct Desk {
    floor: Floor,
    answering: Answering,
    ghost callable: { IsAlwaysCallable answering },
}

impl Desk {
    /// With nothing on the floor yet.
    pub(crate) fn new(alloc: Global, answering: Answering) -> Result<Self, AllocError>
        requires { IsAlwaysCallable answering }
    {
        let floor = Floor::new(alloc)?;
        Ok(Desk { floor, answering })
    }
}

impl Subject for Desk {
    fn begin(&mut self) -> Result<(), AllocError> {
        self.floor = Floor::new(self.floor.alloc)?;
        Ok(())
    }

    fn answer(&mut self, command: &str, out: &mut String) -> Result<(), AllocError> {
        (self.answering)(&mut self.floor, command, out)
    }
}
