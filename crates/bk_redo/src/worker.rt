//! Workers, of which each redoes the pages of its part.

ghost use Rattle.std.specs.Prelude.{◌+◌, ◌^◌, ◌<◌, ◌≤◌, [], ◌∷◌, length};
ghost use Rattle.std.specs.Thread.{IsSync};
ghost use Rattle.bk_redo.specs.CellWrites.{PartWritten};
ghost use Rattle.bk_redo.specs.Tasks.{IsTask, IsDone};
ghost use Rattle.bk_redo.specs.Shares.{IsShare};

use crate::cell::redo_cell;
use crate::share::Share;
use crate::turn::Turn;
use crate::writes::CellWrite;
use bk_page::Page;
use std::thread::{Threads, join_mut};

// What all workers read: the cells that the log sets, one after the other.
#[derive(Clone, Copy)]
pub(crate) struct Task<'a> {
    pub writes: &'a [CellWrite<'a>],
}

// Makes a write to a part of the pages, which begins with the first frame given, if its page is one of them.
fn redo_write(first: usize, pages: &mut [Page], write: &CellWrite<'_>)
    requires { write.now.slot < 63 }
    ensures { PartWritten first (write.now ∷ []) pages.old pages.new }
{
    if write.frame < first || write.frame - first >= pages.len() {
        return;
    }
    redo_cell(
        &mut pages[write.frame - first],
        write.slot,
        write.image,
        write.lsn,
    );
}

// Makes the writes of a task to a part of the pages, which begins with the first frame given.
fn redo_part(task: Task<'_>, first: usize, pages: &mut [Page])
    requires { IsTask task }
    ensures { IsDone task.entry first pages.old pages.new }
{
    for write in task.writes {
        redo_write(first, pages, write);
    }
}

// Tells the gate that a worker begins, and redoes its pages, where it has any: the least number of its share, or one more.
fn work<G: Turn>(gate: &G, task: Task<'_>, share: Share, pages: &mut [Page])
    requires task { IsTask task }
    requires even { (share.least ≤ length pages.old) × (length pages.old ≤ share.least + 1) }
    ensures { IsDone task.entry share.first pages.old pages.new }
{
    if pages.is_empty() {
        return;
    }
    gate.reached(share.worker);
    redo_part(task, share.first, pages);
}

// Redoes pages by the workers who share them, each in a thread of its own where there is one.
#[cycle(sharing)]
pub(crate) fn redo_share<R: Threads + Sync, G: Turn>(
    rt: &R,
    gate: &G,
    task: Task<'_>,
    share: Share,
    pages: &mut [Page],
)
    requires task { IsTask task }
    requires room { share.first + length pages.old < 2 ^ 64 }
    requires share { IsShare share (length pages.old) }
    ensures { IsDone task.entry share.first pages.old pages.new }
{
    if share.workers == 1 {
        work(gate, task, share, pages);
        return;
    }
    let (ahead, behind) = share.halves(pages.len());
    let (front, back) = pages.split_at_mut(behind.first - share.first);
    join_mut(
        rt,
        &mut ||
            requires { IsSync R.row × IsSync G.row × IsTask task × (ahead.first + length front.now < 2 ^ 64) × IsShare ahead (length front.now) }
            ensures { IsDone task.entry ahead.first front.entry.now front.exit.now }
        { redo_share(rt, gate, task, ahead, front) },
        &mut ||
            requires { IsSync R.row × IsSync G.row × IsTask task × (behind.first + length back.now < 2 ^ 64) × IsShare behind (length back.now) }
            ensures { IsDone task.entry behind.first back.entry.now back.exit.now }
        { redo_share(rt, gate, task, behind, back) },
    );
}
