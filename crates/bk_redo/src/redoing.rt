//! Redoing pages by a log.

ghost use Rattle.std.specs.Prelude.{◌≡◌, ◌≢◌, ◌↔◌, ℕ, ◌<◌, ◌≤◌, List, length, None, Some, Err, OnOk, OnErr};
ghost use Rattle.std.specs.List.{AllPairs};
ghost use Rattle.bk_ids.specs.declared.record.Rec.{Rec};
ghost use Rattle.bk_record.specs.Log.{IsLog};
ghost use Rattle.bk_redo.specs.Redo.{records_between};
ghost use Rattle.bk_redo.specs.Frames.{FramesRedone};

use crate::error::RedoError;
use crate::listing::list_log;
use crate::place::PageAt;
use crate::share::Share;
use crate::turn::{Turn, Untold};
use crate::worker::{Task, redo_share};
use bk_ids::Lsn;
use bk_page::Frames;
use std::alloc::Global;
use std::thread::Threads;

/// Redoes pages by the records of a log that have a number from `from` on and below `to`. The frames hold these pages, all
/// different, one after the other, and may hold others behind them, which stay. Digests aren't sealed anew.
///
/// So many workers, at least one, share the pages; their number changes no page. `BadRecord` is answered exactly where reading
/// the log breaks off. An error leaves all pages as they were.
pub fn redo<R: Threads + Sync>(
    rt: &R,
    alloc: Global,
    frames: &mut Frames,
    pages: &[PageAt],
    log: &[u8],
    from: Lsn,
    to: Lsn,
    workers: usize,
) -> Result<(), RedoError>
    requires enough { length pages.now ≤ length frames.old }
    requires different { AllPairs (λ a b. a ≢ b) pages.now }
    requires some { 0 < workers }
    ensures redone { OnOk result ((records : List Rec) × IsLog log.now records None × FramesRedone pages.now (records_between from to records) frames.old frames.new) }
    ensures bad { (at : ℕ) → (result ≡ Err (RedoError.BadRecord at)) ↔ ((records : List Rec) × IsLog log.now records (Some at)) }
    ensures unchanged { OnErr result (frames.new ≡ frames.old) }
{
    redo_with(rt, alloc, &Untold, frames, pages, log, from, to, workers)
}

/// The same, where the gate is told once of each worker that has pages, before its first page. What becomes of the pages doesn't
/// depend on it.
pub fn redo_with<R: Threads + Sync, G: Turn>(
    rt: &R,
    alloc: Global,
    gate: &G,
    frames: &mut Frames,
    pages: &[PageAt],
    log: &[u8],
    from: Lsn,
    to: Lsn,
    workers: usize,
) -> Result<(), RedoError>
    requires enough { length pages.now ≤ length frames.old }
    requires different { AllPairs (λ a b. a ≢ b) pages.now }
    requires some { 0 < workers }
    ensures redone { OnOk result ((records : List Rec) × IsLog log.now records None × FramesRedone pages.now (records_between from to records) frames.old frames.new) }
    ensures bad { (at : ℕ) → (result ≡ Err (RedoError.BadRecord at)) ↔ ((records : List Rec) × IsLog log.now records (Some at)) }
    ensures unchanged { OnErr result (frames.new ≡ frames.old) }
{
    let share = Share::whole(pages.len(), workers);
    let writes = list_log(rt, alloc, pages, log, from, to, share.workers)?;
    let (front, _) = frames.as_mut_slice().split_at_mut(pages.len());
    let task = Task { writes: &writes };
    redo_share(rt, gate, task, share, front);
    Ok(())
}
