//! Commands that redo frames by the log.

ghost use Rattle.std.specs.Prelude.{◌≢◌};
ghost use Rattle.std.specs.List.{AllPairs};

use crate::words::{index, number};
use bk_frames::Frames;
use bk_redo::{PageAt, redo};
use std::alloc::{AllocError, Global};
use std::thread::Threads;

/// The pages that the first seven frames hold.
pub(crate) fn places() -> [PageAt; 7]
    ensures { AllPairs (λ a b. a ≢ b) result }
{
    [
        PageAt { file: 1, page: 8 },
        PageAt { file: 1, page: 9 },
        PageAt { file: 2, page: 8 },
        PageAt { file: 1, page: 16 },
        PageAt { file: 2, page: 9 },
        PageAt { file: 3, page: 8 },
        PageAt { file: 3, page: 264 },
    ]
}

/// Redoes them by the records from a number on and below another, by so many workers.
pub(crate) fn redo_frames<R: Threads + Sync>(
    rt: &R,
    alloc: Global,
    frames: &mut Frames,
    log: &[u8],
    command: &str,
    out: &mut String,
) -> Result<(), AllocError> {
    let (from, to, workers) = (number(command, 1), number(command, 2), index(command, 3));
    if frames.len() < 7 || workers == 0 {
        return out.push_str("too few frames or workers\n");
    }
    match redo(rt, alloc, frames, &places(), log, from, to, workers) {
        Ok(()) => Ok(()),
        Err(error) => writeln!(out, "{error}"),
    }
}
