//! The list of the cells that a log sets, made by workers.

ghost use Rattle.std.specs.Prelude.{◌≡◌, ◌≢◌, ◌↔◌, ◌++◌, ℕ, ◌<◌, ◌≤◌, List, length, IfOk, IfSome, None, Some, Err};
ghost use Rattle.std.specs.List.{AllPairs};
ghost use Rattle.std.specs.Thread.{IsSync};
ghost use Rattle.bk_ids.specs.declared.record.Rec.{Rec};
ghost use Rattle.bk_record.specs.Log.{IsLog};
ghost use Rattle.bk_redo.specs.Redo.{records_between};
ghost use Rattle.bk_redo.specs.CellWrites.{IsListOf};
ghost use Rattle.bk_redo.specs.Listing.{IsWanted, IsListed};

use crate::error::RedoError;
use crate::index::index_of;
use crate::place::PageAt;
use crate::writes::{CellWrite, Wanted, list_part};
use bk_bytes::split_u32;
use bk_ids::Lsn;
use bk_record::check_log;
use std::alloc::Global;
use std::thread::{Threads, join_mut};

// The first place from this one on at which a record of the log begins, or its end, as the records' lengths tell. In a log
// that breaks off it may be any place.
fn cut(log: &[u8], least: usize) -> usize
    ensures { result ≤ length log.now }
{
    let mut at = 0;
    while at < least {
        let rest = &log[at..];
        let Some((size, _)) = split_u32(rest) else {
            break;
        };
        let size = size as usize;
        if size == 0 || size > rest.len() {
            break;
        }
        at += size;
    }
    at
}

// One list, and behind it another; none where memory ran out.
fn joined<'a>(mut ahead: Vec<CellWrite<'a>>, behind: &[CellWrite<'a>]) -> Option<Vec<CellWrite<'a>>>
    ensures { IfSome result (λ writes. writes.items ≡ ahead.entry.items ++ behind.now) }
{
    let Ok(()) = ahead.extend_from_slice(behind) else {
        return None;
    };
    Some(ahead)
}

// The wanted cells that the records of these bytes set, listed by so many workers, each in a thread of its own where there is
// one; none where the bytes aren't whole records, or memory ran out.
#[cycle(listing)]
fn list_share<'a, R: Threads + Sync>(
    rt: &R,
    alloc: Global,
    wanted: Wanted<'_>,
    log: &'a [u8],
    workers: usize,
) -> Option<Vec<CellWrite<'a>>>
    requires wanted { IsWanted wanted }
    requires some { 0 < workers }
    ensures { IfSome result (λ writes. IsListed wanted.entry log.now writes.items) }
{
    if workers == 1 {
        return list_part(alloc, wanted, log);
    }
    let half = workers / 2;
    let rest = workers - half;
    let (front, back) = log.split_at(cut(log, log.len() / workers * half));
    let (ahead, behind) = join_mut(
        rt,
        &mut ||
            requires { IsSync R.row × IsWanted wanted × (0 < half) }
            ensures { IfSome result (λ writes. IsListed wanted.entry front.entry.now writes.items) }
        { list_share(rt, alloc, wanted, front, half) },
        &mut ||
            requires { IsSync R.row × IsWanted wanted × (0 < rest) }
            ensures { IfSome result (λ writes. IsListed wanted.entry back.entry.now writes.items) }
        { list_share(rt, alloc, wanted, back, rest) },
    );
    let ahead = ahead?;
    let behind = behind?;
    joined(ahead, &behind)
}

// Why there is no list: where the log breaks off, or else that memory ran out.
fn no_list(log: &[u8]) -> RedoError
    ensures { (at : ℕ) → (result ≡ RedoError.BadRecord at) ↔ ((records : List Rec) × IsLog log.now records (Some at)) }
{
    match check_log(log) {
        Ok(()) => RedoError::NoMemory,
        Err(bad) => RedoError::BadRecord { at: bad.at },
    }
}

// The cells of the pages of these places that the records of a log set, one after the other, if their numbers are in this range.
pub(crate) fn list_log<'a, R: Threads + Sync>(
    rt: &R,
    alloc: Global,
    places: &[PageAt],
    log: &'a [u8],
    from: Lsn,
    to: Lsn,
    workers: usize,
) -> Result<Vec<CellWrite<'a>>, RedoError>
    requires different { AllPairs (λ a b. a ≢ b) places.now }
    requires some { 0 < workers }
    ensures listed { IfOk result (λ writes. (records : List Rec) × IsLog log.now records None × IsListOf places.now (records_between from to records) writes.items) }
    ensures bad { (at : ℕ) → (result ≡ Err (RedoError.BadRecord at)) ↔ ((records : List Rec) × IsLog log.now records (Some at)) }
{
    let Ok(index) = index_of(alloc, places) else {
        return Err(no_list(log));
    };
    let wanted = Wanted {
        places,
        index: &index,
        from,
        to,
    };
    let Some(writes) = list_share(rt, alloc, wanted, log, workers) else {
        return Err(no_list(log));
    };
    Ok(writes)
}
