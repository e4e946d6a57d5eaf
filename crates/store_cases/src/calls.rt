// The calls on hosted databases that a line says.
ghost use Rattle.std.specs.Prelude.{◌<◌, length, IfSome, OnOk};
ghost use Rattle.bk_hosting.specs.Hosting.{IsReady};

use crate::backed_up::back_up;
use crate::headers::header_of;
use crate::made::{FIRST_BRANCH, described};
use crate::restored::restore;
use crate::said::{lasts, open_behind, record_of};
use crate::shown::store_at;
use crate::words::{number, word};
use bk_device::Trouble;
use bk_hosting::Hosting;
use std::alloc::Global;
use std::thread::Threads;
use trials::Untold;

// Each database has so many frames.
const FRAMES: usize = 4;

// The place of a database that the word behind the first one numbers, if one is there.
fn place(hosting: &Hosting, words: &[&str]) -> Option<usize>
    ensures { IfSome result (λ at. at < length hosting.now.states) }
{
    let at = number(words, 1) as usize;
    if at < hosting.count() { Some(at) } else { None }
}

// `create NAME PATH EXTENTS TIME`.
fn create(
    alloc: Global,
    device: &mut Untold,
    hosting: &mut Hosting,
    words: &[&str],
) -> Result<(), Trouble>
    requires ready { IsReady hosting.old }
    ensures ready { OnOk result (IsReady hosting.new) }
{
    let spec = described(alloc, words)?;
    hosting.create(alloc, device, spec, number(words, 4), FIRST_BRANCH, FRAMES)
}

// `base AT`: the set of the database is a differential's base.
fn base(alloc: Global, device: &mut Untold, hosting: &mut Hosting, at: usize) -> Result<(), Trouble>
    requires ready { IsReady hosting.old }
    requires inside { at < length hosting.old.states }
    ensures ready { OnOk result (IsReady hosting.new) }
{
    let Some(store) = store_at(hosting, at) else {
        return Ok(());
    };
    let header = header_of(alloc, store, hosting.state(at).points.checkpoint)?;
    let done = hosting.base(alloc, device, at, &header);
    drop(header);
    done
}

// Says the record that a line says, if it says one.
fn say(
    alloc: Global,
    device: &mut Untold,
    hosting: &mut Hosting,
    at: usize,
    words: &[&str],
) -> Result<(), Trouble>
    requires ready { IsReady hosting.old }
    requires inside { at < length hosting.old.states }
    ensures ready { OnOk result (IsReady hosting.new) }
{
    let end = store_at(hosting, at).map_or(0, |store| store.end());
    let open = hosting.state(at).transactions.as_slice();
    let open = open_behind(alloc, open, words, end)?;
    let Some(r) = record_of(alloc, words, end)? else {
        return Ok(());
    };
    hosting.log(alloc, device, at, &[r], open, lasts(words))
}

// The call on the database at this place that words say.
fn call_at(
    alloc: Global,
    device: &mut Untold,
    hosting: &mut Hosting,
    at: usize,
    words: &[&str],
) -> Result<(), Trouble>
    requires ready { IsReady hosting.old }
    requires inside { at < length hosting.old.states }
    ensures ready { OnOk result (IsReady hosting.new) }
{
    match word(words, 0) {
        "drop" => hosting.drop(alloc, device, at),
        "checkpoint" => {
            hosting.checkpoint(alloc, device, at, number(words, 2), number(words, 3))
        }
        "base" => base(alloc, device, hosting, at),
        "backup" => back_up(alloc, device, hosting, at, word(words, 2)),
        _ => say(alloc, device, hosting, at, words),
    }
}

/// The call that a line says: `create ..`, `restore ..`, or one on a database that is there. Others are left out.
pub(crate) fn call<R: Threads + Sync>(
    rt: &R,
    alloc: Global,
    device: &mut Untold,
    hosting: &mut Hosting,
    line: &str,
) -> Result<(), Trouble>
    requires ready { IsReady hosting.old }
    ensures ready { OnOk result (IsReady hosting.new) }
{
    let words: Vec<&str> = line.split_whitespace().collect(alloc)?;
    match word(&words, 0) {
        "create" => return create(alloc, device, hosting, &words),
        "restore" => return restore(rt, alloc, device, hosting, &words),
        _ => {}
    }
    match place(hosting, &words) {
        Some(at) => call_at(alloc, device, hosting, at, &words),
        None => Ok(()),
    }
}
