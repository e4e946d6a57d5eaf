//! The records by which pending writes are undone.

ghost use Rattle.std.specs.Prelude.{◌≡◌, ◌+◌, ◌<◌, ◌≤◌, ◌^◌, ◌++◌, ◌∷◌, [], ℕ, List, Some, length, map, reverse, if◌then◌else◌, IfOk, OnOk};
ghost use Rattle.bk_plans.specs.Undoing.{Undoes, those_of};
ghost use Rattle.bk_acts.specs.Conditions.{KeepRecords, MayTell};
ghost use Rattle.bk_shown.specs.Shown.{pending_of};
ghost use Rattle.bk_undo.specs.Spelled as spelled;
ghost use Rattle.bk_world.specs.Pending.{Pending};
ghost use Rattle.bk_world.specs.Records.{undone};
ghost use Rattle.bk_world.specs.Says.{change_back};

use crate::planning_parts::say;
use bk_acts::said_law;
use bk_ids::{Body, Lsn, Rec};
use bk_images::image_of;
use bk_shown::Written;
use std::alloc::{AllocError, Global};

/// Records that are said from a number on, and the number behind them.
#[derive(Drop)]
pub struct Numbered {
    pub records: Vec<Rec>,
    pub next: Lsn,
}

// What undoes a write.
fn undoing(write: &Written) -> Body
    ensures is { result ≡ spelled.body_of (undone write.now.place (change_back (pending_of write.now)) write.now.lsn) }
    ensures tells { MayTell result }
{
    Body::Compensation {
        place: write.place,
        cell: image_of(write.table, write.key, &write.before),
        undone: write.lsn,
    }
}

// Whether a transaction is the one that is asked for, or all are.
fn is_of(only: Option<Lsn>, begin: Lsn) -> bool
    ensures { (w : Pending) → w.begin ≡ begin → those_of only (w ∷ []) ≡ (if result then w ∷ [] else []) }
{
    match only {
        Some(own) => begin == own,
        None => true,
    }
}

// One write more is undone, if it is one of those.
fn undo_one(said: &mut Numbered, write: &Written, only: Option<Lsn>) -> Result<(), AllocError>
    requires { said.old.next < 2 ^ 62 }
    ensures undoes { OnOk result ((first : ℕ) (ws : List Pending) → Undoes first ws said.old → Undoes first (ws ++ those_of only (pending_of write.now ∷ [])) said.new) }
    ensures next { OnOk result (said.new.next ≤ said.old.next + 1) }
    ensures keep { OnOk result (KeepRecords said.old.records.items → KeepRecords said.new.records.items) }
{
    if is_of(only, write.begin) {
        say(&mut said.records, said.next, write.begin, undoing(write))?;
        said.next += 1;
    }
    Ok(())
}

/// Records by which of some pending writes those of the transaction with this first record, or all, are undone under numbers from `first`
/// on, the last one first.
pub fn undo(
    alloc: Global,
    written: &[Written],
    only: Option<Lsn>,
    first: Lsn,
) -> Result<Numbered, AllocError>
    requires { first + length written.now ≤ 2 ^ 62 }
    ensures undoes { IfOk result (Undoes first (reverse (those_of only (map pending_of written.now)))) }
    ensures few { IfOk result (λ said. said.next ≤ first + length written.now) }
    ensures keep { IfOk result (λ said. KeepRecords said.records.items) }
{
    said_law();
    let mut said = Numbered {
        records: Vec::new(alloc),
        next: first,
    };
    let count = written.len();
    for i in 0..count {
        let last = count - 1 - i;
        undo_one(&mut said, &written[last], only)?;
    }
    Ok(said)
}
