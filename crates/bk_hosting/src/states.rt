// What a store's note and log tell of its database's points.
ghost use Rattle.std.specs.Prelude.{◌≡◌, ◌≤◌, ◌<◌, false, true, [], cond, List, Some, None, IfOk, OnOk, IsErrOf};
ghost use Rattle.bk_device.specs.Calls.{ChangesNothing};
ghost use Rattle.bk_device.specs.Counts.{HasCause};
ghost use Rattle.bk_hosted.specs.Hosted.{Hosted, folded, has_checkpoint};
ghost use Rattle.bk_ids.specs.declared.record.Rec.{Rec};
ghost use Rattle.bk_paged.specs.Paged.{Standing};
ghost use Rattle.bk_points.specs.declared.points.Points.{Points as KeptPoints};
ghost use Rattle.bk_record.specs.Spelling.{BeginsWith};
ghost use Rattle.bk_store.specs.Store.{IsStore};
ghost use Rattle.bk_store.specs.Told.{Told};
ghost use Rattle.bk_stores.specs.Making.{IsSealed};
ghost use Rattle.bk_hosting.specs.Hosting.{IsNoteOf, Tells};
ghost use Rattle.bk_hosting.specs.Loading.{says_checkpoint};

use crate::hosting::State;
use crate::making::made_points;
use bk_device::{Device, Trouble};
use bk_ids::{Lsn, Sequence};
use bk_points::{Points, read_points};
use bk_reading::Unread;
use bk_record::{BodyRef, Skimmed, skim_at};
use bk_store::Store;
use bk_world::FileSpec;
use std::alloc::Global;

// Whether the record at the front of these bytes is a checkpoint's.
fn is_checkpoint(bytes: &[u8]) -> bool
    ensures { (r : Rec) (after : List _) → BeginsWith bytes.now r after → result ≡ says_checkpoint r.body }
{
    match skim_at(bytes, 0) {
        Some((Skimmed::Other(record), _)) => matches!(record.body, BodyRef::Checkpoint { .. }),
        _ => false,
    }
}

// Whether the record of this number is there and a checkpoint's, in a store all of whose records are durable. Where it is no longer held it isn't known, and the call ends as if memory were wanting.
fn reaches<D: Device>(
    alloc: Global,
    dev: &mut D,
    store: &Store,
    number: Lsn,
) -> Result<bool, Trouble>
    requires sealed { IsSealed store.now }
    requires standing { D.tells → Standing (D.disk dev.old) store.now.paged }
    ensures is { D.tells → (told : Told) → IsStore (D.disk dev.old) store.now told → IfOk result (λ b. b ≡ has_checkpoint number told.records) }
    ensures effect { D.tells → ChangesNothing (D.disk dev.old) (D.disk dev.new) }
    ensures broken { IsErrOf result Trouble.Broken → ⊥ }
    ensures cause { HasCause D.disk_faults D.tell_faults dev.old dev.new (IsErrOf result Trouble.Fault) }
{
    if number == 0 || store.end() <= number {
        return Ok(false);
    }
    if number < store.kept() {
        return Err(Trouble::NoMemory);
    }
    let bytes = store.log_bytes(alloc, dev, number, number + 1)?;
    Ok(is_checkpoint(&bytes))
}

/// The points that a note spells, or those of a database that was just made with these files.
pub(crate) fn noted_points(
    alloc: Global,
    note: &[u8],
    files: &[FileSpec],
) -> Result<Points, Trouble>
    ensures points { (points : KeptPoints) → IsNoteOf note.now files.now points → IfOk result (λ p. p ≡ points) }
    ensures broken { IsErrOf result Trouble.Broken → (points : KeptPoints) → IsNoteOf note.now files.now points → ⊥ }
    ensures no_fault { IsErrOf result Trouble.Fault → ⊥ }
{
    if note.is_empty() {
        return Ok(made_points(alloc, files)?);
    }
    match read_points(alloc, note) {
        Ok((points, rest)) if rest.is_empty() => Ok(points),
        Ok(_) => Err(Trouble::Broken),
        Err(Unread::Unspelled) => Err(Trouble::Broken),
        Err(Unread::NoMemory) => Err(Trouble::NoMemory),
    }
}

// Takes the checkpoint that was awaited in where its record is reached.
fn take_in(points: &mut Points, reached: bool)
    ensures { points.new ≡ record points.old { next_checkpoint = 0; next_kept = 0; kept = cond reached points.old.next_kept points.old.kept; checkpoint = cond reached points.old.next_checkpoint points.old.checkpoint } }
{
    if reached {
        points.checkpoint = points.next_checkpoint;
        points.kept = points.next_kept;
    }
    points.next_checkpoint = 0;
    points.next_kept = 0;
}

/// What a store tells of its database's points, in which nothing is open: all its records are durable.
pub(crate) fn read_state<D: Device>(
    alloc: Global,
    dev: &mut D,
    store: &Store,
) -> Result<State, Trouble>
    requires sealed { IsSealed store.now }
    requires standing { D.tells → Standing (D.disk dev.old) store.now.paged }
    ensures state { D.tells → (told : Told) (h : Hosted) → IsStore (D.disk dev.old) store.now told → Tells told h → IfOk result (λ s. s ≡ record { points = folded h.points h.records; job = None; transactions = []; known = None }) }
    ensures effect { D.tells → ChangesNothing (D.disk dev.old) (D.disk dev.new) }
    ensures broken { D.tells → IsErrOf result Trouble.Broken → (told : Told) (h : Hosted) → IsStore (D.disk dev.old) store.now told → Tells told h → ⊥ }
    ensures cause { HasCause D.disk_faults D.tell_faults dev.old dev.new (IsErrOf result Trouble.Fault) }
{
    let mut points = noted_points(alloc, store.note(), store.spec().storage.files.as_slice())?;
    let reached = reaches(alloc, dev, store, points.next_checkpoint)?;
    take_in(&mut points, reached);
    Ok(State {
        points,
        job: None,
        transactions: Sequence::new(Vec::new(alloc)),
        known: None,
    })
}
