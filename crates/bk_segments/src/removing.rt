// Removing the files of a log.
ghost use Rattle.std.specs.Prelude.{◌≡◌, ◌≤◌, ◌<◌, ◌⊎◌, ◌+◌, ◌^◌, ℕ, List, None, Some, length, slice_get, string_bytes, IfOk, OnOk, IfSome, IsErr, IsErrOf, IsNone};
ghost use Rattle.bk_device.specs.Calls.{ChangesNothing};
ghost use Rattle.bk_device.specs.Counts.{HasCause};
ghost use Rattle.bk_device.specs.Effects.{Effect, IsName};
ghost use Rattle.bk_segments.specs.Control.{IsSound};
ghost use Rattle.bk_segments.specs.Files.{segment_file, HasNoRest, Holds, IsBeside, IsBetween, IsNamed, IsUnheld};

use crate::error::LogError;
use crate::head::Head;
use crate::names::segment_name;
use crate::opening::{load_control, recorded};
use crate::segments::Segment;
use bk_device::{Device, Failed, remove_durably};
use std::alloc::Global;

// Removes the segment of this number, if it is there.
fn remove_segment<D: Device>(alloc: Global, dev: &mut D, db: u32, n: u64) -> Result<(), LogError>
    ensures gone { D.tells → OnOk result ((D.disk dev.new).files (segment_file db n) ≡ None) }
    ensures crash { D.tells → Effect (IsName (segment_file db n)) (λ _. Unit {0}) (D.disk dev.old) (D.disk dev.new) }
    ensures still { D.tells → (D.disk dev.old).files (segment_file db n) ≡ None → ChangesNothing (D.disk dev.old) (D.disk dev.new) }
    ensures foreign { IsErrOf result LogError.Foreign → ⊥ }
    ensures cause { HasCause D.disk_faults D.tell_faults dev.old dev.new (IsErrOf result LogError.Fault) }
{
    let name = segment_name(alloc, db, n)?;
    if dev.len(&name)?.is_none() {
        return Ok(());
    }
    remove_durably(dev, &name)?;
    Ok(())
}

/// Removes the segments from one number to below another. Where none of them is there it changes nothing.
pub fn remove_segments<D: Device>(
    alloc: Global,
    dev: &mut D,
    db: u32,
    from: u64,
    to: u64,
) -> Result<(), LogError>
    ensures gone { D.tells → OnOk result ((n : ℕ) → from ≤ n → n < to → (D.disk dev.new).files (segment_file db n) ≡ None) }
    ensures crash { D.tells → Effect (IsBetween db from to) (λ _. Unit {0}) (D.disk dev.old) (D.disk dev.new) }
    ensures still { D.tells → ((n : ℕ) → from ≤ n → n < to → (D.disk dev.old).files (segment_file db n) ≡ None) → ChangesNothing (D.disk dev.old) (D.disk dev.new) }
    ensures foreign { IsErrOf result LogError.Foreign → ⊥ }
    ensures cause { HasCause D.disk_faults D.tell_faults dev.old dev.new (IsErrOf result LogError.Fault) }
{
    for n in from..to {
        remove_segment(alloc, dev, db, n)?;
    }
    Ok(())
}

/// Removes the segments that don't count: those that are left below the first one, and one that was begun behind the last. Where
/// none of them is there it changes nothing.
pub fn tidy<D: Device>(alloc: Global, dev: &mut D, db: u32, head: Head) -> Result<(), LogError>
    requires order { head.front ≤ head.back }
    requires small { head.back < 2 ^ 62 }
    ensures gone { D.tells → OnOk result ((n : ℕ) → head.gone ≤ n → n ≤ head.back + 1 → (n < head.front) ⊎ (head.back < n) → (D.disk dev.new).files (segment_file db n) ≡ None) }
    ensures crash { D.tells → Effect (IsBeside db head) (λ _. Unit {0}) (D.disk dev.old) (D.disk dev.new) }
    ensures still { D.tells → HasNoRest (D.disk dev.old).files db head → ChangesNothing (D.disk dev.old) (D.disk dev.new) }
    ensures foreign { IsErrOf result LogError.Foreign → ⊥ }
    ensures cause { HasCause D.disk_faults D.tell_faults dev.old dev.new (IsErrOf result LogError.Fault) }
{
    remove_segments(alloc, dev, db, head.gone, head.front)?;
    remove_segment(alloc, dev, db, head.back + 1)
}

// The name of a segment's file.
fn name_of(segments: &[Segment], i: usize) -> &str
    requires { i < length segments.now }
    ensures { (s : Segment) → slice_get segments.now i ≡ Some s → result.now ≡ string_bytes s.name }
{
    &segments[i].name
}

// Removes a segment.
fn remove_one<D: Device>(dev: &mut D, segments: &[Segment], i: usize) -> Result<(), Failed>
    requires { i < length segments.now }
    ensures gone { D.tells → (s : Segment) → slice_get segments.now i ≡ Some s → OnOk result ((D.disk dev.new).files (string_bytes s.name) ≡ None) }
    ensures crash { D.tells → (s : Segment) → slice_get segments.now i ≡ Some s → Effect (IsName (string_bytes s.name)) (λ _. Unit {0}) (D.disk dev.old) (D.disk dev.new) }
    ensures cause { HasCause D.disk_faults D.tell_faults dev.old dev.new (IsErr result) }
{
    let name = name_of(segments, i);
    remove_durably(dev, name)
}

/// Removes segments.
pub fn remove_named<D: Device>(dev: &mut D, segments: &[Segment]) -> Result<(), Failed>
    ensures gone { D.tells → OnOk result ((i : ℕ) (s : Segment) → slice_get segments.now i ≡ Some s → (D.disk dev.new).files (string_bytes s.name) ≡ None) }
    ensures crash { D.tells → Effect (IsNamed segments.now) (λ _. Unit {0}) (D.disk dev.old) (D.disk dev.new) }
    ensures cause { HasCause D.disk_faults D.tell_faults dev.old dev.new (IsErr result) }
{
    for i in 0..segments.len() {
        remove_one(dev, segments, i)?;
    }
    Ok(())
}

/// The head in the control file, if it holds a sound one. Changes nothing.
pub fn find_head<D: Device>(alloc: Global, dev: &mut D, db: u32) -> Result<Option<Head>, LogError>
    ensures none { D.tells → IfOk result (λ found. IsNone found → IsUnheld (D.disk dev.old).files db) }
    ensures some { D.tells → IfOk result (λ found. IfSome found (λ head. Holds (D.disk dev.old).files db head)) }
    ensures small { IfOk result (λ found. IfSome found (λ head. head.back < 2 ^ 62)) }
    ensures foreign { IsErrOf result LogError.Foreign → ⊥ }
    ensures effect { D.tells → ChangesNothing (D.disk dev.old) (D.disk dev.new) }
    ensures cause { HasCause D.disk_faults D.tell_faults dev.old dev.new (IsErrOf result LogError.Fault) }
{
    let control = match load_control(alloc, dev, db) {
        Ok(control) => control,
        Err(LogError::Foreign) => return Ok(None),
        Err(error) => return Err(error),
    };
    match recorded(alloc, &control) {
        Ok((head, _)) => Ok(Some(head)),
        Err(LogError::Foreign) => Ok(None),
        Err(error) => Err(error),
    }
}
