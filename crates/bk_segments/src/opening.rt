// Opening the files of a log.
ghost use Rattle.std.specs.Prelude.{◌≡◌, ◌≤◌, ◌<◌, ◌^◌, ◌+◌, [], List, ℕ, None, Some, length, vec_len, vec_capacity, false, true, IfOk, OnOk, IsErrOf};
ghost use Rattle.bk_control.specs.Control.{IsControl};
ghost use Rattle.bk_control.specs.Slots.{control_of};
ghost use Rattle.bk_device.specs.Calls.{ChangesNothing};
ghost use Rattle.bk_device.specs.Counts.{HasCause};
ghost use Rattle.bk_device.specs.Disk.{IsDurable};
ghost use Rattle.bk_gate.specs.Gate.{IsGate};
ghost use Rattle.bk_segments.specs.Control.{IsSound, read_control};
ghost use Rattle.bk_segments.specs.Files.{control_file, segment_file, blobs_at, blobs_of, AreBegun, AreSegments, IsForeign};
ghost use Rattle.bk_segments.specs.Records.{IsRun, joined};

use crate::error::LogError;
use crate::head::{Head, add, is_sound, read_head};
use crate::names::control_name;
use crate::segments::Segment;
use crate::walk::walk_all;
use bk_control::{Control, ControlError};
use bk_device::Device;
use bk_gate::Gate;
use std::alloc::Global;

// Opens the control file, and changes nothing.
pub fn load_control<D: Device>(alloc: Global, dev: &mut D, db: u32) -> Result<Control, LogError>
    ensures content { D.tells → IfOk result (λ c. control_of ((D.disk dev.old).files (control_file db)) ≡ Some c.content) }
    ensures name { IfOk result (λ c. c.name ≡ control_file db) }
    ensures failed { IfOk result (λ c. c.failed ≡ false) }
    ensures stands { D.tells → IsDurable (D.disk dev.old) (control_file db) → IfOk result (λ c. IsControl (D.disk dev.new) c) }
    ensures effect { D.tells → ChangesNothing (D.disk dev.old) (D.disk dev.new) }
    ensures foreign { D.tells → IsErrOf result LogError.Foreign → control_of ((D.disk dev.old).files (control_file db)) ≡ None }
    ensures cause { HasCause D.disk_faults D.tell_faults dev.old dev.new (IsErrOf result LogError.Fault) }
{
    let name = control_name(alloc, db)?;
    match Control::load(alloc, dev, &name) {
        Ok(control) => Ok(control),
        Err(ControlError::Foreign) => Err(LogError::Foreign),
        Err(ControlError::Fault) => Err(LogError::Fault),
        Err(ControlError::NoMemory) => Err(LogError::NoMemory),
    }
}

// The head and the note in the control.
pub fn recorded(alloc: Global, control: &Control) -> Result<(Head, Vec<u8>), LogError>
    requires { control.now.failed ≡ false }
    ensures reads { IfOk result (λ x. read_control control.now.content ≡ Some (x.0, x.1.items)) }
    ensures sound { IfOk result (λ x. IsSound x.0 x.1.items) }
    ensures room { IfOk result (λ x. (32768 ≤ vec_capacity x.1) × (vec_len x.1 ≤ 32768)) }
    ensures foreign { IsErrOf result LogError.Foreign → (head : Head) (note : List ℕ) → read_control control.now.content ≡ Some (head, note) → IsSound head note → ⊥ }
    ensures fault { IsErrOf result LogError.Fault → ⊥ }
{
    let Some((head, rest)) = read_head(control.get()) else {
        return Err(LogError::Foreign);
    };
    if !is_sound(head, rest) {
        return Err(LogError::Foreign);
    }
    let mut note = Vec::with_capacity(alloc, 32_768)?;
    add(&mut note, rest);
    Ok((head, note))
}

/// What was found of a log.
#[derive(Drop)]
pub struct Found {
    /// The control file.
    pub control: Control,
    /// The last segment.
    pub gate: Gate,
    /// What its control record holds before the note.
    pub head: Head,
    /// The segments that count.
    pub segments: Vec<Segment>,
    /// The note, with room for 32,768 bytes.
    pub note: Vec<u8>,
    /// The bytes of all records of those segments, where they were gathered.
    pub bytes: Vec<u8>,
    /// The number behind that of the last record.
    pub stored: u64,
}

/// Reads a log's files: each of its segments once, in one read. Gathers the bytes of their records where `gathers` says so. Changes nothing.
///
/// `Foreign` is answered exactly where the files are no log.
pub fn find<D: Device>(
    alloc: Global,
    dev: &mut D,
    db: u32,
    gathers: bool,
) -> Result<Found, LogError>
    ensures content { D.tells → IfOk result (λ f. control_of ((D.disk dev.old).files (control_file db)) ≡ Some f.control.content) }
    ensures name { IfOk result (λ f. f.control.name ≡ control_file db) }
    ensures failed { IfOk result (λ f. f.control.failed ≡ false) }
    ensures stands { D.tells → IsDurable (D.disk dev.old) (control_file db) → IfOk result (λ f. IsControl (D.disk dev.new) f.control) }
    ensures reads { IfOk result (λ f. read_control f.control.content ≡ Some (f.head, f.note.items)) }
    ensures sound { IfOk result (λ f. IsSound f.head f.note.items) }
    ensures room { IfOk result (λ f. (32768 ≤ vec_capacity f.note) × (vec_len f.note ≤ 32768)) }
    ensures run { D.tells → IfOk result (λ f. IsRun f.head.first (blobs_of (D.disk dev.old).files db f.head) f.stored) }
    ensures begun { D.tells → IfOk result (λ f. AreBegun (blobs_at (D.disk dev.old).files db) f.head) }
    ensures segments { D.tells → IfOk result (λ f. AreSegments (blobs_at (D.disk dev.old).files db) db f.head.front f.head.first f.segments.items) }
    ensures count { IfOk result (λ f. f.head.front + vec_len f.segments ≡ f.head.back + 1) }
    ensures bytes { D.tells → gathers ≡ true → IfOk result (λ f. f.bytes.items ≡ joined (blobs_of (D.disk dev.old).files db f.head)) }
    ensures gate { IfOk result (λ f. (f.gate.name ≡ segment_file db f.head.back) × (f.gate.begun ≡ None) × (f.gate.failed ≡ false)) }
    ensures last { D.tells → IfOk result (λ f. IsDurable (D.disk dev.old) (segment_file db f.head.back) → IsGate (D.disk dev.new) f.gate) }
    ensures inside { IfOk result (λ f. f.head.kept ≤ f.stored) }
    ensures small { IfOk result (λ f. f.stored < 2 ^ 64) }
    ensures foreign { D.tells → IsErrOf result LogError.Foreign → IsForeign (D.disk dev.old).files db }
    ensures effect { D.tells → ChangesNothing (D.disk dev.old) (D.disk dev.new) }
    ensures cause { HasCause D.disk_faults D.tell_faults dev.old dev.new (IsErrOf result LogError.Fault) }
{
    let control = load_control(alloc, dev, db)?;
    let (head, note) = recorded(alloc, &control)?;
    let walked = walk_all(alloc, dev, db, head, gathers)?;
    if walked.end < head.kept {
        return Err(LogError::Foreign);
    }
    Ok(Found {
        control,
        gate: walked.gate,
        head,
        segments: walked.segments,
        note,
        bytes: walked.bytes,
        stored: walked.end,
    })
}
