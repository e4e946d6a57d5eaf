// Walking over the records of segments, to find where they end.
ghost use Rattle.std.specs.Prelude.{◌≡◌, ◌≢◌, ◌≤◌, ◌<◌, ◌+◌, ◌-◌, ◌^◌, ◌++◌, [], ℕ, None, Some, length, vec_len, IfOk, IfSome, OnOk, IsErrOf, IsNone, false, true};
ghost use Rattle.std.specs.Bool.{MatchBool};
ghost use Rattle.bk_device.specs.Calls.{contents, ChangesNothing};
ghost use Rattle.bk_device.specs.Counts.{HasCause};
ghost use Rattle.bk_device.specs.Disk.{IsDurable};
ghost use Rattle.bk_gate.specs.Blobs.{blobs_in, sealed, IsGateFile};
ghost use Rattle.bk_gate.specs.Gate.{IsGate};
ghost use Rattle.bk_gate.specs.Opened.{IsOpened};
ghost use Rattle.bk_segments.specs.Files.{segment_file, blobs_at, blobs_from, AreBegun, AreSegments};
ghost use Rattle.bk_segments.specs.Records.{IsPart, IsRun, joined};

use crate::error::LogError;
use crate::head::Head;
use crate::names::segment_name;
use crate::reading::gather_blobs;
use crate::segments::{Segment, add_segment};
use bk_device::Device;
use bk_gate::{Gate, GateError, blob_behind, read_file};
use bk_record::cursor;
use std::alloc::Global;

// The number behind that of the last record of a blob, whose first has the number `from`.
fn walk_blob(bytes: &[u8], from: u64) -> Option<u64>
    ensures part { IfSome result (λ to. IsPart from bytes.now to) }
    ensures none { IsNone result → (to : ℕ) → IsPart from bytes.now to → to < 2 ^ 64 → ⊥ }
{
    let mut at = from;
    for record in cursor(bytes) {
        let Ok(record) = record else {
            return None;
        };
        if record.lsn != at {
            return None;
        }
        at = at.checked_add(1)?;
    }
    Some(at)
}

// Opens a gate file by its bytes.
fn open_gate(alloc: Global, name: &str, file: &[u8]) -> Result<Gate, LogError>
    ensures opened { IfOk result (λ g. IsOpened file.now g) }
    ensures name { IfOk result (λ g. g.name ≡ name.now) }
    ensures failed { IfOk result (λ g. g.failed ≡ false) }
    ensures foreign { IsErrOf result LogError.Foreign → IsGateFile file.now → ⊥ }
    ensures fault { IsErrOf result LogError.Fault → ⊥ }
{
    match Gate::from_bytes(alloc, name, file) {
        Ok(gate) => Ok(gate),
        Err(GateError::Foreign) => Err(LogError::Foreign),
        Err(GateError::Fault) => Err(LogError::Fault),
        Err(GateError::NoMemory) => Err(LogError::NoMemory),
    }
}

// The bytes of a gate file, in one read.
pub fn read_gate<D: Device>(alloc: Global, dev: &mut D, name: &str) -> Result<Vec<u8>, LogError>
    ensures gate_file { D.tells → OnOk result (IsGateFile (contents ((D.disk dev.old).files name.now))) }
    ensures bytes { D.tells → IfOk result (λ file. file.items ≡ contents ((D.disk dev.old).files name.now)) }
    ensures room { IfOk result (λ file. 16 ≤ vec_len file) }
    ensures foreign { D.tells → IsErrOf result LogError.Foreign → sealed ((D.disk dev.old).files name.now) ≡ [] }
    ensures effect { D.tells → ChangesNothing (D.disk dev.old) (D.disk dev.new) }
    ensures cause { HasCause D.disk_faults D.tell_faults dev.old dev.new (IsErrOf result LogError.Fault) }
{
    match read_file(alloc, dev, name) {
        Ok(file) => Ok(file),
        Err(GateError::Foreign) => Err(LogError::Foreign),
        Err(GateError::Fault) => Err(LogError::Fault),
        Err(GateError::NoMemory) => Err(LogError::NoMemory),
    }
}

// The number behind that of the last record in the blobs of a gate file.
fn walk_blobs(file: &[u8], from: u64) -> Option<u64>
    requires { 16 ≤ length file.now }
    ensures run { IsGateFile file.now → IfSome result (λ to. IsRun from (blobs_in file.now) to) }
    ensures none { IsGateFile file.now → IsNone result → (to : ℕ) → IsRun from (blobs_in file.now) to → to < 2 ^ 64 → ⊥ }
{
    let mut at = from;
    let mut gate = 16;
    'blobs: while let Some(blob) = blob_behind(file, gate) {
        at = walk_blob(blob, at)?;
        gate += 9 + blob.len();
    }
    Some(at)
}

// Whether a gate file has a blob.
fn has_blob(file: &[u8]) -> bool
    requires { 16 ≤ length file.now }
    ensures { IsGateFile file.now → MatchBool result (blobs_in file.now ≢ []) (blobs_in file.now ≡ []) }
{
    blob_behind(file, 16).is_some()
}

// The number behind that of the last record of a segment with these bytes, which has a blob.
fn walk_file(file: &[u8], from: u64) -> Option<u64>
    requires { 16 ≤ length file.now }
    ensures run { IsGateFile file.now → IfSome result (λ to. IsRun from (blobs_in file.now) to) }
    ensures begun { IsGateFile file.now → IfSome result (λ _. blobs_in file.now ≢ []) }
    ensures none { IsGateFile file.now → IsNone result → (to : ℕ) → IsRun from (blobs_in file.now) to → to < 2 ^ 64 → blobs_in file.now ≢ [] → ⊥ }
{
    if !has_blob(file) {
        return None;
    }
    walk_blobs(file, from)
}

// The number behind that of the last record of the segment of this number, which has a blob. Gathers the bytes of its blobs where `gathers` says so.
fn walk_segment<D: Device>(
    alloc: Global,
    dev: &mut D,
    db: u32,
    n: u64,
    from: u64,
    gathers: bool,
    bytes: &mut Vec<u8>,
) -> Result<u64, LogError>
    ensures run { D.tells → IfOk result (λ to. IsRun from (blobs_at (D.disk dev.old).files db n) to) }
    ensures begun { D.tells → OnOk result (blobs_at (D.disk dev.old).files db n ≢ []) }
    ensures added { D.tells → gathers ≡ true → OnOk result (bytes.new.items ≡ bytes.old.items ++ joined (blobs_at (D.disk dev.old).files db n)) }
    ensures foreign { D.tells → IsErrOf result LogError.Foreign → (to : ℕ) → IsRun from (blobs_at (D.disk dev.old).files db n) to → to < 2 ^ 64 → blobs_at (D.disk dev.old).files db n ≢ [] → ⊥ }
    ensures effect { D.tells → ChangesNothing (D.disk dev.old) (D.disk dev.new) }
    ensures cause { HasCause D.disk_faults D.tell_faults dev.old dev.new (IsErrOf result LogError.Fault) }
{
    let name = segment_name(alloc, db, n)?;
    let file = read_gate(alloc, dev, &name)?;
    let Some(to) = walk_file(&file, from) else {
        return Err(LogError::Foreign);
    };
    gather_blobs(&file, gathers, bytes)?;
    Ok(to)
}

// The same of the last segment, and its gate.
fn walk_last<D: Device>(
    alloc: Global,
    dev: &mut D,
    db: u32,
    n: u64,
    from: u64,
    gathers: bool,
    bytes: &mut Vec<u8>,
) -> Result<(Gate, u64), LogError>
    ensures run { D.tells → IfOk result (λ x. IsRun from (blobs_at (D.disk dev.old).files db n) x.1) }
    ensures begun { D.tells → OnOk result (blobs_at (D.disk dev.old).files db n ≢ []) }
    ensures added { D.tells → gathers ≡ true → OnOk result (bytes.new.items ≡ bytes.old.items ++ joined (blobs_at (D.disk dev.old).files db n)) }
    ensures gate { IfOk result (λ x. (x.0.name ≡ segment_file db n) × (x.0.begun ≡ None) × (x.0.failed ≡ false)) }
    ensures stands { D.tells → IsDurable (D.disk dev.old) (segment_file db n) → IfOk result (λ x. IsGate (D.disk dev.new) x.0) }
    ensures foreign { D.tells → IsErrOf result LogError.Foreign → (to : ℕ) → IsRun from (blobs_at (D.disk dev.old).files db n) to → to < 2 ^ 64 → blobs_at (D.disk dev.old).files db n ≢ [] → ⊥ }
    ensures effect { D.tells → ChangesNothing (D.disk dev.old) (D.disk dev.new) }
    ensures cause { HasCause D.disk_faults D.tell_faults dev.old dev.new (IsErrOf result LogError.Fault) }
{
    let name = segment_name(alloc, db, n)?;
    let file = read_gate(alloc, dev, &name)?;
    let Some(to) = walk_file(&file, from) else {
        return Err(LogError::Foreign);
    };
    let gate = open_gate(alloc, &name, &file)?;
    gather_blobs(&file, gathers, bytes)?;
    Ok((gate, to))
}

// Walks over the segments that count, but for the last one: adds each of them, gathers the bytes of its blobs where `gathers` says so, and answers
// the number behind that of their last record.
fn walk_front<D: Device>(
    alloc: Global,
    dev: &mut D,
    db: u32,
    head: Head,
    gathers: bool,
    segments: &mut Vec<Segment>,
    bytes: &mut Vec<u8>,
) -> Result<u64, LogError>
    requires order { head.front ≤ head.back }
    requires small { head.back < 2 ^ 62 }
    requires none { segments.old.items ≡ [] }
    requires empty { bytes.old.items ≡ [] }
    ensures run { D.tells → IfOk result (λ to. IsRun head.first (blobs_from (blobs_at (D.disk dev.old).files db) head.front (head.back - head.front)) to) }
    ensures begun { D.tells → OnOk result ((n : ℕ) → head.front ≤ n → n < head.back → blobs_at (D.disk dev.old).files db n ≢ []) }
    ensures segments { D.tells → OnOk result (AreSegments (blobs_at (D.disk dev.old).files db) db head.front head.first segments.new.items) }
    ensures count { OnOk result (head.front + vec_len segments.new ≡ head.back) }
    ensures bytes { D.tells → gathers ≡ true → OnOk result (bytes.new.items ≡ joined (blobs_from (blobs_at (D.disk dev.old).files db) head.front (head.back - head.front))) }
    ensures foreign { D.tells → IsErrOf result LogError.Foreign → (to : ℕ) → IsRun head.first (blobs_from (blobs_at (D.disk dev.old).files db) head.front (head.back - head.front + 1)) to → to < 2 ^ 64 → AreBegun (blobs_at (D.disk dev.old).files db) head → ⊥ }
    ensures effect { D.tells → ChangesNothing (D.disk dev.old) (D.disk dev.new) }
    ensures cause { HasCause D.disk_faults D.tell_faults dev.old dev.new (IsErrOf result LogError.Fault) }
{
    let mut at = head.first;
    let count = head.back - head.front;
    for i in 0..count {
        add_segment(alloc, db, head.front + i, at, segments)?;
        at = walk_segment(alloc, dev, db, head.front + i, at, gathers, bytes)?;
    }
    Ok(at)
}

// What a walk over all segments found: each of them, the last one's gate, the bytes of all blobs where they were gathered, and the
// number behind that of the last record.
#[derive(Drop)]
pub struct Walked {
    pub segments: Vec<Segment>,
    pub gate: Gate,
    pub bytes: Vec<u8>,
    pub end: u64,
}

// Walks over the segments that count, each of which is read once. Changes nothing.
pub fn walk_all<D: Device>(
    alloc: Global,
    dev: &mut D,
    db: u32,
    head: Head,
    gathers: bool,
) -> Result<Walked, LogError>
    requires order { head.front ≤ head.back }
    requires small { head.back < 2 ^ 62 }
    ensures run { D.tells → IfOk result (λ w. IsRun head.first (blobs_from (blobs_at (D.disk dev.old).files db) head.front (head.back - head.front + 1)) w.end) }
    ensures begun { D.tells → OnOk result (AreBegun (blobs_at (D.disk dev.old).files db) head) }
    ensures segments { D.tells → IfOk result (λ w. AreSegments (blobs_at (D.disk dev.old).files db) db head.front head.first w.segments.items) }
    ensures count { IfOk result (λ w. head.front + vec_len w.segments ≡ head.back + 1) }
    ensures bytes { D.tells → gathers ≡ true → IfOk result (λ w. w.bytes.items ≡ joined (blobs_from (blobs_at (D.disk dev.old).files db) head.front (head.back - head.front + 1))) }
    ensures gate { IfOk result (λ w. (w.gate.name ≡ segment_file db head.back) × (w.gate.begun ≡ None) × (w.gate.failed ≡ false)) }
    ensures stands { D.tells → IsDurable (D.disk dev.old) (segment_file db head.back) → IfOk result (λ w. IsGate (D.disk dev.new) w.gate) }
    ensures foreign { D.tells → IsErrOf result LogError.Foreign → (to : ℕ) → IsRun head.first (blobs_from (blobs_at (D.disk dev.old).files db) head.front (head.back - head.front + 1)) to → to < 2 ^ 64 → AreBegun (blobs_at (D.disk dev.old).files db) head → ⊥ }
    ensures effect { D.tells → ChangesNothing (D.disk dev.old) (D.disk dev.new) }
    ensures cause { HasCause D.disk_faults D.tell_faults dev.old dev.new (IsErrOf result LogError.Fault) }
{
    let mut segments = Vec::new(alloc);
    let mut bytes = Vec::new(alloc);
    let at = walk_front(alloc, dev, db, head, gathers, &mut segments, &mut bytes)?;
    add_segment(alloc, db, head.back, at, &mut segments)?;
    let (gate, end) = walk_last(alloc, dev, db, head.back, at, gathers, &mut bytes)?;
    Ok(Walked {
        segments,
        gate,
        bytes,
        end,
    })
}
