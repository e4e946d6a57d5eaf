// Opening a gate file whose bytes were just read.
ghost use Rattle.std.specs.Prelude.{◌≡◌, ◌≤◌, [], None, false, length, IfOk, IsErrOf};
ghost use Rattle.std.specs.Bool.{MatchBool};
ghost use Rattle.bk_gate.specs.Blobs.{blob_at, IsGateFile};
ghost use Rattle.bk_gate.specs.Gate.{Lies, IsShut, AreWithin};
ghost use Rattle.bk_gate.specs.Opened.{IsOpened};

use super::Gate;
use crate::error::GateError;
use crate::whole::blob_behind;
use std::alloc::{AllocError, Global};

impl Gate {
    /// Opens the gate file of this name by all of its bytes, which were read just before, and makes no call on a device.
    ///
    /// `Foreign` is answered as by `load`. `Fault` isn't answered.
    pub fn from_bytes(alloc: Global, name: &str, file: &[u8]) -> Result<Gate, GateError>
        ensures opened { IfOk result (λ g. IsOpened file.now g) }
        ensures name { IfOk result (λ g. g.name ≡ name.now) }
        ensures failed { IfOk result (λ g. g.failed ≡ false) }
        ensures foreign { IsErrOf result GateError.Foreign → IsGateFile file.now → ⊥ }
        ensures fault { IsErrOf result GateError.Fault → ⊥ }
    {
        if !is_gate_file(file) {
            return Err(GateError::Foreign);
        }
        let mut spans = Vec::new(alloc);
        let end = find_spans(file, &mut spans)?;
        let is_closed = is_shut(file, end);
        let name = String::from_str(alloc, name)?;
        Ok(Gate {
            name,
            spans,
            end: end as u64,
            is_closed,
            begun: None,
            spare: 0,
            failed: false,
        })
    }
}

// Whether the bytes are a gate file's.
fn is_gate_file(file: &[u8]) -> bool
    ensures { MatchBool result (IsGateFile file.now) (IsGateFile file.now → ⊥) }
{
    file.len() >= 17 && file.starts_with(b"SQLBAKGATE000001")
}

// Where the sealed blobs of a gate file lie, and where the next gate byte is.
fn find_spans(file: &[u8], spans: &mut Vec<(u64, u64)>) -> Result<usize, AllocError>
    requires room { 16 ≤ length file.now }
    requires none { spans.old.items ≡ [] }
    ensures lies { IfOk result (λ end. Lies file.now 16 spans.new.items end) }
    ensures ends { IfOk result (λ end. blob_at file.now end ≡ None) }
    ensures inside { IfOk result (λ end. end ≤ length file.now) }
    ensures within { IfOk result (λ end. AreWithin end spans.new.items) }
{
    let mut gate = 16;
    'blobs: while let Some(blob) = blob_behind(file, gate) {
        spans.push((gate as u64 + 9, blob.len() as u64))?;
        gate += 9 + blob.len();
    }
    Ok(gate)
}

// Whether the gate byte at the end is closed: there, and not 1.
fn is_shut(file: &[u8], end: usize) -> bool
    requires { end ≤ length file.now }
    ensures { IsShut file.now end result }
{
    match file.get(end) {
        Some(gate) => *gate != 1,
        None => false,
    }
}
