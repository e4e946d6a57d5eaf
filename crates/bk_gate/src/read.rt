// Reading a gate file.
ghost use Rattle.std.specs.Prelude.{◌≡◌, ◌≢◌, ◌≤◌, ◌<◌, ◌+◌, ◌++◌, ◌∷◌, [], List, ℕ, None, length, vec_len, take, IsTrue, IfOk, IfSome, OnOk, OnErr, IsErrOf, IsErr};
ghost use Rattle.std.specs.Bool.{MatchBool};
ghost use Rattle.bk_gate.specs.Blobs.{blob_at, magic, IsGateFile};
ghost use Rattle.bk_gate.specs.Gate.{Lies, IsShut, AreWithin};
ghost use Rattle.bk_device.specs.Calls.{contents, read_at, ChangesNothing};
ghost use Rattle.bk_device.specs.Counts.{HasCause};

use crate::blob::read_number;
use crate::error::GateError;
use bk_device::{Device, Failed};
use std::alloc::{AllocError, Global};

// Whether the file, of at least sixteen bytes, begins with the letters of a gate file.
pub fn begins_well<D: Device>(dev: &mut D, name: &str) -> Result<bool, Failed>
    ensures value { D.tells → 16 ≤ length (contents ((D.disk dev.old).files name.now)) → IfOk result (λ is. MatchBool is (take 16 (contents ((D.disk dev.old).files name.now)) ≡ magic) (take 16 (contents ((D.disk dev.old).files name.now)) ≢ magic)) }
    ensures effect { D.tells → ChangesNothing (D.disk dev.old) (D.disk dev.new) }
    ensures cause { HasCause D.disk_faults D.tell_faults dev.old dev.new (IsErr result) }
{
    let mut letters = [0u8; 16];
    dev.read(name, 0, &mut letters)?;
    Ok(letters == *b"SQLBAKGATE000001")
}

// The length of a gate file.
pub fn check<D: Device>(dev: &mut D, name: &str) -> Result<u64, GateError>
    ensures len { D.tells → IfOk result (λ len. len ≡ length (contents ((D.disk dev.old).files name.now))) }
    ensures room { IfOk result (λ len. 17 ≤ len) }
    ensures gate_file { D.tells → OnOk result (IsGateFile (contents ((D.disk dev.old).files name.now))) }
    ensures foreign { D.tells → IsErrOf result GateError.Foreign → IsGateFile (contents ((D.disk dev.old).files name.now)) → ⊥ }
    ensures effect { D.tells → ChangesNothing (D.disk dev.old) (D.disk dev.new) }
    ensures cause { HasCause D.disk_faults D.tell_faults dev.old dev.new (IsErrOf result GateError.Fault) }
{
    let len = dev.len(name)?.unwrap_or(0);
    if len < 17 {
        return Err(GateError::Foreign);
    }
    if begins_well(dev, name)? {
        Ok(len)
    } else {
        Err(GateError::Foreign)
    }
}

// The length of the blob behind this gate byte, in a file of so many bytes.
fn read_blob<D: Device>(dev: &mut D, name: &str, gate: u64, len: u64) -> Result<Option<u64>, Failed>
    requires { gate ≤ len }
    ensures blob { D.tells → len ≡ length (contents ((D.disk dev.old).files name.now)) → IfOk result (λ size. blob_at (contents ((D.disk dev.old).files name.now)) gate ≡ size) }
    ensures inside { IfOk result (λ size. IfSome size (λ s. gate + 9 + s ≤ len)) }
    ensures effect { D.tells → ChangesNothing (D.disk dev.old) (D.disk dev.new) }
    ensures cause { HasCause D.disk_faults D.tell_faults dev.old dev.new (IsErr result) }
{
    if len - gate < 9 {
        return Ok(None);
    }
    let mut head = [0u8; 9];
    dev.read(name, gate, &mut head)?;
    let size = read_number(&head[1..9]);
    if head[0] == 1 && size <= len - gate - 9 {
        Ok(Some(size))
    } else {
        Ok(None)
    }
}

// Whether the gate byte at the end is closed: there, and not 1.
pub fn read_closed<D: Device>(dev: &mut D, name: &str, end: u64, len: u64) -> Result<bool, Failed>
    requires { end ≤ len }
    ensures value { D.tells → len ≡ length (contents ((D.disk dev.old).files name.now)) → IfOk result (λ is. IsShut (contents ((D.disk dev.old).files name.now)) end is) }
    ensures effect { D.tells → ChangesNothing (D.disk dev.old) (D.disk dev.new) }
    ensures cause { HasCause D.disk_faults D.tell_faults dev.old dev.new (IsErr result) }
{
    if end == len {
        return Ok(false);
    }
    let mut gate = [0u8; 1];
    dev.read(name, end, &mut gate)?;
    Ok(gate[0] != 1)
}

// Where the sealed blobs lie, and where the next gate byte is.
pub fn read_spans<D: Device>(
    dev: &mut D,
    name: &str,
    len: u64,
    spans: &mut Vec<(u64, u64)>,
) -> Result<u64, GateError>
    requires room { 16 ≤ len }
    requires none { spans.old.items ≡ [] }
    ensures lies { D.tells → len ≡ length (contents ((D.disk dev.old).files name.now)) → IfOk result (λ end. Lies (contents ((D.disk dev.old).files name.now)) 16 spans.new.items end) }
    ensures ends { D.tells → len ≡ length (contents ((D.disk dev.old).files name.now)) → IfOk result (λ end. blob_at (contents ((D.disk dev.old).files name.now)) end ≡ None) }
    ensures inside { IfOk result (λ end. end ≤ len) }
    ensures within { IfOk result (λ end. AreWithin end spans.new.items) }
    ensures effect { D.tells → ChangesNothing (D.disk dev.old) (D.disk dev.new) }
    ensures foreign { IsErrOf result GateError.Foreign → ⊥ }
    ensures cause { HasCause D.disk_faults D.tell_faults dev.old dev.new (IsErrOf result GateError.Fault) }
{
    let mut gate = 16;
    'blobs: while let Some(size) = read_blob(dev, name, gate, len)? {
        push_span(spans, (gate + 9, size))?;
        gate += 9 + size;
    }
    Ok(gate)
}

fn push_span(spans: &mut Vec<(u64, u64)>, span: (u64, u64)) -> Result<(), AllocError>
    ensures { OnOk result (spans.new.items ≡ spans.old.items ++ span ∷ []) }
{
    spans.push(span)?;
    Ok(())
}

// The `len` bytes of a file from offset `at` on, which lie whole in the file.
pub fn read_span<D: Device>(
    alloc: Global,
    dev: &mut D,
    name: &str,
    at: u64,
    len: u64,
) -> Result<Vec<u8>, GateError>
    requires { D.tells → at + len ≤ length (contents ((D.disk dev.old).files name.now)) }
    ensures bytes { D.tells → IfOk result (λ bytes. bytes.items ≡ read_at (contents ((D.disk dev.old).files name.now)) at len) }
    ensures len { IfOk result (λ bytes. vec_len bytes ≡ len) }
    ensures effect { D.tells → ChangesNothing (D.disk dev.old) (D.disk dev.new) }
    ensures foreign { IsErrOf result GateError.Foreign → ⊥ }
    ensures cause { HasCause D.disk_faults D.tell_faults dev.old dev.new (IsErrOf result GateError.Fault) }
{
    let mut bytes = vec![in alloc; 0u8; len as usize]?;
    dev.read(name, at, bytes.as_mut_slice())?;
    Ok(bytes)
}
