// A gate file that is read whole, and the blobs in its bytes.
ghost use Rattle.std.specs.Prelude.{◌≡◌, ◌≤◌, ◌+◌, ℕ, None, Some, length, vec_len, IfOk, IfSome, OnOk, IsErrOf, IsNone};
ghost use Rattle.bk_gate.specs.Blobs.{blob_at, IsGateFile};
ghost use Rattle.bk_device.specs.Calls.{contents, read_at, ChangesNothing};
ghost use Rattle.bk_device.specs.Counts.{HasCause};

use crate::blob::read_number;
use crate::error::GateError;
use crate::read::{check, read_span};
use bk_device::Device;
use std::alloc::Global;

/// The bytes of the gate file of this name, in one read. Changes nothing. `Foreign` is answered as by `Gate::load`.
pub fn read_file<D: Device>(alloc: Global, dev: &mut D, name: &str) -> Result<Vec<u8>, GateError>
    ensures gate_file { D.tells → OnOk result (IsGateFile (contents ((D.disk dev.old).files name.now))) }
    ensures bytes { D.tells → IfOk result (λ file. file.items ≡ contents ((D.disk dev.old).files name.now)) }
    ensures room { IfOk result (λ file. 17 ≤ vec_len file) }
    ensures effect { D.tells → ChangesNothing (D.disk dev.old) (D.disk dev.new) }
    ensures foreign { D.tells → IsErrOf result GateError.Foreign → IsGateFile (contents ((D.disk dev.old).files name.now)) → ⊥ }
    ensures cause { HasCause D.disk_faults D.tell_faults dev.old dev.new (IsErrOf result GateError.Fault) }
{
    let len = check(dev, name)?;
    read_span(alloc, dev, name, 0, len)
}

// The length of the blob behind this gate byte.
fn size_behind(file: &[u8], gate: usize) -> Option<usize>
    requires { gate ≤ length file.now }
    ensures size { blob_at file.now gate ≡ result }
    ensures inside { IfSome result (λ size. gate + 9 + size ≤ length file.now) }
{
    if file.len() - gate < 9 {
        return None;
    }
    let size = read_number(&file[gate + 1..gate + 9]);
    if file[gate] == 1 && size <= (file.len() - gate - 9) as u64 {
        Some(size as usize)
    } else {
        None
    }
}

/// The blob behind the gate byte at this place of a gate file's bytes, if the byte is 1 and the blob is whole in them.
pub fn blob_behind(file: &[u8], gate: usize) -> Option<&[u8]>
    requires { gate ≤ length file.now }
    ensures some { IfSome result (λ blob. blob_at file.now gate ≡ Some (length blob.now)) }
    ensures bytes { IfSome result (λ blob. blob.now ≡ read_at file.now (gate + 9) (length blob.now)) }
    ensures inside { IfSome result (λ blob. gate + 9 + length blob.now ≤ length file.now) }
    ensures none { IsNone result → blob_at file.now gate ≡ None }
{
    let size = size_behind(file, gate)?;
    Some(&file[gate + 9..gate + 9 + size])
}
