// Reading the bytes of all blobs of a log.
ghost use Rattle.std.specs.Prelude.{◌≡◌, ◌≤◌, ◌<◌, ◌+◌, ◌-◌, ◌^◌, ◌++◌, length, IfOk, OnOk, IsErrOf, true};
ghost use Rattle.bk_device.specs.Calls.{ChangesNothing};
ghost use Rattle.bk_device.specs.Counts.{HasCause};
ghost use Rattle.bk_gate.specs.Blobs.{blobs_in, IsGateFile};
ghost use Rattle.bk_segments.specs.Files.{blobs_at, blobs_from};
ghost use Rattle.bk_segments.specs.Records.{joined};

use crate::error::LogError;
use crate::head::Head;
use crate::names::segment_name;
use crate::walk::read_gate;
use bk_device::Device;
use bk_gate::blob_behind;
use std::alloc::{AllocError, Global};

// Adds the bytes of all blobs of a gate file.
fn add_blobs(file: &[u8], out: &mut Vec<u8>) -> Result<(), AllocError>
    requires { 16 ≤ length file.now }
    ensures { IsGateFile file.now → OnOk result (out.new.items ≡ out.old.items ++ joined (blobs_in file.now)) }
{
    let mut gate = 16;
    'blobs: while let Some(blob) = blob_behind(file, gate) {
        out.extend_from_slice(blob)?;
        gate += 9 + blob.len();
    }
    Ok(())
}

// Adds them where they are to be gathered.
pub fn gather_blobs(file: &[u8], gathers: bool, out: &mut Vec<u8>) -> Result<(), AllocError>
    requires { 16 ≤ length file.now }
    ensures { gathers ≡ true → IsGateFile file.now → OnOk result (out.new.items ≡ out.old.items ++ joined (blobs_in file.now)) }
{
    if !gathers {
        return Ok(());
    }
    add_blobs(file, out)
}

// Adds the bytes of all blobs of the segment of this number, which has none where it is no gate file.
fn add_segment<D: Device>(
    alloc: Global,
    dev: &mut D,
    db: u32,
    n: u64,
    out: &mut Vec<u8>,
) -> Result<(), LogError>
    ensures added { D.tells → OnOk result (out.new.items ≡ out.old.items ++ joined (blobs_at (D.disk dev.old).files db n)) }
    ensures foreign { IsErrOf result LogError.Foreign → ⊥ }
    ensures effect { D.tells → ChangesNothing (D.disk dev.old) (D.disk dev.new) }
    ensures cause { HasCause D.disk_faults D.tell_faults dev.old dev.new (IsErrOf result LogError.Fault) }
{
    let name = segment_name(alloc, db, n)?;
    let file = match read_gate(alloc, dev, &name) {
        Ok(file) => file,
        Err(LogError::Foreign) => return Ok(()),
        Err(error) => return Err(error),
    };
    add_blobs(&file, out)?;
    Ok(())
}

/// The bytes of all blobs of the segments that count, one behind the other, each segment in one read. A segment that is no
/// gate file has none. Changes nothing. `Foreign` isn't answered.
pub fn gather<D: Device>(
    alloc: Global,
    dev: &mut D,
    db: u32,
    head: Head,
) -> Result<Vec<u8>, LogError>
    requires order { head.front ≤ head.back }
    requires small { head.back < 2 ^ 62 }
    ensures bytes { D.tells → IfOk result (λ bytes. bytes.items ≡ joined (blobs_from (blobs_at (D.disk dev.old).files db) head.front (head.back - head.front + 1))) }
    ensures foreign { IsErrOf result LogError.Foreign → ⊥ }
    ensures effect { D.tells → ChangesNothing (D.disk dev.old) (D.disk dev.new) }
    ensures cause { HasCause D.disk_faults D.tell_faults dev.old dev.new (IsErrOf result LogError.Fault) }
{
    let mut bytes = Vec::new(alloc);
    let count = head.back - head.front + 1;
    for i in 0..count {
        add_segment(alloc, dev, db, head.front + i, &mut bytes)?;
    }
    Ok(bytes)
}
