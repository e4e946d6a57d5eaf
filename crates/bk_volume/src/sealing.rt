//! Sealing the blob of a set.
ghost use Rattle.std.specs.Prelude.{◌*◌, ◌≡◌, ◌≢◌, ◌≤◌, ◌<◌, ◌⊎◌, ◌+◌, ◌++◌, ◌^◌, None, false, length, OnOk, IsErr, IsSome};
ghost use Rattle.bk_device.specs.Calls.{contents};
ghost use Rattle.bk_device.specs.Counts.{HasCause};
ghost use Rattle.bk_device.specs.Disk.{IsDurable};
ghost use Rattle.bk_device.specs.Effects.{Effect, IsName};
ghost use Rattle.bk_gate.specs.Blobs.{sealed};
ghost use Rattle.bk_gate.specs.Gate.{IsGate, begun_of};
ghost use Rattle.sha2.specs.Hashers.{Holds256};
ghost use Rattle.bk_volume.specs.Staging.{IsStaged, staged};
ghost use Rattle.bk_volume.specs.Writing.{Adds, LeavesSealed, parts_of, with_digest, HasSealed, LeavesGrown};

use crate::piece::{copy_part, put};
use crate::staging::{EXTENT_BYTES, Staged};
use bk_device::{Device, Failed};
use bk_gate::Gate;
use sha2::{Digest, Sha256};

/// The parts of a set that lie before its extents and its log, and where these lie in a file: the extents first.
#[derive(Clone, Copy)]
pub struct Parts<'a> {
    /// The header, the tables and the number of extents.
    pub front: &'a [u8],
    /// The length of the log.
    pub size: &'a [u8],
    /// The name of the file.
    pub file: &'a str,
    /// How many bytes of extents it has, and how many of log behind them.
    pub extents: u64,
    pub log: u64,
}

// Adds the front, the extents, the length of the log and the log to the blob that is begun.
fn put_parts<D: Device>(
    dev: &mut D,
    gate: &mut Gate,
    hasher: &mut Sha256,
    parts: Parts<'_>,
    buffer: &mut [u8],
) -> Result<(), Failed>
    requires fit { gate.old.failed ≡ false }
    requires begun { IsSome gate.old.begun }
    requires apart { parts.file.now ≢ gate.old.name }
    requires small { parts.extents + parts.log < 2 ^ 64 }
    requires size { length buffer.old ≡ 1048576 }
    requires inside { D.tells → parts.extents + parts.log ≤ length (contents ((D.disk dev.old).files parts.file.now)) }
    requires stands { D.tells → IsGate (D.disk dev.old) gate.old }
    requires hashed { D.tells → Holds256 hasher.old (begun_of (D.disk dev.old) gate.old) }
    ensures added { D.tells → OnOk result (Adds gate.old gate.new (parts_of parts.entry.front.now (contents ((D.disk dev.old).files parts.entry.file.now)) parts.entry.extents parts.entry.size.now parts.entry.log) hasher.new (D.disk dev.old) (D.disk dev.new)) }
    ensures begun { OnOk result (IsSome gate.new.begun) }
    ensures same { OnOk result (gate.new ≡ record gate.old { begun = gate.new.begun; is_closed = gate.new.is_closed }) }
    ensures name { gate.new.name ≡ gate.old.name }
    ensures fit { OnOk result (gate.new.failed ≡ false) }
    ensures crash { D.tells → Effect (IsName gate.old.name) (LeavesSealed gate.old.name (D.disk dev.old)) (D.disk dev.old) (D.disk dev.new) }
    ensures cause { HasCause D.disk_faults D.tell_faults dev.old dev.new (IsErr result) }
{
    put(dev, gate, hasher, parts.front)?;
    copy_part(dev, gate, hasher, parts.file, 0, parts.extents, buffer)?;
    put(dev, gate, hasher, parts.size)?;
    copy_part(
        dev,
        gate,
        hasher,
        parts.file,
        parts.extents,
        parts.log,
        buffer,
    )
}

// Adds the digest to the blob that is begun, and seals it.
fn seal_digest<D: Device>(dev: &mut D, gate: &mut Gate, digest: &[u8]) -> Result<(), Failed>
    requires fit { gate.old.failed ≡ false }
    requires begun { IsSome gate.old.begun }
    requires spare { 1 ≤ gate.old.spare }
    requires stands { D.tells → IsGate (D.disk dev.old) gate.old }
    ensures stands { D.tells → OnOk result (IsGate (D.disk dev.new) gate.new) }
    ensures sealed { D.tells → OnOk result (HasSealed gate.old.name (begun_of (D.disk dev.old) gate.old ++ digest.now) (D.disk dev.old) ((D.disk dev.new).files gate.old.name)) }
    ensures count { OnOk result (length gate.new.spans ≡ length gate.old.spans + 1) }
    ensures none { OnOk result (gate.new.begun ≡ None) }
    ensures name { gate.new.name ≡ gate.old.name }
    ensures fit { OnOk result (gate.new.failed ≡ false) }
    ensures durable { D.tells → OnOk result (IsDurable (D.disk dev.new) gate.old.name) }
    ensures crash { D.tells → Effect (IsName gate.old.name) (LeavesGrown gate.old.name (begun_of (D.disk dev.old) gate.old ++ digest.now) (D.disk dev.old)) (D.disk dev.old) (D.disk dev.new) }
    ensures cause { HasCause D.disk_faults D.tell_faults dev.old dev.new (IsErr result) }
{
    gate.add(dev, digest)?;
    gate.seal_reserved(dev)?;
    Ok(())
}

/// Seals a blob of these parts and their digest, where none is begun, by one place of the gate's spare. Takes no memory. A
/// crash leaves the sealed blobs as they were, or with this one.
pub fn seal_parts<D: Device>(
    dev: &mut D,
    gate: &mut Gate,
    parts: Parts<'_>,
    buffer: &mut [u8],
) -> Result<(), Failed>
    requires fit { gate.old.failed ≡ false }
    requires none { gate.old.begun ≡ None }
    requires spare { 1 ≤ gate.old.spare }
    requires apart { parts.file.now ≢ gate.old.name }
    requires small { parts.extents + parts.log < 2 ^ 64 }
    requires size { length buffer.old ≡ 1048576 }
    requires inside { D.tells → parts.extents + parts.log ≤ length (contents ((D.disk dev.old).files parts.file.now)) }
    requires stands { D.tells → IsGate (D.disk dev.old) gate.old }
    ensures stands { D.tells → OnOk result (IsGate (D.disk dev.new) gate.new) }
    ensures sealed { D.tells → OnOk result (HasSealed gate.old.name (with_digest (parts_of parts.entry.front.now (contents ((D.disk dev.old).files parts.entry.file.now)) parts.entry.extents parts.entry.size.now parts.entry.log)) (D.disk dev.old) ((D.disk dev.new).files gate.old.name)) }
    ensures count { OnOk result (length gate.new.spans ≡ length gate.old.spans + 1) }
    ensures none { OnOk result (gate.new.begun ≡ None) }
    ensures name { gate.new.name ≡ gate.old.name }
    ensures fit { OnOk result (gate.new.failed ≡ false) }
    ensures durable { D.tells → OnOk result (IsDurable (D.disk dev.new) gate.old.name) }
    ensures crash { D.tells → Effect (IsName gate.old.name) (LeavesGrown gate.old.name (with_digest (parts_of parts.entry.front.now (contents ((D.disk dev.old).files parts.entry.file.now)) parts.entry.extents parts.entry.size.now parts.entry.log)) (D.disk dev.old)) (D.disk dev.old) (D.disk dev.new) }
    ensures cause { HasCause D.disk_faults D.tell_faults dev.old dev.new (IsErr result) }
{
    let mut hasher = Sha256::new();
    gate.begin();
    put_parts(dev, gate, &mut hasher, parts, buffer)?;
    let digest = hasher.finalize();
    seal_digest(dev, gate, &digest)
}

/// Seals a blob of a front, the extents of a set that is being written, the length of its log and the log, and their digest,
/// by one place of the gate's spare. Takes no memory. A crash leaves the sealed blobs as they were, or with this one.
pub fn seal_staged<D: Device>(
    dev: &mut D,
    gate: &mut Gate,
    set: &Staged,
    front: &[u8],
    size: &[u8],
    buffer: &mut [u8],
) -> Result<(), Failed>
    requires fit { gate.old.failed ≡ false }
    requires none { gate.old.begun ≡ None }
    requires spare { 1 ≤ gate.old.spare }
    requires apart { set.now.name ≢ gate.old.name }
    requires size { length buffer.old ≡ 1048576 }
    requires staged { D.tells → IsStaged (D.disk dev.old) set.now }
    requires stands { D.tells → IsGate (D.disk dev.old) gate.old }
    ensures stands { D.tells → OnOk result (IsGate (D.disk dev.new) gate.new) }
    ensures sealed { D.tells → OnOk result (HasSealed gate.old.name (with_digest (parts_of front.now (staged (D.disk dev.old) set.now) (65542 * set.now.extents) size.now set.now.log)) (D.disk dev.old) ((D.disk dev.new).files gate.old.name)) }
    ensures count { OnOk result (length gate.new.spans ≡ length gate.old.spans + 1) }
    ensures none { OnOk result (gate.new.begun ≡ None) }
    ensures name { gate.new.name ≡ gate.old.name }
    ensures fit { OnOk result (gate.new.failed ≡ false) }
    ensures durable { D.tells → OnOk result (IsDurable (D.disk dev.new) gate.old.name) }
    ensures crash { D.tells → Effect (IsName gate.old.name) (LeavesGrown gate.old.name (with_digest (parts_of front.now (staged (D.disk dev.old) set.now) (65542 * set.now.extents) size.now set.now.log)) (D.disk dev.old)) (D.disk dev.old) (D.disk dev.new) }
    ensures cause { HasCause D.disk_faults D.tell_faults dev.old dev.new (IsErr result) }
{
    let file = set.name();
    let extents = EXTENT_BYTES * u64::from(set.extents());
    let log = set.log_len();
    let parts = Parts {
        front,
        size,
        file,
        extents,
        log,
    };
    seal_parts(dev, gate, parts, buffer)
}
