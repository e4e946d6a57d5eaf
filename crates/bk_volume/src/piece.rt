//! Adding pieces to a blob that is begun, whose digest is taken as they pass.
ghost use Rattle.std.specs.Prelude.{◌≡◌, ◌≢◌, ◌≤◌, ◌<◌, ◌+◌, ◌^◌, length, true, false, OnOk, IsErr, IsSome};
ghost use Rattle.bk_device.specs.Calls.{contents};
ghost use Rattle.bk_device.specs.Counts.{HasCause};
ghost use Rattle.bk_device.specs.Effects.{Effect, IsName};
ghost use Rattle.bk_gate.specs.Gate.{IsGate, begun_of};
ghost use Rattle.sha2.specs.Hashers.{Holds256};
ghost use Rattle.bk_volume.specs.Writing.{Adds, Copies, LeavesSealed};

use bk_device::{Device, Failed};
use bk_gate::Gate;
use sha2::{Digest, Sha256};

/// The greatest number of bytes that are read or written at once.
pub const PIECE_BYTES: u64 = 1_048_576;

// Adds bytes to the blob that is begun, and to what its digest is taken of.
pub fn put<D: Device>(
    dev: &mut D,
    gate: &mut Gate,
    hasher: &mut Sha256,
    bytes: &[u8],
) -> Result<(), Failed>
    requires fit { gate.old.failed ≡ false }
    requires begun { IsSome gate.old.begun }
    requires stands { D.tells → IsGate (D.disk dev.old) gate.old }
    requires hashed { D.tells → Holds256 hasher.old (begun_of (D.disk dev.old) gate.old) }
    ensures added { D.tells → OnOk result (Adds gate.old gate.new bytes.now hasher.new (D.disk dev.old) (D.disk dev.new)) }
    ensures begun { OnOk result (IsSome gate.new.begun) }
    ensures same { OnOk result (gate.new ≡ record gate.old { begun = gate.new.begun; is_closed = true }) }
    ensures name { gate.new.name ≡ gate.old.name }
    ensures fit { OnOk result (gate.new.failed ≡ false) }
    ensures crash { D.tells → Effect (IsName gate.old.name) (LeavesSealed gate.old.name (D.disk dev.old)) (D.disk dev.old) (D.disk dev.new) }
    ensures cause { HasCause D.disk_faults D.tell_faults dev.old dev.new (IsErr result) }
{
    hasher.update(bytes);
    gate.add(dev, bytes)?;
    Ok(())
}

// Adds a part of a file, as long as the buffer, to the blob that is begun.
fn copy_piece<D: Device>(
    dev: &mut D,
    gate: &mut Gate,
    hasher: &mut Sha256,
    from: &str,
    at: u64,
    buffer: &mut [u8],
) -> Result<(), Failed>
    requires fit { gate.old.failed ≡ false }
    requires begun { IsSome gate.old.begun }
    requires apart { from.now ≢ gate.old.name }
    requires inside { D.tells → at + length buffer.old ≤ length (contents ((D.disk dev.old).files from.now)) }
    requires stands { D.tells → IsGate (D.disk dev.old) gate.old }
    requires hashed { D.tells → Holds256 hasher.old (begun_of (D.disk dev.old) gate.old) }
    ensures copied { D.tells → OnOk result (Copies from.now at (length buffer.old) gate.old gate.new hasher.new (D.disk dev.old) (D.disk dev.new)) }
    ensures begun { OnOk result (IsSome gate.new.begun) }
    ensures same { OnOk result (gate.new ≡ record gate.old { begun = gate.new.begun; is_closed = true }) }
    ensures name { gate.new.name ≡ gate.old.name }
    ensures fit { OnOk result (gate.new.failed ≡ false) }
    ensures size { length buffer.new ≡ length buffer.old }
    ensures crash { D.tells → Effect (IsName gate.old.name) (LeavesSealed gate.old.name (D.disk dev.old)) (D.disk dev.old) (D.disk dev.new) }
    ensures cause { HasCause D.disk_faults D.tell_faults dev.old dev.new (IsErr result) }
{
    dev.read(from, at, buffer)?;
    put(dev, gate, hasher, buffer)
}

// Adds `len` bytes of a file from `at` on to the blob that is begun, in pieces of the buffer's length.
pub fn copy_part<D: Device>(
    dev: &mut D,
    gate: &mut Gate,
    hasher: &mut Sha256,
    from: &str,
    at: u64,
    len: u64,
    buffer: &mut [u8],
) -> Result<(), Failed>
    requires fit { gate.old.failed ≡ false }
    requires begun { IsSome gate.old.begun }
    requires apart { from.now ≢ gate.old.name }
    requires small { at + len < 2 ^ 64 }
    requires size { length buffer.old ≡ 1048576 }
    requires inside { D.tells → at + len ≤ length (contents ((D.disk dev.old).files from.now)) }
    requires stands { D.tells → IsGate (D.disk dev.old) gate.old }
    requires hashed { D.tells → Holds256 hasher.old (begun_of (D.disk dev.old) gate.old) }
    ensures copied { D.tells → OnOk result (Copies from.now at len gate.old gate.new hasher.new (D.disk dev.old) (D.disk dev.new)) }
    ensures begun { OnOk result (IsSome gate.new.begun) }
    ensures same { OnOk result (gate.new ≡ record gate.old { begun = gate.new.begun; is_closed = gate.new.is_closed }) }
    ensures name { gate.new.name ≡ gate.old.name }
    ensures fit { OnOk result (gate.new.failed ≡ false) }
    ensures size { length buffer.new ≡ length buffer.old }
    ensures crash { D.tells → Effect (IsName gate.old.name) (LeavesSealed gate.old.name (D.disk dev.old)) (D.disk dev.old) (D.disk dev.new) }
    ensures cause { HasCause D.disk_faults D.tell_faults dev.old dev.new (IsErr result) }
{
    'pieces: for i in 0..len / PIECE_BYTES {
        copy_piece(dev, gate, hasher, from, at + PIECE_BYTES * i, buffer)?;
    }
    let rest = len % PIECE_BYTES;
    let end = &mut buffer[..rest as usize];
    copy_piece(dev, gate, hasher, from, at + (len - rest), end)
}
