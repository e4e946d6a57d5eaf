//! What stands around the extents and the log of a set, and the buffer that these pass through.
ghost use Rattle.std.specs.Prelude.{◌*◌, ◌≡◌, ◌≢◌, ◌≤◌, ◌+◌, None, false, length, IfOk, OnOk, IsErr};
ghost use Rattle.std.specs.List.{AllByRecursion};
ghost use Rattle.bk_body.specs.Spelling.{front_bytes};
ghost use Rattle.bk_bytes.specs.Field.{bytes_of};
ghost use Rattle.bk_device.specs.Counts.{HasCause};
ghost use Rattle.bk_device.specs.Disk.{IsDurable};
ghost use Rattle.bk_device.specs.Effects.{Effect, IsName};
ghost use Rattle.bk_gate.specs.Gate.{IsGate};
ghost use Rattle.bk_header.specs.Conditions.{IsHeader, KeepsConditions};
ghost use Rattle.bk_body.specs.Conditions.{IsTable};
ghost use Rattle.bk_volume.specs.Staging.{IsStaged, staged};
ghost use Rattle.bk_volume.specs.Writing.{parts_of, with_digest, HasSealed, LeavesGrown};

use crate::piece::PIECE_BYTES;
use crate::sealing::seal_staged;
use crate::staging::Staged;
use bk_body::spell_front;
use bk_bytes::append_u64;
use bk_device::{Device, Failed};
use bk_gate::Gate;
use bk_world::{Header, TableSpec};
use std::alloc::{AllocError, Global};

/// All memory that sealing a set takes.
pub struct Around {
    /// The header, the tables and the number of extents.
    front: Vec<u8>,
    /// The length of the log.
    size: Vec<u8>,
    buffer: Vec<u8>,
}

impl Drop for Around {
    fn drop(self) {
        let Around {
            front: _,
            size: _,
            buffer: _,
        } = self;
    }
}

// The length of a log in 8 bytes.
fn spell_size(alloc: Global, len: u64) -> Result<Vec<u8>, AllocError>
    ensures { IfOk result (λ size. size.items ≡ bytes_of 8 len) }
{
    let mut size = Vec::new(alloc);
    append_u64(&mut size, len)?;
    Ok(size)
}

/// Takes the memory for sealing a set with this header and these tables.
pub fn take_around(
    alloc: Global,
    set: &Staged,
    header: &Header,
    tables: &[TableSpec],
) -> Result<Around, AllocError>
    requires keeps { KeepsConditions header.now }
    requires few { length tables.now ≤ 64 }
    ensures front { IfOk result (λ a. a.front.items ≡ front_bytes header.now tables.now set.now.extents) }
    ensures size { IfOk result (λ a. a.size.items ≡ bytes_of 8 set.now.log) }
    ensures buffer { IfOk result (λ a. length a.buffer.items ≡ 1048576) }
    ensures header { OnOk result (IsHeader header.now) }
    ensures tables { OnOk result (AllByRecursion IsTable tables.now) }
{
    let front = spell_front(alloc, header, tables, set.extents())?;
    let size = spell_size(alloc, set.log_len())?;
    let buffer = vec![in alloc; 0u8; PIECE_BYTES as usize]?;
    Ok(Around {
        front,
        size,
        buffer,
    })
}

/// Seals a blob of what stands around a set and of its parts, by one place of the gate's spare. A crash leaves the sealed
/// blobs as they were, or with this one.
pub fn seal_around<D: Device>(
    dev: &mut D,
    gate: &mut Gate,
    set: &Staged,
    around: &mut Around,
) -> Result<(), Failed>
    requires fit { gate.old.failed ≡ false }
    requires none { gate.old.begun ≡ None }
    requires spare { 1 ≤ gate.old.spare }
    requires apart { set.now.name ≢ gate.old.name }
    requires size { length around.old.buffer.items ≡ 1048576 }
    requires staged { D.tells → IsStaged (D.disk dev.old) set.now }
    requires stands { D.tells → IsGate (D.disk dev.old) gate.old }
    ensures stands { D.tells → OnOk result (IsGate (D.disk dev.new) gate.new) }
    ensures sealed { D.tells → OnOk result (HasSealed gate.old.name (with_digest (parts_of around.old.front.items (staged (D.disk dev.old) set.now) (65542 * set.now.extents) around.old.size.items set.now.log)) (D.disk dev.old) ((D.disk dev.new).files gate.old.name)) }
    ensures count { OnOk result (length gate.new.spans ≡ length gate.old.spans + 1) }
    ensures none { OnOk result (gate.new.begun ≡ None) }
    ensures name { gate.new.name ≡ gate.old.name }
    ensures fit { OnOk result (gate.new.failed ≡ false) }
    ensures durable { D.tells → OnOk result (IsDurable (D.disk dev.new) gate.old.name) }
    ensures crash { D.tells → Effect (IsName gate.old.name) (LeavesGrown gate.old.name (with_digest (parts_of around.old.front.items (staged (D.disk dev.old) set.now) (65542 * set.now.extents) around.old.size.items set.now.log)) (D.disk dev.old)) (D.disk dev.old) (D.disk dev.new) }
    ensures cause { HasCause D.disk_faults D.tell_faults dev.old dev.new (IsErr result) }
{
    seal_staged(
        dev,
        gate,
        set,
        &around.front,
        &around.size,
        around.buffer.as_mut_slice(),
    )
}
