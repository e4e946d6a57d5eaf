// The writes that put a content into a slot.
ghost use Rattle.std.specs.Prelude.{◌≡◌, ◌≤◌, ◌<◌, ◌+◌, ◌++◌, ◌⊎◌, ◌^◌, Some, length, drop, replicate, true, false, OnOk, OnErr, IsErr};
ghost use Rattle.bk_lemmas.specs.Numbers.{number, number_bytes};
ghost use Rattle.bk_control.specs.Slots.{Slot, magic, slot_at, counting, control_of, other, place};
ghost use Rattle.bk_control.specs.Stands.{Stands, IsFilled, ChangesSlot, Rewrites, MayFollow};
ghost use Rattle.bk_device.specs.Calls.{contents, written};
ghost use Rattle.bk_device.specs.Counts.{HasCause};
ghost use Rattle.bk_device.specs.Disk.{IsDurable};
ghost use Rattle.bk_device.specs.Effects.{Effect, IsName};

use crate::side::Side;
use bk_device::{Device, Failed, write_durably};
use byteorder::{ByteOrder, LittleEndian};

pub const MAGIC: [u8; 8] = *b"SQLBAKC1";

pub fn read_number(bytes: &[u8]) -> u64
    requires { length bytes.now ≡ 8 }
    ensures { result ≡ number bytes.now }
{
    LittleEndian::read_u64(bytes)
}

pub fn write_number(bytes: &mut [u8], n: u64)
    requires { length bytes.old ≡ 8 }
    ensures { bytes.new ≡ number_bytes n }
{
    LittleEndian::write_u64(bytes, n);
}

// What stands between a slot's gate byte and its content.
pub fn head(sequence: u64, len: u64) -> [u8; 23]
    ensures { result ≡ replicate 7 0 ++ number_bytes sequence ++ number_bytes len }
{
    let mut head = [0u8; 23];
    write_number(&mut head[7..15], sequence);
    write_number(&mut head[15..23], len);
    head
}

// Writes all of a slot but its gate byte, durably.
pub fn fill<D: Device>(
    dev: &mut D,
    name: &str,
    start: u64,
    sequence: u64,
    bytes: &[u8],
) -> Result<(), Failed>
    requires short { length bytes.now ≤ 65536 }
    requires start { start ≤ 65600 }
    requires whole { D.tells → 131200 ≤ length (contents ((D.disk dev.old).files name.now)) }
    requires settled { D.tells → IsDurable (D.disk dev.old) name.now }
    ensures filled { D.tells → OnOk result (IsFilled start (record { sequence = sequence; bytes = bytes.now }) (contents ((D.disk dev.new).files name.now))) }
    ensures changed { D.tells → OnOk result (ChangesSlot start (contents ((D.disk dev.old).files name.now)) (contents ((D.disk dev.new).files name.now))) }
    ensures durable { D.tells → OnOk result (IsDurable (D.disk dev.new) name.now) }
    ensures crash { D.tells → Effect (IsName name.now) (λ image. ChangesSlot start (contents ((D.disk dev.old).files name.now)) (contents (image name.now))) (D.disk dev.old) (D.disk dev.new) }
    ensures cause { HasCause D.disk_faults D.tell_faults dev.old dev.new (IsErr result) }
{
    dev.write(name, start, &MAGIC)?;
    dev.write(name, start + 9, &head(sequence, bytes.len() as u64))?;
    dev.write(name, start + 32, bytes)?;
    dev.sync(name)
}

// Closes the gate of the slot that doesn't count, if it is open, durably.
fn close<D: Device>(dev: &mut D, name: &str, side: Side, is_open: bool) -> Result<(), Failed>
    requires settled { D.tells → IsDurable (D.disk dev.old) name.now }
    requires stands { D.tells → (old : Slot) × Stands (other side) is_open old (contents ((D.disk dev.old).files name.now)) }
    ensures stands { D.tells → (old : Slot) → Stands (other side) is_open old (contents ((D.disk dev.old).files name.now)) → OnOk result (Stands (other side) false old (contents ((D.disk dev.new).files name.now))) }
    ensures durable { D.tells → OnOk result (IsDurable (D.disk dev.new) name.now) }
    ensures crash { D.tells → Effect (IsName name.now) (λ image. counting (contents (image name.now)) ≡ counting (contents ((D.disk dev.old).files name.now))) (D.disk dev.old) (D.disk dev.new) }
    ensures cause { HasCause D.disk_faults D.tell_faults dev.old dev.new (IsErr result) }
{
    if !is_open {
        return Ok(());
    }
    write_durably(dev, name, side.place() + 8, &[0])
}

// Puts a content into the slot that doesn't count: a crash leaves the content that counts, or this one.
pub fn rewrite<D: Device>(
    dev: &mut D,
    name: &str,
    side: Side,
    is_open: bool,
    sequence: u64,
    bytes: &[u8],
) -> Result<(), Failed>
    requires short { length bytes.now ≤ 65536 }
    requires settled { D.tells → IsDurable (D.disk dev.old) name.now }
    requires stands { D.tells → (old : Slot) × Stands (other side) is_open old (contents ((D.disk dev.old).files name.now)) × MayFollow old (record { sequence = sequence; bytes = bytes.now }) }
    ensures rewritten { D.tells → OnOk result (Rewrites side (record { sequence = sequence; bytes = bytes.now }) (contents ((D.disk dev.old).files name.now)) (contents ((D.disk dev.new).files name.now))) }
    ensures durable { D.tells → OnOk result (IsDurable (D.disk dev.new) name.now) }
    ensures crash { D.tells → Effect (IsName name.now) (λ image. (control_of (image name.now) ≡ control_of ((D.disk dev.old).files name.now)) ⊎ (control_of (image name.now) ≡ Some bytes.now)) (D.disk dev.old) (D.disk dev.new) }
    ensures cause { HasCause D.disk_faults D.tell_faults dev.old dev.new (IsErr result) }
{
    close(dev, name, side, is_open)?;
    fill(dev, name, side.place(), sequence, bytes)?;
    write_durably(dev, name, side.place() + 8, &[1])
}
