// A control file that is brought to its whole length.
ghost use Rattle.std.specs.Prelude.{◌≡◌, ◌≤◌, Bool, Some, length, replicate, false, IfOk, OnOk, OnErr, IsErr};
ghost use Rattle.bk_control.specs.declared.side.Side.TheVariants.{First, Second};
ghost use Rattle.bk_control.specs.Slots.{Slot, slot_at, counting};
ghost use Rattle.bk_control.specs.Stands.{Holds, Stands, Grows, Lengthens};
ghost use Rattle.bk_device.specs.Calls.{contents, written, LeavesWrite, CallsOn};
ghost use Rattle.bk_device.specs.Counts.{HasCause};
ghost use Rattle.bk_device.specs.Disk.{IsDurable};
ghost use Rattle.bk_device.specs.Effects.{Effect, IsName};

use crate::found::file_len;
use crate::side::Side;
use bk_device::{Device, Failed};

// Writes so many zeros, at most 4,096, which aren't durable yet.
fn write_zeros<D: Device>(dev: &mut D, name: &str, at: u64, n: usize) -> Result<(), Failed>
    requires most { n ≤ 4096 }
    requires inside { D.tells → at ≤ length (contents ((D.disk dev.old).files name.now)) }
    ensures written { D.tells → OnOk result ((D.disk dev.new).files name.now ≡ Some (written (contents ((D.disk dev.old).files name.now)) at (replicate n 0))) }
    ensures effect { D.tells → CallsOn name.now (LeavesWrite at n) (D.disk dev.old) (D.disk dev.new) }
    ensures cause { HasCause D.disk_faults D.tell_faults dev.old dev.new (IsErr result) }
{
    let zeros = [0u8; 4_096];
    dev.write(name, at, &zeros[..n])
}

// Writes zeros behind the end of a shorter file up to this length in bytes, durably.
pub fn lengthen<D: Device>(dev: &mut D, name: &str, from: u64, to: u64) -> Result<(), Failed>
    requires from { D.tells → from ≡ length (contents ((D.disk dev.old).files name.now)) }
    requires settled { D.tells → IsDurable (D.disk dev.old) name.now }
    ensures lengthened { D.tells → OnOk result (Lengthens to (contents ((D.disk dev.old).files name.now)) (contents ((D.disk dev.new).files name.now))) }
    ensures durable { D.tells → OnOk result (IsDurable (D.disk dev.new) name.now) }
    ensures crash { D.tells → Effect (IsName name.now) (λ image. Grows to (contents ((D.disk dev.old).files name.now)) (contents (image name.now))) (D.disk dev.old) (D.disk dev.new) }
    ensures cause { HasCause D.disk_faults D.tell_faults dev.old dev.new (IsErr result) }
{
    let mut at = from;
    'pieces: while at < to {
        let n = (to - at).min(4_096);
        write_zeros(dev, name, at, n as usize)?;
        at += n;
    }
    dev.sync(name)
}

// Cuts off what stands of the second slot, where the first counts, and says how long the file is then.
fn drop_second<D: Device>(dev: &mut D, name: &str, len: u64) -> Result<u64, Failed>
    requires len { D.tells → len ≡ length (contents ((D.disk dev.old).files name.now)) }
    requires holds { D.tells → (is_open : Bool) × (slot : Slot) × Holds First is_open slot (contents ((D.disk dev.old).files name.now)) }
    requires settled { D.tells → IsDurable (D.disk dev.old) name.now }
    ensures len { D.tells → IfOk result (λ left. left ≡ length (contents ((D.disk dev.new).files name.now))) }
    ensures short { IfOk result (λ left. left ≤ 65600) }
    ensures same { D.tells → OnOk result (slot_at (contents ((D.disk dev.new).files name.now)) 0 ≡ slot_at (contents ((D.disk dev.old).files name.now)) 0) }
    ensures durable { D.tells → OnOk result (IsDurable (D.disk dev.new) name.now) }
    ensures crash { D.tells → Effect (IsName name.now) (λ image. counting (contents (image name.now)) ≡ counting (contents ((D.disk dev.old).files name.now))) (D.disk dev.old) (D.disk dev.new) }
    ensures cause { HasCause D.disk_faults D.tell_faults dev.old dev.new (IsErr result) }
{
    if len <= 65_600 {
        return Ok(len);
    }
    dev.cut(name, 65_600)?;
    dev.sync(name)?;
    Ok(65_600)
}

// Puts a closed second slot behind a first one that counts, in a file of this length.
fn add_second<D: Device>(dev: &mut D, name: &str, len: u64) -> Result<(), Failed>
    requires len { D.tells → len ≡ length (contents ((D.disk dev.old).files name.now)) }
    requires holds { D.tells → (is_open : Bool) × (slot : Slot) × Holds First is_open slot (contents ((D.disk dev.old).files name.now)) }
    requires settled { D.tells → IsDurable (D.disk dev.old) name.now }
    ensures stands { D.tells → (is_open : Bool) (slot : Slot) → Holds First is_open slot (contents ((D.disk dev.old).files name.now)) → OnOk result (Stands First false slot (contents ((D.disk dev.new).files name.now))) }
    ensures durable { D.tells → OnOk result (IsDurable (D.disk dev.new) name.now) }
    ensures crash { D.tells → Effect (IsName name.now) (λ image. counting (contents (image name.now)) ≡ counting (contents ((D.disk dev.old).files name.now))) (D.disk dev.old) (D.disk dev.new) }
    ensures cause { HasCause D.disk_faults D.tell_faults dev.old dev.new (IsErr result) }
{
    let left = drop_second(dev, name, len)?;
    // up to the gate byte of the second slot, and with it
    lengthen(dev, name, left, 65_609)?;
    lengthen(dev, name, 65_609, 131_200)
}

// Brings a file, in which this slot counts, to its whole length, and says whether the other slot is open then.
pub fn fill_up<D: Device>(
    dev: &mut D,
    name: &str,
    side: Side,
    is_open: bool,
) -> Result<bool, Failed>
    requires holds { D.tells → (slot : Slot) × Holds side is_open slot (contents ((D.disk dev.old).files name.now)) }
    requires settled { D.tells → IsDurable (D.disk dev.old) name.now }
    ensures stands { D.tells → (slot : Slot) → Holds side is_open slot (contents ((D.disk dev.old).files name.now)) → IfOk result (λ is_open_now. Stands side is_open_now slot (contents ((D.disk dev.new).files name.now))) }
    ensures durable { D.tells → OnOk result (IsDurable (D.disk dev.new) name.now) }
    ensures crash { D.tells → Effect (IsName name.now) (λ image. counting (contents (image name.now)) ≡ counting (contents ((D.disk dev.old).files name.now))) (D.disk dev.old) (D.disk dev.new) }
    ensures cause { HasCause D.disk_faults D.tell_faults dev.old dev.new (IsErr result) }
{
    let len = file_len(dev, name)?;
    match side {
        Side::First => {
            add_second(dev, name, len)?;
            Ok(false)
        }
        Side::Second => {
            lengthen(dev, name, len, 131_200)?;
            Ok(is_open)
        }
    }
}
