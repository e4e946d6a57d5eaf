// Calls on a device in memory that ask first for what they require.
ghost use Rattle.std.specs.Prelude.{◌≡◌, ◌≤◌, ◌<◌, ◌+◌, ◌^◌, true, IfOk, OnOk, IsSomeAnd, length};
ghost use Rattle.bk_device.specs.Calls.{contents};
ghost use Rattle.bk_device.specs.Replay.{disk_of};

use bk_device::{Device, Failed, MemDevice};

// Whether a write from this place on would begin inside the file, or at its end.
fn begins_inside(device: &mut MemDevice, name: &str, at: u64) -> Result<bool, Failed>
    ensures { IfOk result (λ yes. yes ≡ true → at ≤ length (contents ((disk_of device.new).files name.now))) }
{
    let len = device.len(name)?;
    Ok(at <= len.unwrap_or(0))
}

/// Whether the file is there and has at least so many bytes.
pub(crate) fn has_bytes(device: &mut MemDevice, name: &str, len: u64) -> Result<bool, Failed>
    ensures { IfOk result (λ yes. yes ≡ true → IsSomeAnd ((disk_of device.new).files name.now) (λ content. len ≤ length content)) }
{
    match device.len(name)? {
        Some(length) => Ok(len <= length),
        None => Ok(false),
    }
}

/// Writes into a file, or behind its end. Fails where the place is beyond.
pub fn write_inside(device: &mut MemDevice, name: &str, at: u64, bytes: &[u8]) -> Result<(), Failed>
    ensures { OnOk result (at + length bytes.now < 2 ^ 62) }
{
    if !begins_inside(device, name, at)? {
        return Err(Failed);
    }
    device.write(name, at, bytes)
}

/// Cuts a file to a length. Fails where it has less.
pub fn cut_inside(device: &mut MemDevice, name: &str, len: u64) -> Result<(), Failed> {
    if !has_bytes(device, name, len)? {
        return Err(Failed);
    }
    device.cut(name, len)
}
