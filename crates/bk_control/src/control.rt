// A control file: one content, which each crash leaves as it was or as it became.
ghost use Rattle.std.specs.Prelude.{◌≡◌, ◌≤◌, ◌<◌, ◌-◌, ◌⊎◌, ◌^◌, ◌+◌, Some, None, length, vec_len, vec_capacity, true, false, is_err, string_bytes, IfOk, OnOk, OnErr, IsErrOf, IsErr};
ghost use Rattle.bk_control.specs.Control.{Kept, IsControl, IsReady};
ghost use Rattle.bk_control.specs.Slots.{control_of};
ghost use Rattle.bk_device.specs.Calls.{ChangesNothing};
ghost use Rattle.bk_device.specs.Counts.{HasCause};
ghost use Rattle.bk_device.specs.Disk.{IsDurable};
ghost use Rattle.bk_device.specs.Effects.{Effect, IsName};

use crate::error::ControlError;
use crate::found::{file_len, find, read_content};
use crate::fresh::{lay, open_first};
use crate::side::Side;
use crate::slot::rewrite;
use crate::whole::fill_up;
use bk_device::{Device, Failed, write_durably};
use std::alloc::Global;
use std::marker::Model;

/// A control file of one content, of at most 65,536 bytes.
///
/// Once a call has answered `Failed` the value is failed, and is no longer used.
pub struct Control {
    name: String,
    // with room for 65,536 bytes
    content: Vec<u8>,
    side: Side,
    sequence: u64,
    is_other_open: bool,
    // whether the file is known to have both slots in their whole length
    is_whole: bool,
    failed: bool,
}

impl Drop for Control {
    fn drop(self) {
        let Control {
            name: _,
            content: _,
            side: _,
            sequence: _,
            is_other_open: _,
            is_whole: _,
            failed: _,
        } = self;
    }
}

impl Model for Control {
    ghost Value = { Kept };

    ghost view = { λ c. record {
      name = string_bytes c.name;
      content = c.content.items;
      failed = c.failed;
      side = c.side;
      sequence = c.sequence;
      is_other_open = c.is_other_open;
      is_whole = c.is_whole;
    } };

    ghost invariant = { λ c. (65536 ≤ vec_capacity c.content) × (vec_len c.content ≤ 65536) };
}

impl Control {
    /// Opens the control file of this name, and leaves it as it is.
    ///
    /// `Foreign` is answered exactly where the file holds no control: where neither slot has the magic, an open gate and
    /// a length that fits, which is at most 65,536 and leaves the content whole in the file.
    pub fn load<D: Device>(alloc: Global, dev: &mut D, name: &str) -> Result<Control, ControlError>
        ensures content { D.tells → IfOk result (λ c. control_of ((D.disk dev.old).files name.now) ≡ Some c.content) }
        ensures name { IfOk result (λ c. c.name ≡ name.now) }
        ensures failed { IfOk result (λ c. c.failed ≡ false) }
        ensures stands { D.tells → IsDurable (D.disk dev.old) name.now → IfOk result (λ c. IsControl (D.disk dev.new) c) }
        ensures effect { D.tells → ChangesNothing (D.disk dev.old) (D.disk dev.new) }
        ensures foreign { D.tells → IsErrOf result ControlError.Foreign → control_of ((D.disk dev.old).files name.now) ≡ None }
        ensures cause { HasCause D.disk_faults D.tell_faults dev.old dev.new (IsErrOf result ControlError.Fault) }
        ensures no_memory { IsErrOf result ControlError.NoMemory → dev.new ≡ dev.old }
    {
        let name_kept = String::from_str(alloc, name)?;
        let mut content = Vec::with_capacity(alloc, 65_536)?;
        let len = file_len(dev, name)?;
        let Some(found) = find(dev, name, len)? else {
            return Err(ControlError::Foreign);
        };
        read_content(dev, name, found, &mut content)?;
        Ok(Control {
            name: name_kept,
            content,
            side: found.side,
            sequence: found.sequence,
            is_other_open: found.is_other_open,
            is_whole: 131_200 <= len,
            failed: false,
        })
    }

    /// Makes a control file of these bytes, at most 65,536, in place of what was under the name. Until it is made,
    /// a crash leaves what it might have left before, or no control.
    ///
    /// `NoMemory` leaves the device as it was; `Foreign` isn't answered.
    pub fn make<D: Device>(
        alloc: Global,
        dev: &mut D,
        name: &str,
        bytes: &[u8],
    ) -> Result<Control, ControlError>
        requires { length bytes.now ≤ 65536 }
        ensures content { IfOk result (λ c. c.content ≡ bytes.now) }
        ensures name { IfOk result (λ c. c.name ≡ name.now) }
        ensures failed { IfOk result (λ c. c.failed ≡ false) }
        ensures stands { D.tells → IfOk result (λ c. IsControl (D.disk dev.new) c) }
        ensures crash { D.tells → Effect (IsName name.now) (λ image. (D.disk dev.old).may name.now (image name.now) ⊎ (control_of (image name.now) ≡ None) ⊎ (control_of (image name.now) ≡ Some bytes.now)) (D.disk dev.old) (D.disk dev.new) }
        ensures foreign { IsErrOf result ControlError.Foreign → ⊥ }
        ensures cause { HasCause D.disk_faults D.tell_faults dev.old dev.new (IsErrOf result ControlError.Fault) }
        ensures no_memory { IsErrOf result ControlError.NoMemory → dev.new ≡ dev.old }
    {
        let name_kept = String::from_str(alloc, name)?;
        let mut content = Vec::with_capacity(alloc, 65_536)?;
        refill(&mut content, bytes);
        lay(dev, name)?;
        open_first(dev, name, bytes)?;
        Ok(Control {
            name: name_kept,
            content,
            side: Side::First,
            sequence: 0,
            is_other_open: false,
            is_whole: true,
            failed: false,
        })
    }

    /// The content.
    pub fn get(&self) -> &[u8]
        requires { self.now.failed ≡ false }
        ensures content { result.now ≡ self.now.content }
        ensures short { length result.now ≤ 65536 }
    {
        &self.content
    }

    /// Makes these bytes, at most 65,536, the content: a crash leaves the old content or the new one.
    pub fn put<D: Device>(&mut self, dev: &mut D, bytes: &[u8]) -> Result<(), Failed>
        requires fit { self.old.failed ≡ false }
        requires short { length bytes.now ≤ 65536 }
        requires stands { D.tells → IsControl (D.disk dev.old) self.old }
        ensures content { OnOk result (self.new.content ≡ bytes.now) }
        ensures name { self.new.name ≡ self.old.name }
        ensures failed { self.new.failed ≡ is_err result }
        ensures stands { D.tells → OnOk result (IsControl (D.disk dev.new) self.new) }
        ensures crash { D.tells → Effect (IsName self.old.name) (λ image. (control_of (image self.old.name) ≡ Some self.old.content) ⊎ (control_of (image self.old.name) ≡ Some bytes.now)) (D.disk dev.old) (D.disk dev.new) }
        ensures cause { HasCause D.disk_faults D.tell_faults dev.old dev.new (IsErr result) }
    {
        let outcome = self.store(dev, bytes);
        self.failed = outcome.is_err();
        outcome
    }

    fn store<D: Device>(&mut self, dev: &mut D, bytes: &[u8]) -> Result<(), Failed>
        requires short { length bytes.now ≤ 65536 }
        requires stands { D.tells → IsControl (D.disk dev.old) self.old }
        ensures content { OnOk result (self.new.content ≡ bytes.now) }
        ensures name { self.new.name ≡ self.old.name }
        ensures stands { D.tells → OnOk result (IsControl (D.disk dev.new) self.new) }
        ensures crash { D.tells → Effect (IsName self.old.name) (λ image. (control_of (image self.old.name) ≡ Some self.old.content) ⊎ (control_of (image self.old.name) ≡ Some bytes.now)) (D.disk dev.old) (D.disk dev.new) }
        ensures cause { HasCause D.disk_faults D.tell_faults dev.old dev.new (IsErr result) }
    {
        self.make_ready(dev)?;
        self.advance(dev, bytes)
    }

    // Sees to it that both slots are there in their whole length, and that a sequence is left.
    fn make_ready<D: Device>(&mut self, dev: &mut D) -> Result<(), Failed>
        requires stands { D.tells → IsControl (D.disk dev.old) self.old }
        ensures content { self.new.content ≡ self.old.content }
        ensures name { self.new.name ≡ self.old.name }
        ensures room { OnOk result (self.new.sequence < 2 ^ 64 - 1) }
        ensures stands { D.tells → OnOk result (IsReady (D.disk dev.new) self.new) }
        ensures crash { D.tells → Effect (IsName self.old.name) (λ image. control_of (image self.old.name) ≡ Some self.old.content) (D.disk dev.old) (D.disk dev.new) }
        ensures cause { HasCause D.disk_faults D.tell_faults dev.old dev.new (IsErr result) }
    {
        self.make_whole(dev)?;
        self.leave_room(dev)
    }

    // Sees to it that both slots are there in their whole length.
    fn make_whole<D: Device>(&mut self, dev: &mut D) -> Result<(), Failed>
        requires stands { D.tells → IsControl (D.disk dev.old) self.old }
        ensures content { self.new.content ≡ self.old.content }
        ensures name { self.new.name ≡ self.old.name }
        ensures stands { D.tells → OnOk result (IsReady (D.disk dev.new) self.new) }
        ensures crash { D.tells → Effect (IsName self.old.name) (λ image. control_of (image self.old.name) ≡ Some self.old.content) (D.disk dev.old) (D.disk dev.new) }
        ensures cause { HasCause D.disk_faults D.tell_faults dev.old dev.new (IsErr result) }
    {
        if !self.is_whole {
            self.is_other_open = fill_up(dev, &self.name, self.side, self.is_other_open)?;
            self.is_whole = true;
        }
        Ok(())
    }

    // Sees to it that a sequence is left.
    fn leave_room<D: Device>(&mut self, dev: &mut D) -> Result<(), Failed>
        requires stands { D.tells → IsReady (D.disk dev.old) self.old }
        ensures content { self.new.content ≡ self.old.content }
        ensures name { self.new.name ≡ self.old.name }
        ensures room { OnOk result (self.new.sequence < 2 ^ 64 - 1) }
        ensures stands { D.tells → OnOk result (IsReady (D.disk dev.new) self.new) }
        ensures crash { D.tells → Effect (IsName self.old.name) (λ image. control_of (image self.old.name) ≡ Some self.old.content) (D.disk dev.old) (D.disk dev.new) }
        ensures cause { HasCause D.disk_faults D.tell_faults dev.old dev.new (IsErr result) }
    {
        if self.sequence == u64::MAX {
            self.renumber(dev)?;
        }
        Ok(())
    }

    // Puts the content into the other slot, under the next sequence.
    fn advance<D: Device>(&mut self, dev: &mut D, bytes: &[u8]) -> Result<(), Failed>
        requires short { length bytes.now ≤ 65536 }
        requires room { self.old.sequence < 2 ^ 64 - 1 }
        requires stands { D.tells → IsReady (D.disk dev.old) self.old }
        ensures content { OnOk result (self.new.content ≡ bytes.now) }
        ensures name { self.new.name ≡ self.old.name }
        ensures stands { D.tells → OnOk result (IsReady (D.disk dev.new) self.new) }
        ensures crash { D.tells → Effect (IsName self.old.name) (λ image. (control_of (image self.old.name) ≡ Some self.old.content) ⊎ (control_of (image self.old.name) ≡ Some bytes.now)) (D.disk dev.old) (D.disk dev.new) }
        ensures cause { HasCause D.disk_faults D.tell_faults dev.old dev.new (IsErr result) }
    {
        let side = self.side.other();
        let sequence = self.sequence + 1;
        rewrite(dev, &self.name, side, self.is_other_open, sequence, bytes)?;
        self.side = side;
        self.sequence = sequence;
        self.is_other_open = true;
        refill(&mut self.content, bytes);
        Ok(())
    }

    // Puts the same content into the other slot under the least sequence, and closes this one.
    fn renumber<D: Device>(&mut self, dev: &mut D) -> Result<(), Failed>
        requires stands { D.tells → IsReady (D.disk dev.old) self.old }
        ensures content { self.new.content ≡ self.old.content }
        ensures name { self.new.name ≡ self.old.name }
        ensures room { OnOk result (self.new.sequence ≡ 0) }
        ensures stands { D.tells → OnOk result (IsReady (D.disk dev.new) self.new) }
        ensures crash { D.tells → Effect (IsName self.old.name) (λ image. control_of (image self.old.name) ≡ Some self.old.content) (D.disk dev.old) (D.disk dev.new) }
        ensures cause { HasCause D.disk_faults D.tell_faults dev.old dev.new (IsErr result) }
    {
        let side = self.side.other();
        rewrite(dev, &self.name, side, self.is_other_open, 0, &self.content)?;
        write_durably(dev, &self.name, self.side.place() + 8, &[0])?;
        self.side = side;
        self.sequence = 0;
        self.is_other_open = false;
        Ok(())
    }
}

// Puts these bytes into a buffer with room for them.
fn refill(buffer: &mut Vec<u8>, bytes: &[u8])
    requires { length bytes.now ≤ vec_capacity buffer.old }
    ensures items { buffer.new.items ≡ bytes.now }
    ensures room { vec_capacity buffer.old ≤ vec_capacity buffer.new }
{
    buffer.clear();
    match buffer.extend_from_slice(bytes) {
        Ok(()) => {}
        Err(_) => unreachable!(),
    }
}
