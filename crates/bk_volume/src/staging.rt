//! A set that is being written.
ghost use Rattle.std.specs.Prelude.{◌≡◌, ◌≤◌, ◌<◌, ◌⊎◌, ◌+◌, ◌*◌, ◌++◌, ◌^◌, None, false, length, is_err, string_bytes, IfOk, OnOk, IsErr, IsErrOf};
ghost use Rattle.bk_body.specs.Spelling.{extent_bytes};
ghost use Rattle.bk_bytes.specs.Field.{bytes_of};
ghost use Rattle.bk_device.specs.Calls.{ChangesNothing, contents};
ghost use Rattle.bk_device.specs.Counts.{HasCause};
ghost use Rattle.bk_device.specs.Disk.{IsDurable};
ghost use Rattle.bk_device.specs.Effects.{Effect, IsName};
ghost use Rattle.bk_volume.specs.Names.{staging_file};
ghost use Rattle.bk_volume.specs.Staging.{Staging, IsStaged, staged};

use crate::error::WriteError;
use crate::name::staging_file;
use bk_bytes::{put_u16, put_u32};
use bk_device::{Device, Failed, remove_durably};
use bk_ids::Guid;
use std::alloc::Global;
use std::marker::Model;

/// The bytes of an extent behind its file and number.
pub const EXTENT_BYTES: u64 = 65_542;

/// A set that is being written: its extents and its log lie in a file of their own until it is sealed.
///
/// Once a call has answered `Failed` the value is failed, and is no longer used. A crash leaves anything in the file.
pub struct Staged {
    name: String,
    extents: u32,
    log: u64,
    failed: bool,
}

impl Drop for Staged {
    fn drop(self) {
        let Staged {
            name: _,
            extents: _,
            log: _,
            failed: _,
        } = self;
    }
}

impl Model for Staged {
    ghost Value = { Staging };

    ghost view = { λ s. record { name = string_bytes s.name; extents = s.extents; log = s.log; failed = s.failed } };

    ghost invariant = { λ s. s.log < 2 ^ 62 };
}

// The file and number of an extent.
fn head_of(file: u16, extent: u32) -> [u8; 6]
    ensures { result ≡ bytes_of 2 file ++ bytes_of 4 extent }
{
    let mut head = [0; 6];
    put_u16(&mut head, 0, file);
    put_u32(&mut head, 2, extent);
    head
}

impl Staged {
    /// Begins a set, with no extent and no log.
    pub fn begin<D: Device>(alloc: Global, dev: &mut D, set: Guid) -> Result<Staged, WriteError>
        ensures begun { IfOk result (λ s. s ≡ record { name = staging_file set; extents = 0; log = 0; failed = false }) }
        ensures empty { D.tells → OnOk result ((D.disk dev.new).files (staging_file set) ≡ None) }
        ensures crash { D.tells → Effect (IsName (staging_file set)) (λ image. Unit {0}) (D.disk dev.old) (D.disk dev.new) }
        ensures cause { HasCause D.disk_faults D.tell_faults dev.old dev.new (IsErrOf result WriteError.Fault) }
        ensures no_memory { IsErrOf result WriteError.NoMemory → dev.new ≡ dev.old }
    {
        let name = staging_file(alloc, set)?;
        dev.remove(&name)?;
        Ok(Staged {
            name,
            extents: 0,
            log: 0,
            failed: false,
        })
    }

    /// Takes up a set that was begun before, to which so many extents were added and no log. Changes nothing.
    ///
    /// Where its file hasn't just the bytes of so many extents, the call ends as if memory were wanting.
    pub fn again<D: Device>(
        alloc: Global,
        dev: &mut D,
        set: Guid,
        extents: u32,
    ) -> Result<Staged, WriteError>
        ensures again { IfOk result (λ s. s ≡ record { name = staging_file set; extents = extents; log = 0; failed = false }) }
        ensures staged { D.tells → IfOk result (λ s. IsStaged (D.disk dev.new) s) }
        ensures effect { D.tells → ChangesNothing (D.disk dev.old) (D.disk dev.new) }
        ensures cause { HasCause D.disk_faults D.tell_faults dev.old dev.new (IsErrOf result WriteError.Fault) }
    {
        let name = staging_file(alloc, set)?;
        let len = dev.len(&name)?.unwrap_or(0);
        if len != EXTENT_BYTES * u64::from(extents) {
            return Err(WriteError::NoMemory);
        }
        Ok(Staged {
            name,
            extents,
            log: 0,
            failed: false,
        })
    }

    /// The name of its file.
    pub fn name(&self) -> &str
        ensures { result.now ≡ self.now.name }
    {
        self.name.as_str()
    }

    /// How many extents were added.
    pub fn extents(&self) -> u32
        ensures { result ≡ self.now.extents }
    {
        self.extents
    }

    /// How many bytes of log were added.
    pub fn log_len(&self) -> u64
        ensures value { result ≡ self.now.log }
        ensures small { result < 2 ^ 62 }
    {
        self.log
    }

    /// Adds an extent of 65,536 bytes, before any log. Takes no memory.
    pub fn add_extent<D: Device>(
        &mut self,
        dev: &mut D,
        file: u16,
        extent: u32,
        bytes: &[u8],
    ) -> Result<(), Failed>
        requires fit { self.old.failed ≡ false }
        requires first { self.old.log ≡ 0 }
        requires few { self.old.extents + 1 < 2 ^ 32 }
        requires size { length bytes.now ≡ 65536 }
        requires staged { D.tells → IsStaged (D.disk dev.old) self.old }
        ensures counted { OnOk result (self.new ≡ record self.old { extents = self.old.extents + 1 }) }
        ensures added { D.tells → OnOk result (staged (D.disk dev.new) self.old ≡ staged (D.disk dev.old) self.old ++ extent_bytes (record { file = file; extent = extent; bytes = bytes.now })) }
        ensures name { self.new.name ≡ self.old.name }
        ensures failed { self.new.failed ≡ is_err result }
        ensures crash { D.tells → Effect (IsName self.old.name) (λ image. Unit {0}) (D.disk dev.old) (D.disk dev.new) }
        ensures cause { HasCause D.disk_faults D.tell_faults dev.old dev.new (IsErr result) }
    {
        let at = EXTENT_BYTES * u64::from(self.extents);
        match write_extent(dev, &self.name, at, file, extent, bytes) {
            Ok(()) => {
                self.extents += 1;
                Ok(())
            }
            Err(e) => {
                self.failed = true;
                Err(e)
            }
        }
    }

    /// Adds bytes of the log, behind all extents. Takes no memory.
    pub fn add_log<D: Device>(&mut self, dev: &mut D, bytes: &[u8]) -> Result<(), Failed>
        requires fit { self.old.failed ≡ false }
        requires staged { D.tells → IsStaged (D.disk dev.old) self.old }
        ensures counted { OnOk result (self.new ≡ record self.old { log = self.old.log + length bytes.now }) }
        ensures added { D.tells → OnOk result (staged (D.disk dev.new) self.old ≡ staged (D.disk dev.old) self.old ++ bytes.now) }
        ensures name { self.new.name ≡ self.old.name }
        ensures failed { self.new.failed ≡ is_err result }
        ensures crash { D.tells → Effect (IsName self.old.name) (λ image. Unit {0}) (D.disk dev.old) (D.disk dev.new) }
        ensures cause { HasCause D.disk_faults D.tell_faults dev.old dev.new (IsErr result) }
    {
        let at = EXTENT_BYTES * u64::from(self.extents) + self.log;
        match write_behind(dev, &self.name, at, bytes) {
            Ok(()) => {
                self.log += bytes.len() as u64;
                Ok(())
            }
            Err(e) => {
                self.failed = true;
                Err(e)
            }
        }
    }

    /// Removes its file durably, and takes no memory. A crash leaves what it might have left before, or no file.
    pub fn remove<D: Device>(self, dev: &mut D) -> Result<(), Failed>
        ensures removed { D.tells → OnOk result ((D.disk dev.new).files self.name ≡ None) }
        ensures durable { D.tells → OnOk result (IsDurable (D.disk dev.new) self.name) }
        ensures crash { D.tells → Effect (IsName self.name) (λ image. (D.disk dev.old).may self.name (image self.name) ⊎ (image self.name ≡ None)) (D.disk dev.old) (D.disk dev.new) }
        ensures cause { HasCause D.disk_faults D.tell_faults dev.old dev.new (IsErr result) }
    {
        remove_durably(dev, &self.name)
    }
}

/// Removes the file of a set that is being written or was, if there is one, durably. A crash leaves what it might have left
/// before, or no file.
pub fn remove_staged<D: Device>(alloc: Global, dev: &mut D, set: Guid) -> Result<(), WriteError>
    ensures removed { D.tells → OnOk result ((D.disk dev.new).files (staging_file set) ≡ None) }
    ensures durable { D.tells → OnOk result (IsDurable (D.disk dev.new) (staging_file set)) }
    ensures crash { D.tells → Effect (IsName (staging_file set)) (λ image. (D.disk dev.old).may (staging_file set) (image (staging_file set)) ⊎ (image (staging_file set) ≡ None)) (D.disk dev.old) (D.disk dev.new) }
    ensures cause { HasCause D.disk_faults D.tell_faults dev.old dev.new (IsErrOf result WriteError.Fault) }
    ensures no_memory { IsErrOf result WriteError.NoMemory → dev.new ≡ dev.old }
{
    let name = staging_file(alloc, set)?;
    remove_durably(dev, &name)?;
    Ok(())
}

// Writes bytes behind all that a file has.
fn write_behind<D: Device>(dev: &mut D, name: &str, at: u64, bytes: &[u8]) -> Result<(), Failed>
    requires { D.tells → length (contents ((D.disk dev.old).files name.now)) ≡ at }
    ensures added { D.tells → OnOk result (contents ((D.disk dev.new).files name.now) ≡ contents ((D.disk dev.old).files name.now) ++ bytes.now) }
    ensures small { OnOk result (at + length bytes.now < 2 ^ 62) }
    ensures crash { D.tells → Effect (IsName name.now) (λ image. Unit {0}) (D.disk dev.old) (D.disk dev.new) }
    ensures cause { HasCause D.disk_faults D.tell_faults dev.old dev.new (IsErr result) }
{
    dev.write(name, at, bytes)
}

// Writes an extent behind all that a file has.
fn write_extent<D: Device>(
    dev: &mut D,
    name: &str,
    at: u64,
    file: u16,
    extent: u32,
    bytes: &[u8],
) -> Result<(), Failed>
    requires small { at + 6 < 2 ^ 64 }
    requires end { D.tells → length (contents ((D.disk dev.old).files name.now)) ≡ at }
    ensures added { D.tells → OnOk result (contents ((D.disk dev.new).files name.now) ≡ contents ((D.disk dev.old).files name.now) ++ extent_bytes (record { file = file; extent = extent; bytes = bytes.now })) }
    ensures crash { D.tells → Effect (IsName name.now) (λ image. Unit {0}) (D.disk dev.old) (D.disk dev.new) }
    ensures cause { HasCause D.disk_faults D.tell_faults dev.old dev.new (IsErr result) }
{
    write_behind(dev, name, at, &head_of(file, extent))?;
    write_behind(dev, name, at + 6, bytes)
}
