// A device in memory, which keeps all its moments.
ghost use Rattle.std.specs.Prelude.{◌≡◌, ◌≤◌, ◌<◌, ◌+◌, ◌^◌, ◌++◌, ◌∷◌, ◌↔◌, ◌⊎◌, [], None, Some, length, take, map, option_map, IsTrue, IsErr, IfOk, OnOk, OnErr, IsSomeAnd, Contains, List, ℕ, true, is_ok, if◌then◌else◌};
ghost use Rattle.bk_device.specs.Calls.{contents, written, read_at, filled, LeavesWrite, LeavesCut, LeavesRemoval, LeavesSame, CallsOn, ChangesNothing, TellsBytes};
ghost use Rattle.bk_device.specs.Counts.{HasRisen, one_more};
ghost use Rattle.bk_device.specs.Disk.{Disk, Files, MayLeave, IsDurable, IsSettled, replaced};
ghost use Rattle.bk_device.specs.Held.{flipped};
ghost use Rattle.bk_device.specs.Memory.{begin_list, step_of, IsReplayed};
ghost use Rattle.bk_device.specs.Replay.{Memory, disk_of, IsNext, IsStill, KeepsCounts, unused, durable_files_of, counted_call, counted_write, counted_telling, IsToFail, WasLeft};
ghost use Rattle.bk_device.specs.Replay.Step.{Wrote, Synced, CutTo, Removed, Told};
ghost use Rattle.bk_device.specs.Replayed.{memory_lawful};

use crate::cache::Cache;
use crate::call::{Call, push_reserved};
use crate::{Device, Failed};
use std::alloc::{AllocError, Global};
use std::marker::Model;

// A write that ends here or past it is refused.
const END: u64 = 1 << 62;

/// Files and an output in memory. It keeps each call that was done since it began, so it tells what a crash at each
/// moment may leave. A call fails where `fail_at` or `stop_at` asked for it, for want of memory, and a write also where
/// it would end at 2^62 or past it; it then does nothing.
pub struct MemDevice {
    files: Cache,
    // The calls since it began.
    done: Vec<Call>,
    told: Vec<u8>,
    // How many bytes had been told when it began.
    told_before: usize,
    failing: Vec<u64>,
    calls: u64,
    stop: Option<u64>,
    writes: u64,
    disk_faults: u64,
    tell_faults: u64,
}

impl Drop for MemDevice {
    fn drop(self) {
        let MemDevice {
            files: _,
            done: _,
            told: _,
            told_before: _,
            failing: _,
            calls: _,
            stop: _,
            writes: _,
            disk_faults: _,
            tell_faults: _,
        } = self;
    }
}

impl Model for MemDevice {
    ghost Value = { Memory };

    ghost view = { λ d. record {
      begin = begin_list d.files.held.items;
      told_before = take d.told_before d.told.items;
      steps = map step_of d.done.items;
      failing = d.failing.items;
      calls = d.calls;
      stop = d.stop;
      writes = d.writes;
      disk_faults = d.disk_faults;
      tell_faults = d.tell_faults;
    } };

    ghost invariant = { λ d. IsReplayed d.files.held.items d.told.items d.told_before (record {
      begin = begin_list d.files.held.items;
      told_before = take d.told_before d.told.items;
      steps = map step_of d.done.items;
      failing = d.failing.items;
      calls = d.calls;
      stop = d.stop;
      writes = d.writes;
      disk_faults = d.disk_faults;
      tell_faults = d.tell_faults;
    }) };
}

impl MemDevice {
    /// A device with no file. Nothing is pending, and nothing was told.
    pub fn new(alloc: Global) -> MemDevice
        ensures { result ≡ unused }
    {
        MemDevice {
            files: Cache::new(alloc),
            done: Vec::new(alloc),
            told: Vec::new(alloc),
            told_before: 0,
            failing: Vec::new(alloc),
            calls: 0,
            stop: None,
            writes: 0,
            disk_faults: 0,
            tell_faults: 0,
        }
    }

    /// The call of this number, counted from 1, will fail. On `Err` nothing has changed.
    pub fn fail_at(&mut self, call: u64) -> Result<(), AllocError>
        ensures ok { OnOk result (self.new ≡ record self.old { failing = self.old.failing ++ call ∷ [] }) }
        ensures err { OnErr result (self.new ≡ self.old) }
    {
        self.failing.push(call)?;
        Ok(())
    }

    /// The bytes told so far.
    pub fn told(&self) -> &[u8]
        ensures { result.now ≡ (disk_of self.now).told }
    {
        &self.told
    }

    /// The write of this number, counted from 1, and all calls from then on will fail.
    pub fn stop_at(&mut self, write: u64)
        ensures { self.new ≡ record self.old { stop = Some write } }
    {
        self.stop = Some(write);
    }

    /// The device after a crash: what was written, created, cut or removed since a file's last sync is kept, or it is
    /// gone. What was told stays told, nothing is to fail, and calls are counted from 1 again.
    pub fn restart(self, keep: bool) -> MemDevice
        ensures files { (disk_of result).files ≡ (if keep then (disk_of self).files else durable_files_of self) }
        ensures left { MayLeave (disk_of self) (disk_of result).files }
        ensures settled { IsSettled (disk_of result) }
        ensures told { (disk_of result).told ≡ (disk_of self).told }
        ensures counts { KeepsCounts unused result }
    {
        let mut device = self;
        device.files.restart(keep);
        device.done.clear();
        device.told_before = device.told.as_slice().len();
        device.failing.clear();
        device.calls = 0;
        device.stop = None;
        device.writes = 0;
        device.disk_faults = 0;
        device.tell_faults = 0;
        device
    }

    /// Another byte stands at this offset of a file, where there must be one. Nothing is pending afterwards.
    pub fn damage(&mut self, name: &str, at: u64)
        requires { IsSomeAnd ((disk_of self.old).files name.now) (λ content. at < length content) }
        ensures files { (disk_of self.new).files ≡ replaced (disk_of self.old).files name.now (option_map (flipped at) ((disk_of self.old).files name.now)) }
        ensures settled { IsSettled (disk_of self.new) }
        ensures told { (disk_of self.new).told ≡ (disk_of self.old).told }
        ensures counts { KeepsCounts self.old self.new }
    {
        self.files.damage(name, at as usize);
        self.files.keep();
        self.done.clear();
        self.told_before = self.told.as_slice().len();
    }

    /// A file is gone, where it was there. Nothing is pending afterwards.
    pub fn lose(&mut self, name: &str)
        ensures files { (disk_of self.new).files ≡ replaced (disk_of self.old).files name.now None }
        ensures settled { IsSettled (disk_of self.new) }
        ensures told { (disk_of self.new).told ≡ (disk_of self.old).told }
        ensures counts { KeepsCounts self.old self.new }
    {
        self.files.remove(name);
        self.files.keep();
        self.done.clear();
        self.told_before = self.told.as_slice().len();
    }

    /// A device with the files as a read gives them now, which has told nothing yet.
    pub fn copy(&self) -> Result<MemDevice, AllocError>
        ensures files { IfOk result (λ device. (disk_of device).files ≡ (disk_of self.now).files) }
        ensures settled { IfOk result (λ device. IsSettled (disk_of device)) }
        ensures told { IfOk result (λ device. (disk_of device).told ≡ []) }
        ensures counts { IfOk result (λ device. KeepsCounts unused device) }
    {
        let mut device = MemDevice::new(self.files.alloc);
        device.files = self.files.copy()?;
        Ok(device)
    }

    fn file_len(&self, name: &str) -> Option<u64>
        ensures { result ≡ option_map length ((disk_of self.now).files name.now) }
    {
        match self.files.content(name) {
            Some(content) => Some(content.len() as u64),
            None => None,
        }
    }

    fn read_file(&self, name: &str, at: u64, buf: &mut [u8]) -> usize
        ensures count { result ≡ length (read_at (contents ((disk_of self.now).files name.now)) at (length buf.old)) }
        ensures bytes { buf.new ≡ filled buf.old (read_at (contents ((disk_of self.now).files name.now)) at (length buf.old)) }
    {
        match self.files.content(name) {
            Some(content) => copy_at(content, at, buf),
            None => 0,
        }
    }

    // The parts of a call that take memory: at `Err` nothing has changed.

    fn store_write(&mut self, name: &str, at: u64, bytes: &[u8]) -> Result<(), AllocError>
        requires { at ≤ length (contents ((disk_of self.old).files name.now)) }
        ensures ok { OnOk result (IsNext self.old self.new (Wrote name.now at bytes.now)) }
        ensures err { OnErr result (IsStill self.old self.new) }
        ensures counts { KeepsCounts self.old self.new }
    {
        self.done.reserve(1)?;
        let call = Call::write(self.files.alloc, name, at, bytes)?;
        self.files.write(name, at as usize, bytes)?;
        push_reserved(&mut self.done, call);
        Ok(())
    }

    fn store_cut(&mut self, name: &str, len: u64) -> Result<(), AllocError>
        ensures ok { OnOk result (IsNext self.old self.new (CutTo name.now len)) }
        ensures err { OnErr result (IsStill self.old self.new) }
        ensures counts { KeepsCounts self.old self.new }
    {
        self.done.reserve(1)?;
        let call = Call::cut(self.files.alloc, name, len)?;
        self.files.cut(name, len as usize)?;
        push_reserved(&mut self.done, call);
        Ok(())
    }

    fn store_sync(&mut self, name: &str) -> Result<(), AllocError>
        ensures ok { OnOk result (IsNext self.old self.new (Synced name.now)) }
        ensures err { OnErr result (IsStill self.old self.new) }
        ensures counts { KeepsCounts self.old self.new }
    {
        let call = Call::sync(self.files.alloc, name)?;
        self.done.push(call)?;
        self.files.sync(name);
        Ok(())
    }

    fn store_removal(&mut self, name: &str) -> Result<(), AllocError>
        ensures ok { OnOk result (IsNext self.old self.new (Removed name.now)) }
        ensures err { OnErr result (IsStill self.old self.new) }
        ensures counts { KeepsCounts self.old self.new }
    {
        let call = Call::remove(self.files.alloc, name)?;
        self.done.push(call)?;
        self.files.remove(name);
        Ok(())
    }

    fn store_telling(&mut self, bytes: &[u8]) -> Result<(), AllocError>
        ensures ok { OnOk result (IsNext self.old self.new (Told bytes.now)) }
        ensures err { OnErr result (IsStill self.old self.new) }
        ensures counts { KeepsCounts self.old self.new }
    {
        self.done.reserve(1)?;
        let call = Call::tell(self.files.alloc, bytes)?;
        self.told.extend_from_slice(bytes)?;
        push_reserved(&mut self.done, call);
        Ok(())
    }

    fn is_stopped(&self) -> bool
        ensures { IsTrue result ↔ IsSomeAnd self.now.stop (λ stop. stop ≤ self.now.writes) }
    {
        match self.stop {
            Some(stop) => stop <= self.writes,
            None => false,
        }
    }

    // Counts a call, and says whether it is to fail.
    fn next_call(&mut self) -> bool
        ensures counted { self.new ≡ counted_call true self.old }
        ensures still { IsStill self.old self.new }
        ensures fails { IsTrue result ↔ IsToFail self.new }
    {
        self.calls = self.calls.saturating_add(1);
        self.failing.contains(&self.calls) || self.is_stopped()
    }

    // Counts a write, and says whether it is to fail.
    fn next_write(&mut self) -> bool
        ensures counted { self.new ≡ counted_write true self.old }
        ensures still { IsStill self.old self.new }
        ensures fails { IsTrue result ↔ IsToFail self.new }
    {
        self.writes = self.writes.saturating_add(1);
        self.next_call()
    }

    fn disk_fault(&mut self) -> Failed
        ensures counted { self.new ≡ record self.old { disk_faults = one_more self.old.disk_faults } }
        ensures still { IsStill self.old self.new }
        ensures never_falls { self.old.disk_faults ≤ self.new.disk_faults }
    {
        self.disk_faults = self.disk_faults.saturating_add(1);
        Failed
    }

    fn tell_fault(&mut self) -> Failed
        ensures counted { self.new ≡ record self.old { tell_faults = one_more self.old.tell_faults } }
        ensures still { IsStill self.old self.new }
        ensures never_falls { self.old.tell_faults ≤ self.new.tell_faults }
    {
        self.tell_faults = self.tell_faults.saturating_add(1);
        Failed
    }
}

impl Device for MemDevice {
    ghost tells = { Unit {0} };

    ghost disk = { λ memory. disk_of memory };

    ghost disk_faults = { λ memory. memory.disk_faults };

    ghost tell_faults = { λ memory. memory.tell_faults };

    ghost lawful = { λ _ memory. memory_lawful memory };

    fn len(&mut self, name: &str) -> Result<Option<u64>, Failed>
        ensures value { IfOk result (λ len. len ≡ option_map length ((disk_of self.old).files name.now)) }
        ensures effect { ChangesNothing (disk_of self.old) (disk_of self.new) }
        ensures cause { OnErr result (HasRisen self.old.disk_faults self.new.disk_faults) }
        ensures never_falls { self.old.disk_faults ≤ self.new.disk_faults }
        ensures tell_faults { self.new.tell_faults ≡ self.old.tell_faults }

        // It fails exactly where that was asked for.
        ensures fails { IsErr result ↔ IsToFail (counted_call true self.old) }
        ensures not_done { IsStill self.old self.new }
        ensures counts { KeepsCounts (counted_call (is_ok result) self.old) self.new }
    {
        if self.next_call() {
            return Err(self.disk_fault());
        }
        Ok(self.file_len(name))
    }

    fn read(&mut self, name: &str, at: u64, buf: &mut [u8]) -> Result<usize, Failed>
        ensures count { IfOk result (λ n. n ≡ length (read_at (contents ((disk_of self.old).files name.now)) at (length buf.old))) }
        ensures bytes { OnOk result (buf.new ≡ filled buf.old (read_at (contents ((disk_of self.old).files name.now)) at (length buf.old))) }
        ensures bound { IfOk result (λ n. n ≤ length buf.old) }
        ensures effect { ChangesNothing (disk_of self.old) (disk_of self.new) }
        ensures cause { OnErr result (HasRisen self.old.disk_faults self.new.disk_faults) }
        ensures never_falls { self.old.disk_faults ≤ self.new.disk_faults }
        ensures tell_faults { self.new.tell_faults ≡ self.old.tell_faults }

        // It fails exactly where that was asked for.
        ensures fails { IsErr result ↔ IsToFail (counted_call true self.old) }
        ensures not_done { IsStill self.old self.new }
        ensures counts { KeepsCounts (counted_call (is_ok result) self.old) self.new }
    {
        if self.next_call() {
            return Err(self.disk_fault());
        }
        Ok(self.read_file(name, at, buf))
    }

    fn write(&mut self, name: &str, at: u64, bytes: &[u8]) -> Result<(), Failed>
        requires { at ≤ length (contents ((disk_of self.old).files name.now)) }
        ensures written { OnOk result ((disk_of self.new).files name.now ≡ Some (written (contents ((disk_of self.old).files name.now)) at bytes.now)) }
        ensures small { OnOk result (at + length bytes.now < 2 ^ 62) }
        ensures refused { 2 ^ 62 ≤ at + length bytes.now → ChangesNothing (disk_of self.old) (disk_of self.new) }
        ensures effect { CallsOn name.now (LeavesWrite at (length bytes.now)) (disk_of self.old) (disk_of self.new) }
        ensures cause { OnErr result (HasRisen self.old.disk_faults self.new.disk_faults) }
        ensures never_falls { self.old.disk_faults ≤ self.new.disk_faults }
        ensures tell_faults { self.new.tell_faults ≡ self.old.tell_faults }

        // It fails where that was asked for, and then does nothing.
        ensures fails { IsToFail (counted_write true self.old) → IsErr result }
        ensures done { OnOk result (IsNext self.old self.new (Wrote name.now at bytes.now)) }
        ensures not_done { OnErr result (IsStill self.old self.new) }
        ensures counts { KeepsCounts (counted_write (is_ok result) self.old) self.new }
    {
        let is_to_fail = self.next_write();
        if is_to_fail || at >= END || bytes.len() as u64 >= END - at {
            return Err(self.disk_fault());
        }
        match self.store_write(name, at, bytes) {
            Ok(()) => Ok(()),
            Err(_) => Err(self.disk_fault()),
        }
    }

    fn sync(&mut self, name: &str) -> Result<(), Failed>
        ensures same { OnOk result ((disk_of self.new).files name.now ≡ (disk_of self.old).files name.now) }
        ensures durable { OnOk result (IsDurable (disk_of self.new) name.now) }
        ensures effect { CallsOn name.now LeavesSame (disk_of self.old) (disk_of self.new) }
        ensures cause { OnErr result (HasRisen self.old.disk_faults self.new.disk_faults) }
        ensures never_falls { self.old.disk_faults ≤ self.new.disk_faults }
        ensures tell_faults { self.new.tell_faults ≡ self.old.tell_faults }

        // It fails where that was asked for, and then does nothing.
        ensures fails { IsToFail (counted_call true self.old) → IsErr result }
        ensures done { OnOk result (IsNext self.old self.new (Synced name.now)) }
        ensures not_done { OnErr result (IsStill self.old self.new) }
        ensures counts { KeepsCounts (counted_call (is_ok result) self.old) self.new }
    {
        if self.next_call() {
            return Err(self.disk_fault());
        }
        match self.store_sync(name) {
            Ok(()) => Ok(()),
            Err(_) => Err(self.disk_fault()),
        }
    }

    fn cut(&mut self, name: &str, len: u64) -> Result<(), Failed>
        requires { IsSomeAnd ((disk_of self.old).files name.now) (λ content. len ≤ length content) }
        ensures cut { OnOk result ((disk_of self.new).files name.now ≡ option_map (take len) ((disk_of self.old).files name.now)) }
        ensures effect { CallsOn name.now (LeavesCut len) (disk_of self.old) (disk_of self.new) }
        ensures cause { OnErr result (HasRisen self.old.disk_faults self.new.disk_faults) }
        ensures never_falls { self.old.disk_faults ≤ self.new.disk_faults }
        ensures tell_faults { self.new.tell_faults ≡ self.old.tell_faults }

        // It fails where that was asked for, and then does nothing.
        ensures fails { IsToFail (counted_call true self.old) → IsErr result }
        ensures done { OnOk result (IsNext self.old self.new (CutTo name.now len)) }
        ensures not_done { OnErr result (IsStill self.old self.new) }
        ensures counts { KeepsCounts (counted_call (is_ok result) self.old) self.new }
    {
        if self.next_call() {
            return Err(self.disk_fault());
        }
        match self.store_cut(name, len) {
            Ok(()) => Ok(()),
            Err(_) => Err(self.disk_fault()),
        }
    }

    fn remove(&mut self, name: &str) -> Result<(), Failed>
        ensures removed { OnOk result ((disk_of self.new).files name.now ≡ None) }
        ensures effect { CallsOn name.now LeavesRemoval (disk_of self.old) (disk_of self.new) }
        ensures cause { OnErr result (HasRisen self.old.disk_faults self.new.disk_faults) }
        ensures never_falls { self.old.disk_faults ≤ self.new.disk_faults }
        ensures tell_faults { self.new.tell_faults ≡ self.old.tell_faults }

        // It fails where that was asked for, and then does nothing.
        ensures fails { IsToFail (counted_call true self.old) → IsErr result }
        ensures done { OnOk result (IsNext self.old self.new (Removed name.now)) }
        ensures not_done { OnErr result (IsStill self.old self.new) }
        ensures counts { KeepsCounts (counted_call (is_ok result) self.old) self.new }
    {
        if self.next_call() {
            return Err(self.disk_fault());
        }
        match self.store_removal(name) {
            Ok(()) => Ok(()),
            Err(_) => Err(self.disk_fault()),
        }
    }

    fn tell(&mut self, bytes: &[u8]) -> Result<(), Failed>
        ensures told { OnOk result ((disk_of self.new).told ≡ (disk_of self.old).told ++ bytes.now) }
        ensures effect { TellsBytes bytes.now (disk_of self.old) (disk_of self.new) }
        ensures cause { OnErr result (HasRisen self.old.tell_faults self.new.tell_faults) }
        ensures never_falls { self.old.tell_faults ≤ self.new.tell_faults }
        ensures disk_faults { self.new.disk_faults ≡ self.old.disk_faults }

        // It fails where that was asked for, and then tells nothing.
        ensures fails { IsToFail (counted_telling true self.old) → IsErr result }
        ensures done { OnOk result (IsNext self.old self.new (Told bytes.now)) }
        ensures not_done { OnErr result (IsStill self.old self.new) }
        ensures counts { KeepsCounts (counted_telling (is_ok result) self.old) self.new }
    {
        if self.next_call() {
            return Err(self.tell_fault());
        }
        match self.store_telling(bytes) {
            Ok(()) => Ok(()),
            Err(_) => Err(self.tell_fault()),
        }
    }
}

/// A law, with no work to do. What crashes may have left of a device in memory is exactly its files and told bytes as it
/// began, and what each of its calls leaves while it runs and after it.
pub fn crash_law()
    ensures { (memory : Memory) (since : ℕ) (image : Files) (heard : List ℕ) → (disk_of memory).left since image heard ↔ WasLeft memory since image heard }
{}

// Copies what stands from an offset on to the front of the buffer, and says how much.
fn copy_at(content: &[u8], at: u64, buf: &mut [u8]) -> usize
    ensures count { result ≡ length (read_at content.now at (length buf.old)) }
    ensures bytes { buf.new ≡ filled buf.old (read_at content.now at (length buf.old)) }
{
    let from = at.min(content.len() as u64) as usize;
    let n = (content.len() - from).min(buf.len());
    buf[..n].copy_from_slice(&content[from..from + n]);
    n
}
