// A gate file: sealed blobs, which each crash leaves as they were or with the new one.
ghost use Rattle.std.specs.Prelude.{◌≡◌, ◌≤◌, ◌<◌, ◌⊎◌, ◌^◌, ◌+◌, ◌-◌, ◌++◌, ◌∷◌, [], List, ℕ, Some, None, length, vec_len, vec_capacity, true, false, is_err, string_bytes, slice_get, unwrap_or, IsSome, IsNone, IfOk, OnOk, OnErr, IsErrOf, IsErr};
ghost use Rattle.bk_gate.specs.Blobs.{sealed, spans_of, IsGateFile};
ghost use Rattle.bk_device.specs.Calls.{contents, ChangesNothing};
ghost use Rattle.bk_gate.specs.Gate.{Kept, IsGate, AreWithin, begun_of};
ghost use Rattle.bk_device.specs.Counts.{HasCause};
ghost use Rattle.bk_device.specs.Disk.{IsDurable};
ghost use Rattle.bk_device.specs.Effects.{Effect, IsName};

mod from_bytes;

use crate::blob::{add_blob, append_blob, empty, leave_closed, seal_blob, start};
use crate::error::GateError;
use crate::read::{check, read_closed, read_span, read_spans};
use bk_device::{Device, Failed};
use std::alloc::{AllocError, Global};
use std::marker::Model;

/// A gate file.
///
/// Once a call has answered `Failed` the value is failed, and is no longer used.
pub struct Gate {
    name: String,
    spans: Vec<(u64, u64)>,
    end: u64,
    is_closed: bool,
    begun: Option<u64>,
    // how many more spans there is room for, at least
    spare: usize,
    failed: bool,
}

impl Drop for Gate {
    fn drop(self) {
        let Gate {
            name: _,
            spans: _,
            end: _,
            is_closed: _,
            begun: _,
            spare: _,
            failed: _,
        } = self;
    }
}

impl Model for Gate {
    ghost Value = { Kept };

    ghost view = { λ g. record {
      name = string_bytes g.name;
      spans = g.spans.items;
      end = g.end;
      is_closed = g.is_closed;
      begun = g.begun;
      spare = g.spare;
      failed = g.failed;
    } };

    ghost invariant = { λ g. (vec_len g.spans + g.spare ≤ vec_capacity g.spans) × AreWithin g.end g.spans.items × (g.end < 2 ^ 64) };
}

impl Gate {
    /// Opens the gate file of this name, and leaves it as it is.
    ///
    /// `Foreign` is answered exactly where its first sixteen bytes aren't the letters `SQLBAKGATE000001`, or it has
    /// under 17 bytes. `NoMemory` may come after reads.
    pub fn load<D: Device>(alloc: Global, dev: &mut D, name: &str) -> Result<Gate, GateError>
        ensures gate_file { D.tells → OnOk result (IsGateFile (contents ((D.disk dev.old).files name.now))) }
        ensures spans { D.tells → IfOk result (λ g. g.spans ≡ spans_of (contents ((D.disk dev.old).files name.now))) }
        ensures end { D.tells → IfOk result (λ g. g.end ≤ length (contents ((D.disk dev.old).files name.now))) }
        ensures name { IfOk result (λ g. g.name ≡ name.now) }
        ensures none { IfOk result (λ g. g.begun ≡ None) }
        ensures failed { IfOk result (λ g. g.failed ≡ false) }
        ensures stands { D.tells → IsDurable (D.disk dev.old) name.now → IfOk result (λ g. IsGate (D.disk dev.new) g) }
        ensures effect { D.tells → ChangesNothing (D.disk dev.old) (D.disk dev.new) }
        ensures foreign { D.tells → IsErrOf result GateError.Foreign → IsGateFile (contents ((D.disk dev.old).files name.now)) → ⊥ }
        ensures cause { HasCause D.disk_faults D.tell_faults dev.old dev.new (IsErrOf result GateError.Fault) }
    {
        let len = check(dev, name)?;
        let mut spans = Vec::new(alloc);
        let end = read_spans(dev, name, len, &mut spans)?;
        let is_closed = read_closed(dev, name, end, len)?;
        let name_kept = String::from_str(alloc, name)?;
        Ok(Gate {
            name: name_kept,
            spans,
            end,
            is_closed,
            begun: None,
            spare: 0,
            failed: false,
        })
    }

    /// Makes a gate file with no blob, in place of what was under the name. Until it is made, a crash leaves what it
    /// might have left before, or no sealed blob. `Foreign` isn't answered.
    pub fn make<D: Device>(alloc: Global, dev: &mut D, name: &str) -> Result<Gate, GateError>
        ensures name { IfOk result (λ g. g.name ≡ name.now) }
        ensures spans { IfOk result (λ g. g.spans ≡ []) }
        ensures none { IfOk result (λ g. g.begun ≡ None) }
        ensures failed { IfOk result (λ g. g.failed ≡ false) }
        ensures stands { D.tells → IfOk result (λ g. IsGate (D.disk dev.new) g) }
        ensures durable { D.tells → OnOk result (IsDurable (D.disk dev.new) name.now) }
        ensures crash { D.tells → Effect (IsName name.now) (λ image. (D.disk dev.old).may name.now (image name.now) ⊎ (sealed (image name.now) ≡ [])) (D.disk dev.old) (D.disk dev.new) }
        ensures foreign { IsErrOf result GateError.Foreign → ⊥ }
        ensures cause { HasCause D.disk_faults D.tell_faults dev.old dev.new (IsErrOf result GateError.Fault) }
        ensures no_memory { IsErrOf result GateError.NoMemory → dev.new ≡ dev.old }
    {
        let name_kept = String::from_str(alloc, name)?;
        start(dev, name)?;
        Ok(Gate {
            name: name_kept,
            spans: Vec::new(alloc),
            end: 16,
            is_closed: true,
            begun: None,
            spare: 0,
            failed: false,
        })
    }

    /// The name of its file.
    pub fn name(&self) -> &str
        ensures { result.now ≡ self.now.name }
    {
        self.name.as_str()
    }

    /// How many sealed blobs there are.
    pub fn count(&self) -> usize
        requires { self.now.failed ≡ false }
        ensures { result ≡ length self.now.spans }
    {
        self.spans.len()
    }

    /// Where the content of a sealed blob begins in the file, and its length, in bytes. It ends where the next gate byte
    /// is, or before that, so the place and the length together are below 2^64.
    pub fn span(&self, i: usize) -> (u64, u64)
        requires fit { self.now.failed ≡ false }
        requires there { i < length self.now.spans }
        ensures span { slice_get self.now.spans i ≡ Some result }
        ensures inside { result.0 + result.1 ≤ self.now.end }
        ensures small { result.0 + result.1 < 2 ^ 64 }
    {
        self.spans[i]
    }

    /// The bytes of the sealed blob of this number, from 0, in one buffer of their length. Changes nothing. `Foreign` isn't
    /// answered.
    pub fn read<D: Device>(
        &self,
        alloc: Global,
        dev: &mut D,
        i: usize,
    ) -> Result<Vec<u8>, GateError>
        requires fit { self.now.failed ≡ false }
        requires there { i < length self.now.spans }
        requires spans { D.tells → self.now.spans ≡ spans_of (contents ((D.disk dev.old).files self.now.name)) }
        requires gate_file { D.tells → IsGateFile (contents ((D.disk dev.old).files self.now.name)) }
        ensures bytes { D.tells → IfOk result (λ bytes. slice_get (sealed ((D.disk dev.old).files self.now.name)) i ≡ Some bytes.items) }
        ensures effect { D.tells → ChangesNothing (D.disk dev.old) (D.disk dev.new) }
        ensures foreign { IsErrOf result GateError.Foreign → ⊥ }
        ensures cause { HasCause D.disk_faults D.tell_faults dev.old dev.new (IsErrOf result GateError.Fault) }
    {
        let (at, len) = self.span(i);
        read_span(alloc, dev, self.name(), at, len)
    }

    /// Begins a blob, where none is begun.
    pub fn begin(&mut self)
        requires fit { self.old.failed ≡ false }
        requires none { self.old.begun ≡ None }
        ensures { self.new ≡ record self.old { begun = Some 0 } }
    {
        self.begun = Some(0);
    }

    /// Makes the spare at least `n`. `AllocError` leaves the value as it was.
    pub fn reserve(&mut self, n: usize) -> Result<(), AllocError>
        requires { self.old.failed ≡ false }
        ensures spare { OnOk result (n ≤ self.new.spare) }
        ensures never_lowered { self.old.spare ≤ self.new.spare }
        ensures same { self.new ≡ record self.old { spare = self.new.spare } }
        ensures err { OnErr result (self.new ≡ self.old) }
    {
        self.spans.reserve(n)?;
        self.spare = self.spare.max(n);
        Ok(())
    }

    /// Adds bytes to the blob that is begun. Takes no memory.
    pub fn add<D: Device>(&mut self, dev: &mut D, bytes: &[u8]) -> Result<(), Failed>
        requires fit { self.old.failed ≡ false }
        requires begun { IsSome self.old.begun }
        requires stands { D.tells → IsGate (D.disk dev.old) self.old }
        ensures stands { D.tells → OnOk result (IsGate (D.disk dev.new) self.new) }
        ensures begun { OnOk result (self.new.begun ≡ Some (unwrap_or self.old.begun 0 + length bytes.now)) }
        ensures added { D.tells → OnOk result (begun_of (D.disk dev.new) self.new ≡ begun_of (D.disk dev.old) self.old ++ bytes.now) }
        ensures sealed { D.tells → OnOk result (sealed ((D.disk dev.new).files self.old.name) ≡ sealed ((D.disk dev.old).files self.old.name)) }
        ensures same { OnOk result (self.new ≡ record self.old { begun = self.new.begun; is_closed = true }) }
        ensures name { self.new.name ≡ self.old.name }
        ensures failed { self.new.failed ≡ is_err result }
        ensures crash { D.tells → Effect (IsName self.old.name) (λ image. sealed (image self.old.name) ≡ sealed ((D.disk dev.old).files self.old.name)) (D.disk dev.old) (D.disk dev.new) }
        ensures cause { HasCause D.disk_faults D.tell_faults dev.old dev.new (IsErr result) }
    {
        let len = self.begun.unwrap_or(0);
        match add_blob(dev, &self.name, self.end, self.is_closed, len, bytes) {
            Ok(()) => {
                self.is_closed = true;
                self.begun = Some(len + bytes.len() as u64);
                Ok(())
            }
            Err(e) => {
                self.failed = true;
                Err(e)
            }
        }
    }

    /// Seals the blob that is begun, by one place of the spare, which is at least 1. Takes no memory. A crash leaves
    /// the sealed blobs as they were, or with this one.
    pub fn seal_reserved<D: Device>(&mut self, dev: &mut D) -> Result<(), Failed>
        requires fit { self.old.failed ≡ false }
        requires begun { IsSome self.old.begun }
        requires spare { 1 ≤ self.old.spare }
        requires stands { D.tells → IsGate (D.disk dev.old) self.old }
        ensures stands { D.tells → OnOk result (IsGate (D.disk dev.new) self.new) }
        ensures spans { OnOk result (self.new.spans ≡ self.old.spans ++ (self.old.end + 9, unwrap_or self.old.begun 0) ∷ []) }
        ensures none { OnOk result (self.new.begun ≡ None) }
        ensures spare { OnOk result (self.new.spare + 1 ≡ self.old.spare) }
        ensures name { self.new.name ≡ self.old.name }
        ensures sealed { D.tells → OnOk result (sealed ((D.disk dev.new).files self.old.name) ≡ sealed ((D.disk dev.old).files self.old.name) ++ begun_of (D.disk dev.old) self.old ∷ []) }
        ensures durable { D.tells → OnOk result (IsDurable (D.disk dev.new) self.old.name) }
        ensures failed { self.new.failed ≡ is_err result }
        ensures crash { D.tells → Effect (IsName self.old.name) (λ image. (sealed (image self.old.name) ≡ sealed ((D.disk dev.old).files self.old.name)) ⊎ (sealed (image self.old.name) ≡ sealed ((D.disk dev.old).files self.old.name) ++ begun_of (D.disk dev.old) self.old ∷ [])) (D.disk dev.old) (D.disk dev.new) }
        ensures cause { HasCause D.disk_faults D.tell_faults dev.old dev.new (IsErr result) }
    {
        let len = self.begun.unwrap_or(0);
        match seal_blob(dev, &self.name, self.end, self.is_closed, len) {
            Ok(next) => {
                self.take_sealed(len, next);
                Ok(())
            }
            Err(e) => {
                self.failed = true;
                Err(e)
            }
        }
    }

    /// Seals the blob that is begun, and takes the memory for it first. The spare doesn't fall. A crash leaves the
    /// sealed blobs as they were, or with this one. `Foreign` isn't answered.
    pub fn seal<D: Device>(&mut self, dev: &mut D) -> Result<(), GateError>
        requires fit { self.old.failed ≡ false }
        requires begun { IsSome self.old.begun }
        requires stands { D.tells → IsGate (D.disk dev.old) self.old }
        ensures stands { D.tells → OnOk result (IsGate (D.disk dev.new) self.new) }
        ensures spans { OnOk result (self.new.spans ≡ self.old.spans ++ (self.old.end + 9, unwrap_or self.old.begun 0) ∷ []) }
        ensures none { OnOk result (self.new.begun ≡ None) }
        ensures spare { OnOk result (self.old.spare ≤ self.new.spare) }
        ensures name { self.new.name ≡ self.old.name }
        ensures sealed { D.tells → OnOk result (sealed ((D.disk dev.new).files self.old.name) ≡ sealed ((D.disk dev.old).files self.old.name) ++ begun_of (D.disk dev.old) self.old ∷ []) }
        ensures durable { D.tells → OnOk result (IsDurable (D.disk dev.new) self.old.name) }
        ensures failed { IsErrOf result GateError.Fault → self.new.failed ≡ true }
        ensures fit { OnOk result (self.new.failed ≡ false) }
        ensures no_memory { IsErrOf result GateError.NoMemory → (self.new ≡ self.old) × (dev.new ≡ dev.old) }
        ensures foreign { IsErrOf result GateError.Foreign → ⊥ }
        ensures crash { D.tells → Effect (IsName self.old.name) (λ image. (sealed (image self.old.name) ≡ sealed ((D.disk dev.old).files self.old.name)) ⊎ (sealed (image self.old.name) ≡ sealed ((D.disk dev.old).files self.old.name) ++ begun_of (D.disk dev.old) self.old ∷ [])) (D.disk dev.old) (D.disk dev.new) }
        ensures cause { HasCause D.disk_faults D.tell_faults dev.old dev.new (IsErrOf result GateError.Fault) }
    {
        self.reserve_one_more()?;
        self.seal_reserved(dev)?;
        Ok(())
    }

    /// Seals a blob of these bytes, where none is begun, by one place of the spare, which is at least 1. Takes no memory. A
    /// crash leaves the sealed blobs as they were, or with this one.
    pub fn append_reserved<D: Device>(&mut self, dev: &mut D, bytes: &[u8]) -> Result<(), Failed>
        requires fit { self.old.failed ≡ false }
        requires none { self.old.begun ≡ None }
        requires spare { 1 ≤ self.old.spare }
        requires stands { D.tells → IsGate (D.disk dev.old) self.old }
        ensures stands { D.tells → OnOk result (IsGate (D.disk dev.new) self.new) }
        ensures spans { OnOk result (self.new.spans ≡ self.old.spans ++ (self.old.end + 9, length bytes.now) ∷ []) }
        ensures count { OnOk result (length self.new.spans ≡ length self.old.spans + 1) }
        ensures none { OnOk result (self.new.begun ≡ None) }
        ensures spare { OnOk result (self.new.spare + 1 ≡ self.old.spare) }
        ensures name { self.new.name ≡ self.old.name }
        ensures sealed { D.tells → OnOk result (sealed ((D.disk dev.new).files self.old.name) ≡ sealed ((D.disk dev.old).files self.old.name) ++ bytes.now ∷ []) }
        ensures durable { D.tells → OnOk result (IsDurable (D.disk dev.new) self.old.name) }
        ensures failed { self.new.failed ≡ is_err result }
        ensures crash { D.tells → Effect (IsName self.old.name) (λ image. (sealed (image self.old.name) ≡ sealed ((D.disk dev.old).files self.old.name)) ⊎ (sealed (image self.old.name) ≡ sealed ((D.disk dev.old).files self.old.name) ++ bytes.now ∷ [])) (D.disk dev.old) (D.disk dev.new) }
        ensures cause { HasCause D.disk_faults D.tell_faults dev.old dev.new (IsErr result) }
    {
        match append_blob(dev, &self.name, self.end, self.is_closed, bytes) {
            Ok(next) => {
                self.take_sealed(bytes.len() as u64, next);
                Ok(())
            }
            Err(e) => {
                self.failed = true;
                Err(e)
            }
        }
    }

    // Takes in a blob of so many bytes that was sealed behind the end, by one place of the spare.
    fn take_sealed(&mut self, len: u64, next: u64)
        requires spare { 1 ≤ self.old.spare }
        requires next { next ≡ self.old.end + 9 + len }
        ensures { self.new ≡ record self.old { spans = self.old.spans ++ (self.old.end + 9, len) ∷ []; end = next; is_closed = true; begun = None; spare = self.old.spare - 1 } }
    {
        push_reserved(&mut self.spans, (self.end + 9, len));
        self.spare -= 1;
        self.end = next;
        self.is_closed = true;
        self.begun = None;
    }

    // Raises the spare by one.
    fn reserve_one_more(&mut self) -> Result<(), AllocError>
        ensures spare { OnOk result (self.new ≡ record self.old { spare = self.old.spare + 1 }) }
        ensures err { OnErr result (self.new ≡ self.old) }
    {
        let spare = self.spare.checked_add(1).ok_or(AllocError)?;
        self.spans.reserve(spare)?;
        self.spare = spare;
        Ok(())
    }

    /// Removes all blobs, where none is begun: a crash leaves them all, or none. Takes no memory, and raises the spare
    /// by the number of blobs that there were.
    pub fn clear<D: Device>(&mut self, dev: &mut D) -> Result<(), Failed>
        requires fit { self.old.failed ≡ false }
        requires none { self.old.begun ≡ None }
        requires stands { D.tells → IsGate (D.disk dev.old) self.old }
        ensures stands { D.tells → OnOk result (IsGate (D.disk dev.new) self.new) }
        ensures spans { OnOk result (self.new.spans ≡ []) }
        ensures none { OnOk result (self.new.begun ≡ None) }
        ensures spare { OnOk result (self.new.spare ≡ self.old.spare + length self.old.spans) }
        ensures name { self.new.name ≡ self.old.name }
        ensures sealed { D.tells → OnOk result (sealed ((D.disk dev.new).files self.old.name) ≡ []) }
        ensures durable { D.tells → OnOk result (IsDurable (D.disk dev.new) self.old.name) }
        ensures failed { self.new.failed ≡ is_err result }
        ensures crash { D.tells → Effect (IsName self.old.name) (λ image. (sealed (image self.old.name) ≡ sealed ((D.disk dev.old).files self.old.name)) ⊎ (sealed (image self.old.name) ≡ [])) (D.disk dev.old) (D.disk dev.new) }
        ensures cause { HasCause D.disk_faults D.tell_faults dev.old dev.new (IsErr result) }
    {
        let count = self.spans.len();
        match empty(dev, &self.name, self.end, self.is_closed, count > 0) {
            Ok(()) => {
                self.spans.clear();
                self.spare += count;
                self.end = 16;
                self.is_closed = true;
                Ok(())
            }
            Err(e) => {
                self.failed = true;
                Err(e)
            }
        }
    }

    /// Throws the blob away that is begun. Takes no memory.
    pub fn drop_begun<D: Device>(&mut self, dev: &mut D) -> Result<(), Failed>
        requires fit { self.old.failed ≡ false }
        requires begun { IsSome self.old.begun }
        requires stands { D.tells → IsGate (D.disk dev.old) self.old }
        ensures stands { D.tells → OnOk result (IsGate (D.disk dev.new) self.new) }
        ensures same { OnOk result (self.new ≡ record self.old { begun = None }) }
        ensures name { self.new.name ≡ self.old.name }
        ensures sealed { D.tells → OnOk result (sealed ((D.disk dev.new).files self.old.name) ≡ sealed ((D.disk dev.old).files self.old.name)) }
        ensures failed { self.new.failed ≡ is_err result }
        ensures crash { D.tells → Effect (IsName self.old.name) (λ image. sealed (image self.old.name) ≡ sealed ((D.disk dev.old).files self.old.name)) (D.disk dev.old) (D.disk dev.new) }
        ensures cause { HasCause D.disk_faults D.tell_faults dev.old dev.new (IsErr result) }
    {
        match leave_closed(dev, &self.name, self.end, self.is_closed) {
            Ok(()) => {
                self.begun = None;
                Ok(())
            }
            Err(e) => {
                self.failed = true;
                Err(e)
            }
        }
    }
}

// Adds a span, for which room was reserved.
fn push_reserved(spans: &mut Vec<(u64, u64)>, span: (u64, u64))
    requires { vec_len spans.old < vec_capacity spans.old }
    ensures items { spans.new.items ≡ spans.old.items ++ span ∷ [] }
    ensures len { vec_len spans.new ≡ vec_len spans.old + 1 }
    ensures room { vec_capacity spans.old ≤ vec_capacity spans.new }
{
    match spans.push(span) {
        Ok(()) => {}
        Err(_) => unreachable!(),
    }
}
