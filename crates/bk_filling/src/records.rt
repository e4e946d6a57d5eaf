// A log that comes to hold records before its control record is put.
ghost use Rattle.std.specs.Prelude.{◌≡◌, ◌≤◌, ◌<◌, ◌⊎◌, ◌^◌, ◌+◌, ◌++◌, ◌∷◌, [], ℕ, List, None, false, true, length, vec_len, vec_capacity, IfOk, IsErrOf, OnOk};
ghost use Rattle.bk_control.specs.Control.{IsControl};
ghost use Rattle.bk_device.specs.Counts.{HasCause};
ghost use Rattle.bk_device.specs.Effects.{Effect, IsName};
ghost use Rattle.bk_filling.specs.Records.{HasRecords, IsBegun, Kept, Spell};
ghost use Rattle.bk_ids.specs.declared.record.Rec.{Rec};
ghost use Rattle.bk_segments.specs.Files.{control_file, segment_file, AreDurable, AreSettled, IsOwn, LogIs};

use crate::error::FillError;
use bk_control::{Control, ControlError};
use bk_device::Device;
use bk_gate::Gate;
use bk_ids::Lsn;
use bk_segments::{Head, begin_segment, control_name, spell};
use std::alloc::Global;
use std::marker::Model;

/// The log of a database that comes to hold records before its control record is put. Until then there is no log.
pub struct Records {
    db: u32,
    kept: Lsn,
    // the last segment and its number; they count from 1
    gate: Gate,
    back: u64,
}

impl Drop for Records {
    fn drop(self) {
        let Records {
            db: _,
            kept: _,
            gate: _,
            back: _,
        } = self;
    }
}

impl Model for Records {
    ghost Value = { Kept };

    ghost view = { λ l. record { db = l.db; kept = l.kept; back = l.back; gate = l.gate } };

    ghost invariant = { λ l. (l.gate.failed ≡ false → l.gate.begun ≡ None) × (1 ≤ l.back) × (l.back ≤ 65536) };
}

impl Records {
    /// Begins with no record; the first one will have the number `kept`. There is no control file.
    pub fn begin<D: Device>(
        alloc: Global,
        dev: &mut D,
        db: u32,
        kept: Lsn,
    ) -> Result<Records, FillError>
        requires { D.tells → (D.disk dev.old).files (control_file db) ≡ None }
        ensures numbers { IfOk result (λ l. (l.db ≡ db) × (l.kept ≡ kept)) }
        ensures fit { IfOk result (λ l. l.gate.failed ≡ false) }
        ensures stands { D.tells → IfOk result (λ l. IsBegun (D.disk dev.new) l) }
        ensures none { D.tells → IfOk result (λ l. HasRecords (D.disk dev.new).files l []) }
        ensures durable { D.tells → AreDurable db (D.disk dev.old) → OnOk result (AreDurable db (D.disk dev.new)) }
        ensures crash { D.tells → Effect (IsOwn db) (λ _. Unit {0}) (D.disk dev.old) (D.disk dev.new) }
        ensures cause { HasCause D.disk_faults D.tell_faults dev.old dev.new (IsErrOf result FillError.Fault) }
    {
        let gate = begin_segment(alloc, dev, db, 1, 0)?;
        Ok(Records {
            db,
            kept,
            gate,
            back: 1,
        })
    }

    // Whether the last segment has 1 MiB or more, and another one may be begun.
    fn is_full(&self) -> bool
        requires { self.now.gate.failed ≡ false }
        ensures { result ≡ true → self.now.back + 1 ≤ 65536 }
    {
        let count = self.gate.count();
        if count == 0 || self.back >= 65_536 {
            return false;
        }
        let (at, len) = self.gate.span(count - 1);
        1 << 20 <= at + len
    }

    // Begins another segment.
    fn grow<D: Device>(&mut self, alloc: Global, dev: &mut D) -> Result<(), FillError>
        requires few { self.old.back + 1 ≤ 65536 }
        requires fit { self.old.gate.failed ≡ false }
        requires stands { D.tells → IsBegun (D.disk dev.old) self.old }
        ensures same { OnOk result ((self.new.db ≡ self.old.db) × (self.new.kept ≡ self.old.kept)) }
        ensures fit { OnOk result (self.new.gate.failed ≡ false) }
        ensures stands { D.tells → OnOk result (IsBegun (D.disk dev.new) self.new) }
        ensures records { D.tells → (records : List Rec) → HasRecords (D.disk dev.old).files self.old records → OnOk result (HasRecords (D.disk dev.new).files self.new records) }
        ensures durable { D.tells → AreDurable self.old.db (D.disk dev.old) → OnOk result (AreDurable self.old.db (D.disk dev.new)) }
        ensures crash { D.tells → Effect (IsOwn self.old.db) (λ _. Unit {0}) (D.disk dev.old) (D.disk dev.new) }
        ensures cause { HasCause D.disk_faults D.tell_faults dev.old dev.new (IsErrOf result FillError.Fault) }
    {
        let gate = begin_segment(alloc, dev, self.db, self.back + 1, 0)?;
        self.gate = gate;
        self.back += 1;
        Ok(())
    }

    // Begins another segment where the last one is full.
    fn make_room<D: Device>(&mut self, alloc: Global, dev: &mut D) -> Result<(), FillError>
        requires fit { self.old.gate.failed ≡ false }
        requires stands { D.tells → IsBegun (D.disk dev.old) self.old }
        ensures same { OnOk result ((self.new.db ≡ self.old.db) × (self.new.kept ≡ self.old.kept)) }
        ensures fit { OnOk result (self.new.gate.failed ≡ false) }
        ensures stands { D.tells → OnOk result (IsBegun (D.disk dev.new) self.new) }
        ensures records { D.tells → (records : List Rec) → HasRecords (D.disk dev.old).files self.old records → OnOk result (HasRecords (D.disk dev.new).files self.new records) }
        ensures durable { D.tells → AreDurable self.old.db (D.disk dev.old) → OnOk result (AreDurable self.old.db (D.disk dev.new)) }
        ensures crash { D.tells → Effect (IsOwn self.old.db) (λ _. Unit {0}) (D.disk dev.old) (D.disk dev.new) }
        ensures cause { HasCause D.disk_faults D.tell_faults dev.old dev.new (IsErrOf result FillError.Fault) }
    {
        if !self.is_full() {
            return Ok(());
        }
        self.grow(alloc, dev)
    }

    // Adds a blob to the last segment.
    fn add<D: Device>(&mut self, dev: &mut D, bytes: &[u8]) -> Result<(), FillError>
        requires fit { self.old.gate.failed ≡ false }
        requires stands { D.tells → IsBegun (D.disk dev.old) self.old }
        ensures same { OnOk result ((self.new.db ≡ self.old.db) × (self.new.kept ≡ self.old.kept)) }
        ensures fit { OnOk result (self.new.gate.failed ≡ false) }
        ensures stands { D.tells → OnOk result (IsBegun (D.disk dev.new) self.new) }
        ensures records { D.tells → (records more : List Rec) → HasRecords (D.disk dev.old).files self.old records → Spell bytes.now (self.old.kept + length records) more → OnOk result (HasRecords (D.disk dev.new).files self.new (records ++ more)) }
        ensures durable { D.tells → AreDurable self.old.db (D.disk dev.old) → OnOk result (AreDurable self.old.db (D.disk dev.new)) }
        ensures crash { D.tells → Effect (IsOwn self.old.db) (λ _. Unit {0}) (D.disk dev.old) (D.disk dev.new) }
        ensures cause { HasCause D.disk_faults D.tell_faults dev.old dev.new (IsErrOf result FillError.Fault) }
    {
        self.gate.reserve(1)?;
        self.gate.append_reserved(dev, bytes)?;
        Ok(())
    }

    /// Adds bytes that spell whole records, whose numbers follow those that are there, and makes them durable. A crash may leave anything in the log's segments. After an error the value is no longer
    /// used.
    pub fn push<D: Device>(
        &mut self,
        alloc: Global,
        dev: &mut D,
        bytes: &[u8],
    ) -> Result<(), FillError>
        requires fit { self.old.gate.failed ≡ false }
        requires stands { D.tells → IsBegun (D.disk dev.old) self.old }
        ensures same { OnOk result ((self.new.db ≡ self.old.db) × (self.new.kept ≡ self.old.kept)) }
        ensures fit { OnOk result (self.new.gate.failed ≡ false) }
        ensures stands { D.tells → OnOk result (IsBegun (D.disk dev.new) self.new) }
        ensures records { D.tells → (records more : List Rec) → HasRecords (D.disk dev.old).files self.old records → Spell bytes.now (self.old.kept + length records) more → OnOk result (HasRecords (D.disk dev.new).files self.new (records ++ more)) }
        ensures durable { D.tells → AreDurable self.old.db (D.disk dev.old) → OnOk result (AreDurable self.old.db (D.disk dev.new)) }
        ensures crash { D.tells → Effect (IsOwn self.old.db) (λ _. Unit {0}) (D.disk dev.old) (D.disk dev.new) }
        ensures cause { HasCause D.disk_faults D.tell_faults dev.old dev.new (IsErrOf result FillError.Fault) }
    {
        self.make_room(alloc, dev)?;
        self.add(dev, bytes)
    }

    /// Puts the control record, with these bytes, at most 32,768, as the note: then the files are a log, and what counts of it is durable.
    pub fn finish<D: Device>(
        &self,
        alloc: Global,
        dev: &mut D,
        note: &[u8],
    ) -> Result<(), FillError>
        requires short { length note.now ≤ 32768 }
        requires stands { D.tells → IsBegun (D.disk dev.old) self.now }
        ensures settled { D.tells → OnOk result (AreSettled self.now.db (D.disk dev.new)) }
        ensures durable { D.tells → AreDurable self.now.db (D.disk dev.old) → OnOk result (AreDurable self.now.db (D.disk dev.new)) }
        ensures log { D.tells → (records : List Rec) → HasRecords (D.disk dev.old).files self.now records → self.now.kept + length records < 2 ^ 64 → OnOk result (LogIs (D.disk dev.new).files self.now.db (record { kept = self.now.kept; records = records; note = note.now })) }
        ensures crash { D.tells → Effect (IsOwn self.now.db) (λ _. Unit {0}) (D.disk dev.old) (D.disk dev.new) }
        ensures cause { HasCause D.disk_faults D.tell_faults dev.old dev.new (IsErrOf result FillError.Fault) }
    {
        let head = Head {
            kept: self.kept,
            gone: 1,
            front: 1,
            back: self.back,
            first: self.kept,
        };
        let name = control_name(alloc, self.db)?;
        let mut bytes = Vec::with_capacity(alloc, 32_808)?;
        spell(&mut bytes, head, note);
        put_control(alloc, dev, &name, &bytes)?;
        Ok(())
    }
}

// Makes a control file of these bytes.
fn put_control<D: Device>(
    alloc: Global,
    dev: &mut D,
    name: &str,
    bytes: &[u8],
) -> Result<Control, FillError>
    requires { length bytes.now ≤ 65536 }
    ensures content { IfOk result (λ c. c.content ≡ bytes.now) }
    ensures name { IfOk result (λ c. c.name ≡ name.now) }
    ensures stands { D.tells → IfOk result (λ c. IsControl (D.disk dev.new) c) }
    ensures crash { D.tells → Effect (IsName name.now) (λ _. Unit {0}) (D.disk dev.old) (D.disk dev.new) }
    ensures cause { HasCause D.disk_faults D.tell_faults dev.old dev.new (IsErrOf result FillError.Fault) }
{
    match Control::make(alloc, dev, name, bytes) {
        Ok(control) => Ok(control),
        Err(ControlError::Foreign) => unreachable!(),
        Err(ControlError::Fault) => Err(FillError::Fault),
        Err(ControlError::NoMemory) => Err(FillError::NoMemory),
    }
}
