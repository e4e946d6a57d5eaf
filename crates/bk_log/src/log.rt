// The log of one database over its files.
ghost use Rattle.std.specs.Prelude.{◌≡◌, ◌≤◌, ◌<◌, ◌⊎◌, ◌^◌, ◌+◌, ◌-◌, ◌++◌, ◌||◌, ◌∷◌, [], ℕ, None, Some, length, drop, take, vec_len, vec_capacity, false, true, IfOk, OnOk, OnErr, IsErrOf, IsErr};
ghost use Rattle.std.specs.List.{AllByRecursion, flat_map};
ghost use Rattle.bk_control.specs.Slots.{control_of};
ghost use Rattle.bk_device.specs.Calls.{ChangesNothing};
ghost use Rattle.bk_device.specs.Counts.{HasCause};
ghost use Rattle.bk_device.specs.Disk.{Files, IsDurable};
ghost use Rattle.bk_device.specs.Effects.{Effect};
ghost use Rattle.bk_segments.specs.declared.head.Head.{Head};
ghost use Rattle.bk_segments.specs.Control.{IsSound};
ghost use Rattle.bk_gate.specs.Gate.{IsGate};
ghost use Rattle.bk_log.specs.Log.{Kept, IsLog, IsSame, KeepsSpare, value_of};
ghost use Rattle.bk_segments.specs.Files.{control_file, segment_file, blobs_at, AreGone, AreTidy, BeginsAt, Holds, IsAdded, IsFirstAt, IsOwn, IsTidy, LogIs, IsForeign, AreDurable, AreSettled, Logged, blobs_of, cut_at, emptied, with_more};
ghost use Rattle.bk_segments.specs.Records.{IsPart, records_in, records_of};
ghost use Rattle.bk_record.specs.Spelling.{IsRecord, KeepsLimits, spelling};

use crate::bytes::LogBytes;
use crate::places::place_of;
use bk_control::Control;
use bk_device::{Device, Failed, remove_durably};
use bk_gate::Gate;
use bk_ids::{Lsn, Rec};
use bk_record::{encode_reserved, spelled_len};
use bk_segments::{
    Head, LogError, Segment, add, add_segment, begin_segment, control_name, count_below,
    drop_segments, find, find_head, first_of, gather, make_files, new_segment, push_segment,
    remove_named, remove_segments, spell, tidy,
};
use std::alloc::{AllocError, Global};
use std::marker::Model;

/// The log of one database: its records from the kept point on, each with the number that follows the one before it, and a
/// note of at most 32,768 bytes for the layer above.
///
/// Once a call that took the value by `&mut` has answered `Fault` or `Failed` it is failed, and is no longer used.
pub struct Log {
    db: u32,
    control: Control,
    // the last segment
    gate: Gate,
    head: Head,
    // those that count
    segments: Vec<Segment>,
    // with room for 32,768 bytes
    note: Vec<u8>,
    // where a control record is spelled before it is put, with room for its 32,808 bytes
    spelled: Vec<u8>,
    stored: Lsn,
    end: Lsn,
    // the bytes of the records that aren't sealed yet, with room for the spare ones
    waiting: Vec<u8>,
    spare_bytes: usize,
    // the last segment's spare is at least this
    spare_flushes: usize,
    failed: bool,
}

impl Drop for Log {
    fn drop(self) {
        let Log {
            db: _,
            control: _,
            gate: _,
            head: _,
            segments: _,
            note: _,
            spelled: _,
            stored: _,
            end: _,
            waiting: _,
            spare_bytes: _,
            spare_flushes: _,
            failed: _,
        } = self;
    }
}

impl Model for Log {
    ghost Value = { Kept };

    ghost view = { λ l. record {
      db = l.db;
      control = l.control;
      gate = l.gate;
      head = l.head;
      segments = l.segments.items;
      note = l.note.items;
      stored = l.stored;
      end = l.end;
      waiting = records_in l.waiting.items;
      spare_bytes = l.spare_bytes;
      spare_flushes = l.spare_flushes;
      failed = l.failed || l.control.failed || l.gate.failed;
    } };

    ghost invariant = { λ l. (l.gate.failed ≡ false → l.gate.begun ≡ None) × (32768 ≤ vec_capacity l.note) × (vec_len l.note ≤ 32768) × (32808 ≤ vec_capacity l.spelled) × IsPart l.stored l.waiting.items l.end × (l.end < 2 ^ 64) × IsSound l.head l.note.items × (l.head.front + vec_len l.segments ≡ l.head.back + 1) × (vec_len l.waiting + l.spare_bytes ≤ vec_capacity l.waiting) × (l.gate.failed ≡ false → l.spare_flushes ≤ l.gate.spare) };
}

impl Log {
    /// Opens the log of a database, of which what counts is durable (`settle`), and reads the bytes of its records, each segment in
    /// one read. Segments that no longer count, and one that was begun behind the last, are removed. Nothing else is changed.
    ///
    /// `Foreign` is answered exactly where there is no control record, where a segment that it names holds no blob, or where
    /// they hold anything but records whose numbers follow each other. Then nothing is changed.
    pub fn read<D: Device>(alloc: Global, dev: &mut D, db: u32) -> Result<(Log, LogBytes), LogError>
        ensures db { IfOk result (λ x. x.0.db ≡ db) }
        ensures failed { IfOk result (λ x. x.0.failed ≡ false) }
        ensures none { IfOk result (λ x. x.0.waiting ≡ []) }
        ensures end { IfOk result (λ x. x.0.end ≡ x.0.stored) }
        ensures loaded { D.tells → IfOk result (λ x. LogIs (D.disk dev.old).files db (value_of (D.disk dev.old).files x.0)) }
        ensures value { D.tells → AreSettled db (D.disk dev.old) → IfOk result (λ x. value_of (D.disk dev.new).files x.0 ≡ value_of (D.disk dev.old).files x.0) }
        ensures stands { D.tells → AreSettled db (D.disk dev.old) → IfOk result (λ x. IsLog (D.disk dev.new) x.0) }
        ensures tidy { D.tells → AreSettled db (D.disk dev.old) → IfOk result (λ x. IsTidy (D.disk dev.old).files (D.disk dev.new).files db x.0.head) }
        ensures bytes { D.tells → IfOk result (λ x. x.1 ≡ flat_map spelling (value_of (D.disk dev.old).files x.0).records) }
        ensures foreign { D.tells → IsErrOf result LogError.Foreign → IsForeign (D.disk dev.old).files db }
        ensures still { D.tells → IsErrOf result LogError.Foreign → ChangesNothing (D.disk dev.old) (D.disk dev.new) }
        ensures crash { D.tells → AreDurable db (D.disk dev.old) → Effect (IsOwn db) (λ image. (log : Logged) → LogIs (D.disk dev.old).files db log → LogIs image db log) (D.disk dev.old) (D.disk dev.new) }
        ensures rests { D.tells → AreTidy (D.disk dev.old).files db → ChangesNothing (D.disk dev.old) (D.disk dev.new) }
        ensures touches { D.tells → Effect (IsOwn db) (λ _. Unit {0}) (D.disk dev.old) (D.disk dev.new) }
        ensures cause { HasCause D.disk_faults D.tell_faults dev.old dev.new (IsErrOf result LogError.Fault) }
    {
        let (log, all) = Log::open(alloc, dev, db, true)?;
        tidy(alloc, dev, db, log.head)?;
        let bytes = LogBytes::behind(all, log.head.kept - log.head.first);
        Ok((log, bytes))
    }

    /// Opens a log as `read` does, without those bytes.
    pub fn load<D: Device>(alloc: Global, dev: &mut D, db: u32) -> Result<Log, LogError>
        ensures db { IfOk result (λ l. l.db ≡ db) }
        ensures failed { IfOk result (λ l. l.failed ≡ false) }
        ensures none { IfOk result (λ l. l.waiting ≡ []) }
        ensures end { IfOk result (λ l. l.end ≡ l.stored) }
        ensures loaded { D.tells → IfOk result (λ l. LogIs (D.disk dev.old).files db (value_of (D.disk dev.old).files l)) }
        ensures value { D.tells → AreSettled db (D.disk dev.old) → IfOk result (λ l. value_of (D.disk dev.new).files l ≡ value_of (D.disk dev.old).files l) }
        ensures stands { D.tells → AreSettled db (D.disk dev.old) → IfOk result (λ l. IsLog (D.disk dev.new) l) }
        ensures tidy { D.tells → AreSettled db (D.disk dev.old) → IfOk result (λ l. IsTidy (D.disk dev.old).files (D.disk dev.new).files db l.head) }
        ensures control { D.tells → OnOk result ((D.disk dev.new).files (control_file db) ≡ (D.disk dev.old).files (control_file db)) }
        ensures foreign { D.tells → IsErrOf result LogError.Foreign → IsForeign (D.disk dev.old).files db }
        ensures still { D.tells → IsErrOf result LogError.Foreign → ChangesNothing (D.disk dev.old) (D.disk dev.new) }
        ensures crash { D.tells → AreDurable db (D.disk dev.old) → Effect (IsOwn db) (λ image. (log : Logged) → LogIs (D.disk dev.old).files db log → LogIs image db log) (D.disk dev.old) (D.disk dev.new) }
        ensures rests { D.tells → AreTidy (D.disk dev.old).files db → ChangesNothing (D.disk dev.old) (D.disk dev.new) }
        ensures touches { D.tells → Effect (IsOwn db) (λ _. Unit {0}) (D.disk dev.old) (D.disk dev.new) }
        ensures cause { HasCause D.disk_faults D.tell_faults dev.old dev.new (IsErrOf result LogError.Fault) }
    {
        let (log, _) = Log::open(alloc, dev, db, false)?;
        tidy(alloc, dev, db, log.head)?;
        Ok(log)
    }

    // Opens the log, with the bytes of all records in its segments, if they are to be gathered. Changes nothing.
    fn open<D: Device>(
        alloc: Global,
        dev: &mut D,
        db: u32,
        gathers: bool,
    ) -> Result<(Log, Vec<u8>), LogError>
        ensures db { IfOk result (λ x. x.0.db ≡ db) }
        ensures failed { IfOk result (λ x. x.0.failed ≡ false) }
        ensures none { IfOk result (λ x. x.0.waiting ≡ []) }
        ensures end { IfOk result (λ x. x.0.end ≡ x.0.stored) }
        ensures loaded { D.tells → IfOk result (λ x. LogIs (D.disk dev.old).files db (value_of (D.disk dev.old).files x.0)) }
        ensures holds { D.tells → IfOk result (λ x. Holds (D.disk dev.old).files db x.0.head) }
        ensures order { IfOk result (λ x. x.0.head.front ≤ x.0.head.back) }
        ensures small { IfOk result (λ x. x.0.head.back < 2 ^ 62) }
        ensures stands { D.tells → AreSettled db (D.disk dev.old) → IfOk result (λ x. IsLog (D.disk dev.new) x.0) }
        ensures kept { IfOk result (λ x. x.0.head.first ≤ x.0.head.kept) }
        ensures bytes { D.tells → gathers ≡ true → IfOk result (λ x. x.1.items ≡ flat_map spelling (records_of (blobs_of (D.disk dev.old).files db x.0.head))) }
        ensures records { D.tells → IfOk result (λ x. AllByRecursion IsRecord (records_of (blobs_of (D.disk dev.old).files db x.0.head))) }
        ensures enough { D.tells → IfOk result (λ x. x.0.head.kept - x.0.head.first ≤ length (records_of (blobs_of (D.disk dev.old).files db x.0.head))) }
        ensures foreign { D.tells → IsErrOf result LogError.Foreign → IsForeign (D.disk dev.old).files db }
        ensures effect { D.tells → ChangesNothing (D.disk dev.old) (D.disk dev.new) }
        ensures cause { HasCause D.disk_faults D.tell_faults dev.old dev.new (IsErrOf result LogError.Fault) }
    {
        let spelled = Vec::with_capacity(alloc, 32_808)?;
        let found = find(alloc, dev, db, gathers)?;
        let log = Log {
            db,
            control: found.control,
            gate: found.gate,
            head: found.head,
            segments: found.segments,
            note: found.note,
            spelled,
            stored: found.stored,
            end: found.stored,
            waiting: Vec::new(alloc),
            spare_bytes: 0,
            spare_flushes: 0,
            failed: false,
        };
        Ok((log, found.bytes))
    }

    /// Makes the log of a database that has none, with no record, an empty note, and kept point and end at `at`. A crash
    /// leaves no log, or this one.
    ///
    /// `NoMemory` may come after files were touched. `Foreign` isn't answered.
    pub fn make<D: Device>(alloc: Global, dev: &mut D, db: u32, at: Lsn) -> Result<Log, LogError>
        ensures db { IfOk result (λ l. l.db ≡ db) }
        ensures failed { IfOk result (λ l. l.failed ≡ false) }
        ensures none { IfOk result (λ l. l.waiting ≡ []) }
        ensures end { IfOk result (λ l. (l.stored ≡ at) × (l.end ≡ at) × (l.head.kept ≡ at)) }
        ensures value { D.tells → IfOk result (λ l. value_of (D.disk dev.new).files l ≡ emptied at []) }
        ensures stands { D.tells → IfOk result (λ l. IsLog (D.disk dev.new) l) }
        ensures crash { D.tells → IsDurable (D.disk dev.old) (control_file db) → control_of ((D.disk dev.old).files (control_file db)) ≡ None → Effect (IsOwn db) (λ image. IsForeign image db ⊎ LogIs image db (emptied at [])) (D.disk dev.old) (D.disk dev.new) }
        ensures foreign { IsErrOf result LogError.Foreign → ⊥ }
        ensures cause { HasCause D.disk_faults D.tell_faults dev.old dev.new (IsErrOf result LogError.Fault) }
    {
        Log::make_noted(alloc, dev, db, at, &[])
    }

    /// The same with these bytes, at most 32,768, as its note.
    pub fn make_noted<D: Device>(
        alloc: Global,
        dev: &mut D,
        db: u32,
        at: Lsn,
        bytes: &[u8],
    ) -> Result<Log, LogError>
        requires short { length bytes.now ≤ 32768 }
        ensures db { IfOk result (λ l. l.db ≡ db) }
        ensures failed { IfOk result (λ l. l.failed ≡ false) }
        ensures none { IfOk result (λ l. l.waiting ≡ []) }
        ensures end { IfOk result (λ l. (l.stored ≡ at) × (l.end ≡ at) × (l.head.kept ≡ at)) }
        ensures value { D.tells → IfOk result (λ l. value_of (D.disk dev.new).files l ≡ emptied at bytes.now) }
        ensures stands { D.tells → IfOk result (λ l. IsLog (D.disk dev.new) l) }
        ensures crash { D.tells → IsDurable (D.disk dev.old) (control_file db) → control_of ((D.disk dev.old).files (control_file db)) ≡ None → Effect (IsOwn db) (λ image. IsForeign image db ⊎ LogIs image db (emptied at bytes.now)) (D.disk dev.old) (D.disk dev.new) }
        ensures foreign { IsErrOf result LogError.Foreign → ⊥ }
        ensures cause { HasCause D.disk_faults D.tell_faults dev.old dev.new (IsErrOf result LogError.Fault) }
    {
        let head = Head {
            kept: at,
            gone: 1,
            front: 1,
            back: 1,
            first: at,
        };
        let mut note = Vec::with_capacity(alloc, 32_768)?;
        add(&mut note, bytes);
        let mut segments = Vec::new(alloc);
        add_segment(alloc, db, 1, at, &mut segments)?;
        let mut spelled = Vec::with_capacity(alloc, 32_808)?;
        spell(&mut spelled, head, bytes);
        let (control, gate) = make_files(alloc, dev, db, &spelled)?;
        Ok(Log {
            db,
            control,
            gate,
            head,
            segments,
            note,
            spelled,
            stored: at,
            end: at,
            waiting: Vec::new(alloc),
            spare_bytes: 0,
            spare_flushes: 0,
            failed: false,
        })
    }

    /// Removes the segments of a database's log, one that was begun behind them too, and then its control file. Does nothing
    /// where that file is absent or holds no sound control record. The control file is there until all segments are gone, so the call may be repeated after a crash.
    ///
    /// `Foreign` isn't answered.
    pub fn remove<D: Device>(alloc: Global, dev: &mut D, db: u32) -> Result<(), LogError>
        ensures gone { D.tells → OnOk result (IsForeign (D.disk dev.new).files db) }
        ensures control { D.tells → OnOk result ((head : Head) → Holds (D.disk dev.old).files db head → (D.disk dev.new).files (control_file db) ≡ None) }
        ensures segments { D.tells → OnOk result (AreGone (D.disk dev.old).files (D.disk dev.new).files db) }
        ensures begun { D.tells → OnOk result ((head : Head) → Holds (D.disk dev.old).files db head → (D.disk dev.new).files (segment_file db (head.back + 1)) ≡ None) }
        ensures foreign { IsErrOf result LogError.Foreign → ⊥ }
        ensures crash { D.tells → IsDurable (D.disk dev.old) (control_file db) → Effect (IsOwn db) (λ image. (image (control_file db) ≡ (D.disk dev.old).files (control_file db)) ⊎ (image (control_file db) ≡ None)) (D.disk dev.old) (D.disk dev.new) }
        ensures cause { HasCause D.disk_faults D.tell_faults dev.old dev.new (IsErrOf result LogError.Fault) }
    {
        let name = control_name(alloc, db)?;
        let Some(head) = find_head(alloc, dev, db)? else {
            return Ok(());
        };
        remove_segments(alloc, dev, db, head.gone, head.back + 2)?;
        remove_durably(dev, &name)?;
        Ok(())
    }

    /// The number of the first record that counts.
    pub fn kept(&self) -> Lsn
        ensures { result ≡ self.now.head.kept }
    {
        self.head.kept
    }

    /// The number behind that of the last durable record.
    pub fn stored(&self) -> Lsn
        ensures { result ≡ self.now.stored }
    {
        self.stored
    }

    /// The number of the next record.
    pub fn end(&self) -> Lsn
        ensures { result ≡ self.now.end }
    {
        self.end
    }

    /// How many bytes of records may be added without memory.
    pub fn spare_bytes(&self) -> usize
        ensures { result ≡ self.now.spare_bytes }
    {
        self.spare_bytes
    }

    /// How often the records that wait may be made durable without memory.
    pub fn spare_flushes(&self) -> usize
        ensures { result ≡ self.now.spare_flushes }
    {
        self.spare_flushes
    }

    /// The note of the layer above, at most 32,768 bytes.
    pub fn note(&self) -> &[u8]
        ensures { result.now ≡ self.now.note }
    {
        &self.note
    }

    /// Makes room: from then on at least so many spare bytes, and at least so many spare flushes. Neither falls. `AllocError`
    /// leaves the value as it was.
    pub fn reserve(&mut self, bytes: usize, flushes: usize) -> Result<(), AllocError>
        requires { self.old.failed ≡ false }
        ensures bytes { OnOk result (bytes ≤ self.new.spare_bytes) }
        ensures flushes { OnOk result (flushes ≤ self.new.spare_flushes) }
        ensures never_lowered { (self.old.spare_bytes ≤ self.new.spare_bytes) × (self.old.spare_flushes ≤ self.new.spare_flushes) }
        ensures same { self.new ≡ record self.old { gate = record self.old.gate { spare = self.new.gate.spare }; spare_bytes = self.new.spare_bytes; spare_flushes = self.new.spare_flushes } }
        ensures err { OnErr result (self.new ≡ self.old) }
    {
        self.waiting.reserve(bytes)?;
        self.gate.reserve(flushes)?;
        self.spare_bytes = self.spare_bytes.max(bytes);
        self.spare_flushes = self.spare_flushes.max(flushes);
        Ok(())
    }

    /// Adds a record behind the others, in memory alone. Its number is the end, which is below 2^64 - 1. The spare bytes don't
    /// fall. Where there is no memory the value stays as it was.
    pub fn append(&mut self, r: &Rec) -> Result<(), AllocError>
        requires limits { KeepsLimits r.now.body }
        requires number { r.now.lsn ≡ self.old.end }
        requires small { self.old.end < 2 ^ 64 - 1 }
        ensures more { OnOk result (self.new ≡ record self.old { waiting = self.old.waiting ++ r.now ∷ []; end = self.old.end + 1 }) }
        ensures fits { OnOk result (IsRecord r.now) }
        ensures err { OnErr result (self.new ≡ self.old) }
    {
        let len = spelled_len(r);
        let Some(room) = self.spare_bytes.checked_add(len) else {
            return Err(AllocError);
        };
        self.waiting.reserve(room)?;
        encode_reserved(r, &mut self.waiting);
        self.end += 1;
        Ok(())
    }

    /// Adds a record behind the others, in memory alone, by as many of the spare bytes as its spelling has. Its number is the
    /// end, which is below 2^64 - 1. Takes no memory.
    pub fn append_reserved(&mut self, r: &Rec)
        requires limits { KeepsLimits r.now.body }
        requires number { r.now.lsn ≡ self.old.end }
        requires small { self.old.end < 2 ^ 64 - 1 }
        requires spare { length (spelling r.now) ≤ self.old.spare_bytes }
        ensures more { self.new ≡ record self.old { waiting = self.old.waiting ++ r.now ∷ []; end = self.old.end + 1; spare_bytes = self.old.spare_bytes - length (spelling r.now) } }
        ensures fits { IsRecord r.now }
    {
        let len = spelled_len(r);
        encode_reserved(r, &mut self.waiting);
        self.spare_bytes -= len;
        self.end += 1;
    }

    /// Makes the records that wait durable. Where the last segment has 1 MiB or more a new one is begun first. The spare flushes
    /// don't fall. Where none waits nothing is changed. A crash leaves the log as it was, or with all of them.
    ///
    /// `NoMemory` leaves the log as it was; a segment may have been begun. `Foreign` isn't answered.
    pub fn flush<D: Device>(&mut self, alloc: Global, dev: &mut D) -> Result<(), LogError>
        requires fit { self.old.failed ≡ false }
        requires stands { D.tells → IsLog (D.disk dev.old) self.old }
        ensures stands { D.tells → OnOk result (IsLog (D.disk dev.new) self.new) }
        ensures value { D.tells → OnOk result (value_of (D.disk dev.new).files self.new ≡ with_more (value_of (D.disk dev.old).files self.old) self.old.waiting) }
        ensures same { OnOk result ((self.new.db ≡ self.old.db) × (self.new.end ≡ self.old.end)) }
        ensures kept { OnOk result (self.new.head.kept ≡ self.old.head.kept) }
        ensures none { OnOk result ((self.new.waiting ≡ []) × (self.new.stored ≡ self.old.end)) }
        ensures spare { OnOk result (KeepsSpare self.old self.new) }
        ensures fit { OnOk result (self.new.failed ≡ false) }
        ensures failed { IsErrOf result LogError.Fault → self.new.failed ≡ true }
        ensures no_memory { IsErrOf result LogError.NoMemory → self.new ≡ self.old }
        ensures stays { D.tells → IsErrOf result LogError.NoMemory → IsLog (D.disk dev.new) self.new }
        ensures still { D.tells → self.old.waiting ≡ [] → ChangesNothing (D.disk dev.old) (D.disk dev.new) }
        ensures foreign { IsErrOf result LogError.Foreign → ⊥ }
        ensures crash { D.tells → Effect (IsOwn self.old.db) (λ image. LogIs image self.old.db (value_of (D.disk dev.old).files self.old) ⊎ LogIs image self.old.db (with_more (value_of (D.disk dev.old).files self.old) self.old.waiting)) (D.disk dev.old) (D.disk dev.new) }
        ensures cause { HasCause D.disk_faults D.tell_faults dev.old dev.new (IsErrOf result LogError.Fault) }
    {
        if self.end == self.stored {
            return Ok(());
        }
        self.make_room(alloc, dev)?;
        let flushes = self.spare_flushes;
        self.seal(dev, flushes)?;
        Ok(())
    }

    /// Makes the records that wait durable, by one of the spare flushes, of which there is at least one. Begins no segment, and
    /// takes no memory. A crash leaves the log as it was, or with all of them.
    pub fn flush_reserved<D: Device>(&mut self, dev: &mut D) -> Result<(), Failed>
        requires fit { self.old.failed ≡ false }
        requires spare { 1 ≤ self.old.spare_flushes }
        requires stands { D.tells → IsLog (D.disk dev.old) self.old }
        ensures stands { D.tells → OnOk result (IsLog (D.disk dev.new) self.new) }
        ensures value { D.tells → OnOk result (value_of (D.disk dev.new).files self.new ≡ with_more (value_of (D.disk dev.old).files self.old) self.old.waiting) }
        ensures same { OnOk result ((self.new.db ≡ self.old.db) × (self.new.end ≡ self.old.end) × (self.new.head ≡ self.old.head)) }
        ensures none { OnOk result ((self.new.waiting ≡ []) × (self.new.stored ≡ self.old.end)) }
        ensures spare { OnOk result ((self.new.spare_bytes ≡ self.old.spare_bytes) × (self.new.spare_flushes + 1 ≡ self.old.spare_flushes)) }
        ensures fit { OnOk result (self.new.failed ≡ false) }
        ensures failed { OnErr result (self.new.failed ≡ true) }
        ensures crash { D.tells → Effect (IsOwn self.old.db) (λ image. LogIs image self.old.db (value_of (D.disk dev.old).files self.old) ⊎ LogIs image self.old.db (with_more (value_of (D.disk dev.old).files self.old) self.old.waiting)) (D.disk dev.old) (D.disk dev.new) }
        ensures cause { HasCause D.disk_faults D.tell_faults dev.old dev.new (IsErr result) }
    {
        let flushes = self.spare_flushes - 1;
        if self.end == self.stored {
            self.spare_flushes = flushes;
            return Ok(());
        }
        self.seal(dev, flushes)?;
        Ok(())
    }

    // Makes room for one more blob than the spare flushes need, in a new segment where the last is full.
    fn make_room<D: Device>(&mut self, alloc: Global, dev: &mut D) -> Result<(), LogError>
        requires fit { self.old.failed ≡ false }
        requires stands { D.tells → IsLog (D.disk dev.old) self.old }
        ensures stands { D.tells → OnOk result (IsLog (D.disk dev.new) self.new) }
        ensures value { D.tells → OnOk result (value_of (D.disk dev.new).files self.new ≡ value_of (D.disk dev.old).files self.old) }
        ensures spare { OnOk result (KeepsSpare self.old self.new) }
        ensures room { OnOk result (self.new.spare_flushes + 1 ≤ self.new.gate.spare) }
        ensures same { OnOk result (IsSame self.old self.new) }
        ensures kept { OnOk result (self.new.head.kept ≡ self.old.head.kept) }
        ensures fit { OnOk result (self.new.failed ≡ false) }
        ensures failed { IsErrOf result LogError.Fault → self.new.failed ≡ true }
        ensures no_memory { IsErrOf result LogError.NoMemory → self.new ≡ self.old }
        ensures stays { D.tells → IsErrOf result LogError.NoMemory → IsLog (D.disk dev.new) self.new }
        ensures foreign { IsErrOf result LogError.Foreign → ⊥ }
        ensures crash { D.tells → Effect (IsOwn self.old.db) (λ image. LogIs image self.old.db (value_of (D.disk dev.old).files self.old)) (D.disk dev.old) (D.disk dev.new) }
        ensures cause { HasCause D.disk_faults D.tell_faults dev.old dev.new (IsErrOf result LogError.Fault) }
    {
        let room = self.spare_flushes.checked_add(1).ok_or(AllocError)?;
        if self.is_full() {
            return self.grow(alloc, dev, room);
        }
        self.gate.reserve(room)?;
        Ok(())
    }

    // Whether the last segment has 1 MiB or more, and another one may be begun.
    fn is_full(&self) -> bool
        requires fit { self.now.failed ≡ false }
        ensures few { result ≡ true → self.now.head.back + 1 ≤ self.now.head.gone + 65535 }
        ensures small { result ≡ true → self.now.head.back + 1 < 2 ^ 62 }
    {
        let count = self.gate.count();
        if count == 0 || self.head.back - self.head.gone >= 65_535 {
            return false;
        }
        if self.head.back + 1 >= 1 << 62 {
            return false;
        }
        let (at, len) = self.gate.span(count - 1);
        1 << 20 <= at + len
    }

    // Begins a new segment, with room for so many blobs.
    fn grow<D: Device>(&mut self, alloc: Global, dev: &mut D, room: usize) -> Result<(), LogError>
        requires fit { self.old.failed ≡ false }
        requires room { self.old.spare_flushes ≤ room }
        requires few { self.old.head.back + 1 ≤ self.old.head.gone + 65535 }
        requires small { self.old.head.back + 1 < 2 ^ 62 }
        requires stands { D.tells → IsLog (D.disk dev.old) self.old }
        ensures stands { D.tells → OnOk result (IsLog (D.disk dev.new) self.new) }
        ensures value { D.tells → OnOk result (value_of (D.disk dev.new).files self.new ≡ value_of (D.disk dev.old).files self.old) }
        ensures spare { OnOk result (KeepsSpare self.old self.new) }
        ensures room { OnOk result (room ≤ self.new.gate.spare) }
        ensures same { OnOk result (IsSame self.old self.new) }
        ensures kept { OnOk result (self.new.head.kept ≡ self.old.head.kept) }
        ensures fit { OnOk result (self.new.failed ≡ false) }
        ensures failed { IsErrOf result LogError.Fault → self.new.failed ≡ true }
        ensures no_memory { IsErrOf result LogError.NoMemory → self.new ≡ self.old }
        ensures stays { D.tells → IsErrOf result LogError.NoMemory → IsLog (D.disk dev.new) self.new }
        ensures foreign { IsErrOf result LogError.Foreign → ⊥ }
        ensures crash { D.tells → Effect (IsOwn self.old.db) (λ image. LogIs image self.old.db (value_of (D.disk dev.old).files self.old)) (D.disk dev.old) (D.disk dev.new) }
        ensures cause { HasCause D.disk_faults D.tell_faults dev.old dev.new (IsErrOf result LogError.Fault) }
    {
        let head = Head {
            back: self.head.back + 1,
            ..self.head
        };
        self.segments.reserve(1)?;
        let segment = new_segment(alloc, self.db, head.back, self.stored)?;
        let gate = match begin_segment(alloc, dev, self.db, head.back, room) {
            Ok(gate) => gate,
            Err(error) => {
                self.failed = matches!(error, LogError::Fault);
                return Err(error);
            }
        };
        spell(&mut self.spelled, head, &self.note);
        self.control.put(dev, &self.spelled)?;
        push_segment(&mut self.segments, segment);
        self.gate = gate;
        self.head = head;
        Ok(())
    }

    // Seals the records that wait, by one place of the gate's spare, which leaves so many spare flushes.
    fn seal<D: Device>(&mut self, dev: &mut D, flushes: usize) -> Result<(), Failed>
        requires fit { self.old.failed ≡ false }
        requires spare { flushes + 1 ≤ self.old.gate.spare }
        requires stands { D.tells → IsLog (D.disk dev.old) self.old }
        ensures stands { D.tells → OnOk result (IsLog (D.disk dev.new) self.new) }
        ensures value { D.tells → OnOk result (value_of (D.disk dev.new).files self.new ≡ with_more (value_of (D.disk dev.old).files self.old) self.old.waiting) }
        ensures same { OnOk result ((self.new.db ≡ self.old.db) × (self.new.end ≡ self.old.end) × (self.new.head ≡ self.old.head)) }
        ensures none { OnOk result ((self.new.waiting ≡ []) × (self.new.stored ≡ self.old.end)) }
        ensures spare { OnOk result ((self.new.spare_bytes ≡ self.old.spare_bytes) × (self.new.spare_flushes ≡ flushes)) }
        ensures fit { OnOk result (self.new.failed ≡ false) }
        ensures failed { OnErr result (self.new.failed ≡ true) }
        ensures crash { D.tells → Effect (IsOwn self.old.db) (λ image. LogIs image self.old.db (value_of (D.disk dev.old).files self.old) ⊎ LogIs image self.old.db (with_more (value_of (D.disk dev.old).files self.old) self.old.waiting)) (D.disk dev.old) (D.disk dev.new) }
        ensures cause { HasCause D.disk_faults D.tell_faults dev.old dev.new (IsErr result) }
    {
        self.gate.append_reserved(dev, &self.waiting)?;
        self.stored = self.end;
        self.waiting.clear();
        self.spare_flushes = flushes;
        Ok(())
    }

    /// The bytes of the durable records from the number `from` to below `to`, which are at least the kept point and at most
    /// the number behind that of the last durable record. Changes nothing. `Foreign` isn't answered.
    pub fn bytes<D: Device>(
        &self,
        alloc: Global,
        dev: &mut D,
        from: Lsn,
        to: Lsn,
    ) -> Result<Vec<u8>, LogError>
        requires fit { self.now.failed ≡ false }
        requires kept { self.now.head.kept ≤ from }
        requires order { from ≤ to }
        requires inside { to ≤ self.now.stored }
        requires stands { D.tells → IsLog (D.disk dev.old) self.now }
        ensures bytes { D.tells → IfOk result (λ bytes. bytes.items ≡ flat_map spelling (take (to - from) (drop (from - self.now.head.kept) (value_of (D.disk dev.old).files self.now).records))) }
        ensures foreign { IsErrOf result LogError.Foreign → ⊥ }
        ensures effect { D.tells → ChangesNothing (D.disk dev.old) (D.disk dev.new) }
        ensures cause { HasCause D.disk_faults D.tell_faults dev.old dev.new (IsErrOf result LogError.Fault) }
    {
        let all = gather(alloc, dev, self.db, self.head)?;
        let start = place_of(&all, from - self.head.first);
        let end = place_of(&all, to - self.head.first).max(start);
        let part = Vec::from_slice(alloc, &all[start..end])?;
        Ok(part)
    }

    /// Makes these bytes, at most 32,768, the note. A crash leaves the log with the old note or the new one.
    pub fn set_note<D: Device>(&mut self, dev: &mut D, bytes: &[u8]) -> Result<(), Failed>
        requires fit { self.old.failed ≡ false }
        requires short { length bytes.now ≤ 32768 }
        requires stands { D.tells → IsLog (D.disk dev.old) self.old }
        ensures stands { D.tells → OnOk result (IsLog (D.disk dev.new) self.new) }
        ensures value { D.tells → OnOk result (value_of (D.disk dev.new).files self.new ≡ record (value_of (D.disk dev.old).files self.old) { note = bytes.now }) }
        ensures same { OnOk result ((self.new.db ≡ self.old.db) × (self.new.stored ≡ self.old.stored) × (self.new.end ≡ self.old.end) × (self.new.waiting ≡ self.old.waiting)) }
        ensures kept { OnOk result (self.new.head.kept ≡ self.old.head.kept) }
        ensures spare { OnOk result (KeepsSpare self.old self.new) }
        ensures fit { OnOk result (self.new.failed ≡ false) }
        ensures failed { OnErr result (self.new.failed ≡ true) }
        ensures crash { D.tells → Effect (IsOwn self.old.db) (λ image. LogIs image self.old.db (value_of (D.disk dev.old).files self.old) ⊎ LogIs image self.old.db (record (value_of (D.disk dev.old).files self.old) { note = bytes.now })) (D.disk dev.old) (D.disk dev.new) }
        ensures cause { HasCause D.disk_faults D.tell_faults dev.old dev.new (IsErr result) }
    {
        spell(&mut self.spelled, self.head, bytes);
        self.control.put(dev, &self.spelled)?;
        self.note.clear();
        add(&mut self.note, bytes);
        Ok(())
    }

    /// Moves the kept point, so that the records below `to` no longer count, and removes the segments that lie wholly below
    /// it. It is at least the old one and at most the number behind that of the last durable record. A crash leaves the log
    /// as it was, or without those records.
    pub fn truncate<D: Device>(&mut self, dev: &mut D, to: Lsn) -> Result<(), Failed>
        requires fit { self.old.failed ≡ false }
        requires from { self.old.head.kept ≤ to }
        requires inside { to ≤ self.old.stored }
        requires stands { D.tells → IsLog (D.disk dev.old) self.old }
        ensures stands { D.tells → OnOk result (IsLog (D.disk dev.new) self.new) }
        ensures value { D.tells → OnOk result (value_of (D.disk dev.new).files self.new ≡ cut_at to (value_of (D.disk dev.old).files self.old)) }
        ensures same { OnOk result ((self.new.db ≡ self.old.db) × (self.new.stored ≡ self.old.stored) × (self.new.end ≡ self.old.end) × (self.new.waiting ≡ self.old.waiting)) }
        ensures kept { OnOk result (self.new.head.kept ≡ to) }
        ensures spare { OnOk result (KeepsSpare self.old self.new) }
        ensures fit { OnOk result (self.new.failed ≡ false) }
        ensures failed { OnErr result (self.new.failed ≡ true) }
        ensures least { OnOk result (IsFirstAt self.new.segments to) }
        ensures gone { D.tells → OnOk result ((n : ℕ) → self.old.head.front ≤ n → n < self.new.head.front → (D.disk dev.new).files (segment_file self.old.db n) ≡ None) }
        ensures crash { D.tells → Effect (IsOwn self.old.db) (λ image. LogIs image self.old.db (value_of (D.disk dev.old).files self.old) ⊎ LogIs image self.old.db (cut_at to (value_of (D.disk dev.old).files self.old))) (D.disk dev.old) (D.disk dev.new) }
        ensures cause { HasCause D.disk_faults D.tell_faults dev.old dev.new (IsErr result) }
    {
        let count = count_below(&self.segments, to);
        if count == 0 {
            return self.move_kept(dev, to);
        }
        self.cut(dev, to, count)
    }

    // Moves the kept point within the first segment.
    fn move_kept<D: Device>(&mut self, dev: &mut D, to: Lsn) -> Result<(), Failed>
        requires fit { self.old.failed ≡ false }
        requires from { self.old.head.kept ≤ to }
        requires inside { to ≤ self.old.stored }
        requires stands { D.tells → IsLog (D.disk dev.old) self.old }
        ensures stands { D.tells → OnOk result (IsLog (D.disk dev.new) self.new) }
        ensures value { D.tells → OnOk result (value_of (D.disk dev.new).files self.new ≡ cut_at to (value_of (D.disk dev.old).files self.old)) }
        ensures same { OnOk result (IsSame self.old self.new) }
        ensures kept { OnOk result (self.new.head.kept ≡ to) }
        ensures spare { OnOk result (KeepsSpare self.old self.new) }
        ensures segments { OnOk result ((self.new.segments ≡ self.old.segments) × (self.new.head.front ≡ self.old.head.front)) }
        ensures fit { OnOk result (self.new.failed ≡ false) }
        ensures failed { OnErr result (self.new.failed ≡ true) }
        ensures crash { D.tells → Effect (IsOwn self.old.db) (λ image. LogIs image self.old.db (value_of (D.disk dev.old).files self.old) ⊎ LogIs image self.old.db (cut_at to (value_of (D.disk dev.old).files self.old))) (D.disk dev.old) (D.disk dev.new) }
        ensures cause { HasCause D.disk_faults D.tell_faults dev.old dev.new (IsErr result) }
    {
        let head = Head {
            kept: to,
            ..self.head
        };
        spell(&mut self.spelled, head, &self.note);
        self.control.put(dev, &self.spelled)?;
        self.head = head;
        Ok(())
    }

    // Moves the kept point into a later segment, and then removes the segments before that one, so many of them.
    fn cut<D: Device>(&mut self, dev: &mut D, to: Lsn, count: usize) -> Result<(), Failed>
        requires fit { self.old.failed ≡ false }
        requires from { self.old.head.kept ≤ to }
        requires inside { to ≤ self.old.stored }
        requires there { count < length self.old.segments }
        requires first { (n : ℕ) → BeginsAt self.old.segments count n → n ≤ to }
        requires stands { D.tells → IsLog (D.disk dev.old) self.old }
        ensures stands { D.tells → OnOk result (IsLog (D.disk dev.new) self.new) }
        ensures value { D.tells → OnOk result (value_of (D.disk dev.new).files self.new ≡ cut_at to (value_of (D.disk dev.old).files self.old)) }
        ensures same { OnOk result (IsSame self.old self.new) }
        ensures kept { OnOk result (self.new.head.kept ≡ to) }
        ensures spare { OnOk result (KeepsSpare self.old self.new) }
        ensures segments { OnOk result (self.new.segments ≡ drop count self.old.segments) }
        ensures front { OnOk result (self.new.head.front ≡ self.old.head.front + count) }
        ensures fit { OnOk result (self.new.failed ≡ false) }
        ensures failed { OnErr result (self.new.failed ≡ true) }
        ensures gone { D.tells → OnOk result ((n : ℕ) → self.old.head.front ≤ n → n < self.old.head.front + count → (D.disk dev.new).files (segment_file self.old.db n) ≡ None) }
        ensures crash { D.tells → Effect (IsOwn self.old.db) (λ image. LogIs image self.old.db (value_of (D.disk dev.old).files self.old) ⊎ LogIs image self.old.db (cut_at to (value_of (D.disk dev.old).files self.old))) (D.disk dev.old) (D.disk dev.new) }
        ensures cause { HasCause D.disk_faults D.tell_faults dev.old dev.new (IsErr result) }
    {
        let head = Head {
            kept: to,
            front: self.head.front + count as u64,
            first: first_of(&self.segments, count),
            ..self.head
        };
        self.failed = true;
        spell(&mut self.spelled, head, &self.note);
        self.control.put(dev, &self.spelled)?;
        remove_named(dev, &self.segments[..count])?;
        let head = Head {
            gone: head.front,
            ..head
        };
        spell(&mut self.spelled, head, &self.note);
        self.control.put(dev, &self.spelled)?;
        drop_segments(&mut self.segments, count);
        self.head = head;
        self.failed = false;
        Ok(())
    }

    /// Empties the log: no record, kept point and end at `at`, and these bytes, at most 32,768, as the note. Records that
    /// waited are dropped. A crash leaves the log as it was, or this one.
    ///
    /// `NoMemory` leaves the log as it was; a segment may have been begun. It is answered too where 2^62 segments were begun.
    /// `Foreign` isn't answered.
    pub fn reset<D: Device>(
        &mut self,
        alloc: Global,
        dev: &mut D,
        at: Lsn,
        note: &[u8],
    ) -> Result<(), LogError>
        requires fit { self.old.failed ≡ false }
        requires short { length note.now ≤ 32768 }
        requires stands { D.tells → IsLog (D.disk dev.old) self.old }
        ensures stands { D.tells → OnOk result (IsLog (D.disk dev.new) self.new) }
        ensures value { D.tells → OnOk result (value_of (D.disk dev.new).files self.new ≡ emptied at note.now) }
        ensures end { OnOk result ((self.new.db ≡ self.old.db) × (self.new.stored ≡ at) × (self.new.end ≡ at) × (self.new.waiting ≡ [])) }
        ensures spare { OnOk result (KeepsSpare self.old self.new) }
        ensures fit { OnOk result (self.new.failed ≡ false) }
        ensures failed { IsErrOf result LogError.Fault → self.new.failed ≡ true }
        ensures no_memory { IsErrOf result LogError.NoMemory → self.new ≡ self.old }
        ensures stays { D.tells → IsErrOf result LogError.NoMemory → IsLog (D.disk dev.new) self.new }
        ensures foreign { IsErrOf result LogError.Foreign → ⊥ }
        ensures crash { D.tells → Effect (IsOwn self.old.db) (λ image. LogIs image self.old.db (value_of (D.disk dev.old).files self.old) ⊎ LogIs image self.old.db (emptied at note.now)) (D.disk dev.old) (D.disk dev.new) }
        ensures cause { HasCause D.disk_faults D.tell_faults dev.old dev.new (IsErrOf result LogError.Fault) }
    {
        if !self.has_number() {
            return Err(LogError::NoMemory);
        }
        let mut segments = Vec::new(alloc);
        add_segment(alloc, self.db, self.head.back + 1, at, &mut segments)?;
        let gate = match begin_segment(
            alloc,
            dev,
            self.db,
            self.head.back + 1,
            self.spare_flushes,
        ) {
            Ok(gate) => gate,
            Err(error) => {
                self.failed = matches!(error, LogError::Fault);
                return Err(error);
            }
        };
        self.empty(dev, gate, segments, at, note)?;
        Ok(())
    }

    // Whether another segment may be begun, in place of all others.
    fn has_number(&self) -> bool
        ensures few { result ≡ true → self.now.head.back + 1 ≤ self.now.head.gone + 65536 }
        ensures small { result ≡ true → self.now.head.back + 1 < 2 ^ 62 }
    {
        self.head.back - self.head.gone <= 65_535 && self.head.back + 1 < 1 << 62
    }

    // Makes a segment with a blob without a byte the only one, and removes the others.
    fn empty<D: Device>(
        &mut self,
        dev: &mut D,
        gate: Gate,
        segments: Vec<Segment>,
        at: Lsn,
        note: &[u8],
    ) -> Result<(), Failed>
        requires fit { self.old.failed ≡ false }
        requires short { length note.now ≤ 32768 }
        requires few { self.old.head.back + 1 ≤ self.old.head.gone + 65536 }
        requires small { self.old.head.back + 1 < 2 ^ 62 }
        requires gate_name { gate.name ≡ segment_file self.old.db (self.old.head.back + 1) }
        requires gate_none { gate.begun ≡ None }
        requires gate_fit { gate.failed ≡ false }
        requires gate_spare { self.old.spare_flushes ≤ gate.spare }
        requires gate_stands { D.tells → IsGate (D.disk dev.old) gate }
        requires added { IsAdded [] segments.items self.old.db (self.old.head.back + 1) at }
        requires count { vec_len segments ≡ 1 }
        requires durable { D.tells → IsDurable (D.disk dev.old) (segment_file self.old.db (self.old.head.back + 1)) }
        requires sealed { D.tells → blobs_at (D.disk dev.old).files self.old.db (self.old.head.back + 1) ≡ [] ∷ [] }
        requires stands { D.tells → IsLog (D.disk dev.old) self.old }
        ensures stands { D.tells → OnOk result (IsLog (D.disk dev.new) self.new) }
        ensures value { D.tells → OnOk result (value_of (D.disk dev.new).files self.new ≡ emptied at note.now) }
        ensures end { OnOk result ((self.new.db ≡ self.old.db) × (self.new.stored ≡ at) × (self.new.end ≡ at) × (self.new.waiting ≡ [])) }
        ensures spare { OnOk result (KeepsSpare self.old self.new) }
        ensures fit { OnOk result (self.new.failed ≡ false) }
        ensures failed { OnErr result (self.new.failed ≡ true) }
        ensures crash { D.tells → Effect (IsOwn self.old.db) (λ image. LogIs image self.old.db (value_of (D.disk dev.old).files self.old) ⊎ LogIs image self.old.db (emptied at note.now)) (D.disk dev.old) (D.disk dev.new) }
        ensures cause { HasCause D.disk_faults D.tell_faults dev.old dev.new (IsErr result) }
    {
        let head = Head {
            kept: at,
            gone: self.head.gone,
            front: self.head.back + 1,
            back: self.head.back + 1,
            first: at,
        };
        self.failed = true;
        spell(&mut self.spelled, head, note);
        self.control.put(dev, &self.spelled)?;
        remove_named(dev, &self.segments)?;
        let head = Head {
            gone: head.front,
            ..head
        };
        spell(&mut self.spelled, head, note);
        self.control.put(dev, &self.spelled)?;
        self.note.clear();
        add(&mut self.note, note);
        self.waiting.clear();
        self.gate = gate;
        self.segments = segments;
        self.head = head;
        self.stored = at;
        self.end = at;
        self.failed = false;
        Ok(())
    }
}
