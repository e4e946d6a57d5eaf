// Opening a database: its log, its data files, and its pages brought to the end.
ghost use Rattle.std.specs.Prelude.{◌≡◌, ◌≤◌, ◌<◌, ◌⊎◌, ◌^◌, ◌+◌, ◌++◌, ◌||◌, ◌∷◌, [], ℕ, None, List, length, false, IfOk, OnOk, IsErrOf};
ghost use Rattle.std.specs.List.{AllByRecursion, flat_map};
ghost use Rattle.bk_device.specs.Calls.{ChangesNothing};
ghost use Rattle.bk_device.specs.Counts.{HasCause};
ghost use Rattle.bk_device.specs.Effects.{Effect, MayLeaveOwn};
ghost use Rattle.bk_facts.specs.declared.facts.Facts.{Facts as KeptFacts};
ghost use Rattle.bk_facts.specs.Facts.{HasPath, Notes};
ghost use Rattle.bk_ids.specs.declared.record.Rec.{Rec as LogRecord};
ghost use Rattle.bk_log.specs.Log.{IsLog, value_of};
ghost use Rattle.bk_segments.specs.Files.{AreSettled};
ghost use Rattle.bk_paged.specs.Holds.{HaveRoom, Holds, Leaves, Stood, recovered};
ghost use Rattle.bk_paged.specs.Names.{AreDurable, IsOwn, names_of};
ghost use Rattle.bk_opening.specs.Opening.{AreHeld, AreIn, TouchesDatabase};
ghost use Rattle.bk_opening.specs.Quiet.{IsQuiet};
ghost use Rattle.bk_paged.specs.Paged.{IsPaged, Standing, Touches, sealed_count};
ghost use Rattle.bk_paths.specs.Paths.{numbered};
ghost use Rattle.bk_record.specs.Log.{IsLog as AreRecords};
ghost use Rattle.bk_record.specs.Spelling.{IsRecord, KeepsLimits, spelling};
ghost use Rattle.bk_side.specs.Names.{AreDifferent, side_file, IsOwn as IsOfSide};
ghost use Rattle.bk_side.specs.Pages.{Shows, shown};
ghost use Rattle.bk_side.specs.Side.{HasNoBatch, IsSide, added_of};
ghost use Rattle.bk_undo.specs.Losers.{compensation};

use crate::reading::open_pool;
use bk_device::Device;
use bk_facts::{Facts, read_facts};
use bk_ids::{Lsn, Rec};
use bk_log::{Log, LogBytes, settle};
use bk_paged::{Paged, PagedError, copy_paths};
use bk_paths::settling_law;
use bk_side::{Side, are_different, data_files};
use bk_undo::{UndoError, losers, open_part};
use std::alloc::Global;
use std::thread::Threads;

// Opens the side file of a database's data files, and finishes a sealed batch. `Foreign` is answered where two of them have one name.
fn load_side<D: Device>(
    alloc: Global,
    dev: &mut D,
    db: u32,
    facts: &Facts,
) -> Result<Side, PagedError>
    ensures name { IfOk result (λ s. s.gate.name ≡ side_file db) }
    ensures names { IfOk result (λ s. s.names ≡ names_of facts.now.files) }
    ensures failed { IfOk result (λ s. s.failed ≡ false) }
    ensures stands { D.tells → IfOk result (λ s. IsSide (D.disk dev.new) s) }
    ensures none { D.tells → IfOk result (λ s. added_of (D.disk dev.new) s ≡ []) }
    ensures different { OnOk result (AreDifferent (names_of facts.now.files)) }
    ensures same { D.tells → OnOk result (Shows (side_file db) (names_of facts.now.files) (shown (side_file db) (names_of facts.now.files) (D.disk dev.old).files) (D.disk dev.new).files) }
    ensures still { D.tells → HasNoBatch (side_file db) (D.disk dev.old).files → OnOk result (ChangesNothing (D.disk dev.old) (D.disk dev.new)) }
    ensures foreign { IsErrOf result PagedError.Foreign → AreDifferent (names_of facts.now.files) → ⊥ }
    ensures crash { D.tells → Effect (IsOfSide (side_file db) (names_of facts.now.files)) (λ image. MayLeaveOwn (IsOfSide (side_file db) (names_of facts.now.files)) (D.disk dev.old) image ⊎ Shows (side_file db) (names_of facts.now.files) (shown (side_file db) (names_of facts.now.files) (D.disk dev.old).files) image) (D.disk dev.old) (D.disk dev.new) }
    ensures cause { HasCause D.disk_faults D.tell_faults dev.old dev.new (IsErrOf result PagedError.Fault) }
{
    let paths = copy_paths(alloc, facts.files.as_slice())?;
    let names = data_files(alloc, &paths)?;
    if !are_different(&names) {
        return Err(PagedError::Foreign);
    }
    let side = Side::load(alloc, dev, db, &paths)?;
    Ok(side)
}

// The records that undo what is pending in a log of these bytes, below a number.
fn undoing_of(alloc: Global, bytes: &[u8], below: Lsn) -> Result<Vec<Rec>, PagedError>
    ensures undoing { IfOk result (λ undoing. (held : List LogRecord) → AreRecords bytes.now held None → undoing.items ≡ compensation below held) }
    ensures limits { IfOk result (λ undoing. AllByRecursion (λ r. KeepsLimits r.body) undoing.items) }
    ensures foreign { IsErrOf result PagedError.Foreign → (held : List LogRecord) → AreRecords bytes.now held None → ⊥ }
    ensures fault { IsErrOf result PagedError.Fault → ⊥ }
{
    let part = open_part(alloc, bytes, below)?;
    match losers(alloc, part, below) {
        Ok(undoing) => Ok(undoing),
        Err(UndoError::BadRecord { .. }) => Err(PagedError::Foreign),
        Err(UndoError::NoMemory) => Err(PagedError::NoMemory),
    }
}

// Adds the records that undo what is pending in a log of these bytes, in memory alone, to the log and to the bytes.
fn append_undoing(alloc: Global, bytes: &mut LogBytes, log: &mut Log) -> Result<(), PagedError>
    ensures waits { OnOk result (log.new ≡ record log.old { waiting = log.new.waiting; end = log.new.end }) }
    ensures log { (held : List LogRecord) → AreRecords bytes.old held None → OnOk result (log.new ≡ record log.old { waiting = log.old.waiting ++ numbered log.old.end (compensation log.old.end held); end = log.old.end + length (compensation log.old.end held) }) }
    ensures bytes { (held : List LogRecord) → AreRecords bytes.old held None → OnOk result (AreRecords bytes.new (held ++ numbered log.old.end (compensation log.old.end held)) None) }
    ensures foreign { (held : List LogRecord) → AreRecords bytes.old held None → log.old.end + length (compensation log.old.end held) ≤ 2 ^ 63 → IsErrOf result PagedError.Foreign → ⊥ }
    ensures fault { IsErrOf result PagedError.Fault → ⊥ }
{
    let undoing = undoing_of(alloc, bytes.as_slice(), log.end())?;
    for r in undoing {
        append_one(alloc, r, bytes, log)?;
    }
    Ok(())
}

// Adds a record under the next number to a log, in memory alone, and to some bytes.
fn append_one(alloc: Global, r: Rec, bytes: &mut LogBytes, log: &mut Log) -> Result<(), PagedError>
    requires { KeepsLimits r.body }
    ensures log { OnOk result (log.new ≡ record log.old { waiting = log.old.waiting ++ (record r { lsn = log.old.end }) ∷ []; end = log.old.end + 1 }) }
    ensures bytes { OnOk result (bytes.new ≡ bytes.old ++ spelling (record r { lsn = log.old.end })) }
    ensures is_record { OnOk result (IsRecord (record r { lsn = log.old.end })) }
    ensures foreign { log.old.end < 2 ^ 63 → IsErrOf result PagedError.Foreign → ⊥ }
    ensures fault { IsErrOf result PagedError.Fault → ⊥ }
{
    let mut r = r;
    r.lsn = log.end();
    if r.lsn >= 1 << 63 {
        return Err(PagedError::Foreign);
    }
    bytes.append(alloc, &r)?;
    log.append(&r)?;
    Ok(())
}

// The facts in the note of a log, and the note of the layer above behind them, which have room.
fn read_note(alloc: Global, whole: &[u8]) -> Result<(Facts, Vec<u8>), PagedError>
    ensures noted { IfOk result (λ read. Notes whole.now read.0 read.1.items) }
    ensures room { IfOk result (λ read. HaveRoom read.0.files read.1.items) }
    ensures paths { IfOk result (λ read. AllByRecursion HasPath read.0.files) }
    ensures foreign { IsErrOf result PagedError.Foreign → (facts : KeptFacts) (note : List ℕ) → Notes whole.now facts note → HaveRoom facts.files note → ⊥ }
    ensures fault { IsErrOf result PagedError.Fault → ⊥ }
{
    let (facts, note) = read_facts(alloc, whole)?;
    if note.len() > 30_720 {
        return Err(PagedError::Foreign);
    }
    if whole.len() - note.len() > 2_048 {
        return Err(PagedError::Foreign);
    }
    let note = note.to_vec(alloc)?;
    Ok((facts, note))
}

// The same of the note of a log.
fn noted_in(alloc: Global, log: &Log) -> Result<(Facts, Vec<u8>), PagedError>
    ensures noted { IfOk result (λ read. Notes log.now.note read.0 read.1.items) }
    ensures room { IfOk result (λ read. HaveRoom read.0.files read.1.items) }
    ensures paths { IfOk result (λ read. AllByRecursion HasPath read.0.files) }
    ensures foreign { IsErrOf result PagedError.Foreign → (facts : KeptFacts) (note : List ℕ) → Notes log.now.note facts note → HaveRoom facts.files note → ⊥ }
    ensures fault { IsErrOf result PagedError.Fault → ⊥ }
{
    read_note(alloc, log.note())
}

/// A database that was opened.
#[derive(Drop)]
pub struct Opened {
    pub paged: Paged,
    /// The bytes of the records that its log holds: from the kept point to the end.
    pub records: LogBytes,
}

// Opens a database of whose log what counts is durable. The records that undo what is pending wait.
fn open<R: Threads + Sync, D: Device>(
    rt: &R,
    alloc: Global,
    dev: &mut D,
    db: u32,
) -> Result<Opened, PagedError>
    requires settled { D.tells → AreSettled db (D.disk dev.old) }
    ensures db { IfOk result (λ o. o.paged.log.db ≡ db) }
    ensures fit { IfOk result (λ o. (o.paged.failed ≡ false) × (o.paged.log.failed ≡ false)) }
    ensures standing { D.tells → IfOk result (λ o. Standing (D.disk dev.new) o.paged) }
    ensures touches { D.tells → IfOk result (λ o. Touches o.paged (D.disk dev.old) (D.disk dev.new)) }
    ensures mine { D.tells → TouchesDatabase db (D.disk dev.old) (D.disk dev.new) }
    ensures whole { IfOk result (λ o. AreIn o.paged.facts.files o.paged.pool) }
    ensures none { D.tells → IsQuiet db (D.disk dev.old).files → IfOk result (λ o. o.paged.log.waiting ≡ []) }
    ensures still { D.tells → IsQuiet db (D.disk dev.old).files → OnOk result (ChangesNothing (D.disk dev.old) (D.disk dev.new)) }
    ensures stands { D.tells → (stood : Stood) → AreDurable db stood.files (D.disk dev.old) → Holds db stood (D.disk dev.old).files → IfOk result (λ o. IsPaged (D.disk dev.new) o.paged (recovered stood) × (sealed_count o.paged ≡ length stood.records)) }
    ensures records { D.tells → (stood : Stood) → AreDurable db stood.files (D.disk dev.old) → Holds db stood (D.disk dev.old).files → IfOk result (λ o. AreHeld o.paged (recovered stood) o.records) }
    ensures foreign { D.tells → IsErrOf result PagedError.Foreign → (stood : Stood) → AreDurable db stood.files (D.disk dev.old) → Holds db stood (D.disk dev.old).files → ⊥ }
    ensures crash { D.tells → (stood : Stood) → AreDurable db stood.files (D.disk dev.old) → Holds db stood (D.disk dev.old).files → Effect (IsOwn db stood.files) (Leaves db (length stood.records) (recovered stood)) (D.disk dev.old) (D.disk dev.new) }
    ensures cause { HasCause D.disk_faults D.tell_faults dev.old dev.new (IsErrOf result PagedError.Fault) }
{
    settling_law();
    let (mut log, mut records) = Log::read(alloc, dev, db)?;
    let (facts, note) = noted_in(alloc, &log)?;
    append_undoing(alloc, &mut records, &mut log)?;
    let side = load_side(alloc, dev, db, &facts)?;
    let pool = open_pool(rt, alloc, dev, &side, &facts, records.as_slice(), log.end())?;
    let paged = Paged::from_parts(log, side, pool, facts, note);
    Ok(Opened { paged, records })
}

/// Opens a database: makes durable what counts of its log, finishes a sealed batch of pages, brings the pages in memory to the end
/// by the log from the latest checkpoint on, and undoes by durable records what is pending. Then each page lies in a frame. A
/// crash leaves the records that there were, and perhaps some of those. Without anything to finish or undo the files stay.
///
/// `Foreign` is answered only where the files hold no database.
pub fn load<R: Threads + Sync, D: Device>(
    rt: &R,
    alloc: Global,
    dev: &mut D,
    db: u32,
) -> Result<Opened, PagedError>
    ensures db { IfOk result (λ o. o.paged.log.db ≡ db) }
    ensures fit { IfOk result (λ o. o.paged.failed ≡ false) }
    ensures sealed { IfOk result (λ o. o.paged.log.stored ≡ o.paged.log.end) }
    ensures standing { D.tells → IfOk result (λ o. Standing (D.disk dev.new) o.paged) }
    ensures touches { D.tells → IfOk result (λ o. Touches o.paged (D.disk dev.old) (D.disk dev.new)) }
    ensures mine { D.tells → TouchesDatabase db (D.disk dev.old) (D.disk dev.new) }
    ensures whole { IfOk result (λ o. AreIn o.paged.facts.files o.paged.pool) }
    ensures still { D.tells → IsQuiet db (D.disk dev.old).files → OnOk result (ChangesNothing (D.disk dev.old) (D.disk dev.new)) }
    ensures stands { D.tells → (stood : Stood) → AreDurable db stood.files (D.disk dev.old) → Holds db stood (D.disk dev.old).files → IfOk result (λ o. IsPaged (D.disk dev.new) o.paged (recovered stood)) }
    ensures records { D.tells → (stood : Stood) → AreDurable db stood.files (D.disk dev.old) → Holds db stood (D.disk dev.old).files → IfOk result (λ o. AreHeld o.paged (recovered stood) o.records) }
    ensures foreign { D.tells → IsErrOf result PagedError.Foreign → (stood : Stood) → AreDurable db stood.files (D.disk dev.old) → Holds db stood (D.disk dev.old).files → ⊥ }
    ensures crash { D.tells → (stood : Stood) → AreDurable db stood.files (D.disk dev.old) → Holds db stood (D.disk dev.old).files → Effect (IsOwn db stood.files) (Leaves db (length stood.records) (recovered stood)) (D.disk dev.old) (D.disk dev.new) }
    ensures cause { HasCause D.disk_faults D.tell_faults dev.old dev.new (IsErrOf result PagedError.Fault) }
{
    settle(alloc, dev, db)?;
    let mut opened = open(rt, alloc, dev, db)?;
    opened.paged.flush(alloc, dev)?;
    Ok(opened)
}
