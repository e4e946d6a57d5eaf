// A database that is made from the pages and the log of a backup.
ghost use Rattle.std.specs.Prelude.{◌≡◌, ◌≤◌, ◌<◌, ◌+◌, ◌++◌, [], ℕ, List, false, true, length, IfOk, IsErr, IsErrOf, OnOk};
ghost use Rattle.bk_device.specs.Counts.{HasCause};
ghost use Rattle.bk_device.specs.Effects.{Effect};
ghost use Rattle.bk_filling.specs.Filling.{MayFill, begun, one_more, place_of};
ghost use Rattle.bk_filling.specs.Records.{Spell};
ghost use Rattle.bk_ids.specs.declared.record.Rec.{Rec};
ghost use Rattle.bk_page.specs.Page.{fresh_page};
ghost use Rattle.bk_paged.specs.Holds.{Holds, Stood};
ghost use Rattle.bk_paged.specs.Names.{AreDurable, IsOwn, names_of};
ghost use Rattle.bk_restoring.specs.Arriving.{IsArriving, IsBegun, Kept, Suffices};
ghost use Rattle.bk_segments.specs.Files.{AreDurable as LogsAreDurable, AreSettled};
ghost use Rattle.bk_side.specs.Names.{side_file, IsOwn as IsOfSide};
ghost use Rattle.bk_side.specs.Side.{AreDurable as PagesAreDurable};

use bk_device::{Device, Failed};
use bk_facts::{DataFile, Facts, spell_note};
use bk_filling::{FillError, Filling, Records, file_paths, remove_parts};
use bk_ids::Lsn;
use bk_page::{Page, format_page};
use std::alloc::Global;
use std::marker::Model;

/// A database that arrives: its pages come in the order of file and number, its log records in that of their numbers, either in any order to the other. Until `finish` there is no log, and a crash may
/// leave anything in the database's own files.
///
/// Once a call that took the value by `&mut` has answered an error it is no longer used.
#[derive(Drop)]
pub struct Arriving {
    filling: Filling,
    log: Records,
}

impl Model for Arriving {
    ghost Value = { Kept };

    ghost view = { λ a. record { filling = a.filling; log = a.log } };
}

impl Arriving {
    /// Begins the database of this number with these data files, in place of what was there, with no page and no record; the first record will have the number `kept`. The data files are at most 16, each
    /// with a path of 1 to 100 bytes and at least one page, no two with one path.
    pub fn begin<D: Device>(
        alloc: Global,
        dev: &mut D,
        db: u32,
        kept: Lsn,
        files: Vec<DataFile>,
    ) -> Result<Arriving, FillError>
        requires { MayFill files.items }
        ensures numbers { IfOk result (λ a. (a.log.db ≡ db) × (a.log.kept ≡ kept)) }
        ensures filling { IfOk result (λ a. a.filling ≡ begun files.items) }
        ensures fit { IfOk result (λ a. a.log.gate.failed ≡ false) }
        ensures stands { D.tells → IfOk result (λ a. IsBegun (D.disk dev.new) a) }
        ensures none { D.tells → (given : ℕ × ℕ → List ℕ) → IfOk result (λ a. IsArriving (D.disk dev.new).files a given []) }
        ensures durable { D.tells → LogsAreDurable db (D.disk dev.old) → OnOk result (LogsAreDurable db (D.disk dev.new)) }
        ensures crash { D.tells → Effect (IsOwn db files.items) (λ _. Unit {0}) (D.disk dev.old) (D.disk dev.new) }
        ensures cause { HasCause D.disk_faults D.tell_faults dev.old dev.new (IsErrOf result FillError.Fault) }
    {
        let paths = file_paths(alloc, &files)?;
        let filling = Filling::begin(alloc, files)?;
        remove_parts(alloc, dev, db, &paths)?;
        let log = Records::begin(alloc, dev, db, kept)?;
        Ok(Arriving { filling, log })
    }

    /// Whether all pages are there.
    pub fn is_whole(&self) -> bool
        ensures whole { result ≡ true → self.now.filling.whole ≡ length self.now.filling.files }
        ensures next { result ≡ false → self.now.filling.whole < length self.now.filling.files }
    {
        self.filling.is_whole()
    }

    /// The file, from 1 on, and the number of the next page. Not all pages are there.
    pub fn place(&self) -> (u16, u32)
        requires { self.now.filling.whole < length self.now.filling.files }
        ensures { result ≡ place_of self.now.filling }
    {
        self.filling.place()
    }

    /// Adds the next page. Not all pages are there.
    pub fn push_page<D: Device>(&mut self, dev: &mut D, bytes: &Page) -> Result<(), Failed>
        requires next { self.old.filling.whole < length self.old.filling.files }
        requires stands { D.tells → IsBegun (D.disk dev.old) self.old }
        ensures next { OnOk result (self.new ≡ record self.old { filling = one_more self.old.filling }) }
        ensures stands { D.tells → OnOk result (IsBegun (D.disk dev.new) self.new) }
        ensures arrives { D.tells → (given : ℕ × ℕ → List ℕ) (records : List Rec) → IsArriving (D.disk dev.old).files self.old given records → given (place_of self.old.filling) ≡ bytes.now → OnOk result (IsArriving (D.disk dev.new).files self.new given records) }
        ensures durable { D.tells → LogsAreDurable self.old.log.db (D.disk dev.old) → OnOk result (LogsAreDurable self.old.log.db (D.disk dev.new)) }
        ensures crash { D.tells → Effect (IsOwn self.old.log.db self.old.filling.files) (λ _. Unit {0}) (D.disk dev.old) (D.disk dev.new) }
        ensures cause { HasCause D.disk_faults D.tell_faults dev.old dev.new (IsErr result) }
    {
        self.filling.push(dev, bytes)
    }

    /// Adds the next page as it is before any log record, with its digest. Not all pages are there.
    pub fn push_fresh<D: Device>(&mut self, dev: &mut D) -> Result<(), Failed>
        requires next { self.old.filling.whole < length self.old.filling.files }
        requires stands { D.tells → IsBegun (D.disk dev.old) self.old }
        ensures next { OnOk result (self.new ≡ record self.old { filling = one_more self.old.filling }) }
        ensures stands { D.tells → OnOk result (IsBegun (D.disk dev.new) self.new) }
        ensures arrives { D.tells → (given : ℕ × ℕ → List ℕ) (records : List Rec) → IsArriving (D.disk dev.old).files self.old given records → given (place_of self.old.filling) ≡ fresh_page (self.old.filling.whole + 1) self.old.filling.page → OnOk result (IsArriving (D.disk dev.new).files self.new given records) }
        ensures durable { D.tells → LogsAreDurable self.old.log.db (D.disk dev.old) → OnOk result (LogsAreDurable self.old.log.db (D.disk dev.new)) }
        ensures crash { D.tells → Effect (IsOwn self.old.log.db self.old.filling.files) (λ _. Unit {0}) (D.disk dev.old) (D.disk dev.new) }
        ensures cause { HasCause D.disk_faults D.tell_faults dev.old dev.new (IsErr result) }
    {
        let (file, number) = self.place();
        let mut page = [0u8; 8192];
        format_page(&mut page, file, number);
        self.push_page(dev, &page)
    }

    /// Adds bytes that spell whole records, whose numbers follow those that are there, and makes them durable.
    pub fn push_log<D: Device>(
        &mut self,
        alloc: Global,
        dev: &mut D,
        bytes: &[u8],
    ) -> Result<(), FillError>
        requires fit { self.old.log.gate.failed ≡ false }
        requires stands { D.tells → IsBegun (D.disk dev.old) self.old }
        ensures same { OnOk result ((self.new.filling ≡ self.old.filling) × (self.new.log.db ≡ self.old.log.db) × (self.new.log.kept ≡ self.old.log.kept)) }
        ensures fit { OnOk result (self.new.log.gate.failed ≡ false) }
        ensures stands { D.tells → OnOk result (IsBegun (D.disk dev.new) self.new) }
        ensures arrives { D.tells → (given : ℕ × ℕ → List ℕ) (records more : List Rec) → IsArriving (D.disk dev.old).files self.old given records → Spell bytes.now (self.old.log.kept + length records) more → OnOk result (IsArriving (D.disk dev.new).files self.new given (records ++ more)) }
        ensures durable { D.tells → LogsAreDurable self.old.log.db (D.disk dev.old) → OnOk result (LogsAreDurable self.old.log.db (D.disk dev.new)) }
        ensures crash { D.tells → Effect (IsOwn self.old.log.db self.old.filling.files) (λ _. Unit {0}) (D.disk dev.old) (D.disk dev.new) }
        ensures cause { HasCause D.disk_faults D.tell_faults dev.old dev.new (IsErrOf result FillError.Fault) }
    {
        self.log.push(alloc, dev, bytes)
    }

    /// Puts the control record, with the number of the latest checkpoint and these bytes, at most 30,720, as the note of the layer above: then nothing is pending in its pages and in what counts of its log,
    /// and the files hold each database for which pages and records suffice. All pages are there.
    pub fn finish<D: Device>(
        self,
        alloc: Global,
        dev: &mut D,
        checkpoint: Lsn,
        note: &[u8],
    ) -> Result<(), FillError>
        requires whole { self.filling.whole ≡ length self.filling.files }
        requires short { length note.now ≤ 30720 }
        requires stands { D.tells → IsBegun (D.disk dev.old) self }
        ensures settled { D.tells → OnOk result (AreSettled self.log.db (D.disk dev.new)) }
        ensures pages { D.tells → OnOk result (PagesAreDurable (IsOfSide (side_file self.log.db) (names_of self.filling.files)) (D.disk dev.new)) }
        ensures durable { D.tells → LogsAreDurable self.log.db (D.disk dev.old) → OnOk result (AreDurable self.log.db self.filling.files (D.disk dev.new)) }
        ensures holds { D.tells → (given : ℕ × ℕ → List ℕ) (records : List Rec) (stood : Stood) → IsArriving (D.disk dev.old).files self given records → Suffices self checkpoint note.now given records stood → OnOk result (Holds self.log.db stood (D.disk dev.new).files) }
        ensures crash { D.tells → Effect (IsOwn self.log.db self.filling.files) (λ _. Unit {0}) (D.disk dev.old) (D.disk dev.new) }
        ensures cause { HasCause D.disk_faults D.tell_faults dev.old dev.new (IsErrOf result FillError.Fault) }
    {
        let filling = self.filling;
        let log = self.log;
        let facts = Facts {
            checkpoint,
            files: filling.into_files(),
        };
        let bytes = spell_note(alloc, &facts, note)?;
        log.finish(alloc, dev, &bytes)
    }
}
