// Removing a database.
ghost use Rattle.std.specs.Prelude.{◌≡◌, List, length, IfOk, IsErr, IsErrOf, IsSomeAnd, OnOk};
ghost use Rattle.bk_device.specs.Counts.{HasCause};
ghost use Rattle.bk_device.specs.Disk.{IsDurable};
ghost use Rattle.bk_device.specs.Effects.{Effect};
ghost use Rattle.bk_facts.specs.declared.facts.DataFile.{DataFile as File};
ghost use Rattle.bk_paged.specs.Making.{AreAbsent, AreGone, AreNoted, HoldsNone, IsAmong, IsLogGone, NamesFiles, Removes, StillNames};
ghost use Rattle.bk_paged.specs.Names.{IsOwn, names_of};
ghost use Rattle.bk_segments.specs.declared.head.Head.{Head};
ghost use Rattle.bk_segments.specs.Files.{control_file, AreDurable as LogsAreDurable, Holds as HoldsHead, IsOwn as IsOfLog};
ghost use Rattle.bk_side.specs.Names.{IsData, side_file, IsOwn as IsOfSide};

use crate::error::PagedError;
use crate::paged::Paged;
use crate::parts::copy_paths;
use bk_device::{Device, Failed, remove_durably};
use bk_facts::{DataFile, Facts, read_facts};
use bk_ids::Text;
use bk_log::{Log, LogError, settle};
use bk_reading::Unread;
use bk_side::{data_files, side_file};
use std::alloc::Global;

// Removes the files of these names.
fn remove_files<D: Device>(dev: &mut D, names: &[Text]) -> Result<(), Failed>
    ensures gone { D.tells → OnOk result (AreGone (IsAmong names.now (length names.now)) (D.disk dev.new)) }
    ensures crash { D.tells → Effect (IsData names.now) (λ _. Unit {0}) (D.disk dev.old) (D.disk dev.new) }
    ensures cause { HasCause D.disk_faults D.tell_faults dev.old dev.new (IsErr result) }
{
    'files: for name in names {
        remove_durably(dev, name.as_str())?;
    }
    Ok(())
}

// Removes the data files of a database, and its side file.
fn remove_pages<D: Device>(
    alloc: Global,
    dev: &mut D,
    db: u32,
    files: &[DataFile],
) -> Result<(), PagedError>
    ensures gone { D.tells → OnOk result (AreGone (IsOfSide (side_file db) (names_of files.now)) (D.disk dev.new)) }
    ensures foreign { IsErrOf result PagedError.Foreign → ⊥ }
    ensures crash { D.tells → Effect (IsOfSide (side_file db) (names_of files.now)) (λ _. Unit {0}) (D.disk dev.old) (D.disk dev.new) }
    ensures cause { HasCause D.disk_faults D.tell_faults dev.old dev.new (IsErrOf result PagedError.Fault) }
{
    let paths = copy_paths(alloc, files)?;
    let names = data_files(alloc, &paths)?;
    let side = side_file(alloc, db)?;
    remove_files(dev, &names)?;
    remove_durably(dev, &side)?;
    Ok(())
}

// The log of a database, if there is one. What counts of it is made durable first.
fn find_log<D: Device>(alloc: Global, dev: &mut D, db: u32) -> Result<Option<Log>, PagedError>
    ensures found { D.tells → (files : List File) → NamesFiles db files (D.disk dev.old).files → IfOk result (λ found. IsSomeAnd found (λ log. AreNoted log.note files)) }
    ensures control { D.tells → OnOk result (IsDurable (D.disk dev.new) (control_file db)) }
    ensures same { D.tells → OnOk result ((D.disk dev.new).files (control_file db) ≡ (D.disk dev.old).files (control_file db)) }
    ensures foreign { IsErrOf result PagedError.Foreign → ⊥ }
    ensures crash { D.tells → LogsAreDurable db (D.disk dev.old) → Effect (IsOfLog db) (StillNames db (D.disk dev.old).files) (D.disk dev.old) (D.disk dev.new) }
    ensures cause { HasCause D.disk_faults D.tell_faults dev.old dev.new (IsErrOf result PagedError.Fault) }
{
    settle(alloc, dev, db)?;
    match Log::load(alloc, dev, db) {
        Ok(log) => Ok(Some(log)),
        Err(LogError::Foreign) => Ok(None),
        Err(LogError::Fault) => Err(PagedError::Fault),
        Err(LogError::NoMemory) => Err(PagedError::NoMemory),
    }
}

// The facts in a note, if there are some.
fn facts_in(alloc: Global, note: &[u8]) -> Result<Option<Facts>, PagedError>
    ensures found { (files : List File) → AreNoted note.now files → IfOk result (λ found. IsSomeAnd found (λ facts. facts.files ≡ files)) }
    ensures foreign { IsErrOf result PagedError.Foreign → ⊥ }
    ensures fault { IsErrOf result PagedError.Fault → ⊥ }
{
    match read_facts(alloc, note) {
        Ok((facts, _)) => Ok(Some(facts)),
        Err(Unread::Unspelled) => Ok(None),
        Err(Unread::NoMemory) => Err(PagedError::NoMemory),
    }
}

// What the note of a database's log holds, if there is a log that has some.
fn find_facts<D: Device>(alloc: Global, dev: &mut D, db: u32) -> Result<Option<Facts>, PagedError>
    ensures found { D.tells → (files : List File) → NamesFiles db files (D.disk dev.old).files → IfOk result (λ found. IsSomeAnd found (λ facts. facts.files ≡ files)) }
    ensures control { D.tells → OnOk result (IsDurable (D.disk dev.new) (control_file db)) }
    ensures same { D.tells → OnOk result ((D.disk dev.new).files (control_file db) ≡ (D.disk dev.old).files (control_file db)) }
    ensures foreign { IsErrOf result PagedError.Foreign → ⊥ }
    ensures crash { D.tells → LogsAreDurable db (D.disk dev.old) → Effect (IsOfLog db) (StillNames db (D.disk dev.old).files) (D.disk dev.old) (D.disk dev.new) }
    ensures cause { HasCause D.disk_faults D.tell_faults dev.old dev.new (IsErrOf result PagedError.Fault) }
{
    let Some(log) = find_log(alloc, dev, db)? else {
        return Ok(None);
    };
    facts_in(alloc, log.note())
}

// Removes the data files that the log of a database names, and its side file.
fn remove_named<D: Device>(alloc: Global, dev: &mut D, db: u32) -> Result<(), PagedError>
    ensures gone { D.tells → (files : List File) → NamesFiles db files (D.disk dev.old).files → OnOk result (AreGone (IsOfSide (side_file db) (names_of files)) (D.disk dev.new)) }
    ensures control { D.tells → OnOk result (IsDurable (D.disk dev.new) (control_file db)) }
    ensures same { D.tells → OnOk result ((D.disk dev.new).files (control_file db) ≡ (D.disk dev.old).files (control_file db)) }
    ensures foreign { IsErrOf result PagedError.Foreign → ⊥ }
    ensures crash { D.tells → LogsAreDurable db (D.disk dev.old) → (files : List File) → NamesFiles db files (D.disk dev.old).files → Effect (IsOwn db files) (Removes db files) (D.disk dev.old) (D.disk dev.new) }
    ensures cause { HasCause D.disk_faults D.tell_faults dev.old dev.new (IsErrOf result PagedError.Fault) }
{
    let Some(facts) = find_facts(alloc, dev, db)? else {
        return Ok(());
    };
    remove_pages(alloc, dev, db, facts.files.as_slice())
}

impl Paged {
    /// Removes the data files that the log of a database names, then the side file, and then the log. Where the log isn't whole, as after a crash in this call, what is left of it alone is
    /// removed; where there is none, nothing is done. What counts of the log is made durable first. A crash leaves the log, which names the data files, or none of these, and the call may be repeated.
    /// `Foreign` isn't answered.
    pub fn remove<D: Device>(alloc: Global, dev: &mut D, db: u32) -> Result<(), PagedError>
        ensures pages { D.tells → (files : List File) → NamesFiles db files (D.disk dev.old).files → OnOk result (AreAbsent (IsOfSide (side_file db) (names_of files)) (D.disk dev.new).files) }
        ensures log { D.tells → OnOk result (HoldsNone db (D.disk dev.new).files) }
        ensures gone { D.tells → (head : Head) → HoldsHead (D.disk dev.old).files db head → OnOk result (IsLogGone db head (D.disk dev.new).files) }
        ensures foreign { IsErrOf result PagedError.Foreign → ⊥ }
        ensures crash { D.tells → LogsAreDurable db (D.disk dev.old) → (files : List File) → NamesFiles db files (D.disk dev.old).files → Effect (IsOwn db files) (Removes db files) (D.disk dev.old) (D.disk dev.new) }
        ensures cause { HasCause D.disk_faults D.tell_faults dev.old dev.new (IsErrOf result PagedError.Fault) }
    {
        remove_named(alloc, dev, db)?;
        Log::remove(alloc, dev, db)?;
        Ok(())
    }
}
