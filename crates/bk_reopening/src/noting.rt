// What a database's note and the end of its log say of it.
ghost use Rattle.std.specs.Prelude.{◌≡◌, ◌<◌, ◌≤◌, ◌-◌, true, false, List, ℕ, None, drop, length, IfOk, IsErrOf};
ghost use Rattle.bk_groups.specs.Groups.{AreFiles};
ghost use Rattle.bk_known.specs.Known.{FitsNote, KeepsKnown};
ghost use Rattle.bk_known.specs.declared.known.Known.{Known as Knowns};
ghost use Rattle.bk_ids.specs.declared.record.Rec.{Rec};
ghost use Rattle.bk_record.specs.Log.{IsLog};
ghost use Rattle.bk_reopening.specs.Reopening.{IsFileBehind, IsNoteOf, IsSettled, KeepsFiles, SaysAsOf, Tells};
ghost use Rattle.bk_store.specs.Recent.{Says};
ghost use Rattle.bk_store.specs.Told.{Told};

use crate::error::OpenError;
use bk_ids::Lsn;
use bk_known::{AsOf, Known, read_known};
use bk_log::behind_records;
use bk_paged::Paged;
use bk_store::{Recent, copy_tables, told_behind};
use bk_world::{FileSpec, Storage};
use std::alloc::{AllocError, Global};

/// What the note of a log says: name, branches and files, what the log says below a number, and the note of the layer above.
#[derive(Drop)]
pub struct Noted {
    pub known: Known,
    pub note: Vec<u8>,
}

// Whether a file is one behind fewer than 16 others, with a path and a size that a database's file may have.
fn is_file(file: &FileSpec, before: usize) -> bool
    requires { before < 16 }
    ensures yes { result ≡ true → IsFileBehind before file.now }
    ensures no { result ≡ false → IsFileBehind before file.now → ⊥ }
{
    let path = file.path.as_str().len();
    usize::from(file.number) == before + 1 && file.extents <= 4_096 && 1 <= path && path <= 100
}

// Whether files are numbered 1, 2, .. in their order, at most 16, each with a path of 1 to 100 bytes and at most 4,096 extents.
fn are_files(files: &[FileSpec]) -> bool
    ensures yes { result ≡ true → KeepsFiles files.now }
    ensures no { result ≡ false → KeepsFiles files.now → ⊥ }
{
    if files.len() > 16 {
        return false;
    }
    for i in 0..files.len() {
        if !is_file(&files[i], i) {
            return false;
        }
    }
    true
}

// Whether a note has room for groups, files and log.
fn fits_note(storage: &Storage) -> bool
    ensures yes { result ≡ true → FitsNote storage.now }
    ensures files { result ≡ true → AreFiles storage.now.files }
    ensures no { result ≡ false → FitsNote storage.now → AreFiles storage.now.files → ⊥ }
{
    let path = storage.log_path.as_str().len();
    are_files(storage.files.as_slice())
        && storage.groups.as_slice().len() <= 8
        && 1 <= path
        && path <= 100
}

// Whether a store may keep this, with such a note of the layer above.
fn may_keep(known: &Known, note: &[u8]) -> bool
    ensures yes { result ≡ true → KeepsKnown known.now }
    ensures files { result ≡ true → AreFiles known.now.spec.storage.files }
    ensures short { result ≡ true → length note.now ≤ 12288 }
    ensures no { result ≡ false → KeepsKnown known.now → AreFiles known.now.spec.storage.files → length note.now ≤ 12288 → ⊥ }
{
    fits_note(&known.spec.storage)
        && known.spec.path.as_slice().len() <= 64
        && known.as_of.tables.as_slice().len() <= 64
        && note.len() <= 12_288
}

// What the note of a log says. `Foreign` is answered only where it is no database's.
pub fn noted_in(alloc: Global, bytes: &[u8]) -> Result<Noted, OpenError>
    ensures tells { IfOk result (Tells bytes.now) }
    ensures foreign { IsErrOf result OpenError.Foreign → (known : Knowns) (note : List ℕ) → IsNoteOf bytes.now known note → ⊥ }
    ensures fault { IsErrOf result OpenError.Fault → ⊥ }
{
    let (known, rest) = read_known(alloc, bytes)?;
    if !may_keep(&known, rest) {
        return Err(OpenError::Foreign);
    }
    let note = rest.to_vec(alloc)?;
    Ok(Noted { known, note })
}

// Tables, model and last time as of a number, of their own.
fn first_of(alloc: Global, as_of: &AsOf) -> Result<Recent, AllocError>
    ensures { IfOk result (SaysAsOf as_of.now) }
{
    let tables = copy_tables(alloc, as_of.tables.as_slice())?;
    Ok(Recent {
        tables: tables.into_vec(),
        model: as_of.model,
        time: as_of.time,
    })
}

// Whether a log has the durable records from a number on.
fn has_from(paged: &Paged, from: Lsn) -> bool
    ensures kept { result ≡ true → paged.now.log.head.kept ≤ from }
    ensures inside { result ≡ true → from ≤ paged.now.log.stored }
    ensures no { result ≡ false → paged.now.log.head.kept ≤ from → from ≤ paged.now.log.stored → ⊥ }
{
    paged.kept() <= from && from <= paged.stored()
}

// The bytes of the records from a number on, of those that the log holds.
fn records_from<'a>(paged: &Paged, records: &'a [u8], from: Lsn) -> &'a [u8]
    requires { paged.now.log.head.kept ≤ from }
    ensures { (rs : List Rec) → IsLog records.now rs None → from - paged.now.log.head.kept ≤ length rs → IsLog result.now (drop (from - paged.now.log.head.kept) rs) None }
{
    behind_records(records, from - paged.kept())
}

// Tables, model and last time as the records say that the log holds, all of them durable, where those below a number say what is known. `Foreign` is answered only where the log isn't that of a
// database.
pub fn recent_of(
    alloc: Global,
    paged: &Paged,
    records: &[u8],
    known: &Known,
) -> Result<Recent, OpenError>
    ensures early { IfOk result (λ recent. known.now.as_of.from ≤ paged.now.log.stored) }
    ensures says { (told : Told) → IsSettled paged.now records.now known.now told → IfOk result (Says told.records) }
    ensures foreign { IsErrOf result OpenError.Foreign → (told : Told) → IsSettled paged.now records.now known.now told → ⊥ }
    ensures fault { IsErrOf result OpenError.Fault → ⊥ }
{
    if !has_from(paged, known.as_of.from) {
        return Err(OpenError::Foreign);
    }
    let log = records_from(paged, records, known.as_of.from);
    let first = first_of(alloc, &known.as_of)?;
    let recent = told_behind(alloc, first, log)?;
    Ok(recent)
}
