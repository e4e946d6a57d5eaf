// Databases that are restored from sets on media.
ghost use Rattle.std.specs.Prelude.{◌≡◌, false, IfOk, OnOk};
ghost use Rattle.bk_filling.specs.Filling.{HasPages, MayFill};
ghost use Rattle.bk_hosting.specs.Hosting.{IsReady};
ghost use Rattle.bk_known.specs.Known.{FitsNote, KeepsKnown};
ghost use Rattle.bk_record.specs.Spelling.{KeepsLimits};
ghost use Rattle.bk_stores.specs.Stores.{IsOurs};

use crate::made::storage;
use crate::medium::{unloaded, unopened};
use crate::points::{brought_up, parked};
use crate::words::{name_of, number, number32, word};
use bk_device::Trouble;
use bk_facts::DataFile;
use bk_hosting::Hosting;
use bk_ids::{Body, Branch, Guid, Rec};
use bk_known::{AsOf, DatabaseSpec, Known};
use bk_paged::may_make;
use bk_store::copy_tables;
use bk_volume::{Medium, StoredSet};
use bk_world::FileSpec;
use std::alloc::{AllocError, Global};
use std::thread::Threads;
use trials::Untold;

// The branch of restored databases.
const BRANCH: Guid = Guid { high: 1, low: 3 };

// A database under the name, the path and with the extents that words say, and what the set of it knows.
fn known_of(alloc: Global, words: &[&str], set: &StoredSet) -> Result<Known, AllocError>
    ensures { IfOk result (λ known. FitsNote known.spec.storage) }
{
    let header = set.header();
    let next = Branch {
        guid: BRANCH,
        start: header.last,
    };
    let spec = DatabaseSpec {
        name: name_of(alloc, word(words, 1))?,
        family: header.family,
        path: header.path.grown(alloc, next)?,
        storage: storage(alloc, word(words, 2), number32(words, 3))?,
    };
    let as_of = AsOf {
        from: header.last,
        tables: copy_tables(alloc, set.tables())?,
        model: header.model,
        time: header.finish,
    };
    Ok(Known { spec, as_of })
}

// The same, as if memory were wanting where a note has no room for it.
fn kept(alloc: Global, words: &[&str], set: &StoredSet) -> Result<Known, AllocError>
    ensures { IfOk result KeepsKnown }
{
    let known = known_of(alloc, words, set)?;
    if known.spec.path.as_slice().len() > 64 || known.as_of.tables.as_slice().len() > 64 {
        return Err(AllocError);
    }
    Ok(known)
}

// A data file, of at most 4,096 extents behind that of its header.
fn file_of(alloc: Global, file: &FileSpec) -> Result<DataFile, AllocError>
    ensures { IfOk result HasPages }
{
    Ok(DataFile {
        path: file.path.copy(alloc)?,
        pages: 8 + 8 * file.extents.min(4096),
    })
}

// The data file of that database, as if memory were wanting where none may be made of it.
fn files(alloc: Global, file: &FileSpec) -> Result<Vec<DataFile>, AllocError>
    ensures { IfOk result (λ files. MayFill files.items) }
{
    let mut files = Vec::new(alloc);
    files.push(file_of(alloc, file)?)?;
    if !may_make(alloc, &files, &[])? {
        return Err(AllocError);
    }
    Ok(files)
}

fn files_of(alloc: Global, known: &Known) -> Result<Vec<DataFile>, AllocError>
    ensures { IfOk result (λ files. MayFill files.items) }
{
    match known.spec.storage.files.as_slice() {
        [file, ..] => files(alloc, file),
        [] => Err(AllocError),
    }
}

// The record of its recovery, behind so many that undo what was pending.
fn recovery(end: u64, undone: u64) -> Rec
    ensures { KeepsLimits result.body }
{
    Rec {
        lsn: end.saturating_add(undone),
        begin: 0,
        body: Body::Recovery { branch: BRANCH },
    }
}

// The set takes the last place, and brings a database up there.
fn restore_set<R: Threads + Sync>(
    rt: &R,
    alloc: Global,
    device: &mut Untold,
    hosting: &mut Hosting,
    words: &[&str],
    medium: &Medium,
    set: &StoredSet,
) -> Result<(), Trouble>
    requires ready { IsReady hosting.old }
    requires elsewhere { IsOurs medium.now.name → ⊥ }
    ensures ready { OnOk result (IsReady hosting.new) }
{
    let header = set.header();
    hosting.park(
        alloc,
        device,
        kept(alloc, words, set)?,
        parked(alloc, header)?,
    )?;
    let Some(at) = hosting.count().checked_sub(1) else {
        return Ok(());
    };
    let known = kept(alloc, words, set)?;
    let files = files_of(alloc, &known)?;
    let points = brought_up(alloc, header)?;
    let last = recovery(header.last, number(words, 5));
    hosting.bring_up(
        rt,
        alloc,
        device,
        at,
        medium,
        set,
        files,
        header.checkpoint,
        &known,
        points,
        &last,
    )
}

// Opens a medium, whose file is none of a database.
fn load(alloc: Global, device: &mut Untold, path: &str) -> Result<Medium, Trouble>
    ensures fit { IfOk result (λ m. m.failed ≡ false) }
    ensures elsewhere { IfOk result (λ m. IsOurs m.name → ⊥) }
{
    match Medium::load(alloc, device, path) {
        Ok(medium) => Ok(medium),
        Err(error) => Err(unloaded(error)),
    }
}

/// `restore NAME PATH EXTENTS MEDIUM UNDONE`: the first set on the medium makes a database with this name, its files at paths that begin so. So many records undo what was pending.
pub(crate) fn restore<R: Threads + Sync>(
    rt: &R,
    alloc: Global,
    device: &mut Untold,
    hosting: &mut Hosting,
    words: &[&str],
) -> Result<(), Trouble>
    requires ready { IsReady hosting.old }
    ensures ready { OnOk result (IsReady hosting.new) }
{
    let medium = load(alloc, device, word(words, 4))?;
    let set = medium.open_set(alloc, device, 1).map_err(unopened)?;
    let done = restore_set(rt, alloc, device, hosting, words, &medium, &set);
    drop(set);
    done
}
