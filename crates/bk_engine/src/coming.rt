// What a set on a medium makes of a database that is being restored.
ghost use Rattle.std.specs.Prelude.{◌≡◌, ◌≤◌, ◌<◌, ◌^◌, ◌↔◌, true, length, map, IfErr, IfOk, IsTrue, OnOk};
ghost use Rattle.std.specs.List.{AllByRecursion};
ghost use Rattle.bk_bytes.specs.Codec.{IsString};
ghost use Rattle.bk_filling.specs.Filling.{MayFill};
ghost use Rattle.bk_hosted.specs.Hosted.{set_storage};
ghost use Rattle.bk_known.specs.Known.{FitsNote, KeepsKnown};
ghost use Rattle.bk_machine.specs.statements.Restore as restore;
ghost use Rattle.bk_storage.specs.Storage.{HasPath};
ghost use Rattle.bk_store.specs.Told.{data_file};
ghost use Rattle.bk_engine.specs.Bringing.{files_on, known_on, points_at, spec_on};

use bk_device::Trouble;
use bk_facts::DataFile;
use bk_hosted::units_of;
use bk_ids::{Branch, Guid, Name, Sequence};
use bk_kept::{copy_file, copy_groups, is_simple};
use bk_known::{AsOf, DatabaseSpec, Known};
use bk_paged::may_make;
use bk_points::Points;
use bk_store::copy_tables;
use bk_world::{Base, FileSpec, Header, HeaderFile, State, Status, Storage, TableSpec};
use std::alloc::{AllocError, Global};

// No data file has more extents.
const MOST_EXTENTS: u32 = 4096;

/// What a set makes of a database.
#[derive(Drop)]
pub(crate) struct Coming {
    pub files: Vec<DataFile>,
    pub known: Known,
    pub points: Points,
}

// The files of a set's database.
fn specs_of(alloc: Global, files: &[HeaderFile]) -> Result<Sequence<FileSpec>, AllocError>
    ensures { IfOk result (λ specs. specs ≡ map (λ file. file.spec) files.now) }
{
    let mut specs = Vec::new(alloc);
    for file in files {
        specs.push(copy_file(alloc, &file.spec)?)?;
    }
    Ok(Sequence::new(specs))
}

// Its filegroups, files and log.
fn storage_of(alloc: Global, header: &Header) -> Result<Storage, AllocError>
    ensures { IfOk result (λ storage. storage ≡ set_storage header.now) }
{
    let groups = copy_groups(alloc, header.groups.as_slice())?;
    let files = specs_of(alloc, header.files.as_slice())?;
    Ok(Storage {
        groups,
        files,
        log_name: header.log_name.copy(alloc)?,
        log_path: header.log_path.copy(alloc)?,
    })
}

// Its description under this name, on a branch of its own from the set's end on.
fn spec_of(
    alloc: Global,
    name: Name,
    header: &Header,
    branch: Guid,
) -> Result<DatabaseSpec, AllocError>
    ensures { IfOk result (λ spec. spec ≡ spec_on name header.now branch) }
{
    let next = Branch {
        guid: branch,
        start: header.last,
    };
    let path = header.path.grown(alloc, next)?;
    let storage = storage_of(alloc, header)?;
    Ok(DatabaseSpec {
        name,
        family: header.family,
        path,
        storage,
    })
}

// What is known of it as of the set's end.
fn known_of(
    alloc: Global,
    name: Name,
    header: &Header,
    tables: &[TableSpec],
    branch: Guid,
) -> Result<Known, AllocError>
    ensures { IfOk result (λ known. known ≡ known_on name header.now tables.now branch) }
{
    let tables = copy_tables(alloc, tables)?;
    let spec = spec_of(alloc, name, header, branch)?;
    let as_of = AsOf {
        from: header.last,
        tables,
        model: header.model,
        time: header.finish,
    };
    Ok(Known { spec, as_of })
}

// The name that a text spells, as if memory were wanting where it spells none.
fn name_of(alloc: Global, text: &str) -> Result<Name, Trouble>
    ensures name { IfOk result (λ name. name ≡ text.now) }
    ensures string { OnOk result (IsString 1 64 text.now) }
    ensures memory { IfErr result (λ e. e ≡ Trouble.NoMemory) }
{
    if text.is_empty() {
        return Err(Trouble::NoMemory);
    }
    match Name::new(alloc, text) {
        Ok(name) => Ok(name),
        Err(_) => Err(Trouble::NoMemory),
    }
}

// What differentials are based on behind it: none behind a copy.
fn base_of(header: &Header) -> Option<Base>
    ensures { result ≡ restore.base_of header.now }
{
    if header.copy_only {
        None
    } else {
        Some(Base {
            set: header.set,
            lsn: header.checkpoint,
        })
    }
}

// Its points: it is online, and its log begins with the set's end.
fn points_of(alloc: Global, header: &Header) -> Result<Points, AllocError>
    ensures { IfOk result (λ points. points ≡ points_at header.now) }
{
    let units = units_of(alloc, header.files.as_slice(), State::Online)?;
    Ok(Points {
        next_checkpoint: 0,
        next_kept: 0,
        archive: header.last,
        kept: header.last,
        checkpoint: header.last,
        chain: !is_simple(header.model),
        began: true,
        base: base_of(header),
        status: Status::Online,
        units: Sequence::new(units),
    })
}

// A data file, as if memory were wanting where it is too large.
fn file_of(alloc: Global, file: &FileSpec) -> Result<DataFile, Trouble>
    ensures file { IfOk result (λ made. made ≡ data_file file.now) }
    ensures memory { IfErr result (λ e. e ≡ Trouble.NoMemory) }
{
    if file.extents > MOST_EXTENTS {
        return Err(Trouble::NoMemory);
    }
    let path = file.path.copy(alloc)?;
    Ok(DataFile {
        path,
        pages: 8 + 8 * file.extents,
    })
}

fn files_of(alloc: Global, files: &[FileSpec]) -> Result<Vec<DataFile>, Trouble>
    ensures files { IfOk result (λ made. made.items ≡ map data_file files.now) }
    ensures memory { IfErr result (λ e. e ≡ Trouble.NoMemory) }
{
    let mut made = Vec::new(alloc);
    for file in files {
        made.push(file_of(alloc, file)?)?;
    }
    Ok(made)
}

// Whether a path has 1 to 100 bytes.
fn has_path(file: &FileSpec) -> bool
    ensures { IsTrue result ↔ HasPath file.now }
{
    let len = file.path.as_str().len();
    1 <= len && len <= 100
}

fn have_paths(files: &[FileSpec]) -> bool
    ensures { IsTrue result ↔ AllByRecursion HasPath files.now }
{
    files.iter().all(has_path)
}

// Whether a note has room for groups, files and log.
fn fits_note(storage: &Storage) -> bool
    ensures { result ≡ true → FitsNote storage.now }
{
    let path = storage.log_path.as_str().len();
    storage.files.as_slice().len() <= 16
        && have_paths(storage.files.as_slice())
        && storage.groups.as_slice().len() <= 8
        && 1 <= path
        && path <= 100
}

// Whether it has room for this.
fn may_keep(known: &Known) -> bool
    ensures { result ≡ true → KeepsKnown known.now }
{
    fits_note(&known.spec.storage)
        && known.spec.path.as_slice().len() <= 64
        && known.as_of.tables.as_slice().len() <= 64
}

// The data files of a description, as if memory were wanting where no database may be made of them.
fn files_made(alloc: Global, files: &[FileSpec]) -> Result<Vec<DataFile>, Trouble>
    ensures files { IfOk result (λ made. made.items ≡ map data_file files.now) }
    ensures fills { IfOk result (λ made. MayFill made.items) }
    ensures memory { IfErr result (λ e. e ≡ Trouble.NoMemory) }
{
    let made = files_of(alloc, files)?;
    if !may_make(alloc, &made, &[])? {
        return Err(Trouble::NoMemory);
    }
    Ok(made)
}

/// What a set with this header and these tables makes of a database with this name, on a branch of its own at the set's end. Where it makes none, or the text is no name, the call ends as if memory were wanting.
pub(crate) fn coming_of(
    alloc: Global,
    name: &str,
    header: &Header,
    tables: &[TableSpec],
    branch: Guid,
) -> Result<Coming, Trouble>
    ensures files { IfOk result (λ c. c.files.items ≡ files_on header.now) }
    ensures fills { IfOk result (λ c. MayFill c.files.items) }
    ensures known { IfOk result (λ c. c.known ≡ known_on name.now header.now tables.now branch) }
    ensures keeps { IfOk result (λ c. KeepsKnown c.known) }
    ensures points { IfOk result (λ c. c.points ≡ points_at header.now) }
    ensures string { OnOk result (IsString 1 64 name.now) }
    ensures memory { IfErr result (λ e. e ≡ Trouble.NoMemory) }
{
    let spelled = name_of(alloc, name)?;
    let known = known_of(alloc, spelled, header, tables, branch)?;
    if !may_keep(&known) {
        return Err(Trouble::NoMemory);
    }
    let files = files_made(alloc, known.spec.storage.files.as_slice())?;
    let points = points_of(alloc, header)?;
    Ok(Coming {
        files,
        known,
        points,
    })
}
