// Reading all pages into a pool, and bringing them to the end.
ghost use Rattle.std.specs.Prelude.{◌≡◌, ◌≢◌, ◌≤◌, ◌<◌, ◌⊎◌, ◌+◌, ◌^◌, [], ℕ, List, None, Some, true, length, slice_get, slice_set, slice_index_or, IfOk, OnOk, IsErrOf, MatchBool};
ghost use Rattle.std.specs.List.{AllPairs};
ghost use Rattle.bk_device.specs.Calls.{ChangesNothing};
ghost use Rattle.bk_device.specs.Counts.{HasCause};
ghost use Rattle.bk_ids.specs.declared.record.Rec.{Rec};
ghost use Rattle.bk_page.specs.Page.{lsn_of, page_digest};
ghost use Rattle.bk_paged.specs.Names.{IsThere};
ghost use Rattle.bk_opening.specs.Opening.{AreIn, ArePlaces, AreRead, AreSound, Brings, ArePut, Marks};
ghost use Rattle.bk_paged.specs.Paged.{IsDirty, IsLast};
ghost use Rattle.bk_paged.specs.Pooled.{IsPool};
ghost use Rattle.bk_paths.specs.Pages.{last_page};
ghost use Rattle.bk_pool.specs.Pool.{IsIn};
ghost use Rattle.bk_record.specs.Log.{IsLog};
ghost use Rattle.bk_redo.specs.declared.place.PageAt.{PageAt as At};
ghost use Rattle.bk_redo.specs.Frames.{FramesRedone};
ghost use Rattle.bk_redo.specs.PageStates.{page_of};
ghost use Rattle.bk_redo.specs.Redo.{records_between};
ghost use Rattle.bk_side.specs.Pages.{IsSound};
ghost use Rattle.bk_side.specs.Side.{IsSide, pages_of};

use bk_device::Device;
use bk_facts::{DataFile, Facts};
use bk_frames::{Frames, Page};
use bk_ids::Lsn;
use bk_page::{page_digests, page_lsn};
use bk_paged::{PagedError, pages_in};
use bk_paths::pages_law;
use bk_pool::Pool;
use bk_redo::{PageAt, RedoError, redo};
use bk_side::Side;
use std::alloc::{AllocError, Global};
use std::thread::Threads;

// Adds the places of the pages of a data file behind those of the files before it.
fn add_places(places: &mut Vec<PageAt>, files: &[DataFile], file: u16) -> Result<(), AllocError>
    requires { ArePlaces files.now file 0 places.old.items }
    ensures { OnOk result (ArePlaces files.now (file + 1) 0 places.new.items) }
{
    for page in 0..pages_in(files, file) {
        places.push(PageAt { file, page })?;
    }
    Ok(())
}

// The places of the pages of all data files, file by file.
fn places_of(alloc: Global, files: &[DataFile]) -> Result<Vec<PageAt>, PagedError>
    ensures places { IfOk result (λ places. ArePlaces files.now (length files.now + 1) 0 places.items) }
    ensures foreign { IsErrOf result PagedError.Foreign → length files.now < 2 ^ 16 → ⊥ }
    ensures fault { IsErrOf result PagedError.Fault → ⊥ }
{
    let mut places = Vec::new(alloc);
    for i in 0..files.len() {
        let Ok(file) = u16::try_from(i + 1) else {
            return Err(PagedError::Foreign);
        };
        add_places(&mut places, files, file)?;
    }
    Ok(places)
}

// A pool with a frame for each of these pages, one after the other, and with one where there are none. The pages aren't read yet.
fn pool_of(alloc: Global, places: &[PageAt]) -> Result<Pool, AllocError>
    requires { AllPairs (λ a b. a ≢ b) places.now }
    ensures pool { IfOk result IsPool }
    ensures put { IfOk result (λ pool. ArePut places.now (length places.now) pool.pages) }
    ensures enough { IfOk result (λ pool. length places.now ≤ length pool.frames) }
{
    let mut pool = Pool::new(alloc, places.len().max(1))?;
    for i in 0..places.len() {
        pool.put(i, places[i].file, places[i].page);
    }
    Ok(pool)
}

// Reads a page, whatever digest it stores. `Foreign` is answered where it isn't whole.
fn read_frame<D: Device>(
    dev: &mut D,
    side: &Side,
    at: PageAt,
    page: &mut Page,
) -> Result<(), PagedError>
    requires { D.tells → IsSide (D.disk dev.old) side.now }
    ensures page { D.tells → OnOk result (page.new ≡ pages_of side.now (D.disk dev.old).files (at.file, at.page)) }
    ensures foreign { D.tells → IsErrOf result PagedError.Foreign → IsSound (pages_of side.now (D.disk dev.old).files (at.file, at.page)) → ⊥ }
    ensures memory { IsErrOf result PagedError.NoMemory → ⊥ }
    ensures effect { D.tells → ChangesNothing (D.disk dev.old) (D.disk dev.new) }
    ensures cause { HasCause D.disk_faults D.tell_faults dev.old dev.new (IsErrOf result PagedError.Fault) }
{
    if !side.read_plain(dev, at.file, at.page, page)? {
        return Err(PagedError::Foreign);
    }
    Ok(())
}

// Reads pages into frames, one after the other, whatever digests they store. `Foreign` is answered where one isn't whole.
fn read_frames<D: Device>(
    dev: &mut D,
    side: &Side,
    places: &[PageAt],
    frames: &mut Frames,
) -> Result<(), PagedError>
    requires enough { length places.now ≤ length frames.old }
    requires stands { D.tells → IsSide (D.disk dev.old) side.now }
    ensures size { length frames.new ≡ length frames.old }
    ensures read { D.tells → OnOk result (AreRead (pages_of side.now (D.disk dev.old).files) places.now (length places.now) frames.new) }
    ensures foreign { D.tells → IsErrOf result PagedError.Foreign → ((i : ℕ) (at : At) → slice_get places.now i ≡ Some at → IsSound (pages_of side.now (D.disk dev.old).files (at.file, at.page))) → ⊥ }
    ensures memory { IsErrOf result PagedError.NoMemory → ⊥ }
    ensures effect { D.tells → ChangesNothing (D.disk dev.old) (D.disk dev.new) }
    ensures cause { HasCause D.disk_faults D.tell_faults dev.old dev.new (IsErrOf result PagedError.Fault) }
{
    'pages: for i in 0..places.len() {
        read_frame(dev, side, places[i], frames.page_mut(i))?;
    }
    Ok(())
}

// Whether a page stores its digest, which is given. The page is whole.
fn is_sound(page: &Page, digest: &[u8; 32]) -> bool
    requires { digest.now ≡ page_digest page.now }
    ensures { MatchBool result (IsSound page.now) (IsSound page.now → ⊥) }
{
    page[32..64] == digest[..]
}

// Checks the pages in the first frames, on as many threads as there are processors. `Foreign` is answered where one doesn't store its digest.
fn check_frames<R: Threads + Sync>(
    rt: &R,
    alloc: Global,
    frames: &Frames,
    count: usize,
) -> Result<(), PagedError>
    requires { count ≤ length frames.now }
    ensures sound { OnOk result (AreSound count frames.now) }
    ensures foreign { IsErrOf result PagedError.Foreign → AreSound count frames.now → ⊥ }
    ensures fault { IsErrOf result PagedError.Fault → ⊥ }
{
    let digests = page_digests(rt, alloc, frames)?;
    for i in 0..count {
        if !is_sound(frames.page(i), &digests[i]) {
            return Err(PagedError::Foreign);
        }
    }
    Ok(())
}

// Reads pages into frames, one after the other, and then checks them all. `Foreign` is answered where one isn't whole or doesn't store its digest.
fn load_frames<R: Threads + Sync, D: Device>(
    rt: &R,
    alloc: Global,
    dev: &mut D,
    side: &Side,
    places: &[PageAt],
    frames: &mut Frames,
) -> Result<(), PagedError>
    requires enough { length places.now ≤ length frames.old }
    requires stands { D.tells → IsSide (D.disk dev.old) side.now }
    ensures size { length frames.new ≡ length frames.old }
    ensures read { D.tells → OnOk result (AreRead (pages_of side.now (D.disk dev.old).files) places.now (length places.now) frames.new) }
    ensures sound { OnOk result (AreSound (length places.now) frames.new) }
    ensures foreign { D.tells → IsErrOf result PagedError.Foreign → ((i : ℕ) (at : At) → slice_get places.now i ≡ Some at → IsSound (pages_of side.now (D.disk dev.old).files (at.file, at.page))) → ⊥ }
    ensures effect { D.tells → ChangesNothing (D.disk dev.old) (D.disk dev.new) }
    ensures cause { HasCause D.disk_faults D.tell_faults dev.old dev.new (IsErrOf result PagedError.Fault) }
{
    read_frames(dev, side, places, frames)?;
    check_frames(rt, alloc, frames, places.len())
}

// Redoes pages in frames by the records of a log from a number on and below another. `Foreign` is answered where the bytes are no log.
fn redo_frames<R: Threads + Sync>(
    rt: &R,
    alloc: Global,
    frames: &mut Frames,
    places: &[PageAt],
    log: &[u8],
    from: Lsn,
    to: Lsn,
) -> Result<(), PagedError>
    requires enough { length places.now ≤ length frames.old }
    requires different { AllPairs (λ a b. a ≢ b) places.now }
    ensures redone { OnOk result ((found : List Rec) × IsLog log.now found None × FramesRedone places.now (records_between from to found) frames.old frames.new) }
    ensures foreign { IsErrOf result PagedError.Foreign → (records : List Rec) → IsLog log.now records None → ⊥ }
    ensures fault { IsErrOf result PagedError.Fault → ⊥ }
{
    match redo(rt, alloc, frames, places, log, from, to, 1) {
        Ok(()) => Ok(()),
        Err(RedoError::BadRecord { .. }) => Err(PagedError::Foreign),
        Err(RedoError::NoMemory) => Err(PagedError::NoMemory),
    }
}

// The number of the last record that changed a page, which is whole.
fn number_of(page: &Page) -> Lsn
    ensures number { result ≡ lsn_of page.now }
    ensures whole { length page.now ≡ 8192 }
{
    page_lsn(page)
}

// Makes a frame dirty whose page a record from this number on changed.
fn mark_page(pool: &mut Pool, i: usize, from: Lsn)
    requires pool { IsPool pool.old }
    requires there { i < length pool.old.pages }
    ensures either { (pool.new ≡ pool.old) ⊎ (pool.new ≡ record pool.old { dirty = slice_set pool.old.dirty i true }) }
    ensures whole { (file page : ℕ) → IsIn pool.old.pages i file page → length (slice_index_or pool.old.frames i []) ≡ 8192 }
    ensures marked { (file page : ℕ) → IsIn pool.old.pages i file page → from ≤ lsn_of (slice_index_or pool.old.frames i []) → slice_get pool.new.dirty i ≡ Some true }
{
    if pool.page(i).is_none() {
        return;
    }
    let number = number_of(pool.frame(i));
    if from <= number {
        pool.dirty(i);
    }
}

// Makes the frames dirty whose pages a record from this number on changed.
fn mark_pages(pool: &mut Pool, from: Lsn)
    requires { IsPool pool.old }
    ensures pool { IsPool pool.new }
    ensures marks { Marks from (length pool.old.pages) pool.old pool.new }
{
    for i in 0..pool.len() {
        mark_page(pool, i, from);
    }
}

// A pool with all pages of data files, brought to the end by a log of these bytes from the latest checkpoint on. Each page that isn't as of the end in its file is dirty.
//
// `Foreign` is answered where a page isn't whole or doesn't store its digest, or the bytes are no log.
pub fn open_pool<R: Threads + Sync, D: Device>(
    rt: &R,
    alloc: Global,
    dev: &mut D,
    side: &Side,
    facts: &Facts,
    log: &[u8],
    end: Lsn,
) -> Result<Pool, PagedError>
    requires stands { D.tells → IsSide (D.disk dev.old) side.now }
    ensures pool { IfOk result IsPool }
    ensures whole { IfOk result (AreIn facts.now.files) }
    ensures frames { D.tells → (records : List Rec) → Brings facts.now (pages_of side.now (D.disk dev.old).files) log.now end records
        → IfOk result (λ pool. (i : ℕ) (at : At) → IsIn pool.pages i at.file at.page → IsThere facts.now.files at × IsLast records at (slice_index_or pool.frames i [])) }
    ensures clean { D.tells → (records : List Rec) → Brings facts.now (pages_of side.now (D.disk dev.old).files) log.now end records
        → IfOk result (λ pool. (at : At) → IsThere facts.now.files at → (IsDirty pool at → ⊥) → page_of (pages_of side.now (D.disk dev.old).files (at.file, at.page)) ≡ last_page at records) }
    ensures sound { D.tells → IfOk result (λ pool. (at : At) → IsThere facts.now.files at → IsSound (pages_of side.now (D.disk dev.old).files (at.file, at.page))) }
    ensures foreign { D.tells → IsErrOf result PagedError.Foreign → (records : List Rec) → Brings facts.now (pages_of side.now (D.disk dev.old).files) log.now end records → length facts.now.files < 2 ^ 16 → ⊥ }
    ensures effect { D.tells → ChangesNothing (D.disk dev.old) (D.disk dev.new) }
    ensures cause { HasCause D.disk_faults D.tell_faults dev.old dev.new (IsErrOf result PagedError.Fault) }
{
    pages_law();
    let places = places_of(alloc, facts.files.as_slice())?;
    let mut pool = pool_of(alloc, &places)?;
    load_frames(rt, alloc, dev, side, &places, pool.frames())?;
    redo_frames(
        rt,
        alloc,
        pool.frames(),
        &places,
        log,
        facts.checkpoint,
        end,
    )?;
    mark_pages(&mut pool, facts.checkpoint);
    Ok(pool)
}
