// Pages between the data files and the pool.
ghost use Rattle.std.specs.Prelude.{◌≡◌, ◌<◌, ◌+◌, [], ℕ, true, false, IfOk, IfSome, OnOk, IsErr, IsErrOf, IsNone, length};
ghost use Rattle.std.specs.List.{All};
ghost use Rattle.bk_device.specs.Calls.{ChangesNothing};
ghost use Rattle.bk_device.specs.Counts.{HasCause};
ghost use Rattle.bk_device.specs.Effects.{Effect};
ghost use Rattle.bk_paged.specs.Pooled.{Batches, Fetches, IsPool};
ghost use Rattle.bk_pool.specs.Pool.{IsAbsent, IsIn};
ghost use Rattle.bk_side.specs.Pages.{IsSound};
ghost use Rattle.bk_side.specs.Side.{IsOwnOf, IsSide, ShowsPages, added_of, pages_of};

use crate::error::PagedError;
use crate::parts::copy_frame;
use bk_device::{Device, Failed};
use bk_page::seal_digest;
use bk_pool::{Claim, Pool};
use bk_side::Side;

// Reads a page that lies in no frame into one. Gives none where every frame is dirty. `Foreign` is answered where it isn't whole.
fn read_page<D: Device>(
    dev: &mut D,
    side: &Side,
    pool: &mut Pool,
    file: u16,
    page: u32,
) -> Result<Option<usize>, PagedError>
    requires pool { IsPool pool.old }
    requires absent { IsAbsent pool.old.pages file page }
    requires stands { D.tells → IsSide (D.disk dev.old) side.now }
    ensures pool { IsPool pool.new }
    ensures fetched { D.tells → IfOk result (λ found. IfSome found (λ i. Fetches (pages_of side.now (D.disk dev.old).files) pool.old pool.new file page i)) }
    ensures holds { IfOk result (λ found. IfSome found (λ i. IsIn pool.new.pages i file page)) }
    ensures alone { IfOk result (λ found. IfSome found (λ i. (j : ℕ) → IsIn pool.new.pages j file page → j ≡ i)) }
    ensures full { IfOk result (λ found. IsNone found → (pool.new ≡ pool.old) × All (λ is_dirty. is_dirty ≡ true) pool.old.dirty) }
    ensures foreign { D.tells → IsErrOf result PagedError.Foreign → IsSound (pages_of side.now (D.disk dev.old).files (file, page)) → ⊥ }
    ensures memory { IsErrOf result PagedError.NoMemory → ⊥ }
    ensures effect { D.tells → ChangesNothing (D.disk dev.old) (D.disk dev.new) }
    ensures cause { HasCause D.disk_faults D.tell_faults dev.old dev.new (IsErrOf result PagedError.Fault) }
{
    let i = match pool.claim(file, page) {
        Claim::Free(i) => i,
        Claim::Spill(..) => return Ok(None),
    };
    if !side.read(dev, file, page, pool.frames().page_mut(i))? {
        return Err(PagedError::Foreign);
    }
    Ok(Some(i))
}

// The frame in which a page lies; it is read where it lies in none. Gives none where every frame is dirty. There is at least one frame.
pub fn fetch<D: Device>(
    dev: &mut D,
    side: &Side,
    pool: &mut Pool,
    file: u16,
    page: u32,
) -> Result<Option<usize>, PagedError>
    requires pool { IsPool pool.old }
    requires stands { D.tells → IsSide (D.disk dev.old) side.now }
    ensures pool { IsPool pool.new }
    ensures fetched { D.tells → IfOk result (λ found. IfSome found (λ i. Fetches (pages_of side.now (D.disk dev.old).files) pool.old pool.new file page i)) }
    ensures holds { IfOk result (λ found. IfSome found (λ i. IsIn pool.new.pages i file page)) }
    ensures alone { IfOk result (λ found. IfSome found (λ i. (j : ℕ) → IsIn pool.new.pages j file page → j ≡ i)) }
    ensures full { IfOk result (λ found. IsNone found → (pool.new ≡ pool.old) × All (λ is_dirty. is_dirty ≡ true) pool.old.dirty) }
    ensures foreign { D.tells → IsErrOf result PagedError.Foreign → IsSound (pages_of side.now (D.disk dev.old).files (file, page)) → ⊥ }
    ensures memory { IsErrOf result PagedError.NoMemory → ⊥ }
    ensures effect { D.tells → ChangesNothing (D.disk dev.old) (D.disk dev.new) }
    ensures cause { HasCause D.disk_faults D.tell_faults dev.old dev.new (IsErrOf result PagedError.Fault) }
{
    match pool.find(file, page) {
        Some(i) => Ok(Some(i)),
        None => read_page(dev, side, pool, file, page),
    }
}

// Adds the page in a frame to the batch, with its digest, if the frame is dirty.
fn add_frame<D: Device>(dev: &mut D, side: &mut Side, pool: &Pool, i: usize) -> Result<(), Failed>
    requires fit { side.old.failed ≡ false }
    requires pool { IsPool pool.now }
    requires there { i < length pool.now.pages }
    requires stands { D.tells → IsSide (D.disk dev.old) side.old }
    ensures fit { OnOk result (side.new.failed ≡ false) }
    ensures name { side.new.gate.name ≡ side.old.gate.name }
    ensures names { side.new.names ≡ side.old.names }
    ensures stands { D.tells → OnOk result (IsSide (D.disk dev.new) side.new) }
    ensures added { D.tells → Batches pool.now i (added_of (D.disk dev.old) side.old) → OnOk result (Batches pool.now (i + 1) (added_of (D.disk dev.new) side.new)) }
    ensures shown { D.tells → OnOk result (ShowsPages side.old (pages_of side.old (D.disk dev.old).files) (D.disk dev.new).files) }
    ensures crash { D.tells → Effect (IsOwnOf side.old) (ShowsPages side.old (pages_of side.old (D.disk dev.old).files)) (D.disk dev.old) (D.disk dev.new) }
    ensures cause { HasCause D.disk_faults D.tell_faults dev.old dev.new (IsErr result) }
{
    if !pool.is_dirty(i) {
        return Ok(());
    }
    let Some((file, page)) = pool.page(i) else {
        return Ok(());
    };
    let mut bytes = copy_frame(pool, i);
    seal_digest(&mut bytes);
    side.add(dev, file, page, &bytes)
}

// Adds the pages of all dirty frames to the batch.
pub fn add_frames<D: Device>(dev: &mut D, side: &mut Side, pool: &Pool) -> Result<(), Failed>
    requires fit { side.old.failed ≡ false }
    requires stands { D.tells → IsSide (D.disk dev.old) side.old }
    requires pool { IsPool pool.now }
    requires fresh { D.tells → added_of (D.disk dev.old) side.old ≡ [] }
    ensures fit { OnOk result (side.new.failed ≡ false) }
    ensures name { side.new.gate.name ≡ side.old.gate.name }
    ensures names { side.new.names ≡ side.old.names }
    ensures stands { D.tells → OnOk result (IsSide (D.disk dev.new) side.new) }
    ensures added { D.tells → OnOk result (Batches pool.now (length pool.now.pages) (added_of (D.disk dev.new) side.new)) }
    ensures shown { D.tells → OnOk result (ShowsPages side.old (pages_of side.old (D.disk dev.old).files) (D.disk dev.new).files) }
    ensures crash { D.tells → Effect (IsOwnOf side.old) (ShowsPages side.old (pages_of side.old (D.disk dev.old).files)) (D.disk dev.old) (D.disk dev.new) }
    ensures cause { HasCause D.disk_faults D.tell_faults dev.old dev.new (IsErr result) }
{
    'frames: for i in 0..pool.len() {
        add_frame(dev, side, pool, i)?;
    }
    Ok(())
}
