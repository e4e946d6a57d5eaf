// Pages as they are copied into backups.
ghost use Rattle.std.specs.Prelude.{◌≡◌, ◌≤◌, [], ℕ, false, IfOk, MatchOption, OnOk, IsErrOf, slice_index_or};
ghost use Rattle.bk_device.specs.Calls.{ChangesNothing};
ghost use Rattle.bk_device.specs.Counts.{HasCause};
ghost use Rattle.bk_device.specs.Effects.{Effect};
ghost use Rattle.bk_log.specs.Log.{KeepsSpare};
ghost use Rattle.bk_page.specs.Page.{sealed};
ghost use Rattle.bk_paged.specs.Holds.{IsStored, Leaves, Stood};
ghost use Rattle.bk_paged.specs.Names.{IsOwn, IsThere};
ghost use Rattle.bk_paged.specs.Paged.{IsDirty, IsPaged, Standing, Touches, sealed_count};
ghost use Rattle.bk_paged.specs.Pooled.{IsPool};
ghost use Rattle.bk_paths.specs.Paths.{end_of};
ghost use Rattle.bk_pool.specs.Pool.{IsIn};
ghost use Rattle.bk_side.specs.Pages.{IsSound};
ghost use Rattle.bk_side.specs.Side.{IsSide, pages_of};

use crate::error::PagedError;
use crate::paged::Paged;
use crate::parts::copy_frame;
use bk_device::Device;
use bk_page::seal_digest;
use bk_pool::Pool;
use bk_side::Side;

// A copy of a page that lies in a dirty frame, with its digest.
fn changed_page(pool: &Pool, file: u16, page: u32) -> Option<[u8; 8192]>
    requires { IsPool pool.now }
    ensures { MatchOption result (IsDirty pool.now (record { file = file; page = page }) → ⊥) (λ bytes. (i : ℕ) × IsIn pool.now.pages i file page × (bytes ≡ sealed (slice_index_or pool.now.frames i []))) }
{
    let i = pool.place(file, page)?;
    if !pool.is_dirty(i) {
        return None;
    }
    let mut bytes = copy_frame(pool, i);
    seal_digest(&mut bytes);
    Some(bytes)
}

// The bytes of a page in its data file, whatever digest it stores. `Foreign` is answered where it isn't whole.
fn stored_page<D: Device>(
    dev: &mut D,
    side: &Side,
    file: u16,
    page: u32,
) -> Result<[u8; 8192], PagedError>
    requires stands { D.tells → IsSide (D.disk dev.old) side.now }
    ensures page { D.tells → IfOk result (λ bytes. bytes ≡ pages_of side.now (D.disk dev.old).files (file, page)) }
    ensures foreign { D.tells → IsErrOf result PagedError.Foreign → IsSound (pages_of side.now (D.disk dev.old).files (file, page)) → ⊥ }
    ensures effect { D.tells → ChangesNothing (D.disk dev.old) (D.disk dev.new) }
    ensures cause { HasCause D.disk_faults D.tell_faults dev.old dev.new (IsErrOf result PagedError.Fault) }
{
    let mut bytes = [0u8; 8192];
    if !side.read_plain(dev, file, page, &mut bytes)? {
        return Err(PagedError::Foreign);
    }
    Ok(bytes)
}

impl Paged {
    /// The 8,192 bytes of a page as of the end with their digest, as a data file holds them. It is one of a data file. Where it lies in no dirty frame its data file's bytes are copied as
    /// they are, and their digest isn't checked. Changes nothing. A crash leaves the records that were durable, or some more of them.
    pub fn copy_page<D: Device>(
        &mut self,
        dev: &mut D,
        file: u16,
        page: u32,
    ) -> Result<[u8; 8192], PagedError>
        requires fit { self.old.failed ≡ false }
        requires there { IsThere self.old.facts.files (record { file = file; page = page }) }
        requires standing { D.tells → Standing (D.disk dev.old) self.old }
        ensures fit { OnOk result (self.new.failed ≡ false) }
        ensures same { OnOk result ((self.new.log.db ≡ self.old.log.db) × (self.new.log.end ≡ self.old.log.end) × (self.new.log.head.kept ≡ self.old.log.head.kept) × (self.new.facts ≡ self.old.facts)) }
        ensures stands { D.tells → (stood : Stood) → IsPaged (D.disk dev.old) self.old stood → OnOk result (IsPaged (D.disk dev.new) self.new stood) }
        ensures standing { D.tells → OnOk result (Standing (D.disk dev.new) self.new) }
        ensures later { D.tells → (stood : Stood) → IsPaged (D.disk dev.old) self.old stood → OnOk result (self.old.log.stored ≤ self.new.log.stored) }
        ensures spare { OnOk result (KeepsSpare self.old.log self.new.log) }
        ensures foreign { D.tells → IsErrOf result PagedError.Foreign → (stood : Stood) → IsPaged (D.disk dev.old) self.old stood → ⊥ }
        ensures page { D.tells → (stood : Stood) → IsPaged (D.disk dev.old) self.old stood → IfOk result (λ bytes. IsStored stood.records (end_of stood.records) (record { file = file; page = page }) bytes) }
        ensures crash { D.tells → (stood : Stood) → IsPaged (D.disk dev.old) self.old stood → Effect (IsOwn self.old.log.db stood.files) (Leaves self.old.log.db (sealed_count self.old) stood) (D.disk dev.old) (D.disk dev.new) }
        ensures touches { D.tells → Touches self.old (D.disk dev.old) (D.disk dev.new) }
        ensures cause { HasCause D.disk_faults D.tell_faults dev.old dev.new (IsErrOf result PagedError.Fault) }
    {
        if let Some(bytes) = changed_page(&self.pool, file, page) {
            return Ok(bytes);
        }
        stored_page(dev, &self.side, file, page)
    }
}
