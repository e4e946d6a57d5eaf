// The extents of a set, as the pages of a database that arrives.
ghost use Rattle.std.specs.Prelude.{◌≡◌, ◌≤◌, ◌<◌, ◌+◌, Some, false, true, length, IsErrOf, OnOk};
ghost use Rattle.bk_arriving.specs.Sets.{pages_of};
ghost use Rattle.bk_arriving.specs.Steps.{Advances, Brings, IsEven, IsNext, IsPast, Remain, Stays};
ghost use Rattle.bk_body.specs.Body.{Body};
ghost use Rattle.bk_device.specs.Calls.{contents};
ghost use Rattle.bk_device.specs.Counts.{HasCause};
ghost use Rattle.bk_device.specs.Effects.{Effect};
ghost use Rattle.bk_restoring.specs.PagedNames.{IsOwn};
ghost use Rattle.bk_restoring.specs.Arriving.{IsBegun};
ghost use Rattle.bk_volume.specs.Stored.{IsOf};

use crate::error::ArriveError;
use crate::extents::EXTENT_PAGES;
use crate::headers::push_headers;
use crate::pages::push_extent;
use bk_device::Device;
use bk_restoring::Arriving;
use bk_volume::{Medium, StoredSet};

// Whether an extent was read, and it is the one that comes next.
fn is_next(arriving: &Arriving, place: Option<(u16, u32)>) -> bool
    ensures yes { result ≡ true → IsNext arriving.now.filling place }
    ensures no { result ≡ false → IsNext arriving.now.filling place → ⊥ }
{
    let Some((file, extent)) = place else {
        return false;
    };
    if arriving.is_whole() {
        return false;
    }
    let (to_file, page) = arriving.place();
    file == to_file && extent == page / EXTENT_PAGES
}

// Adds the extent of a set of this index, which is read into 65,536 bytes, if it is the one that comes next.
fn push_stored<D: Device>(
    dev: &mut D,
    medium: &Medium,
    set: &StoredSet,
    i: u32,
    buf: &mut [u8],
    arriving: &mut Arriving,
) -> Result<(), ArriveError>
    requires size { length buf.old ≡ 65536 }
    requires there { i < set.now.extents }
    requires even { IsEven arriving.old.filling }
    requires past { IsPast arriving.old.filling }
    requires stands { D.tells → IsBegun (D.disk dev.old) arriving.old }
    ensures size { length buf.new ≡ 65536 }
    ensures advances { OnOk result (Advances arriving.old arriving.new) }
    ensures rest { D.tells → (body : Body) → IsOf (contents ((D.disk dev.old).files medium.now.name)) body set.now → Remain i body.extents arriving.old.filling → OnOk result (Remain (i + 1) body.extents arriving.new.filling) }
    ensures fits { D.tells → (body : Body) → IsOf (contents ((D.disk dev.old).files medium.now.name)) body set.now → OnOk result (Remain (i + 1) body.extents arriving.new.filling → Remain i body.extents arriving.old.filling) }
    ensures unfit { D.tells → (body : Body) → IsOf (contents ((D.disk dev.old).files medium.now.name)) body set.now → Remain i body.extents arriving.old.filling → IsErrOf result ArriveError.Unfit → ⊥ }
    ensures stays { D.tells → OnOk result (Stays arriving.old arriving.new (D.disk dev.old) (D.disk dev.new)) }
    ensures brings { D.tells → (body : Body) → IsOf (contents ((D.disk dev.old).files medium.now.name)) body set.now → OnOk result (Brings (pages_of body) arriving.old arriving.new (D.disk dev.old).files (D.disk dev.new).files) }
    ensures crash { D.tells → Effect (IsOwn arriving.old.log.db arriving.old.filling.files) (λ _. Unit {0}) (D.disk dev.old) (D.disk dev.new) }
    ensures cause { HasCause D.disk_faults D.tell_faults dev.old dev.new (IsErrOf result ArriveError.Fault) }
{
    let place = medium.extent_at(dev, set, i, buf)?;
    if !is_next(arriving, place) {
        return Err(ArriveError::Unfit);
    }
    push_extent(dev, arriving, buf)?;
    Ok(())
}

// Adds the header pages that come next, and then the extent of a set of this index, if it is the one that comes next.
fn push_next<D: Device>(
    dev: &mut D,
    medium: &Medium,
    set: &StoredSet,
    i: u32,
    buf: &mut [u8],
    arriving: &mut Arriving,
) -> Result<(), ArriveError>
    requires size { length buf.old ≡ 65536 }
    requires there { i < set.now.extents }
    requires few { length arriving.old.filling.files ≤ 16 }
    requires even { IsEven arriving.old.filling }
    requires apart { IsOwn arriving.old.log.db arriving.old.filling.files medium.now.name → ⊥ }
    requires stands { D.tells → IsBegun (D.disk dev.old) arriving.old }
    ensures size { length buf.new ≡ 65536 }
    ensures advances { OnOk result (Advances arriving.old arriving.new) }
    ensures rest { D.tells → (body : Body) → IsOf (contents ((D.disk dev.old).files medium.now.name)) body set.now → Remain i body.extents arriving.old.filling → OnOk result (Remain (i + 1) body.extents arriving.new.filling) }
    ensures fits { D.tells → (body : Body) → IsOf (contents ((D.disk dev.old).files medium.now.name)) body set.now → OnOk result (Remain (i + 1) body.extents arriving.new.filling → Remain i body.extents arriving.old.filling) }
    ensures unfit { D.tells → (body : Body) → IsOf (contents ((D.disk dev.old).files medium.now.name)) body set.now → Remain i body.extents arriving.old.filling → IsErrOf result ArriveError.Unfit → ⊥ }
    ensures stays { D.tells → OnOk result (Stays arriving.old arriving.new (D.disk dev.old) (D.disk dev.new)) }
    ensures brings { D.tells → (body : Body) → IsOf (contents ((D.disk dev.old).files medium.now.name)) body set.now → OnOk result (Brings (pages_of body) arriving.old arriving.new (D.disk dev.old).files (D.disk dev.new).files) }
    ensures crash { D.tells → Effect (IsOwn arriving.old.log.db arriving.old.filling.files) (λ _. Unit {0}) (D.disk dev.old) (D.disk dev.new) }
    ensures cause { HasCause D.disk_faults D.tell_faults dev.old dev.new (IsErrOf result ArriveError.Fault) }
{
    push_headers(dev, arriving)?;
    push_stored(dev, medium, set, i, buf, arriving)
}

// Adds all extents of a set, each behind the header pages that come before it.
fn push_all<D: Device>(
    dev: &mut D,
    medium: &Medium,
    set: &StoredSet,
    buf: &mut [u8],
    arriving: &mut Arriving,
) -> Result<(), ArriveError>
    requires size { length buf.old ≡ 65536 }
    requires few { length arriving.old.filling.files ≤ 16 }
    requires even { IsEven arriving.old.filling }
    requires apart { IsOwn arriving.old.log.db arriving.old.filling.files medium.now.name → ⊥ }
    requires stands { D.tells → IsBegun (D.disk dev.old) arriving.old }
    ensures advances { OnOk result (Advances arriving.old arriving.new) }
    ensures rest { D.tells → (body : Body) → IsOf (contents ((D.disk dev.old).files medium.now.name)) body set.now → Remain 0 body.extents arriving.old.filling → OnOk result (Remain set.now.extents body.extents arriving.new.filling) }
    ensures fits { D.tells → (body : Body) → IsOf (contents ((D.disk dev.old).files medium.now.name)) body set.now → OnOk result (Remain set.now.extents body.extents arriving.new.filling → Remain 0 body.extents arriving.old.filling) }
    ensures unfit { D.tells → (body : Body) → IsOf (contents ((D.disk dev.old).files medium.now.name)) body set.now → Remain 0 body.extents arriving.old.filling → IsErrOf result ArriveError.Unfit → ⊥ }
    ensures stays { D.tells → OnOk result (Stays arriving.old arriving.new (D.disk dev.old) (D.disk dev.new)) }
    ensures brings { D.tells → (body : Body) → IsOf (contents ((D.disk dev.old).files medium.now.name)) body set.now → OnOk result (Brings (pages_of body) arriving.old arriving.new (D.disk dev.old).files (D.disk dev.new).files) }
    ensures crash { D.tells → Effect (IsOwn arriving.old.log.db arriving.old.filling.files) (λ _. Unit {0}) (D.disk dev.old) (D.disk dev.new) }
    ensures cause { HasCause D.disk_faults D.tell_faults dev.old dev.new (IsErrOf result ArriveError.Fault) }
{
    'extents: for i in 0..set.extents() {
        push_next(dev, medium, set, i, buf, arriving)?;
    }
    Ok(())
}

/// Adds all pages of a database from a set: header pages as fresh ones, and its extents, each of which is read into 65,536 bytes. Those are to be the data extents of its data files, in the order of file
/// and number.
pub fn push_set<D: Device>(
    dev: &mut D,
    medium: &Medium,
    set: &StoredSet,
    buf: &mut [u8],
    arriving: &mut Arriving,
) -> Result<(), ArriveError>
    requires size { length buf.old ≡ 65536 }
    requires few { length arriving.old.filling.files ≤ 16 }
    requires even { IsEven arriving.old.filling }
    requires apart { IsOwn arriving.old.log.db arriving.old.filling.files medium.now.name → ⊥ }
    requires stands { D.tells → IsBegun (D.disk dev.old) arriving.old }
    ensures advances { OnOk result (Advances arriving.old arriving.new) }
    ensures whole { OnOk result (arriving.new.filling.whole ≡ length arriving.new.filling.files) }
    ensures fits { D.tells → (body : Body) → IsOf (contents ((D.disk dev.old).files medium.now.name)) body set.now → OnOk result (Remain 0 body.extents arriving.old.filling) }
    ensures unfit { D.tells → (body : Body) → IsOf (contents ((D.disk dev.old).files medium.now.name)) body set.now → Remain 0 body.extents arriving.old.filling → IsErrOf result ArriveError.Unfit → ⊥ }
    ensures stays { D.tells → OnOk result (Stays arriving.old arriving.new (D.disk dev.old) (D.disk dev.new)) }
    ensures brings { D.tells → (body : Body) → IsOf (contents ((D.disk dev.old).files medium.now.name)) body set.now → OnOk result (Brings (pages_of body) arriving.old arriving.new (D.disk dev.old).files (D.disk dev.new).files) }
    ensures crash { D.tells → Effect (IsOwn arriving.old.log.db arriving.old.filling.files) (λ _. Unit {0}) (D.disk dev.old) (D.disk dev.new) }
    ensures cause { HasCause D.disk_faults D.tell_faults dev.old dev.new (IsErrOf result ArriveError.Fault) }
{
    push_all(dev, medium, set, buf, arriving)?;
    push_headers(dev, arriving)?;
    if !arriving.is_whole() {
        return Err(ArriveError::Unfit);
    }
    Ok(())
}
