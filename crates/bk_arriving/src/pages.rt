// Pages that arrive eight at a time.
ghost use Rattle.std.specs.Prelude.{◌≡◌, ◌<◌, ◌+◌, ◌*◌, ℕ, List, length, IsErr, OnOk};
ghost use Rattle.bk_arriving.specs.Steps.{Advances, AreAt, Brings, IsEven, Stays, ahead};
ghost use Rattle.bk_device.specs.Counts.{HasCause};
ghost use Rattle.bk_device.specs.Effects.{Effect};
ghost use Rattle.bk_filling.specs.Filling.{place_of};
ghost use Rattle.bk_page.specs.Page.{fresh_page, part};
ghost use Rattle.bk_restoring.specs.PagedNames.{IsOwn};
ghost use Rattle.bk_restoring.specs.Arriving.{IsBegun};

use crate::extents::EXTENT_PAGES;
use bk_device::{Device, Failed};
use bk_page::Page;
use bk_restoring::Arriving;

/// The bytes of a page.
const PAGE_BYTES: usize = 8192;

// One of the eight pages of an extent.
fn page_in(bytes: &[u8], j: usize) -> &Page
    requires size { length bytes.now ≡ 65536 }
    requires there { j < 8 }
    ensures { result.now ≡ part bytes.now (8192 * j) 8192 }
{
    match bytes[PAGE_BYTES * j..].first_chunk() {
        Some(page) => page,
        None => unreachable!(),
    }
}

/// Adds eight fresh pages. Not all pages are there.
pub fn push_fresh_extent<D: Device>(dev: &mut D, arriving: &mut Arriving) -> Result<(), Failed>
    requires next { arriving.old.filling.whole < length arriving.old.filling.files }
    requires even { IsEven arriving.old.filling }
    requires stands { D.tells → IsBegun (D.disk dev.old) arriving.old }
    ensures next { OnOk result (arriving.new ≡ record arriving.old { filling = ahead arriving.old.filling 8 }) }
    ensures advances { OnOk result (Advances arriving.old arriving.new) }
    ensures stays { D.tells → OnOk result (Stays arriving.old arriving.new (D.disk dev.old) (D.disk dev.new)) }
    ensures brings { D.tells → (given : ℕ × ℕ → List ℕ) → AreAt given (place_of arriving.old.filling) 8 (λ j. fresh_page (arriving.old.filling.whole + 1) (arriving.old.filling.page + j)) → OnOk result (Brings given arriving.old arriving.new (D.disk dev.old).files (D.disk dev.new).files) }
    ensures crash { D.tells → Effect (IsOwn arriving.old.log.db arriving.old.filling.files) (λ _. Unit {0}) (D.disk dev.old) (D.disk dev.new) }
    ensures cause { HasCause D.disk_faults D.tell_faults dev.old dev.new (IsErr result) }
{
    'pages: for _j in 0..EXTENT_PAGES {
        arriving.push_fresh(dev)?;
    }
    Ok(())
}

/// Adds the eight pages of an extent. Not all pages are there.
pub fn push_extent<D: Device>(
    dev: &mut D,
    arriving: &mut Arriving,
    bytes: &[u8],
) -> Result<(), Failed>
    requires size { length bytes.now ≡ 65536 }
    requires next { arriving.old.filling.whole < length arriving.old.filling.files }
    requires even { IsEven arriving.old.filling }
    requires stands { D.tells → IsBegun (D.disk dev.old) arriving.old }
    ensures next { OnOk result (arriving.new ≡ record arriving.old { filling = ahead arriving.old.filling 8 }) }
    ensures advances { OnOk result (Advances arriving.old arriving.new) }
    ensures stays { D.tells → OnOk result (Stays arriving.old arriving.new (D.disk dev.old) (D.disk dev.new)) }
    ensures brings { D.tells → (given : ℕ × ℕ → List ℕ) → AreAt given (place_of arriving.old.filling) 8 (λ j. part bytes.now (8192 * j) 8192) → OnOk result (Brings given arriving.old arriving.new (D.disk dev.old).files (D.disk dev.new).files) }
    ensures crash { D.tells → Effect (IsOwn arriving.old.log.db arriving.old.filling.files) (λ _. Unit {0}) (D.disk dev.old) (D.disk dev.new) }
    ensures cause { HasCause D.disk_faults D.tell_faults dev.old dev.new (IsErr result) }
{
    'pages: for j in 0..EXTENT_PAGES {
        arriving.push_page(dev, page_in(bytes, j as usize))?;
    }
    Ok(())
}
