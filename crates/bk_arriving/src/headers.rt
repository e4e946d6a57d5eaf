// The header pages of data files.
ghost use Rattle.std.specs.Prelude.{◌≡◌, ◌≤◌, ◌+◌, ℕ, List, false, true, length, IsErr, OnOk};
ghost use Rattle.bk_arriving.specs.Steps.{Advances, Brings, HasHeaders, HasTurned, IsDue, IsEven, IsPast, Stays, rest_of};
ghost use Rattle.bk_device.specs.Counts.{HasCause};
ghost use Rattle.bk_device.specs.Effects.{Effect};
ghost use Rattle.bk_restoring.specs.PagedNames.{IsOwn};
ghost use Rattle.bk_restoring.specs.Arriving.{IsBegun};

use crate::pages::push_fresh_extent;
use bk_device::{Device, Failed};
use bk_restoring::Arriving;

/// No database has more data files.
const MOST_FILES: u32 = 16;

// Whether the next page is the first one of a file.
fn is_due(arriving: &Arriving) -> bool
    ensures yes { result ≡ true → IsDue arriving.now.filling }
    ensures no { result ≡ false → IsDue arriving.now.filling → ⊥ }
{
    !arriving.is_whole() && arriving.place().1 == 0
}

// Adds the header pages of a file as fresh pages, where they come next.
fn push_header<D: Device>(dev: &mut D, arriving: &mut Arriving) -> Result<(), Failed>
    requires even { IsEven arriving.old.filling }
    requires stands { D.tells → IsBegun (D.disk dev.old) arriving.old }
    ensures advances { OnOk result (Advances arriving.old arriving.new) }
    ensures rest { OnOk result (rest_of arriving.new.filling ≡ rest_of arriving.old.filling) }
    ensures turned { OnOk result ((k : ℕ) → HasTurned k arriving.old.filling → HasTurned (k + 1) arriving.new.filling) }
    ensures stays { D.tells → OnOk result (Stays arriving.old arriving.new (D.disk dev.old) (D.disk dev.new)) }
    ensures brings { D.tells → (given : ℕ × ℕ → List ℕ) → HasHeaders given → OnOk result (Brings given arriving.old arriving.new (D.disk dev.old).files (D.disk dev.new).files) }
    ensures crash { D.tells → Effect (IsOwn arriving.old.log.db arriving.old.filling.files) (λ _. Unit {0}) (D.disk dev.old) (D.disk dev.new) }
    ensures cause { HasCause D.disk_faults D.tell_faults dev.old dev.new (IsErr result) }
{
    if !is_due(arriving) {
        return Ok(());
    }
    push_fresh_extent(dev, arriving)
}

/// Adds the header pages that come next as fresh pages, those of data files without a data extent too.
pub fn push_headers<D: Device>(dev: &mut D, arriving: &mut Arriving) -> Result<(), Failed>
    requires few { length arriving.old.filling.files ≤ 16 }
    requires even { IsEven arriving.old.filling }
    requires stands { D.tells → IsBegun (D.disk dev.old) arriving.old }
    ensures advances { OnOk result (Advances arriving.old arriving.new) }
    ensures past { OnOk result (IsPast arriving.new.filling) }
    ensures rest { OnOk result (rest_of arriving.new.filling ≡ rest_of arriving.old.filling) }
    ensures stays { D.tells → OnOk result (Stays arriving.old arriving.new (D.disk dev.old) (D.disk dev.new)) }
    ensures brings { D.tells → (given : ℕ × ℕ → List ℕ) → HasHeaders given → OnOk result (Brings given arriving.old arriving.new (D.disk dev.old).files (D.disk dev.new).files) }
    ensures crash { D.tells → Effect (IsOwn arriving.old.log.db arriving.old.filling.files) (λ _. Unit {0}) (D.disk dev.old) (D.disk dev.new) }
    ensures cause { HasCause D.disk_faults D.tell_faults dev.old dev.new (IsErr result) }
{
    'files: for _i in 0..MOST_FILES {
        push_header(dev, arriving)?;
    }
    Ok(())
}
