//! Which frame holds a page.

ghost use Rattle.std.specs.Prelude.{◌≡◌, ◌≢◌, ℕ, ◌<◌, length, IfOk, slice_index_or};
ghost use Rattle.std.specs.List.{AllPairs};
ghost use Rattle.bk_record.specs.View.{place_of};
ghost use Rattle.bk_redo.specs.declared.place.PageAt.{PageAt};
ghost use Rattle.bk_redo.specs.Effects.{is_on};
ghost use Rattle.bk_redo.specs.Frames.{IsIndex, is_frame};

use crate::place::PageAt;
use bk_record::PlaceRef;
use std::alloc::{AllocError, Global};
use std::collections::BTreeMap;

// The frame of each of these pages: its index in their list.
pub(crate) fn index_of(
    alloc: Global,
    places: &[PageAt],
) -> Result<BTreeMap<PageAt, usize>, AllocError>
    ensures { IfOk result (λ index. IsIndex places.now (length places.now) index.entries) }
{
    let mut index = BTreeMap::new(alloc);
    for (i, at) in places.iter().enumerate() {
        index.insert(*at, i)?;
    }
    Ok(index)
}

// The frame that holds the page of a cell.
pub(crate) fn frame_of(
    index: &BTreeMap<PageAt, usize>,
    places: &[PageAt],
    place: PlaceRef,
) -> Option<usize>
    requires indexed { IsIndex places.now (length places.now) index.now.entries }
    requires different { AllPairs (λ a b. a ≢ b) places.now }
    ensures { (k : ℕ) (nowhere : PageAt) → k < length places.now → is_on (place_of place) (slice_index_or places.now k nowhere) ≡ is_frame result k }
{
    let at = PageAt {
        file: place.file,
        page: place.page,
    };
    index.get(&at).copied()
}
