//! Cells that redo sets.

ghost use Rattle.std.specs.Prelude.{◌≡◌, ◌<◌, option_map, IfSome};
ghost use Rattle.bk_record.specs.Spelling.{IsRecord};
ghost use Rattle.bk_record.specs.View.{body_of, place_of, record_of};
ghost use Rattle.bk_redo.specs.PageStates.{page_of};
ghost use Rattle.bk_redo.specs.Effects.{effect_of};
ghost use Rattle.bk_redo.specs.Frames.{Becomes, cell_redone, cell_set, cell_between};

use bk_ids::Lsn;
use bk_page::{Page, page_lsn, set_page_lsn, write_cell};
use bk_record::{BodyRef, PlaceRef, RecRef};

// Sets a cell of a page by a record of this number, unless a record of that or a later number changed the page.
pub(crate) fn redo_cell(page: &mut Page, slot: u16, image: &[u8; 128], lsn: Lsn)
    requires { slot < 63 }
    ensures { Becomes page.old (cell_redone slot image.now lsn (page_of page.old)) page.new }
{
    if page_lsn(page) >= lsn {
        return;
    }
    write_cell(page, slot, image);
    set_page_lsn(page, lsn);
}

// The cell that a record sets, and its image, if the record's number is in this range.
pub(crate) fn cell_of(logged: RecRef<'_>, from: Lsn, to: Lsn) -> Option<(PlaceRef, &[u8; 128])>
    requires { IsRecord (record_of logged) }
    ensures set { option_map (λ x. (place_of x.0, x.1.now)) result ≡ cell_between from to (record_of logged.entry) }
    ensures slot { IfSome result (λ x. x.0.slot < 63) }
{
    if logged.lsn < from || logged.lsn >= to {
        return None;
    }
    match logged.body {
        BodyRef::Write { place, after, .. } => Some((place, after)),
        BodyRef::Compensation { place, cell, .. } => Some((place, cell)),
        _ => None,
    }
}
