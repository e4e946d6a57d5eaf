//! The cells that records set.

ghost use Rattle.std.specs.Prelude.{[], ◌∷◌, IfSome};
ghost use Rattle.std.specs.Option.{option_to_list};
ghost use Rattle.bk_record.specs.Spelling.{IsRecord};
ghost use Rattle.bk_record.specs.View.{record_of};
ghost use Rattle.bk_redo.specs.Redo.{records_between};
ghost use Rattle.bk_redo.specs.CellWrites.{IsListOf};
ghost use Rattle.bk_redo.specs.Listing.{IsWanted, IsListed};

use crate::cell::cell_of;
use crate::index::frame_of;
use crate::place::PageAt;
use bk_ids::Lsn;
use bk_record::{RecRef, cursor};
use std::alloc::Global;
use std::collections::BTreeMap;

// A cell that a record sets: the frame of its page, its slot, what it is to hold, and the record's number.
#[derive(Clone, Copy)]
pub(crate) struct CellWrite<'a> {
    pub frame: usize,
    pub slot: u16,
    pub image: &'a [u8; 128],
    pub lsn: Lsn,
}

// Which cells are listed: those of the pages of these places, by the records of a range. The places' frames are told.
#[derive(Clone, Copy)]
pub(crate) struct Wanted<'a> {
    pub places: &'a [PageAt],
    pub index: &'a BTreeMap<PageAt, usize>,
    pub from: Lsn,
    pub to: Lsn,
}

// The cell that a record sets, if it is wanted.
fn write_of<'a>(wanted: Wanted<'_>, logged: RecRef<'a>) -> Option<CellWrite<'a>>
    requires wanted { IsWanted wanted }
    requires is_record { IsRecord (record_of logged) }
    ensures { IsListOf wanted.entry.places.now (records_between wanted.entry.from wanted.entry.to (record_of logged.entry ∷ [])) (option_to_list result) }
{
    let (place, image) = cell_of(logged, wanted.from, wanted.to)?;
    let frame = frame_of(wanted.index, wanted.places, place)?;
    Some(CellWrite {
        frame,
        slot: place.slot,
        image,
        lsn: logged.lsn,
    })
}

// The wanted cells that the records of these bytes set, one after the other; none where the bytes aren't whole records, or
// memory ran out.
pub(crate) fn list_part<'a>(
    alloc: Global,
    wanted: Wanted<'_>,
    log: &'a [u8],
) -> Option<Vec<CellWrite<'a>>>
    requires { IsWanted wanted }
    ensures { IfSome result (λ writes. IsListed wanted.entry log.now writes.items) }
{
    let mut writes = Vec::new(alloc);
    for record in cursor(log) {
        let Ok(logged) = record else {
            return None;
        };
        let Some(write) = write_of(wanted, logged) else {
            continue;
        };
        let Ok(()) = writes.push(write) else {
            return None;
        };
    }
    Some(writes)
}
