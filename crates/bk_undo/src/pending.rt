// Writes that are pending, and what a record makes of them.
ghost use Rattle.std.specs.Prelude.{◌≡◌, ◌<◌, ◌==◌, ◌&&◌, not, OnOk};
ghost use Rattle.std.specs.List.{filter};
ghost use Rattle.bk_record.specs.Spelling.{IsRecord};
ghost use Rattle.bk_record.specs.View.{place_of, record_of};
ghost use Rattle.bk_undo.specs.Losers.{compensation_of, noted};

use bk_ids::{Body, CellImage, Lsn, Place, Rec};
use bk_record::{BodyRef, PlaceRef, RecRef};
use std::alloc::AllocError;

/// A write of a transaction: its number, the number of the transaction's first record, its place, and what the cell
/// held before.
#[derive(Clone, Copy, Debug, PartialEq, Eq)]
pub struct Pending {
    pub lsn: Lsn,
    pub begin: Lsn,
    pub place: Place,
    pub before: CellImage,
}

impl Pending {
    // The record that undoes the write. It has no number yet.
    pub fn compensation(self) -> Rec
        ensures { result ≡ compensation_of self }
    {
        Rec {
            lsn: 0,
            begin: self.begin,
            body: Body::Compensation {
                place: self.place,
                cell: self.before,
                undone: self.lsn,
            },
        }
    }
}

fn drop_transaction(writes: &mut Vec<Pending>, begin: Lsn)
    ensures { writes.new.items ≡ filter (λ write. not (write.begin == begin)) writes.old.items }
{
    writes.retain(|write| write.begin != begin);
}

fn drop_write(writes: &mut Vec<Pending>, begin: Lsn, lsn: Lsn)
    ensures { writes.new.items ≡ filter (λ write. not (write.begin == begin && write.lsn == lsn)) writes.old.items }
{
    writes.retain(|write| write.begin != begin || write.lsn != lsn);
}

// The place of a cell in a record that was read.
fn place_in(place: PlaceRef) -> Place
    requires { place.slot < 63 }
    ensures { result ≡ place_of place }
{
    match place.place() {
        Some(place) => place,
        None => unreachable!(),
    }
}

// Makes of the writes that are pending before a record those that are pending after it, if it lies below this LSN.
pub fn note(writes: &mut Vec<Pending>, logged: RecRef<'_>, below: Lsn) -> Result<(), AllocError>
    requires { IsRecord (record_of logged) }
    ensures { OnOk result (writes.new.items ≡ noted below (record_of logged.entry) writes.old.items) }
{
    if logged.lsn >= below {
        return Ok(());
    }
    match logged.body {
        BodyRef::Write { place, before, .. } => writes.push(Pending {
            lsn: logged.lsn,
            begin: logged.begin,
            place: place_in(place),
            before: CellImage { bytes: *before },
        })?,
        BodyRef::Commit { .. } | BodyRef::RollbackEnd => drop_transaction(writes, logged.begin),
        BodyRef::Compensation { undone, .. } => drop_write(writes, logged.begin, undone),
        _ => {}
    }
    Ok(())
}
