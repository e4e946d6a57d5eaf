// Opening a database over its files.
ghost use Rattle.std.specs.Prelude.{◌≡◌, ◌≤◌, [], false, IfOk, OnOk, IsErrOf};
ghost use Rattle.bk_device.specs.Calls.{ChangesNothing};
ghost use Rattle.bk_device.specs.Counts.{HasCause};
ghost use Rattle.bk_groups.specs.Groups.{AreFiles};
ghost use Rattle.bk_known.specs.declared.known.Known.{Known as Knowns};
ghost use Rattle.bk_opening.specs.Opening.{TouchesDatabase};
ghost use Rattle.bk_opening.specs.Quiet.{IsFinished, IsQuiet};
ghost use Rattle.bk_paged.specs.Paged.{Standing, Touches};
ghost use Rattle.bk_reopening.specs.Reopening.{IsClosed, IsSettled, Recovers, Tells, settled};
ghost use Rattle.bk_shown.specs.Shown.{Shows};
ghost use Rattle.bk_store.specs.Store.{IsStore};
ghost use Rattle.bk_store.specs.Told.{Told, files_of};
ghost use Rattle.bk_world.specs.Pending.{pending};

use crate::error::OpenError;
use crate::noting::{Noted, noted_in, recent_of};
use crate::restoring::shown_of;
use bk_cells::{cells_law, rows_law};
use bk_device::Device;
use bk_known::Known;
use bk_log::LogBytes;
use bk_opening::load as load_paged;
use bk_paged::Paged;
use bk_paths::settling_law;
use bk_shown::{Shown, placed_logs};
use bk_store::Store;
use std::alloc::Global;
use std::thread::Threads;

// What the log of a database shows in which nothing is pending and all records are durable. The records are let go before the rows are read, so that both are never in memory together.
fn shown_in(
    alloc: Global,
    paged: &Paged,
    records: LogBytes,
    known: &Known,
) -> Result<Shown, OpenError>
    requires files { AreFiles known.now.spec.storage.files }
    ensures early { IfOk result (λ shown. known.now.as_of.from ≤ paged.now.log.stored) }
    ensures shows { (told : Told) → IsSettled paged.now records known.now told → IfOk result (Shows (files_of told) told.records) }
    ensures foreign { IsErrOf result OpenError.Foreign → (told : Told) → IsSettled paged.now records known.now told → ⊥ }
    ensures fault { IsErrOf result OpenError.Fault → ⊥ }
{
    rows_law();
    placed_logs();
    let recent = recent_of(alloc, paged, records.as_slice(), known)?;
    drop(records);
    shown_of(alloc, paged, known.spec.storage.files.as_slice(), &recent)
}

// What the note of a database and its log show.
fn read_parts(alloc: Global, paged: &Paged, records: LogBytes) -> Result<(Noted, Shown), OpenError>
    ensures tells { IfOk result (λ parts. Tells paged.now.note parts.0) }
    ensures early { IfOk result (λ parts. parts.0.known.as_of.from ≤ paged.now.log.stored) }
    ensures shows { (known : Knowns) (told : Told) → IsSettled paged.now records known told → IfOk result (λ parts. Shows (files_of told) told.records parts.1) }
    ensures foreign { IsErrOf result OpenError.Foreign → (known : Knowns) (told : Told) → IsSettled paged.now records known told → ⊥ }
    ensures fault { IsErrOf result OpenError.Fault → ⊥ }
{
    let noted = noted_in(alloc, paged.note())?;
    let shown = shown_in(alloc, paged, records, &noted.known)?;
    Ok((noted, shown))
}

/// Opens a database over its files: what counts of its log is made durable, log and pages are brought to the end, what is pending is undone by durable records, and rows are read. Where nothing is to be
/// finished or undone the files stay as they are. A crash leaves the records that there were, and perhaps some of those that undo.
///
/// `Foreign` is answered only where the files hold no database. After an error no record is lost.
pub fn load<R: Threads + Sync, D: Device>(
    rt: &R,
    alloc: Global,
    dev: &mut D,
    db: u32,
) -> Result<Store, OpenError>
    ensures fit { IfOk result (λ s. s.paged.failed ≡ false) }
    ensures standing { D.tells → IfOk result (λ s. Standing (D.disk dev.new) s.paged) }
    ensures touches { D.tells → IfOk result (λ s. Touches s.paged (D.disk dev.old) (D.disk dev.new)) }
    ensures mine { D.tells → TouchesDatabase db (D.disk dev.old) (D.disk dev.new) }
    ensures ends { IfOk result (λ s. (s.paged.log.db ≡ db) × (s.paged.log.stored ≡ s.paged.log.«end»)) }
    ensures still { D.tells → IsQuiet db (D.disk dev.old).files → OnOk result (ChangesNothing (D.disk dev.old) (D.disk dev.new)) }
    ensures rests { D.tells → (told : Told) → IsClosed db told (D.disk dev.old) → pending told.records ≡ [] → IsFinished db (D.disk dev.old).files → OnOk result (ChangesNothing (D.disk dev.old) (D.disk dev.new)) }
    ensures stands { D.tells → (told : Told) → IsClosed db told (D.disk dev.old) → IfOk result (λ s. IsStore (D.disk dev.new) s (settled told)) }
    ensures foreign { D.tells → IsErrOf result OpenError.Foreign → (told : Told) → IsClosed db told (D.disk dev.old) → ⊥ }
    ensures crash { D.tells → (told : Told) → IsClosed db told (D.disk dev.old) → Recovers db told (D.disk dev.old) (D.disk dev.new) }
    ensures cause { HasCause D.disk_faults D.tell_faults dev.old dev.new (IsErrOf result OpenError.Fault) }
{
    settling_law();
    cells_law();
    placed_logs();
    let opened = load_paged(rt, alloc, dev, db)?;
    let records = opened.records;
    let (noted, shown) = read_parts(alloc, &opened.paged, records)?;
    Ok(Store::from_parts(opened.paged, shown, noted.known, noted.note))
}
