// What is noted of a hosted database: its points.
ghost use Rattle.std.specs.Prelude.{◌≡◌, ◌≤◌, ◌<◌, ◌⊎◌, List, None, Some, true, false, length, set, slice_get, IfOk, IfErr, OnOk, IsErrOf};
ghost use Rattle.bk_device.specs.Counts.{HasCause};
ghost use Rattle.bk_device.specs.Effects.{Effect};
ghost use Rattle.bk_device.specs.Troubles.{IsPassing};
ghost use Rattle.bk_hosted.specs.Hosted.{Hosted, based_points, basing, folding};
ghost use Rattle.bk_points.specs.Points.{IsPoints, KeepsPoints, points_bytes};
ghost use Rattle.bk_store.specs.Store.{sealed_in, Kept as KeptStore};
ghost use Rattle.bk_store.specs.Told.{Told};
ghost use Rattle.bk_stores.specs.Standing.{AreStanding};
ghost use Rattle.bk_stores.specs.Stores.{AreStores, IsOurs, IsReady as AreReady, LeavesStores, TouchesOurs, sealed_at};
ghost use Rattle.bk_hosting.specs.Hosting.{IsHosting, IsOpenAt, IsReady, LeavesEither, own_of};
ghost use Rattle.bk_hosting.specs.Saying.{NotesOn, NotesPoints, pointing};

use crate::hosting::Hosting;
use bk_device::{Device, Trouble};
use bk_ids::RecoveryModel;
use bk_points::{Points, spell_points};
use bk_stores::Stores;
use bk_world::{Base, Header, Status};
use std::alloc::Global;

// Whether these points have a spelling.
fn have_spelling(points: &Points) -> bool
    ensures { result ≡ true → KeepsPoints points.now }
{
    let stands = match &points.status {
        Status::Standby(path) => 1 <= path.as_str().len() && path.as_str().len() <= 100,
        _ => true,
    };
    stands && points.units.as_slice().len() <= 256
}

/// A note that says these points.
pub(crate) fn note_of(alloc: Global, points: &Points) -> Result<Vec<u8>, Trouble>
    ensures note { IfOk result (λ note. note.items ≡ points_bytes points.now) }
    ensures spelled { OnOk result (IsPoints points.now) }
    ensures short { IfOk result (λ note. length note.items ≤ 12288) }
    ensures memory { IfErr result (λ e. e ≡ Trouble.NoMemory) }
{
    if !have_spelling(points) {
        return Err(Trouble::NoMemory);
    }
    Ok(spell_points(alloc, points)?)
}

/// Makes these bytes, at most 12,288, the note of the database at this place, whose store is open. A crash leaves the databases that there were, or of that one what was durable, with this note.
fn note_on<D: Device>(
    stores: &mut Stores,
    alloc: Global,
    dev: &mut D,
    at: usize,
    note: &[u8],
) -> Result<(), Trouble>
    requires ready { AreReady stores.old }
    requires opened { IsOpenAt stores.old.slots at }
    requires short { length note.now ≤ 12288 }
    requires standing { D.tells → AreStanding (D.disk dev.old) stores.old }
    ensures ready { OnOk result (AreReady stores.new) }
    ensures slots { OnOk result ((s : KeptStore) × (stores.new ≡ record stores.old { slots = set stores.old.slots at (Some s) }) × (s.paged.failed ≡ false)) }
    ensures seals { (s then : KeptStore) → slice_get stores.old.slots at ≡ Some (Some s) → slice_get stores.new.slots at ≡ Some (Some then) → OnOk result (sealed_in then ≡ sealed_in s) }
    ensures standing { D.tells → OnOk result (AreStanding (D.disk dev.new) stores.new) }
    ensures stands { D.tells → (tolds : List Told) (told : Told) → AreStores (D.disk dev.old) stores.old tolds → slice_get tolds at ≡ Some told → OnOk result (AreStores (D.disk dev.new) stores.new (set tolds at (record told { note = note.now }))) }
    ensures crash { D.tells → (tolds : List Told) (told : Told) → AreStores (D.disk dev.old) stores.old tolds → slice_get tolds at ≡ Some told → NotesOn stores.old tolds at (record told { note = note.now }) (D.disk dev.old) (D.disk dev.new) }
    ensures touches { D.tells → TouchesOurs (D.disk dev.old) (D.disk dev.new) }
    ensures trouble { IfErr result IsPassing }
    ensures cause { HasCause D.disk_faults D.tell_faults dev.old dev.new (IsErrOf result Trouble.Fault) }
{
    let Some(mut store) = stores.take(at) else {
        return Err(Trouble::NoMemory);
    };
    let noted = store.set_note(alloc, dev, note);
    stores.give(at, store);
    noted?;
    Ok(())
}

/// Notes these points for the database at this place, whose store is open. A crash leaves the databases that there were, or this one with these points.
pub(crate) fn points_on<D: Device>(
    stores: &mut Stores,
    alloc: Global,
    dev: &mut D,
    at: usize,
    points: &Points,
) -> Result<(), Trouble>
    requires ready { AreReady stores.old }
    requires opened { IsOpenAt stores.old.slots at }
    requires standing { D.tells → AreStanding (D.disk dev.old) stores.old }
    ensures ready { OnOk result (AreReady stores.new) }
    ensures spelled { OnOk result (IsPoints points.now) }
    ensures slots { OnOk result ((s : KeptStore) × (stores.new ≡ record stores.old { slots = set stores.old.slots at (Some s) }) × (s.paged.failed ≡ false)) }
    ensures seals { (s then : KeptStore) → slice_get stores.old.slots at ≡ Some (Some s) → slice_get stores.new.slots at ≡ Some (Some then) → OnOk result (sealed_in then ≡ sealed_in s) }
    ensures standing { D.tells → OnOk result (AreStanding (D.disk dev.new) stores.new) }
    ensures stands { D.tells → (tolds : List Told) (told : Told) → AreStores (D.disk dev.old) stores.old tolds → slice_get tolds at ≡ Some told
        → OnOk result (AreStores (D.disk dev.new) stores.new (set tolds at (pointing told points.now))) }
    ensures crash { D.tells → (tolds : List Told) (told : Told) → AreStores (D.disk dev.old) stores.old tolds → slice_get tolds at ≡ Some told
        → NotesPoints stores.old tolds at told points.now (D.disk dev.old) (D.disk dev.new) }
    ensures touches { D.tells → TouchesOurs (D.disk dev.old) (D.disk dev.new) }
    ensures trouble { IfErr result IsPassing }
    ensures cause { HasCause D.disk_faults D.tell_faults dev.old dev.new (IsErrOf result Trouble.Fault) }
{
    let note = note_of(alloc, points)?;
    note_on(stores, alloc, dev, at, &note)
}

// Bases points on a set.
fn base_points(points: &mut Points, header: &Header)
    ensures { points.new ≡ based_points header.now points.old }
{
    let logs = !matches!(header.model, RecoveryModel::Simple);
    points.base = Some(Base {
        set: header.set,
        lsn: header.checkpoint,
    });
    if !points.chain && logs {
        points.archive = header.first;
    }
    points.began = points.began && (points.chain || !logs);
    points.chain = points.chain || logs;
}

impl Hosting {
    /// The database at this place, from 0, is based on this set: a differential would be. Where no log backup could come before, its log chain begins with the set. A crash leaves the databases as before, but for
    /// what waited, or with this one based on the set.
    ///
    /// Only `Fault` and `NoMemory` are answered, `NoMemory` too where there is no room for its points in a note.
    pub fn base<D: Device>(
        &mut self,
        alloc: Global,
        dev: &mut D,
        at: usize,
        header: &Header,
    ) -> Result<(), Trouble>
        requires ready { IsReady self.old }
        requires inside { at < length self.old.states }
        requires standing { D.tells → AreStanding (D.disk dev.old) self.old.stores }
        ensures ready { OnOk result (IsReady self.new) }
        ensures own { OnOk result (own_of self.new ≡ own_of self.old) }
        ensures standing { D.tells → OnOk result (AreStanding (D.disk dev.new) self.new.stores) }
        ensures stands { D.tells → (hosted : List Hosted) (h : Hosted) → IsHosting (D.disk dev.old) self.old hosted → slice_get hosted at ≡ Some h → OnOk result (IsHosting (D.disk dev.new) self.new (set hosted at (basing header.now (folding h)))) }
        ensures crash { D.tells → (hosted : List Hosted) (h : Hosted) → IsHosting (D.disk dev.old) self.old hosted → slice_get hosted at ≡ Some h
            → Effect IsOurs (LeavesEither (own_of self.old) hosted (set hosted at (basing header.now (folding h)))) (D.disk dev.old) (D.disk dev.new) }
        ensures touches { D.tells → TouchesOurs (D.disk dev.old) (D.disk dev.new) }
        ensures trouble { IfErr result IsPassing }
        ensures cause { HasCause D.disk_faults D.tell_faults dev.old dev.new (IsErrOf result Trouble.Fault) }
    {
        if !self.is_open(at) {
            return Err(Trouble::NoMemory);
        }
        base_points(&mut self.states[at].points, header);
        points_on(&mut self.stores, alloc, dev, at, &self.states[at].points)
    }
}
