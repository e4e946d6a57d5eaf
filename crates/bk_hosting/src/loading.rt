// Opening the databases that an instance hosts.
ghost use Rattle.std.specs.Prelude.{◌≡◌, ◌<◌, ◌+◌, ℕ, [], List, None, Some, true, false, length, map, slice_get, IfOk, OnOk, IsErrOf, ◌≢◌, MatchResult};
ghost use Rattle.bk_device.specs.Calls.{ChangesNothing};
ghost use Rattle.bk_device.specs.Counts.{HasCause};
ghost use Rattle.bk_device.specs.Disk.{IsSettled};
ghost use Rattle.bk_device.specs.Effects.{Effect};
ghost use Rattle.bk_hosted.specs.Fronts.{settling};
ghost use Rattle.bk_hosted.specs.Hosted.{Hosted, folded, is_up};
ghost use Rattle.bk_machine.specs.statements.Restore as restore;
ghost use Rattle.bk_store.specs.Told.{Told};
ghost use Rattle.bk_master.specs.Master.{IsMade, IsNoInstance};
ghost use Rattle.bk_master.specs.declared.record.Entry.{Entry as Entries};
ghost use Rattle.bk_master.specs.declared.record.Own.{Own};
ghost use Rattle.bk_stores.specs.Quiet.{AreQuiet};
ghost use Rattle.bk_stores.specs.Standing.{AreStanding};
ghost use Rattle.bk_stores.specs.Stores.{AreStores, IsOurs, TouchesOurs};
ghost use Rattle.bk_hosting.specs.Hosting.{IsHosting, IsReady, IsSealedAt, Tells, own_of, state_of};
ghost use Rattle.bk_hosting.specs.Loading.{HoldsHosting, IsOpening, IsPartly, LeavesUndoing};

use crate::hosting::{Hosting, State};
use crate::states::{noted_points, read_state};
use bk_device::{Device, Trouble};
use bk_ids::Sequence;
use bk_stores::{LoadError, Stores};
use bk_world::Status;
use std::alloc::Global;
use std::thread::Threads;

// What the store of the database at this place tells of its points: it is open, and all its records are durable.
fn read_at<D: Device>(
    stores: &Stores,
    alloc: Global,
    dev: &mut D,
    at: usize,
) -> Result<State, Trouble>
    requires opened { IsSealedAt stores.now.slots at }
    requires standing { D.tells → AreStanding (D.disk dev.old) stores.now }
    ensures state { D.tells → (tolds : List Told) (told : Told) (h : Hosted) → AreStores (D.disk dev.old) stores.now tolds → slice_get tolds at ≡ Some told → Tells told h → IfOk result (λ s. s ≡ record { points = folded h.points h.records; job = None; transactions = []; known = None }) }
    ensures standing { D.tells → AreStanding (D.disk dev.new) stores.now }
    ensures stands { D.tells → (tolds : List Told) → AreStores (D.disk dev.old) stores.now tolds → AreStores (D.disk dev.new) stores.now tolds }
    ensures effect { D.tells → ChangesNothing (D.disk dev.old) (D.disk dev.new) }
    ensures broken { D.tells → IsErrOf result Trouble.Broken → (tolds : List Told) (told : Told) (h : Hosted) → AreStores (D.disk dev.old) stores.now tolds → slice_get tolds at ≡ Some told → Tells told h → ⊥ }
    ensures cause { HasCause D.disk_faults D.tell_faults dev.old dev.new (IsErrOf result Trouble.Fault) }
{
    match stores.store(at) {
        Some(store) => read_state(alloc, dev, store),
        None => Err(Trouble::NoMemory),
    }
}

// Whether a database can be used.
fn is_online(status: &Status) -> bool
    ensures { result ≡ restore.is_online status.now }
{
    matches!(status, Status::Online)
}

// What the note of the database at this place tells of its points and of what is known of it: it is being restored.
fn noted_at<D: Device>(
    stores: &Stores,
    alloc: Global,
    dev: &mut D,
    at: usize,
) -> Result<State, Trouble>
    requires unstored { (e : Entries) × (slice_get stores.now.master.record.databases at ≡ Some e) × (e.is_stored ≡ false) }
    requires inside { at < length stores.now.slots }
    requires standing { D.tells → AreStanding (D.disk dev.old) stores.now }
    ensures state { D.tells → (tolds : List Told) (told : Told) (h : Hosted) → AreStores (D.disk dev.old) stores.now tolds → slice_get tolds at ≡ Some told → Tells told h → is_up h ≡ false → h.job ≡ None → h.transactions ≡ [] → IfOk result (λ s. s ≡ state_of h) }
    ensures effect { D.tells → ChangesNothing (D.disk dev.old) (D.disk dev.new) }
    ensures broken { D.tells → IsErrOf result Trouble.Broken → (tolds : List Told) (told : Told) (h : Hosted) → AreStores (D.disk dev.old) stores.now tolds → slice_get tolds at ≡ Some told → Tells told h → is_up h ≡ false → ⊥ }
    ensures cause { HasCause D.disk_faults D.tell_faults dev.old dev.new (IsErrOf result Trouble.Fault) }
{
    let (known, note) = stores.noted(alloc, dev, at)?;
    let points = noted_points(alloc, &note, known.spec.storage.files.as_slice())?;
    if is_online(&points.status) {
        return Err(Trouble::Broken);
    }
    Ok(State {
        points,
        job: None,
        transactions: Sequence::new(Vec::new(alloc)),
        known: Some(known),
    })
}

impl Hosting {
    // Opens the store behind those that were read, whose database can be used, and reads what it tells of its points.
    fn open_stored<R: Threads + Sync, D: Device>(
        &mut self,
        rt: &R,
        alloc: Global,
        dev: &mut D,
    ) -> Result<(), Trouble>
        requires partly { IsPartly self.old }
        requires more { length self.old.states < length self.old.stores.slots }
        requires stored { (e : Entries) × (slice_get self.old.stores.master.record.databases (length self.old.states) ≡ Some e) × (e.is_stored ≡ true) }
        requires standing { D.tells → AreStanding (D.disk dev.old) self.old.stores }
        ensures partly { OnOk result (IsPartly self.new) }
        ensures own { OnOk result (own_of self.new ≡ own_of self.old) }
        ensures grows { OnOk result ((length self.new.states ≡ length self.old.states + 1) × (length self.new.stores.slots ≡ length self.old.stores.slots)) }
        ensures standing { D.tells → OnOk result (AreStanding (D.disk dev.new) self.new.stores) }
        ensures stands { D.tells → (hosted : List Hosted) → IsOpening (D.disk dev.old) self.old hosted → OnOk result (IsOpening (D.disk dev.new) self.new hosted) }
        ensures crash { D.tells → (number : ℕ) (hosted : List Hosted) → IsOpening (D.disk dev.old) self.old hosted → Effect IsOurs (LeavesUndoing number (own_of self.old) hosted) (D.disk dev.old) (D.disk dev.new) }
        ensures touches { D.tells → TouchesOurs (D.disk dev.old) (D.disk dev.new) }
        ensures still { D.tells → AreQuiet (D.disk dev.old).files → OnOk result (ChangesNothing (D.disk dev.old) (D.disk dev.new)) }
        ensures broken { D.tells → IsErrOf result Trouble.Broken → (hosted : List Hosted) → IsOpening (D.disk dev.old) self.old hosted → ⊥ }
        ensures cause { HasCause D.disk_faults D.tell_faults dev.old dev.new (IsErrOf result Trouble.Fault) }
    {
        let at = self.states.len();
        self.stores.open(rt, alloc, dev, at)?;
        let state = read_at(&self.stores, alloc, dev, at)?;
        if !is_online(&state.points.status) {
            return Err(Trouble::Broken);
        }
        self.states.push(state)?;
        Ok(())
    }

    // Reads what is known of the database behind those that were read, which is being restored.
    fn read_parked<D: Device>(&mut self, alloc: Global, dev: &mut D) -> Result<(), Trouble>
        requires partly { IsPartly self.old }
        requires more { length self.old.states < length self.old.stores.slots }
        requires unstored { (e : Entries) × (slice_get self.old.stores.master.record.databases (length self.old.states) ≡ Some e) × (e.is_stored ≡ false) }
        requires standing { D.tells → AreStanding (D.disk dev.old) self.old.stores }
        ensures partly { OnOk result (IsPartly self.new) }
        ensures own { OnOk result (own_of self.new ≡ own_of self.old) }
        ensures grows { OnOk result ((length self.new.states ≡ length self.old.states + 1) × (length self.new.stores.slots ≡ length self.old.stores.slots)) }
        ensures standing { D.tells → OnOk result (AreStanding (D.disk dev.new) self.new.stores) }
        ensures stands { D.tells → (hosted : List Hosted) → IsOpening (D.disk dev.old) self.old hosted → OnOk result (IsOpening (D.disk dev.new) self.new hosted) }
        ensures crash { D.tells → (number : ℕ) (hosted : List Hosted) → IsOpening (D.disk dev.old) self.old hosted → Effect IsOurs (LeavesUndoing number (own_of self.old) hosted) (D.disk dev.old) (D.disk dev.new) }
        ensures touches { D.tells → TouchesOurs (D.disk dev.old) (D.disk dev.new) }
        ensures still { D.tells → OnOk result (ChangesNothing (D.disk dev.old) (D.disk dev.new)) }
        ensures broken { D.tells → IsErrOf result Trouble.Broken → (hosted : List Hosted) → IsOpening (D.disk dev.old) self.old hosted → ⊥ }
        ensures cause { HasCause D.disk_faults D.tell_faults dev.old dev.new (IsErrOf result Trouble.Fault) }
    {
        let at = self.states.len();
        let state = noted_at(&self.stores, alloc, dev, at)?;
        self.states.push(state)?;
        Ok(())
    }

    // Opens the store behind those that were read, or reads what is known of its database.
    fn open_next<R: Threads + Sync, D: Device>(
        &mut self,
        rt: &R,
        alloc: Global,
        dev: &mut D,
    ) -> Result<(), Trouble>
        requires partly { IsPartly self.old }
        requires more { length self.old.states < length self.old.stores.slots }
        requires standing { D.tells → AreStanding (D.disk dev.old) self.old.stores }
        ensures partly { OnOk result (IsPartly self.new) }
        ensures own { OnOk result (own_of self.new ≡ own_of self.old) }
        ensures grows { OnOk result ((length self.new.states ≡ length self.old.states + 1) × (length self.new.stores.slots ≡ length self.old.stores.slots)) }
        ensures standing { D.tells → OnOk result (AreStanding (D.disk dev.new) self.new.stores) }
        ensures stands { D.tells → (hosted : List Hosted) → IsOpening (D.disk dev.old) self.old hosted → OnOk result (IsOpening (D.disk dev.new) self.new hosted) }
        ensures crash { D.tells → (number : ℕ) (hosted : List Hosted) → IsOpening (D.disk dev.old) self.old hosted → Effect IsOurs (LeavesUndoing number (own_of self.old) hosted) (D.disk dev.old) (D.disk dev.new) }
        ensures touches { D.tells → TouchesOurs (D.disk dev.old) (D.disk dev.new) }
        ensures still { D.tells → AreQuiet (D.disk dev.old).files → OnOk result (ChangesNothing (D.disk dev.old) (D.disk dev.new)) }
        ensures broken { D.tells → IsErrOf result Trouble.Broken → (hosted : List Hosted) → IsOpening (D.disk dev.old) self.old hosted → ⊥ }
        ensures cause { HasCause D.disk_faults D.tell_faults dev.old dev.new (IsErrOf result Trouble.Fault) }
    {
        if self.stores.is_stored(self.states.len()) {
            return self.open_stored(rt, alloc, dev);
        }
        self.read_parked(alloc, dev)
    }

    // Opens the stores that aren't open yet.
    fn open_all<R: Threads + Sync, D: Device>(
        &mut self,
        rt: &R,
        alloc: Global,
        dev: &mut D,
    ) -> Result<(), Trouble>
        requires partly { IsPartly self.old }
        requires standing { D.tells → AreStanding (D.disk dev.old) self.old.stores }
        ensures ready { OnOk result (IsReady self.new) }
        ensures own { OnOk result (own_of self.new ≡ own_of self.old) }
        ensures standing { D.tells → OnOk result (AreStanding (D.disk dev.new) self.new.stores) }
        ensures stands { D.tells → (hosted : List Hosted) → IsOpening (D.disk dev.old) self.old hosted → OnOk result (IsHosting (D.disk dev.new) self.new (map settling hosted)) }
        ensures crash { D.tells → (number : ℕ) (hosted : List Hosted) → IsOpening (D.disk dev.old) self.old hosted → Effect IsOurs (LeavesUndoing number (own_of self.old) hosted) (D.disk dev.old) (D.disk dev.new) }
        ensures touches { D.tells → TouchesOurs (D.disk dev.old) (D.disk dev.new) }
        ensures still { D.tells → AreQuiet (D.disk dev.old).files → OnOk result (ChangesNothing (D.disk dev.old) (D.disk dev.new)) }
        ensures broken { D.tells → IsErrOf result Trouble.Broken → (hosted : List Hosted) → IsOpening (D.disk dev.old) self.old hosted → ⊥ }
        ensures cause { HasCause D.disk_faults D.tell_faults dev.old dev.new (IsErrOf result Trouble.Fault) }
    {
        'stores: while self.states.len() < self.stores.count() {
            self.open_next(rt, alloc, dev)?;
        }
        Ok(())
    }

    /// Opens the databases that an instance hosts, or makes an instance with this number where none is made: what was pending is undone, and what was being made or removed is removed. A crash leaves the databases,
    /// of each perhaps some of what undoes. Where nothing is to be done the files stay as they are.
    ///
    /// `NotAnInstance` is answered only where the control file of an instance holds no control, and `Broken` only where the files hold no hosted databases.
    pub fn load<R: Threads + Sync, D: Device>(
        rt: &R,
        alloc: Global,
        dev: &mut D,
        number: u64,
    ) -> Result<Hosting, LoadError>
        ensures ready { IfOk result IsReady }
        ensures standing { D.tells → IfOk result (λ x. AreStanding (D.disk dev.new) x.stores) }
        ensures made { D.tells → OnOk result (IsMade (D.disk dev.new).files) }
        ensures stands { D.tells → IsSettled (D.disk dev.old) → (own : Own) (hosted : List Hosted) → HoldsHosting number own (D.disk dev.old).files hosted → IfOk result (λ x. IsHosting (D.disk dev.new) x (map settling hosted)) }
        ensures own { D.tells → IsSettled (D.disk dev.old) → (own : Own) (hosted : List Hosted) → HoldsHosting number own (D.disk dev.old).files hosted → IfOk result (λ x. own_of x ≡ own) }
        ensures crash { D.tells → IsSettled (D.disk dev.old) → (own : Own) (hosted : List Hosted) → HoldsHosting number own (D.disk dev.old).files hosted → Effect IsOurs (LeavesUndoing number own hosted) (D.disk dev.old) (D.disk dev.new) }
        ensures touches { D.tells → TouchesOurs (D.disk dev.old) (D.disk dev.new) }
        ensures untouched { D.tells → IsErrOf result LoadError.NotAnInstance → ChangesNothing (D.disk dev.old) (D.disk dev.new) }
        ensures still { D.tells → IsSettled (D.disk dev.old) → AreQuiet (D.disk dev.old).files → OnOk result (ChangesNothing (D.disk dev.old) (D.disk dev.new)) }
        ensures not_an_instance { D.tells → IsErrOf result LoadError.NotAnInstance → IsNoInstance (D.disk dev.old).files }
        ensures no_instance { D.tells → IsNoInstance (D.disk dev.old).files → MatchResult result (λ _. ⊥) (λ e. e ≢ LoadError.Broken) }
        ensures broken { D.tells → IsErrOf result LoadError.Broken → IsSettled (D.disk dev.old) → (own : Own) (hosted : List Hosted) → HoldsHosting number own (D.disk dev.old).files hosted → ⊥ }
        ensures cause { HasCause D.disk_faults D.tell_faults dev.old dev.new (IsErrOf result LoadError.Fault) }
    {
        let stores = Stores::load(alloc, dev, number)?;
        let mut hosting = Hosting {
            stores,
            states: Vec::new(alloc),
        };
        hosting.open_all(rt, alloc, dev)?;
        Ok(hosting)
    }
}
