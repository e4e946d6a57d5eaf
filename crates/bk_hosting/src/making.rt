// Databases that are made and dropped.
ghost use Rattle.std.specs.Prelude.{◌≡◌, ◌≤◌, ◌<◌, ◌∷◌, ◌++◌, false, true, [], List, None, Some, length, map, remove, set, slice_get, IfOk, IfErr, OnOk, IsErrOf};
ghost use Rattle.bk_device.specs.Counts.{HasCause};
ghost use Rattle.bk_device.specs.Effects.{Effect};
ghost use Rattle.bk_device.specs.Troubles.{IsPassing};
ghost use Rattle.bk_hosted.specs.Hosted.{Hosted, first_points};
ghost use Rattle.bk_store.specs.Making.{MayDescribe};
ghost use Rattle.bk_master.specs.Spelling.{IsShortPath};
ghost use Rattle.bk_stores.specs.Records.{AreSmall};
ghost use Rattle.bk_stores.specs.Standing.{AreStanding, AreUnused};
ghost use Rattle.bk_stores.specs.Stores.{IsOurs, TouchesOurs, at_paths};
ghost use Rattle.bk_hosting.specs.Hosting.{IsHosting, IsReady, LeavesEither, own_of};
ghost use Rattle.bk_hosting.specs.Making.{ArePathsAt, HaveNoFile, newly};

use crate::hosting::{Hosting, State};
use bk_device::{Device, Trouble};
use bk_ids::{Guid, Sequence, Text, UnitId};
use bk_known::DatabaseSpec;
use bk_points::Points;
use bk_stores::{data_paths, paths_of};
use bk_world::{FileSpec, State as UnitState, Status, Unit};
use std::alloc::{AllocError, Global};

// The points of a database that was just made with these files.
pub(crate) fn made_points(alloc: Global, files: &[FileSpec]) -> Result<Points, AllocError>
    ensures { IfOk result (λ points. points ≡ first_points files.now) }
{
    let mut units = Vec::new(alloc);
    for file in files {
        units.push(Unit {
            id: UnitId::File(file.number),
            state: UnitState::Online,
        })?;
    }
    Ok(Points {
        next_checkpoint: 0,
        next_kept: 0,
        archive: 1,
        kept: 1,
        checkpoint: 1,
        chain: false,
        began: false,
        base: None,
        status: Status::Online,
        units: Sequence::new(units),
    })
}

// What is kept of a database that was just made with these files.
fn first_state(alloc: Global, files: &[FileSpec]) -> Result<State, AllocError>
    ensures { IfOk result (λ s. s ≡ record { points = first_points files.now; job = None; transactions = []; known = None }) }
{
    let points = made_points(alloc, files)?;
    Ok(State {
        points,
        job: None,
        transactions: Sequence::new(Vec::new(alloc)),
        known: None,
    })
}

// Whether a path has 1 to 100 bytes.
fn is_short(path: &Text) -> bool
    ensures { result ≡ true → IsShortPath path.now }
{
    let bytes = path.as_str().len();
    1 <= bytes && bytes <= 100
}

// Whether there are at most 16 paths, each of 1 to 100 bytes.
fn are_small(paths: &[Text]) -> bool
    ensures { result ≡ true → AreSmall paths.now }
{
    paths.len() <= 16 && paths.iter().all(is_short)
}

impl Hosting {
    // What is kept of one more database with these files, where there is room for it, and no open store has one of them.
    fn room_for(&self, alloc: Global, files: &[FileSpec]) -> Result<State, Trouble>
        ensures state { IfOk result (λ s. s ≡ record { points = first_points files.now; job = None; transactions = []; known = None }) }
        ensures few { OnOk result (length self.now.stores.slots < 16) }
        ensures unused { OnOk result (AreUnused self.now.stores.slots (at_paths (map (λ f. f.path) files.now))) }
        ensures memory { IfErr result (λ e. e ≡ Trouble.NoMemory) }
    {
        let paths = paths_of(alloc, files)?;
        if self.stores.count() >= 16 || !self.stores.are_unused(&paths) {
            return Err(Trouble::NoMemory);
        }
        Ok(first_state(alloc, files)?)
    }

    /// The paths of the data files of the database at this place: none while it is being restored.
    pub(crate) fn paths_at(&self, alloc: Global, at: usize) -> Result<Vec<Text>, Trouble>
        requires inside { at < length self.now.stores.slots }
        ensures small { IfOk result (λ paths. AreSmall paths.items) }
        ensures paths { IfOk result (λ paths. ArePathsAt self.now.stores.slots at paths.items) }
        ensures memory { IfErr result (λ e. e ≡ Trouble.NoMemory) }
    {
        let Some(store) = self.stores.store(at) else {
            return Ok(Vec::new(alloc));
        };
        let paths = data_paths(alloc, store.files())?;
        if !are_small(&paths) {
            return Err(Trouble::NoMemory);
        }
        Ok(paths)
    }

    /// Makes a database of this description behind the others, with a durable record that it was made at this time, in milliseconds since 1970-01-01 00:00:00 UTC, on this branch, and so many frames for pages, at
    /// least one. A crash leaves the databases as before, but for what waits, or these and the new one.
    ///
    /// Only `Fault` and `NoMemory` are answered, `NoMemory` too where there are 16 databases, or one of its paths is another data file's.
    pub fn create<D: Device>(
        &mut self,
        alloc: Global,
        dev: &mut D,
        spec: DatabaseSpec,
        time: u64,
        branch: Guid,
        frames: usize,
    ) -> Result<(), Trouble>
        requires ready { IsReady self.old }
        requires some { 1 ≤ frames }
        requires may { MayDescribe spec }
        requires standing { D.tells → AreStanding (D.disk dev.old) self.old.stores }
        ensures ready { OnOk result (IsReady self.new) }
        ensures own { OnOk result (own_of self.new ≡ own_of self.old) }
        ensures standing { D.tells → OnOk result (AreStanding (D.disk dev.new) self.new.stores) }
        ensures stands { D.tells → (hosted : List Hosted) → IsHosting (D.disk dev.old) self.old hosted → HaveNoFile hosted spec → OnOk result (IsHosting (D.disk dev.new) self.new (hosted ++ newly spec time branch ∷ [])) }
        ensures crash { D.tells → (hosted : List Hosted) → IsHosting (D.disk dev.old) self.old hosted → HaveNoFile hosted spec → Effect IsOurs (LeavesEither (own_of self.old) hosted (hosted ++ newly spec time branch ∷ [])) (D.disk dev.old) (D.disk dev.new) }
        ensures touches { D.tells → TouchesOurs (D.disk dev.old) (D.disk dev.new) }
        ensures trouble { IfErr result IsPassing }
        ensures cause { HasCause D.disk_faults D.tell_faults dev.old dev.new (IsErrOf result Trouble.Fault) }
    {
        let state = self.room_for(alloc, spec.storage.files.as_slice())?;
        self.states.push(state)?;
        self.stores.create(alloc, dev, spec, time, branch, frames)
    }

    /// Drops the database at this place, which counts from 0, with its files; the others move up. A crash leaves all databases, but for what waits, or those without it. Only `Fault` and `NoMemory` are
    /// answered.
    pub fn drop<D: Device>(&mut self, alloc: Global, dev: &mut D, at: usize) -> Result<(), Trouble>
        requires ready { IsReady self.old }
        requires inside { at < length self.old.states }
        requires standing { D.tells → AreStanding (D.disk dev.old) self.old.stores }
        ensures ready { OnOk result (IsReady self.new) }
        ensures own { OnOk result (own_of self.new ≡ own_of self.old) }
        ensures standing { D.tells → OnOk result (AreStanding (D.disk dev.new) self.new.stores) }
        ensures stands { D.tells → (hosted : List Hosted) → IsHosting (D.disk dev.old) self.old hosted → at < length hosted → OnOk result (IsHosting (D.disk dev.new) self.new (remove hosted at)) }
        ensures crash { D.tells → (hosted : List Hosted) → IsHosting (D.disk dev.old) self.old hosted → at < length hosted → Effect IsOurs (LeavesEither (own_of self.old) hosted (remove hosted at)) (D.disk dev.old) (D.disk dev.new) }
        ensures touches { D.tells → TouchesOurs (D.disk dev.old) (D.disk dev.new) }
        ensures trouble { IfErr result IsPassing }
        ensures cause { HasCause D.disk_faults D.tell_faults dev.old dev.new (IsErrOf result Trouble.Fault) }
    {
        let paths = self.paths_at(alloc, at)?;
        self.stores.remove(alloc, dev, at, &paths)?;
        self.states.remove(at);
        Ok(())
    }
}
