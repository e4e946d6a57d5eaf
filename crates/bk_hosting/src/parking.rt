// Databases whose files are to be restored.
ghost use Rattle.std.specs.Prelude.{◌≡◌, ◌<◌, ◌∷◌, ◌++◌, [], List, Some, length, set, slice_get, IfErr, OnOk, IsErrOf};
ghost use Rattle.bk_device.specs.Counts.{HasCause};
ghost use Rattle.bk_device.specs.Effects.{Effect};
ghost use Rattle.bk_device.specs.Troubles.{IsPassing};
ghost use Rattle.bk_hosted.specs.Hosted.{Hosted};
ghost use Rattle.bk_known.specs.Known.{KeepsKnown};
ghost use Rattle.bk_stores.specs.Standing.{AreStanding};
ghost use Rattle.bk_stores.specs.Stores.{IsOurs, TouchesOurs};
ghost use Rattle.bk_hosting.specs.Hosting.{IsHosting, IsReady, LeavesEither, own_of};
ghost use Rattle.bk_hosting.specs.Parking.{IsParkedAs};

use crate::hosting::{Hosting, State};
use crate::noting::note_of;
use bk_device::{Device, Trouble};
use bk_ids::Sequence;
use bk_known::Known;
use bk_points::Points;
use std::alloc::Global;

// What is kept of the database at this place, which counts from 0, is this from now on.
pub(crate) fn put_state(states: &mut Vec<State>, at: usize, state: State)
    requires inside { at < length states.old.items }
    ensures { states.new.items ≡ set states.old.items at state }
{
    states[at] = state;
}

impl Hosting {
    /// Puts a database of which only this is known, and these points, behind the others: it is being restored, and no file of data is there. A crash leaves the databases as before, but for what waits, or these
    /// and this one.
    ///
    /// Only `Fault` and `NoMemory` are answered. Where there are 16 databases, or there is no room for the points in a note, the call ends as if memory were wanting.
    pub fn park<D: Device>(
        &mut self,
        alloc: Global,
        dev: &mut D,
        known: Known,
        points: Points,
    ) -> Result<(), Trouble>
        requires ready { IsReady self.old }
        requires keeps { KeepsKnown known }
        requires standing { D.tells → AreStanding (D.disk dev.old) self.old.stores }
        ensures ready { OnOk result (IsReady self.new) }
        ensures own { OnOk result (own_of self.new ≡ own_of self.old) }
        ensures standing { D.tells → OnOk result (AreStanding (D.disk dev.new) self.new.stores) }
        ensures stands { D.tells → (hosted : List Hosted) (h : Hosted) → IsHosting (D.disk dev.old) self.old hosted → IsParkedAs known points h → OnOk result (IsHosting (D.disk dev.new) self.new (hosted ++ h ∷ [])) }
        ensures crash { D.tells → (hosted : List Hosted) (h : Hosted) → IsHosting (D.disk dev.old) self.old hosted → IsParkedAs known points h
            → Effect IsOurs (LeavesEither (own_of self.old) hosted (hosted ++ h ∷ [])) (D.disk dev.old) (D.disk dev.new) }
        ensures touches { D.tells → TouchesOurs (D.disk dev.old) (D.disk dev.new) }
        ensures trouble { IfErr result IsPassing }
        ensures cause { HasCause D.disk_faults D.tell_faults dev.old dev.new (IsErrOf result Trouble.Fault) }
    {
        if self.stores.count() >= 16 {
            return Err(Trouble::NoMemory);
        }
        let note = note_of(alloc, &points)?;
        self.stores.park_new(alloc, dev, &known, &note)?;
        self.states.push(State {
            points,
            job: None,
            transactions: Sequence::new(Vec::new(alloc)),
            known: Some(known),
        })?;
        Ok(())
    }

    /// Puts a database of which only this is known, and these points, in the place of the one at this place, from 0: it is being restored, and the files of the one that was are removed. A crash leaves the
    /// databases as before, but for what waits, or with this one there.
    ///
    /// Only `Fault` and `NoMemory` are answered, `NoMemory` too where there is no room for the points in a note.
    pub fn park_at<D: Device>(
        &mut self,
        alloc: Global,
        dev: &mut D,
        at: usize,
        known: Known,
        points: Points,
    ) -> Result<(), Trouble>
        requires ready { IsReady self.old }
        requires inside { at < length self.old.states }
        requires keeps { KeepsKnown known }
        requires standing { D.tells → AreStanding (D.disk dev.old) self.old.stores }
        ensures ready { OnOk result (IsReady self.new) }
        ensures own { OnOk result (own_of self.new ≡ own_of self.old) }
        ensures standing { D.tells → OnOk result (AreStanding (D.disk dev.new) self.new.stores) }
        ensures stands { D.tells → (hosted : List Hosted) (old h : Hosted) → IsHosting (D.disk dev.old) self.old hosted → slice_get hosted at ≡ Some old → IsParkedAs known points h
            → OnOk result (IsHosting (D.disk dev.new) self.new (set hosted at h)) }
        ensures crash { D.tells → (hosted : List Hosted) (old h : Hosted) → IsHosting (D.disk dev.old) self.old hosted → slice_get hosted at ≡ Some old → IsParkedAs known points h
            → Effect IsOurs (LeavesEither (own_of self.old) hosted (set hosted at h)) (D.disk dev.old) (D.disk dev.new) }
        ensures touches { D.tells → TouchesOurs (D.disk dev.old) (D.disk dev.new) }
        ensures trouble { IfErr result IsPassing }
        ensures cause { HasCause D.disk_faults D.tell_faults dev.old dev.new (IsErrOf result Trouble.Fault) }
    {
        let note = note_of(alloc, &points)?;
        let paths = self.paths_at(alloc, at)?;
        self.stores.park_at(alloc, dev, at, &known, &note, &paths)?;
        let state = State {
            points,
            job: None,
            transactions: Sequence::new(Vec::new(alloc)),
            known: Some(known),
        };
        put_state(&mut self.states, at, state);
        Ok(())
    }
}
