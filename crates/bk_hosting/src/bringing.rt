// Databases that are brought up of a set on a medium.
ghost use Rattle.std.specs.Prelude.{◌≡◌, ◌≤◌, ◌<◌, false, [], List, None, Some, length, set, slice_get, IfErr, IfOk, OnOk, IsErrOf};
ghost use Rattle.bk_device.specs.Counts.{HasCause};
ghost use Rattle.bk_device.specs.Effects.{Effect};
ghost use Rattle.bk_filling.specs.Filling.{MayFill};
ghost use Rattle.bk_hosted.specs.Hosted.{Hosted};
ghost use Rattle.bk_known.specs.Known.{KeepsKnown};
ghost use Rattle.bk_master.specs.declared.record.Entry.{Entry as Entries};
ghost use Rattle.bk_points.specs.Points.{IsPoints, points_bytes};
ghost use Rattle.bk_record.specs.Spelling.{KeepsLimits};
ghost use Rattle.bk_store.specs.Told.{Told};
ghost use Rattle.bk_stores.specs.Standing.{AreStanding, AreUnused};
ghost use Rattle.bk_stores.specs.Stores.{IsOurs, TouchesOurs};
ghost use Rattle.bk_world.specs.Records.{Logged};
ghost use Rattle.bk_hosting.specs.Bringing.{ComesUp, IsUpAs};
ghost use Rattle.bk_hosting.specs.Hosting.{IsHosting, IsReady, IsSealedAt, LeavesEither, own_of};

use crate::hosting::{Hosting, State};
use crate::noting::note_of;
use bk_device::{Device, Trouble};
use bk_facts::DataFile;
use bk_ids::{Lsn, Rec, Sequence};
use bk_known::Known;
use bk_points::Points;
use bk_volume::{Medium, StoredSet};
use std::alloc::Global;
use std::thread::Threads;

impl Hosting {
    // A note of these points, where the database at this place is being restored and no open store has one of these data files.
    fn note_for(
        &self,
        alloc: Global,
        at: usize,
        files: &[DataFile],
        points: &Points,
    ) -> Result<Vec<u8>, Trouble>
        requires inside { at < length self.now.stores.master.record.databases }
        ensures parked { OnOk result ((e : Entries) × (slice_get self.now.stores.master.record.databases at ≡ Some e) × (e.is_stored ≡ false)) }
        ensures unused { OnOk result (AreUnused self.now.stores.slots files.now) }
        ensures note { IfOk result (λ note. note.items ≡ points_bytes points.now) }
        ensures spelled { OnOk result (IsPoints points.now) }
        ensures short { IfOk result (λ note. length note.items ≤ 12288) }
        ensures memory { IfErr result (λ e. e ≡ Trouble.NoMemory) }
    {
        if self.stores.is_stored(at) || !self.stores.has_none_of(files) {
            return Err(Trouble::NoMemory);
        }
        note_of(alloc, points)
    }

    // Keeps these points of the database at this place, whose store is open, and in which nothing is.
    fn put_points(&mut self, alloc: Global, at: usize, points: Points)
        requires inside { at < length self.old.states }
        ensures states { self.new.states ≡ set self.old.states at (record { points = points; job = None; transactions = []; known = None }) }
        ensures stores { self.new.stores ≡ self.old.stores }
    {
        self.states[at] = State {
            points,
            job: None,
            transactions: Sequence::new(Vec::new(alloc)),
            known: None,
        };
    }

    /// Brings the database at this place up, from 0, which is being restored: it is made of a full set, with these data files and these points, which await no checkpoint. What was pending is undone,
    /// and this record is said; all is durable then. A crash leaves the databases as before, but for what waits, or with this one.
    ///
    /// `Broken` is answered only where the set makes no database with them, or another has one.
    pub fn bring_up<R: Threads + Sync, D: Device>(
        &mut self,
        rt: &R,
        alloc: Global,
        dev: &mut D,
        at: usize,
        medium: &Medium,
        stored: &StoredSet,
        files: Vec<DataFile>,
        checkpoint: Lsn,
        known: &Known,
        points: Points,
        last: &Rec,
    ) -> Result<(), Trouble>
        requires ready { IsReady self.old }
        requires inside { at < length self.old.states }
        requires may { MayFill files.items }
        requires keeps { KeepsKnown known.now }
        requires limits { KeepsLimits last.now.body }
        requires elsewhere { IsOurs medium.now.name → ⊥ }
        requires standing { D.tells → AreStanding (D.disk dev.old) self.old.stores }
        ensures ready { OnOk result (IsReady self.new) }
        ensures own { OnOk result (own_of self.new ≡ own_of self.old) }
        ensures lasts { OnOk result (IsSealedAt self.new.stores.slots at) }
        ensures standing { D.tells → OnOk result (AreStanding (D.disk dev.new) self.new.stores) }
        ensures stands { D.tells → (hosted : List Hosted) (told : Told) (r : Logged) (h : Hosted) → IsHosting (D.disk dev.old) self.old hosted → ComesUp (D.disk dev.old) self.old hosted at medium.now.name stored.now files.items checkpoint known.now points last.now told r → IsUpAs told r points h
            → OnOk result (IsHosting (D.disk dev.new) self.new (set hosted at h)) }
        ensures crash { D.tells → (hosted : List Hosted) (told : Told) (r : Logged) (h : Hosted) → IsHosting (D.disk dev.old) self.old hosted → ComesUp (D.disk dev.old) self.old hosted at medium.now.name stored.now files.items checkpoint known.now points last.now told r → IsUpAs told r points h
            → Effect IsOurs (LeavesEither (own_of self.old) hosted (set hosted at h)) (D.disk dev.old) (D.disk dev.new) }
        ensures touches { D.tells → TouchesOurs (D.disk dev.old) (D.disk dev.new) }
        ensures broken { D.tells → IsErrOf result Trouble.Broken → (hosted : List Hosted) (told : Told) (r : Logged) → IsHosting (D.disk dev.old) self.old hosted
            → ComesUp (D.disk dev.old) self.old hosted at medium.now.name stored.now files.items checkpoint known.now points last.now told r → ⊥ }
        ensures cause { HasCause D.disk_faults D.tell_faults dev.old dev.new (IsErrOf result Trouble.Fault) }
    {
        let note = self.note_for(alloc, at, &files, &points)?;
        self.stores.bring_up(
            rt, alloc, dev, at, medium, stored, files, checkpoint, known, &note, last,
        )?;
        self.put_points(alloc, at, points);
        Ok(())
    }
}
