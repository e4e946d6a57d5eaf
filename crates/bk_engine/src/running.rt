// Backups that run beside the sessions.
ghost use Rattle.std.specs.Prelude.{◌≡◌, ◌<◌, ◌≤◌, ◌-◌, [], false, drop, length, List, ℕ, None, Some, IfErr, IfOk, IfSome, OnOk, IsErrOf, if◌then◌else◌};
ghost use Rattle.std.specs.List.{AllByRecursion, position};
ghost use Rattle.bk_device.specs.Counts.{HasCause};
ghost use Rattle.bk_device.specs.Effects.{Effect};
ghost use Rattle.bk_device.specs.Troubles.{IsPassing};
ghost use Rattle.bk_hosted.specs.Hosted.{Hosted, names};
ghost use Rattle.bk_fields.specs.Guids.{IsGuid};
ghost use Rattle.bk_hosting.specs.Asking.{AreDescribed};
ghost use Rattle.bk_ids.specs.declared.guid.Guid.{Guid as Guids};
ghost use Rattle.bk_ids.specs.declared.record.Rec.{Rec as Recs};
ghost use Rattle.bk_kept.specs.Jobs.{IsApart};
ghost use Rattle.bk_machine.specs.Acts.{done, done_all, job_set, jobs_dropped};
ghost use Rattle.bk_machine.specs.declared.job.Job.{Job as Jobs};
ghost use Rattle.bk_machine.specs.statements.Job.{stepped};
ghost use Rattle.bk_machine.specs.MayDo.{MayDo};
ghost use Rattle.bk_machine.specs.Sound.{JobIs};
ghost use Rattle.bk_machine.specs.World.{Database, World, database_named, log_of};
ghost use Rattle.bk_record.specs.Spelling.{KeepsLimits};
ghost use Rattle.bk_stores.specs.Standing.{AreStanding};
ghost use Rattle.bk_volume.specs.Staging.{HoldsParts, IsStaged};
ghost use Rattle.bk_world.specs.declared.database.Status.TheVariants.{Online};
ghost use Rattle.bk_world.specs.Records.{Said};
ghost use Rattle.bk_engine.specs.Acts.{CutsAct};
ghost use Rattle.bk_engine.specs.Copied.{staging_of};
ghost use Rattle.bk_engine.specs.Copying.{HoldsFront, IsCopiedOf};
ghost use Rattle.bk_engine.specs.Jobs.{CutsEnding, EndsSet, IsFinishing, StartsSet, StepsSet, ending, Finishing as KeptFinishing};
ghost use Rattle.bk_engine.specs.Stands.{Covers, IsOurs, IsReady, NamesSet, StandsFor, own_in};
ghost use Rattle.bk_engine.specs.Touched.{NoMedium, TouchesOnly};
ghost use Rattle.bk_engine.specs.Viewing.{Remembers};

use crate::engine::Engine;
use crate::finishing::remove_sets;
use bk_device::{Device, Trouble};
use bk_hosted::hosted_databases_follow_acts;
use bk_ids::{ExtentId, Guid, Rec, Sequence};
use bk_machine::{Job, acts_keep_worlds_sound, what_is_said_comes_last};
use bk_volume::Staged;
use bk_world::Open;
use std::alloc::{AllocError, Global};
use std::marker::Model;

/// The set of a backup that ended: what is written of it, and what is left to be copied.
#[derive(Drop)]
pub struct Finishing {
    /// The set.
    pub set: Guid,
    /// The place of its database, which counts from 0.
    pub at: usize,
    /// What was written of it, with no log.
    pub staged: Staged,
    /// The data extents that aren't copied yet, in their order.
    pub rest: Vec<ExtentId>,
}

impl Model for Finishing {
    ghost Value = { KeptFinishing };

    ghost view = { λ f. record { set = f.set; at = f.at; staged = f.staged; rest = f.rest.items } };
}

// The extents from this place on, which counts from 0.
fn extents_behind(
    alloc: Global,
    extents: &[ExtentId],
    from: usize,
) -> Result<Vec<ExtentId>, AllocError>
    requires inside { from ≤ length extents.now }
    ensures { IfOk result (λ rest. rest.items ≡ drop from extents.now) }
{
    let mut rest = Vec::new(alloc);
    for extent in &extents[from..] {
        rest.push(*extent)?;
    }
    Ok(rest)
}

impl Engine {
    // The backup that runs of the database of this name.
    fn job_named(&self, name: &str) -> Option<&Job>
        requires ready { IsReady self.now }
        ensures { IfSome result (λ job. (w : World) (db : Database) → Remembers self.now w → database_named w.databases name.now ≡ Some db → db.job ≡ Some job.now) }
    {
        let at = self.hosting.find(name)?;
        self.hosting.job(at)
    }

    // This backup of the database of this name runs from now on, or none. Nothing is written. Where there is no database of this name, the call ends as if memory were wanting.
    fn put_job<D: Device>(
        &mut self,
        dev: &mut D,
        name: &str,
        job: Option<Job>,
    ) -> Result<(), Trouble>
        requires ready { IsReady self.old }
        requires standing { D.tells → AreStanding (D.disk dev.old) self.old.hosting.stores }
        ensures same { dev.new ≡ dev.old }
        ensures ready { OnOk result (IsReady self.new) }
        ensures own { OnOk result (own_in self.new ≡ own_in self.old) }
        ensures standing { D.tells → OnOk result (AreStanding (D.disk dev.new) self.new.hosting.stores) }
        ensures stands { D.tells → (w : World) → StandsFor (D.disk dev.old) self.old w → MayDo w (job_set name.now job) → JobIs (IsCopiedOf w name.now (D.disk dev.old)) job → OnOk result (StandsFor (D.disk dev.new) self.new (done w (job_set name.now job))) }
        ensures trouble { IfErr result IsPassing }
        ensures no_fault { IsErrOf result Trouble.Fault → ⊥ }
    {
        acts_keep_worlds_sound();
        hosted_databases_follow_acts();
        let Some(at) = self.hosting.find(name) else {
            return Err(Trouble::NoMemory);
        };
        self.hosting.set_job(at, job);
        Ok(())
    }

    // The record names this set as being copied, and nothing is in its file. The world stays.
    fn begin_copying<D: Device>(&mut self, dev: &mut D, set: Guid) -> Result<(), Trouble>
        requires ready { IsReady self.old }
        requires standing { D.tells → AreStanding (D.disk dev.old) self.old.hosting.stores }
        ensures guid { IsGuid set }
        ensures ready { OnOk result (IsReady self.new) }
        ensures own { OnOk result (NamesSet (own_in self.old).staging self.old self.new) }
        ensures standing { D.tells → OnOk result (AreStanding (D.disk dev.new) self.new.hosting.stores) }
        ensures empty { D.tells → OnOk result (HoldsParts (D.disk dev.new) (staging_of set 0) [] []) }
        ensures stands { D.tells → (w : World) → StandsFor (D.disk dev.old) self.old w → IsApart w set → OnOk result (StandsFor (D.disk dev.new) self.new w) }
        ensures crash { D.tells → (w : World) → StandsFor (D.disk dev.old) self.old w → Effect IsOurs (Covers w) (D.disk dev.old) (D.disk dev.new) }
        ensures touches { D.tells → TouchesOnly NoMedium (D.disk dev.old) (D.disk dev.new) }
        ensures trouble { IfErr result IsPassing }
        ensures cause { HasCause D.disk_faults D.tell_faults dev.old dev.new (IsErrOf result Trouble.Fault) }
    {
        self.name_copying(dev, set)?;
        self.begin_staged(dev, set)?;
        Ok(())
    }

    /// This backup of the database of this name starts: its set is begun, with no extent and no log. A crash leaves the world before it, but for what waited, or the one behind it.
    ///
    /// Only `Fault` and `NoMemory` are answered. Where there is no database of this name, the call ends as if memory were wanting.
    pub fn start_set<D: Device>(&mut self, dev: &mut D, name: &str, job: Job) -> Result<(), Trouble>
        requires ready { IsReady self.old }
        requires standing { D.tells → AreStanding (D.disk dev.old) self.old.hosting.stores }
        ensures ready { OnOk result (IsReady self.new) }
        ensures own { OnOk result (NamesSet (own_in self.old).staging self.old self.new) }
        ensures standing { D.tells → OnOk result (AreStanding (D.disk dev.new) self.new.hosting.stores) }
        ensures stands { D.tells → (w : World) → StandsFor (D.disk dev.old) self.old w → StartsSet w name.now job → OnOk result (StandsFor (D.disk dev.new) self.new (done w (job_set name.now (Some job)))) }
        ensures crash { D.tells → (w : World) → StandsFor (D.disk dev.old) self.old w → StartsSet w name.now job → Effect IsOurs (CutsAct w (job_set name.now (Some job))) (D.disk dev.old) (D.disk dev.new) }
        ensures touches { D.tells → TouchesOnly NoMedium (D.disk dev.old) (D.disk dev.new) }
        ensures trouble { IfErr result IsPassing }
        ensures cause { HasCause D.disk_faults D.tell_faults dev.old dev.new (IsErrOf result Trouble.Fault) }
    {
        self.begin_copying(dev, job.set)?;
        self.at_rest(dev);
        self.put_job(dev, name, Some(job))
    }

    // Of the database of this name so many data extents are left to be copied into this set: copies them, but for the last of them, of which there are as many as `rest`. The world stays.
    fn copy_next<D: Device>(
        &mut self,
        dev: &mut D,
        name: &str,
        set: Guid,
        left: usize,
        rest: usize,
    ) -> Result<(), Trouble>
        requires ready { IsReady self.old }
        requires standing { D.tells → AreStanding (D.disk dev.old) self.old.hosting.stores }
        ensures guid { IsGuid set }
        ensures ready { OnOk result (IsReady self.new) }
        ensures own { OnOk result (NamesSet (own_in self.old).staging self.old self.new) }
        ensures standing { D.tells → OnOk result (AreStanding (D.disk dev.new) self.new.hosting.stores) }
        ensures stands { D.tells → (w : World) → StandsFor (D.disk dev.old) self.old w → IsApart w set → OnOk result (StandsFor (D.disk dev.new) self.new w) }
        ensures copied { D.tells → (w : World) (job : Jobs) → StandsFor (D.disk dev.old) self.old w → (of : IsCopiedOf w name.now (D.disk dev.old) job) → of.db.status ≡ Online → job.checkpoint ≤ length (log_of w.history of.db) → job.set ≡ set → length job.left ≡ left
            → OnOk result (IsCopiedOf w name.now (D.disk dev.new) (stepped (left - rest) job)) }
        ensures crash { D.tells → (w : World) → StandsFor (D.disk dev.old) self.old w → Effect IsOurs (Covers w) (D.disk dev.old) (D.disk dev.new) }
        ensures touches { D.tells → TouchesOnly NoMedium (D.disk dev.old) (D.disk dev.new) }
        ensures trouble { IfErr result IsPassing }
        ensures cause { HasCause D.disk_faults D.tell_faults dev.old dev.new (IsErrOf result Trouble.Fault) }
    {
        self.at_rest(dev);
        let Some(at) = self.find(name) else {
            return Err(Trouble::NoMemory);
        };
        let all = self.extents(dev, at)?;
        if left > all.len() || rest > left {
            return Err(Trouble::NoMemory);
        }
        let from = all.len() - left;
        let mut staged = self.take_up(dev, set, from as u32)?;
        self.copy_extents(dev, at, &mut staged, &all[from..all.len() - rest])
    }

    /// So many more of the extents that are left to the backup of the database of this name are copied, or all that are left, each as of the database's end. A crash leaves the world before it, but for what waited.
    ///
    /// Only `Fault` and `NoMemory` are answered. Where there is no database of this name, no backup of it runs, or the set's file hasn't the length that it had, the call ends as if memory were wanting.
    pub fn step_set<D: Device>(
        &mut self,
        dev: &mut D,
        name: &str,
        count: u64,
    ) -> Result<(), Trouble>
        requires ready { IsReady self.old }
        requires standing { D.tells → AreStanding (D.disk dev.old) self.old.hosting.stores }
        ensures ready { OnOk result (IsReady self.new) }
        ensures own { OnOk result (NamesSet (own_in self.old).staging self.old self.new) }
        ensures standing { D.tells → OnOk result (AreStanding (D.disk dev.new) self.new.hosting.stores) }
        ensures stands { D.tells → (w : World) (job : Jobs) → StandsFor (D.disk dev.old) self.old w → StepsSet w name.now count job → OnOk result (StandsFor (D.disk dev.new) self.new (done w (job_set name.now (Some (stepped count job))))) }
        ensures crash { D.tells → (w : World) (job : Jobs) → StandsFor (D.disk dev.old) self.old w → StepsSet w name.now count job → Effect IsOurs (Covers w) (D.disk dev.old) (D.disk dev.new) }
        ensures touches { D.tells → TouchesOnly NoMedium (D.disk dev.old) (D.disk dev.new) }
        ensures trouble { IfErr result IsPassing }
        ensures cause { HasCause D.disk_faults D.tell_faults dev.old dev.new (IsErrOf result Trouble.Fault) }
    {
        self.at_rest(dev);
        let Some(job) = self.job_named(name) else {
            return Err(Trouble::NoMemory);
        };
        let next = job.copy_after(self.alloc, count)?;
        let left = job.left.as_slice().len();
        let rest = next.left.as_slice().len();
        self.put_job(dev, name, None)?;
        self.copy_next(dev, name, next.set, left, rest)?;
        self.put_job(dev, name, Some(next))
    }

    // No backup of the database of this name runs any more. Gives its set, which the record names from now on, and how many extents weren't copied.
    fn stop_job<D: Device>(&mut self, dev: &mut D, name: &str) -> Result<(Guid, usize), Trouble>
        requires ready { IsReady self.old }
        requires standing { D.tells → AreStanding (D.disk dev.old) self.old.hosting.stores }
        ensures ready { OnOk result (IsReady self.new) }
        ensures own { IfOk result (λ both. NamesSet (Some both.0) self.old self.new) }
        ensures set { D.tells → (w : World) (job : Jobs) (db : Database) → StandsFor (D.disk dev.old) self.old w → database_named w.databases name.now ≡ Some db → db.job ≡ Some job → IfOk result (λ both. (both.0 ≡ job.set) × (both.1 ≡ length job.left)) }
        ensures copied { D.tells → (w : World) (job : Jobs) (db : Database) → StandsFor (D.disk dev.old) self.old w → database_named w.databases name.now ≡ Some db → db.job ≡ Some job → OnOk result (IsCopiedOf (done w (job_set name.now None)) name.now (D.disk dev.new) job) }
        ensures standing { D.tells → OnOk result (AreStanding (D.disk dev.new) self.new.hosting.stores) }
        ensures stands { D.tells → (w : World) → StandsFor (D.disk dev.old) self.old w → OnOk result (StandsFor (D.disk dev.new) self.new (done w (job_set name.now None))) }
        ensures crash { D.tells → (w : World) → StandsFor (D.disk dev.old) self.old w → Effect IsOurs (Covers w) (D.disk dev.old) (D.disk dev.new) }
        ensures touches { D.tells → TouchesOnly NoMedium (D.disk dev.old) (D.disk dev.new) }
        ensures trouble { IfErr result IsPassing }
        ensures cause { HasCause D.disk_faults D.tell_faults dev.old dev.new (IsErrOf result Trouble.Fault) }
    {
        self.at_rest(dev);
        let Some(job) = self.job_named(name) else {
            return Err(Trouble::NoMemory);
        };
        let set = job.set;
        let left = job.left.as_slice().len();
        self.name_finishing(dev, set)?;
        self.put_job(dev, name, None)?;
        Ok((set, left))
    }

    // The set of the database of this name, of whose data extents so many aren't copied yet. The world stays.
    fn finishing<D: Device>(
        &self,
        dev: &mut D,
        name: &str,
        set: Guid,
        left: usize,
    ) -> Result<Finishing, Trouble>
        requires ready { IsReady self.now }
        requires standing { D.tells → AreStanding (D.disk dev.old) self.now.hosting.stores }
        ensures set { IfOk result (λ f. IsFinishing self.now f) }
        ensures is { IfOk result (λ f. f.set ≡ set) }
        ensures at { (hosted : List Hosted) → AreDescribed self.now.hosting hosted → IfOk result (λ f. position (names name.now) hosted ≡ Some f.at) }
        ensures staged { D.tells → IfOk result (λ f. IsStaged (D.disk dev.new) f.staged) }
        ensures standing { D.tells → AreStanding (D.disk dev.new) self.now.hosting.stores }
        ensures stands { D.tells → (w : World) → StandsFor (D.disk dev.old) self.now w → StandsFor (D.disk dev.new) self.now w }
        ensures holds { D.tells → (w : World) (job : Jobs) (db : Database) (count : ℕ) → StandsFor (D.disk dev.old) self.now w → database_named w.databases name.now ≡ Some db → db.status ≡ Online → set ≡ job.set → left ≡ length job.left
            → HoldsFront w db job.checkpoint job.left (D.disk dev.old) (staging_of job.set count) → IfOk result (λ f. HoldsFront w db job.checkpoint f.rest (D.disk dev.new) f.staged) }
        ensures crash { D.tells → (w : World) → StandsFor (D.disk dev.old) self.now w → Effect IsOurs (Covers w) (D.disk dev.old) (D.disk dev.new) }
        ensures touches { D.tells → TouchesOnly NoMedium (D.disk dev.old) (D.disk dev.new) }
        ensures trouble { IfErr result IsPassing }
        ensures cause { HasCause D.disk_faults D.tell_faults dev.old dev.new (IsErrOf result Trouble.Fault) }
    {
        self.at_rest(dev);
        let Some(at) = self.find(name) else {
            return Err(Trouble::NoMemory);
        };
        let all = self.extents(dev, at)?;
        if left > all.len() {
            return Err(Trouble::NoMemory);
        }
        let from = all.len() - left;
        let staged = self.take_up(dev, set, from as u32)?;
        let rest = extents_behind(self.alloc, &all, from)?;
        Ok(Finishing {
            set,
            at,
            staged,
            rest,
        })
    }

    /// The backup of the database of this name ends, and says its stamp by these records, among these open transactions. Gives its set, of which the extents in `rest` aren't copied yet;
    /// the record names it until `end_set`. A crash leaves the world before it, but for what waited, the one in which the backup runs no more, or the one behind the stamp.
    ///
    /// Only `Fault` and `NoMemory` are answered: `NoMemory` too where no such backup can end.
    pub fn finish_set<D: Device>(
        &mut self,
        dev: &mut D,
        name: &str,
        records: &[Rec],
        transactions: Sequence<Open>,
    ) -> Result<Finishing, Trouble>
        requires ready { IsReady self.old }
        requires none { (own_in self.old).staging ≡ None }
        requires limits { AllByRecursion (λ (r : Recs). KeepsLimits r.body) records.now }
        requires standing { D.tells → AreStanding (D.disk dev.old) self.old.hosting.stores }
        ensures ready { OnOk result (IsReady self.new) }
        ensures own { IfOk result (λ f. NamesSet (Some f.set) self.old self.new) }
        ensures set { IfOk result (λ f. IsFinishing self.new f) }
        ensures at { (hosted : List Hosted) → AreDescribed self.new.hosting hosted → IfOk result (λ f. position (names name.now) hosted ≡ Some f.at) }
        ensures staged { D.tells → IfOk result (λ f. IsStaged (D.disk dev.new) f.staged) }
        ensures standing { D.tells → OnOk result (AreStanding (D.disk dev.new) self.new.hosting.stores) }
        ensures stands { D.tells → (w : World) (job : Jobs) (stamp : Said) → StandsFor (D.disk dev.old) self.old w → EndsSet w name.now job stamp transactions records.now
            → OnOk result (StandsFor (D.disk dev.new) self.new (done_all w (ending name.now stamp transactions))) }
        ensures holds { D.tells → (w : World) (job : Jobs) (stamp : Said) (db : Database) → StandsFor (D.disk dev.old) self.old w → EndsSet w name.now job stamp transactions records.now
            → database_named (done_all w (ending name.now stamp transactions)).databases name.now ≡ Some db
            → IfOk result (λ f. (f.set ≡ job.set) × IsApart (done_all w (ending name.now stamp transactions)) f.set × HoldsFront (done_all w (ending name.now stamp transactions)) db job.checkpoint f.rest (D.disk dev.new) f.staged) }
        ensures crash { D.tells → (w : World) (job : Jobs) (stamp : Said) → StandsFor (D.disk dev.old) self.old w → EndsSet w name.now job stamp transactions records.now
            → Effect IsOurs (CutsEnding w name.now stamp transactions) (D.disk dev.old) (D.disk dev.new) }
        ensures touches { D.tells → TouchesOnly NoMedium (D.disk dev.old) (D.disk dev.new) }
        ensures trouble { IfErr result IsPassing }
        ensures cause { HasCause D.disk_faults D.tell_faults dev.old dev.new (IsErrOf result Trouble.Fault) }
    {
        what_is_said_comes_last();
        let stopped = self.stop_job(dev, name)?;
        self.log(dev, name, records, transactions, true)?;
        self.finishing(dev, name, stopped.0, stopped.1)
    }

    // Removes what was written of the sets that the record names as being copied. The world stays, where no backup runs in it.
    fn remove_copied<D: Device>(&self, dev: &mut D) -> Result<(), Trouble>
        requires ready { IsReady self.now }
        requires standing { D.tells → AreStanding (D.disk dev.old) self.now.hosting.stores }
        ensures standing { D.tells → AreStanding (D.disk dev.new) self.now.hosting.stores }
        ensures stands { D.tells → (w : World) → StandsFor (D.disk dev.old) self.now w → AllByRecursion (λ (db : Database). db.job ≡ None) w.databases → StandsFor (D.disk dev.new) self.now w }
        ensures crash { D.tells → (w : World) → StandsFor (D.disk dev.old) self.now w → Effect IsOurs (Covers w) (D.disk dev.old) (D.disk dev.new) }
        ensures touches { D.tells → TouchesOnly NoMedium (D.disk dev.old) (D.disk dev.new) }
        ensures trouble { IfErr result IsPassing }
        ensures cause { HasCause D.disk_faults D.tell_faults dev.old dev.new (IsErrOf result Trouble.Fault) }
    {
        self.hosting.at_rest(dev);
        remove_sets(self.alloc, dev, self.hosting.own().copying.as_slice())
    }

    // No backup runs any more. Says whether one ran; where none did, nothing is changed. Nothing is written.
    fn drop_jobs<D: Device>(&mut self, dev: &mut D) -> bool
        requires ready { IsReady self.old }
        requires standing { D.tells → AreStanding (D.disk dev.old) self.old.hosting.stores }
        ensures same { dev.new ≡ dev.old }
        ensures ready { IsReady self.new }
        ensures own { own_in self.new ≡ own_in self.old }
        ensures standing { D.tells → AreStanding (D.disk dev.new) self.new.hosting.stores }
        ensures stands { D.tells → (w : World) → StandsFor (D.disk dev.old) self.old w → StandsFor (D.disk dev.new) self.new (if result then done w jobs_dropped else w) }
        ensures none { result ≡ false → self.new ≡ self.old }
        ensures still { D.tells → (w : World) → StandsFor (D.disk dev.old) self.old w → AllByRecursion (λ (db : Database). db.job ≡ None) w.databases → result ≡ false }
        ensures idle { D.tells → (w : World) → StandsFor (D.disk dev.old) self.old w → result ≡ false → AllByRecursion (λ (db : Database). db.job ≡ None) w.databases }
    {
        acts_keep_worlds_sound();
        hosted_databases_follow_acts();
        self.hosting.drop_jobs()
    }

    /// No backup runs any more: what was written of their sets is removed. Says whether one ran; where none did, nothing is done. A crash leaves the world before it, but for what waited.
    ///
    /// Only `Fault` and `NoMemory` are answered.
    pub fn drop_sets<D: Device>(&mut self, dev: &mut D) -> Result<bool, Trouble>
        requires ready { IsReady self.old }
        requires none { (own_in self.old).staging ≡ None }
        requires standing { D.tells → AreStanding (D.disk dev.old) self.old.hosting.stores }
        ensures ready { OnOk result (IsReady self.new) }
        ensures own { OnOk result (NamesSet None self.old self.new) }
        ensures standing { D.tells → OnOk result (AreStanding (D.disk dev.new) self.new.hosting.stores) }
        ensures stands { D.tells → (w : World) → StandsFor (D.disk dev.old) self.old w → IfOk result (λ ran. StandsFor (D.disk dev.new) self.new (if ran then done w jobs_dropped else w)) }
        ensures none { IfOk result (λ ran. ran ≡ false → (dev.new ≡ dev.old) × (self.new ≡ self.old)) }
        ensures still { D.tells → (w : World) → StandsFor (D.disk dev.old) self.old w → AllByRecursion (λ (db : Database). db.job ≡ None) w.databases → (dev.new ≡ dev.old) × OnOk result (self.new ≡ self.old) }
        ensures idle { D.tells → (w : World) → StandsFor (D.disk dev.old) self.old w → IfOk result (λ ran. ran ≡ false → AllByRecursion (λ (db : Database). db.job ≡ None) w.databases) }
        ensures crash { D.tells → (w : World) → StandsFor (D.disk dev.old) self.old w → Effect IsOurs (Covers w) (D.disk dev.old) (D.disk dev.new) }
        ensures touches { D.tells → TouchesOnly NoMedium (D.disk dev.old) (D.disk dev.new) }
        ensures trouble { IfErr result IsPassing }
        ensures cause { HasCause D.disk_faults D.tell_faults dev.old dev.new (IsErrOf result Trouble.Fault) }
    {
        self.at_rest(dev);
        if !self.drop_jobs(dev) {
            return Ok(false);
        }
        self.remove_copied(dev)?;
        let none = Sequence::new(Vec::new(self.alloc));
        self.put_sets(dev, None, none)?;
        Ok(true)
    }
}
