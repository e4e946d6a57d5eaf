// Backups that run beside the sessions. They are kept in memory alone.
ghost use Rattle.std.specs.Prelude.{◌≡◌, ◌<◌, false, true, List, None, Some, length, map, set, slice_get};
ghost use Rattle.std.specs.List.{AllByRecursion, list_any};
ghost use Rattle.std.specs.Option.{option_map};
ghost use Rattle.bk_hosted.specs.Hosted.{Hosted, running};
ghost use Rattle.bk_hosting.specs.Hosting.{IsReady, state_of};
ghost use Rattle.bk_hosting.specs.Jobs.{has_job, without_job};

use crate::hosting::{Hosting, State};
use bk_machine::Job;

// Whether a backup of one of these databases runs.
fn have_one(states: &[State]) -> bool
    ensures { result ≡ list_any has_job states.now }
{
    states.iter().any(|state| state.job.is_some())
}

// No backup of them runs any more.
fn drop_each(states: &mut [State])
    ensures { states.new ≡ map without_job states.old }
{
    for state in states.iter_mut() {
        state.job = None;
    }
}

// And so of a vector's.
fn drop_all(states: &mut Vec<State>)
    ensures { states.new.items ≡ map without_job states.old.items }
{
    drop_each(states.as_mut_slice());
}

impl Hosting {
    /// The backup that runs of the database at this place, which counts from 0.
    pub fn job(&self, at: usize) -> Option<&Job>
        requires inside { at < length self.now.states }
        ensures { (hosted : List Hosted) (h : Hosted) → self.now.states ≡ map state_of hosted → slice_get hosted at ≡ Some h → option_map (λ job. job.now) result ≡ h.job }
    {
        self.states[at].job.as_ref()
    }

    /// This backup of the database at this place runs from now on, or none; the place counts from 0. Nothing is written.
    pub fn set_job(&mut self, at: usize, job: Option<Job>)
        requires inside { at < length self.old.states }
        ensures ready { IsReady self.old → IsReady self.new }
        ensures stores { self.new.stores ≡ self.old.stores }
        ensures stands { (hosted : List Hosted) (h : Hosted) → self.old.states ≡ map state_of hosted → slice_get hosted at ≡ Some h → self.new.states ≡ map state_of (set hosted at (running job h)) }
    {
        self.states[at].job = job;
    }

    /// No backup of a database runs any more. Says whether one ran; where none did, nothing is changed. Nothing is written.
    pub fn drop_jobs(&mut self) -> bool
        ensures ready { IsReady self.old → IsReady self.new }
        ensures stores { self.new.stores ≡ self.old.stores }
        ensures stands { (hosted : List Hosted) → self.old.states ≡ map state_of hosted → self.new.states ≡ map state_of (map (running None) hosted) }
        ensures none { result ≡ false → self.new ≡ self.old }
        ensures idle { result ≡ false → (hosted : List Hosted) → self.old.states ≡ map state_of hosted → AllByRecursion (λ h. h.job ≡ None) hosted }
        ensures ran { result ≡ true → list_any has_job self.old.states ≡ true }
    {
        if !have_one(self.states.as_slice()) {
            return false;
        }
        drop_all(&mut self.states);
        true
    }
}
