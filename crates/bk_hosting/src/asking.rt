// What is asked of hosted databases.
ghost use Rattle.std.specs.Prelude.{◌≡◌, ◌<◌, List, Some, None, true, false, length, option_map, slice_get, IfSome};
ghost use Rattle.std.specs.List.{position};
ghost use Rattle.bk_device.specs.Effects.{Effect};
ghost use Rattle.bk_hosted.specs.Hosted.{Hosted, names};
ghost use Rattle.bk_store.specs.Store.{Kept as KeptStore};
ghost use Rattle.bk_stores.specs.Stores.{IsOurs};
ghost use Rattle.bk_hosting.specs.Asking.{AreDescribed, is_named, spec_by};
ghost use Rattle.bk_hosting.specs.Hosting.{IsHosting, IsReady, LeavesHosted, own_of};

use crate::hosting::{Hosting, State};
use bk_device::Device;
use bk_known::{DatabaseSpec, Known};
use bk_master::Own;
use bk_store::Store;

// The description of a database, by its store, or else by what is known of it.
fn spec_of<'a>(store: Option<&'a Store>, known: &'a Option<Known>) -> Option<&'a DatabaseSpec>
    ensures { option_map (λ s. s.now) result ≡ spec_by (option_map (λ s. s.now) store.entry) known.now }
{
    match store {
        Some(store) => Some(store.spec()),
        None => match known {
            Some(known) => Some(&known.spec),
            None => None,
        },
    }
}

// Whether a description has this name, in any case of ASCII letters.
fn has_name(spec: Option<&DatabaseSpec>, name: &str) -> bool
    ensures { result ≡ is_named name.now (option_map (λ s. s.now) spec.entry) }
{
    match spec {
        Some(spec) => spec.name.as_str().eq_ignore_ascii_case(name),
        None => false,
    }
}

impl Hosting {
    /// How many databases there are.
    pub fn count(&self) -> usize
        ensures { result ≡ length self.now.states }
    {
        self.states.len()
    }

    /// The points of the database at this place, which counts from 0, what is open in it, and while it is being restored what is known of it.
    pub fn state(&self, at: usize) -> &State
        requires inside { at < length self.now.states }
        ensures { slice_get self.now.states at ≡ Some result.now }
    {
        &self.states[at]
    }

    /// The store of the database at this place, which counts from 0; none while it is being restored.
    pub fn store(&self, at: usize) -> Option<&Store>
        requires inside { at < length self.now.stores.slots }
        ensures { slice_get self.now.stores.slots at ≡ Some (option_map (λ s. s.now) result) }
    {
        self.stores.store(at)
    }

    /// What the instance keeps of itself: its number, its counter, and the medium and the set that are being made.
    pub fn own(&self) -> &Own
        ensures { result.now ≡ own_of self.now }
    {
        self.stores.own()
    }

    /// The description of the database at this place, which counts from 0.
    pub fn spec(&self, at: usize) -> Option<&DatabaseSpec>
        requires ready { IsReady self.now }
        requires inside { at < length self.now.states }
        ensures { (hosted : List Hosted) (h : Hosted) → AreDescribed self.now hosted → slice_get hosted at ≡ Some h → option_map (λ s. s.now) result ≡ Some h.spec }
    {
        spec_of(self.store(at), &self.state(at).known)
    }

    /// The place of the first database of this name, in any case of ASCII letters; it counts from 0.
    pub fn find(&self, name: &str) -> Option<usize>
        requires ready { IsReady self.now }
        ensures found { (hosted : List Hosted) → AreDescribed self.now hosted → result ≡ position (names name.now) hosted }
        ensures inside { IfSome result (λ at. at < length self.now.states) }
    {
        for at in 0..self.count() {
            if has_name(self.spec(at), name) {
                return Some(at);
            }
        }
        None
    }

    /// What a crash may leave between two calls: the databases, but for what waits. Does nothing.
    pub fn at_rest<D: Device>(&self, dev: &mut D)
        ensures same { dev.new ≡ dev.old }
        ensures crash { D.tells → (hosted : List Hosted) → IsHosting (D.disk dev.old) self.now hosted → Effect IsOurs (LeavesHosted (own_of self.now) hosted) (D.disk dev.old) (D.disk dev.new) }
    {}

    // Whether the store of the database at this place is open.
    pub(crate) fn is_open(&self, at: usize) -> bool
        requires inside { at < length self.now.stores.slots }
        ensures open { result ≡ true → (s : KeptStore) × (slice_get self.now.stores.slots at ≡ Some (Some s)) }
        ensures shut { result ≡ false → slice_get self.now.stores.slots at ≡ Some None }
    {
        match self.stores.store(at) {
            Some(_store) => true,
            None => false,
        }
    }
}
