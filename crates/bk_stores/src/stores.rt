// The stores of an instance.
ghost use Rattle.std.specs.Prelude.{◌≡◌, ◌<◌, length, slice_get, Some, option_map};
ghost use Rattle.bk_master.specs.declared.record.Entry.{Entry as Entries};
ghost use Rattle.bk_stores.specs.Stores.{Kept};

use bk_master::Master;
use bk_store::Store;
use std::marker::Model;

/// The databases of an instance on its device, in their order: each a store of its own, open or not, under the instance's record.
///
/// Once a call that took the value by `&mut` has answered an error it is no longer used.
pub struct Stores {
    pub(crate) master: Master,
    pub(crate) slots: Vec<Option<Store>>,
}

impl Drop for Stores {
    fn drop(self) {
        let Stores {
            master: _,
            slots: _,
        } = self;
    }
}

impl Model for Stores {
    ghost Value = { Kept };

    ghost view = { λ s. record { master = s.master; slots = s.slots.items } };
}

impl Stores {
    /// How many databases there are.
    pub fn count(&self) -> usize
        ensures { result ≡ length self.now.slots }
    {
        self.slots.len()
    }
    /// The store of the database at this place, which counts from 0, where it is open.
    pub fn store(&self, at: usize) -> Option<&Store>
        requires inside { at < length self.now.slots }
        ensures { slice_get self.now.slots at ≡ Some (option_map (λ s. s.now) result) }
    {
        self.slots[at].as_ref()
    }

    /// Whether the database at this place, which counts from 0, has a store of its own on the device.
    pub fn is_stored(&self, at: usize) -> bool
        requires inside { at < length self.now.master.record.databases }
        ensures { (e : Entries) × (slice_get self.now.master.record.databases at ≡ Some e) × (e.is_stored ≡ result) }
    {
        self.master.record().databases.as_slice()[at].is_stored
    }
}
