// The store of one database, lent out and given back.
ghost use Rattle.std.specs.Prelude.{◌≡◌, ◌<◌, Some, None, length, remove, set, slice_get};

use crate::stores::Stores;
use bk_store::Store;

/// Puts this store, open or not, at a place, which counts from 0, and drops the one that was there.
pub(crate) fn put_slot(slots: &mut Vec<Option<Store>>, at: usize, slot: Option<Store>)
    requires inside { at < length slots.old.items }
    ensures { slots.new.items ≡ set slots.old.items at slot }
{
    slots[at] = slot;
}

/// Takes a place, which counts from 0, out with its store; the others move up.
pub(crate) fn drop_slot(slots: &mut Vec<Option<Store>>, at: usize)
    requires inside { at < length slots.old.items }
    ensures { slots.new.items ≡ remove slots.old.items at }
{
    slots.remove(at);
}

impl Stores {
    /// Takes the store of the database at this place out, which counts from 0, where it is open. It is to be given back by `give` before anything else is done here; a call on it meanwhile leaves
    /// the others standing (`specs/StandingLaws`: `taken`, `lent-called`, `given`).
    pub fn take(&mut self, at: usize) -> Option<Store>
        requires inside { at < length self.old.slots }
        ensures store { slice_get self.old.slots at ≡ Some result }
        ensures slots { self.new.slots ≡ set self.old.slots at None }
        ensures master { self.new.master ≡ self.old.master }
    {
        self.slots[at].take()
    }

    /// Gives the store of the database at this place back.
    pub fn give(&mut self, at: usize, store: Store)
        requires inside { at < length self.old.slots }
        ensures slots { self.new.slots ≡ set self.old.slots at (Some store) }
        ensures master { self.new.master ≡ self.old.master }
    {
        self.slots[at] = Some(store);
    }
}
