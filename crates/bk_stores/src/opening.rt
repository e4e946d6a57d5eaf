// Opening a store.
ghost use Rattle.std.specs.Prelude.{◌≡◌, ◌<◌, List, None, Some, true, length, set, slice_get, IfErr, IfOk, OnOk, IsErrOf};
ghost use Rattle.bk_device.specs.Calls.{ChangesNothing};
ghost use Rattle.bk_device.specs.Counts.{HasCause};
ghost use Rattle.bk_device.specs.Effects.{Effect};
ghost use Rattle.bk_master.specs.declared.record.Entry.{Entry as Entries};
ghost use Rattle.bk_reopening.specs.Reopening.{settled};
ghost use Rattle.bk_store.specs.Store.{Kept as KeptStore};
ghost use Rattle.bk_store.specs.Told.{Told};
ghost use Rattle.bk_stores.specs.Making.{IsSealed};
ghost use Rattle.bk_stores.specs.Quiet.{AreQuiet};
ghost use Rattle.bk_stores.specs.Standing.{AreStanding, AreUnused};
ghost use Rattle.bk_stores.specs.Stores.{AreStores, IsOurs, IsReady, LeavesStores, TouchesOurs, fixed_of, sealed_at};

use crate::changing::put_slot;
use crate::records::store_at;
use crate::stores::Stores;
use bk_device::{Device, Trouble};
use bk_reopening::load as load_store;
use bk_store::Store;
use std::alloc::Global;
use std::thread::Threads;

impl Stores {
    // A store that was opened, where no other open store has one of its data files.
    pub(crate) fn checked(&self, store: Store) -> Result<Store, Trouble>
        ensures same { IfOk result (λ s. s ≡ store) }
        ensures unused { OnOk result (AreUnused self.now.slots store.paged.facts.files) }
        ensures broken { IfErr result (λ e. (e ≡ Trouble.Broken) × (AreUnused self.now.slots store.paged.facts.files → ⊥)) }
    {
        let files = store.files();
        if self.has_none_of(files) {
            Ok(store)
        } else {
            drop(store);
            Err(Trouble::Broken)
        }
    }

    /// Opens the store of the database at this place, which counts from 0, where it is stored and not open: what is pending in it is undone. A crash leaves the databases, and in this one perhaps some of the
    /// records that undo. Where nothing is to be finished or undone the files stay as they are.
    ///
    /// `Broken` is answered only where the files hold no database, or one that has a data file of another open store.
    pub fn open<R: Threads + Sync, D: Device>(
        &mut self,
        rt: &R,
        alloc: Global,
        dev: &mut D,
        at: usize,
    ) -> Result<(), Trouble>
        requires ready { IsReady self.old }
        requires shut { slice_get self.old.slots at ≡ Some None }
        requires standing { D.tells → AreStanding (D.disk dev.old) self.old }
        requires stored { (e : Entries) × (slice_get self.old.master.record.databases at ≡ Some e) × (e.is_stored ≡ true) }
        ensures ready { OnOk result (IsReady self.new) }
        ensures opens { OnOk result ((s : KeptStore) × (self.new ≡ record self.old { slots = set self.old.slots at (Some s) }) × IsSealed s) }
        ensures standing { D.tells → OnOk result (AreStanding (D.disk dev.new) self.new) }
        ensures stands { D.tells → (tolds : List Told) (told : Told) → AreStores (D.disk dev.old) self.old tolds → slice_get tolds at ≡ Some told → OnOk result (AreStores (D.disk dev.new) self.new (set tolds at (settled told))) }
        ensures crash { D.tells → (tolds : List Told) (told : Told) → AreStores (D.disk dev.old) self.old tolds → slice_get tolds at ≡ Some told → Effect IsOurs (LeavesStores (fixed_of self.old.master.record) (sealed_at self.old tolds) (set tolds at (settled told))) (D.disk dev.old) (D.disk dev.new) }
        ensures touches { D.tells → TouchesOurs (D.disk dev.old) (D.disk dev.new) }
        ensures still { D.tells → AreQuiet (D.disk dev.old).files → OnOk result (ChangesNothing (D.disk dev.old) (D.disk dev.new)) }
        ensures broken { D.tells → IsErrOf result Trouble.Broken → (tolds : List Told) → AreStores (D.disk dev.old) self.old tolds → ⊥ }
        ensures cause { HasCause D.disk_faults D.tell_faults dev.old dev.new (IsErrOf result Trouble.Fault) }
    {
        let number = store_at(self.master.record(), at);
        let opened = load_store(rt, alloc, dev, number)?;
        let store = self.checked(opened)?;
        put_slot(&mut self.slots, at, Some(store));
        Ok(())
    }
}
