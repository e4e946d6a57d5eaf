// Databases are copied into sets that are being written.
ghost use Rattle.std.specs.Prelude.{◌≡◌, ◌<◌, ◌+◌, ◌^◌, [], false, List, ℕ, Some, length, map, slice_get, IfErr, IfOk, IfSome, OnOk, IsErrOf};
ghost use Rattle.std.specs.List.{position};
ghost use Rattle.bk_body.specs.Body.{Extent};
ghost use Rattle.bk_copying.specs.Extents.{extents_of};
ghost use Rattle.bk_device.specs.Counts.{HasCause};
ghost use Rattle.bk_device.specs.Effects.{Effect};
ghost use Rattle.bk_device.specs.Troubles.{IsPassing};
ghost use Rattle.bk_fields.specs.Guids.{IsGuid};
ghost use Rattle.bk_hosted.specs.Hosted.{Hosted, names};
ghost use Rattle.bk_hosting.specs.Asking.{AreDescribed};
ghost use Rattle.bk_hosting.specs.Copying.{AreAsBefore, HaveExtents, HoldsCopies, HoldsLog};
ghost use Rattle.bk_ids.specs.declared.guid.Guid.{Guid};
ghost use Rattle.bk_kept.specs.Jobs.{IsApart};
ghost use Rattle.bk_machine.specs.World.{Database, World, log_of};
ghost use Rattle.bk_store.specs.Told.{Told, data_file};
ghost use Rattle.bk_stores.specs.Standing.{AreStanding};
ghost use Rattle.bk_volume.specs.Names.{staging_file};
ghost use Rattle.bk_volume.specs.Staging.{HoldsParts, IsStaged};
ghost use Rattle.bk_world.specs.declared.database.Status.TheVariants.{Online};
ghost use Rattle.bk_engine.specs.Copying.{IsToldOf};
ghost use Rattle.bk_engine.specs.Stands.{Covers, IsOurs, IsReady, IsStagingFile, NamesSet, StandsFor, own_in};
ghost use Rattle.bk_engine.specs.Touched.{NoMedium, TouchesOnly};

use crate::engine::Engine;
use bk_copying::data_extents;
use bk_device::{Device, Trouble};
use bk_ids::{ExtentId, Lsn};
use bk_volume::Staged;
use std::alloc::AllocError;

impl Engine {
    /// The place of the first database of this name, in any case of ASCII letters; it counts from 0.
    pub fn find(&self, name: &str) -> Option<usize>
        requires ready { IsReady self.now }
        ensures found { (hosted : List Hosted) → AreDescribed self.now.hosting hosted → result ≡ position (names name.now) hosted }
        ensures inside { IfSome result (λ at. at < length self.now.hosting.states) }
    {
        self.hosting.find(name)
    }

    /// The data extents of the database at this place, which counts from 0, by file and number; none while it is being restored. Nothing is read or written.
    pub fn extents<D: Device>(&self, dev: &mut D, at: usize) -> Result<Vec<ExtentId>, AllocError>
        requires ready { IsReady self.now }
        requires inside { at < length self.now.hosting.states }
        ensures same { dev.new ≡ dev.old }
        ensures there { IfOk result (λ extents. HaveExtents self.now.hosting.stores.slots at extents.items) }
        ensures few { IfOk result (λ extents. length extents.items < 2 ^ 28) }
        ensures listed { D.tells → (w : World) (db : Database) → StandsFor (D.disk dev.old) self.now w → slice_get w.databases at ≡ Some db → db.status ≡ Online → IfOk result (λ extents. extents.items ≡ extents_of (map data_file db.files)) }
    {
        match self.hosting.store(at) {
            Some(store) => data_extents(self.alloc, store.files()),
            None => Ok(Vec::new(self.alloc)),
        }
    }

    /// Copies these data extents of the database at this place, which counts from 0, as of its end, into a set that has no log yet, one behind the other. The world stays.
    ///
    /// Where the database is being restored, the call ends as if memory were wanting. After an error the set is removed.
    pub fn copy_extents<D: Device>(
        &mut self,
        dev: &mut D,
        at: usize,
        staged: &mut Staged,
        extents: &[ExtentId],
    ) -> Result<(), Trouble>
        requires ready { IsReady self.old }
        requires inside { at < length self.old.hosting.states }
        requires there { HaveExtents self.old.hosting.stores.slots at extents.now }
        requires standing { D.tells → AreStanding (D.disk dev.old) self.old.hosting.stores }
        requires sound { staged.old.failed ≡ false }
        requires named { IsStagingFile staged.old.name }
        requires first { staged.old.log ≡ 0 }
        requires few { staged.old.extents + length extents.now < 2 ^ 32 }
        requires staged { D.tells → IsStaged (D.disk dev.old) staged.old }
        ensures ready { OnOk result (IsReady self.new) }
        ensures own { OnOk result (NamesSet (own_in self.old).staging self.old self.new) }
        ensures same { OnOk result (AreAsBefore self.old.hosting.stores at self.new.hosting.stores) }
        ensures counted { OnOk result (staged.new ≡ record staged.old { extents = staged.old.extents + length extents.now }) }
        ensures name { staged.new.name ≡ staged.old.name }
        ensures standing { D.tells → OnOk result (AreStanding (D.disk dev.new) self.new.hosting.stores) }
        ensures staged { D.tells → OnOk result (IsStaged (D.disk dev.new) staged.new) }
        ensures stands { D.tells → (w : World) → StandsFor (D.disk dev.old) self.old w → (set : Guid) → IsGuid set → staged.old.name ≡ staging_file set → IsApart w set → OnOk result (StandsFor (D.disk dev.new) self.new w) }
        ensures added { D.tells → (w : World) (db : Database) → StandsFor (D.disk dev.old) self.old w → slice_get w.databases at ≡ Some db → (before : List Extent) → HoldsParts (D.disk dev.old) staged.old before []
            → OnOk result ((told : Told) × IsToldOf w db told × HoldsCopies (D.disk dev.new) staged.new before told extents.now) }
        ensures crash { D.tells → (w : World) → StandsFor (D.disk dev.old) self.old w → Effect IsOurs (Covers w) (D.disk dev.old) (D.disk dev.new) }
        ensures touches { D.tells → TouchesOnly NoMedium (D.disk dev.old) (D.disk dev.new) }
        ensures trouble { IfErr result IsPassing }
        ensures cause { HasCause D.disk_faults D.tell_faults dev.old dev.new (IsErrOf result Trouble.Fault) }
    {
        self.hosting
            .copy_extents(self.alloc, dev, at, staged, extents)
    }

    /// Copies the records of the database at this place, which counts from 0, from the number `from` to below `to`, into a set behind what it has. The world stays.
    ///
    /// Where the live log doesn't hold these records, some of them wait, or the database is being restored, the call ends as if memory were wanting. After an error the set is removed.
    pub fn copy_log<D: Device>(
        &self,
        dev: &mut D,
        at: usize,
        staged: &mut Staged,
        from: Lsn,
        to: Lsn,
    ) -> Result<(), Trouble>
        requires ready { IsReady self.now }
        requires inside { at < length self.now.hosting.states }
        requires standing { D.tells → AreStanding (D.disk dev.old) self.now.hosting.stores }
        requires sound { staged.old.failed ≡ false }
        requires named { IsStagingFile staged.old.name }
        requires staged { D.tells → IsStaged (D.disk dev.old) staged.old }
        ensures counted { OnOk result (staged.new ≡ record staged.old { log = staged.new.log }) }
        ensures name { staged.new.name ≡ staged.old.name }
        ensures standing { D.tells → AreStanding (D.disk dev.new) self.now.hosting.stores }
        ensures staged { D.tells → OnOk result (IsStaged (D.disk dev.new) staged.new) }
        ensures stands { D.tells → (w : World) → StandsFor (D.disk dev.old) self.now w → (set : Guid) → IsGuid set → staged.old.name ≡ staging_file set → IsApart w set → StandsFor (D.disk dev.new) self.now w }
        ensures added { D.tells → (w : World) (db : Database) → StandsFor (D.disk dev.old) self.now w → slice_get w.databases at ≡ Some db → (extents : List Extent) (before : List ℕ) → HoldsParts (D.disk dev.old) staged.old extents before
            → OnOk result (HoldsLog (D.disk dev.new) staged.new extents before (log_of w.history db) from to) }
        ensures crash { D.tells → (w : World) → StandsFor (D.disk dev.old) self.now w → Effect IsOurs (Covers w) (D.disk dev.old) (D.disk dev.new) }
        ensures touches { D.tells → TouchesOnly NoMedium (D.disk dev.old) (D.disk dev.new) }
        ensures trouble { IfErr result IsPassing }
        ensures cause { HasCause D.disk_faults D.tell_faults dev.old dev.new (IsErrOf result Trouble.Fault) }
    {
        self.hosting.copy_log(self.alloc, dev, at, staged, from, to)
    }
}
