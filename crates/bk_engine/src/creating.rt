// Databases are made.
ghost use Rattle.std.specs.Prelude.{◌≡◌, ◌≤◌, ◌∷◌, [], IfErr, IfOk, OnOk, IsErrOf};
ghost use Rattle.bk_device.specs.Counts.{HasCause};
ghost use Rattle.bk_device.specs.Effects.{Effect};
ghost use Rattle.bk_device.specs.Troubles.{IsPassing};
ghost use Rattle.bk_hosted.specs.Hosted.{created_spec};
ghost use Rattle.bk_machine.specs.Acts.{created, done};
ghost use Rattle.bk_machine.specs.MayDo.{MayDo};
ghost use Rattle.bk_machine.specs.World.{World};
ghost use Rattle.bk_store.specs.Making.{MayDescribe};
ghost use Rattle.bk_stores.specs.Standing.{AreStanding};
ghost use Rattle.bk_engine.specs.Acts.{CutsAct, HaveNoFileOf};
ghost use Rattle.bk_engine.specs.Stands.{IsOurs, IsReady, NamesSet, StandsFor, own_in};
ghost use Rattle.bk_engine.specs.Touched.{NoMedium, TouchesOnly};

use crate::engine::Engine;
use bk_archive::acts_keep_media;
use bk_device::{Device, Trouble};
use bk_hosted::hosted_databases_follow_acts;
use bk_ids::{Branch, Path};
use bk_known::DatabaseSpec;
use bk_machine::acts_keep_worlds_sound;
use bk_world::Creation;
use std::alloc::{AllocError, Global};

// The description of a database that is made so.
fn spec_of(alloc: Global, creation: Creation) -> Result<DatabaseSpec, AllocError>
    ensures { IfOk result (λ spec. spec ≡ created_spec creation) }
{
    let first = Branch {
        guid: creation.branch,
        start: 1,
    };
    Ok(DatabaseSpec {
        path: Path::new(vec![in alloc; first]?),
        name: creation.name,
        family: creation.family,
        storage: creation.storage,
    })
}

impl Engine {
    /// Makes a database, with its first record; its pages are kept in so many frames, at least one. Where no database has a data file at one of its paths, a crash leaves the world before it, but for what
    /// waited, or the one behind it.
    ///
    /// Only `Fault` and `NoMemory` are answered: `NoMemory` too where there are 16 databases, one has a data file at one of these paths, or all GUIDs are used up.
    pub fn create<D: Device>(
        &mut self,
        dev: &mut D,
        creation: Creation,
        frames: usize,
    ) -> Result<(), Trouble>
        requires ready { IsReady self.old }
        requires some { 1 ≤ frames }
        requires may { MayDescribe (created_spec creation) }
        requires standing { D.tells → AreStanding (D.disk dev.old) self.old.hosting.stores }
        ensures ready { OnOk result (IsReady self.new) }
        ensures own { OnOk result (NamesSet (own_in self.old).staging self.old self.new) }
        ensures standing { D.tells → OnOk result (AreStanding (D.disk dev.new) self.new.hosting.stores) }
        ensures stands { D.tells → (w : World) → StandsFor (D.disk dev.old) self.old w → MayDo w (created creation) → HaveNoFileOf w creation → OnOk result (StandsFor (D.disk dev.new) self.new (done w (created creation))) }
        ensures crash { D.tells → (w : World) → StandsFor (D.disk dev.old) self.old w → MayDo w (created creation) → HaveNoFileOf w creation → Effect IsOurs (CutsAct w (created creation)) (D.disk dev.old) (D.disk dev.new) }
        ensures touches { D.tells → TouchesOnly NoMedium (D.disk dev.old) (D.disk dev.new) }
        ensures trouble { IfErr result IsPassing }
        ensures cause { HasCause D.disk_faults D.tell_faults dev.old dev.new (IsErrOf result Trouble.Fault) }
    {
        acts_keep_media();
        acts_keep_worlds_sound();
        hosted_databases_follow_acts();
        self.reserve(dev, 2)?;
        let time = creation.time;
        let branch = creation.branch;
        let spec = spec_of(self.alloc, creation)?;
        self.hosting
            .create(self.alloc, dev, spec, time, branch, frames)?;
        self.drawn += 2;
        Ok(())
    }
}
