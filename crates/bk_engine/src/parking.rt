// Sets that take the place of databases.
ghost use Rattle.std.specs.Prelude.{◌≡◌, None, IfErr, OnOk, IsErrOf};
ghost use Rattle.bk_device.specs.Counts.{HasCause};
ghost use Rattle.bk_device.specs.Effects.{Effect};
ghost use Rattle.bk_device.specs.Troubles.{IsPassing};
ghost use Rattle.bk_known.specs.Known.{KeepsKnown};
ghost use Rattle.bk_machine.specs.Acts.{done, replaced};
ghost use Rattle.bk_machine.specs.MayDo.{MayDo};
ghost use Rattle.bk_machine.specs.World.{World};
ghost use Rattle.bk_stores.specs.Standing.{AreStanding};
ghost use Rattle.bk_engine.specs.Acts.{CutsAct, IsSetKnown};
ghost use Rattle.bk_engine.specs.Stands.{IsOurs, IsReady, NamesSet, StandsFor, own_in};
ghost use Rattle.bk_engine.specs.Touched.{NoMedium, TouchesOnly};

use crate::engine::Engine;
use bk_archive::acts_keep_media;
use bk_device::{Device, Trouble};
use bk_hosted::{hosted_databases_follow_restores, parked_points};
use bk_known::Known;
use bk_machine::acts_keep_worlds_sound;
use bk_world::Header;

impl Engine {
    /// The set with this header, of which this is known, takes the place of the database of its name, or comes behind the others; its files aren't restored yet. A crash leaves the world before it, but for what
    /// waited, or the one behind it.
    ///
    /// Only `Fault` and `NoMemory` are answered. Where a new one would be the seventeenth database, the call ends as if memory were wanting.
    pub fn park<D: Device>(
        &mut self,
        dev: &mut D,
        known: Known,
        header: &Header,
    ) -> Result<(), Trouble>
        requires ready { IsReady self.old }
        requires keeps { KeepsKnown known }
        requires standing { D.tells → AreStanding (D.disk dev.old) self.old.hosting.stores }
        ensures ready { OnOk result (IsReady self.new) }
        ensures own { OnOk result (NamesSet (own_in self.old).staging self.old self.new) }
        ensures standing { D.tells → OnOk result (AreStanding (D.disk dev.new) self.new.hosting.stores) }
        ensures stands { D.tells → (w : World) → StandsFor (D.disk dev.old) self.old w → MayDo w (replaced known.spec.name header.now) → IsSetKnown w header.now known
            → OnOk result (StandsFor (D.disk dev.new) self.new (done w (replaced known.spec.name header.now))) }
        ensures crash { D.tells → (w : World) → StandsFor (D.disk dev.old) self.old w → MayDo w (replaced known.spec.name header.now) → IsSetKnown w header.now known
            → Effect IsOurs (CutsAct w (replaced known.spec.name header.now)) (D.disk dev.old) (D.disk dev.new) }
        ensures touches { D.tells → TouchesOnly NoMedium (D.disk dev.old) (D.disk dev.new) }
        ensures trouble { IfErr result IsPassing }
        ensures cause { HasCause D.disk_faults D.tell_faults dev.old dev.new (IsErrOf result Trouble.Fault) }
    {
        acts_keep_media();
        acts_keep_worlds_sound();
        hosted_databases_follow_restores();
        self.hosting.at_rest(dev);
        let points = parked_points(self.alloc, header)?;
        match self.hosting.find(known.spec.name.as_str()) {
            Some(at) => self.hosting.park_at(self.alloc, dev, at, known, points),
            None => self.hosting.park(self.alloc, dev, known, points),
        }
    }
}
