// Databases say something.
ghost use Rattle.std.specs.Prelude.{◌≡◌, List, IfErr, OnOk, IsErrOf};
ghost use Rattle.std.specs.List.{AllByRecursion};
ghost use Rattle.bk_device.specs.Counts.{HasCause};
ghost use Rattle.bk_device.specs.Effects.{Effect};
ghost use Rattle.bk_device.specs.Troubles.{IsPassing};
ghost use Rattle.bk_ids.specs.declared.record.Rec.{Rec as Recs};
ghost use Rattle.bk_machine.specs.Acts.{done, logged};
ghost use Rattle.bk_machine.specs.World.{World};
ghost use Rattle.bk_record.specs.Spelling.{KeepsLimits};
ghost use Rattle.bk_stores.specs.Standing.{AreStanding};
ghost use Rattle.bk_world.specs.Records.{Said};
ghost use Rattle.bk_ids.specs.declared.guid.Guid.{Guid};
ghost use Rattle.bk_volume.specs.Names.{staging_file};
ghost use Rattle.bk_engine.specs.Acts.{CutsSaying, MaySayIn};
ghost use Rattle.bk_engine.specs.Stands.{IsOurs, IsReady, NamesSet, StandsFor, own_in};
ghost use Rattle.bk_engine.specs.Touched.{NoMedium, TouchesOnly};

use crate::engine::Engine;
use bk_device::{Device, Trouble};
use bk_hosted::hosted_databases_follow_acts;
use bk_ids::{Rec, Sequence};
use bk_machine::{acts_keep_worlds_sound, sets_that_stay};
use bk_world::Open;

impl Engine {
    /// The database of this name says these records, and then these transactions are open. Where it is to last, all that it has said is durable then; else it waits in memory. A crash leaves the world before it,
    /// but for what waited, or the one behind a front of what is said.
    ///
    /// Only `Fault` and `NoMemory` are answered: `NoMemory` too where there is no such database, it is being restored, or may not say this.
    pub fn log<D: Device>(
        &mut self,
        dev: &mut D,
        name: &str,
        records: &[Rec],
        transactions: Sequence<Open>,
        lasting: bool,
    ) -> Result<(), Trouble>
        requires ready { IsReady self.old }
        requires limits { AllByRecursion (λ (r : Recs). KeepsLimits r.body) records.now }
        requires standing { D.tells → AreStanding (D.disk dev.old) self.old.hosting.stores }
        ensures ready { OnOk result (IsReady self.new) }
        ensures own { OnOk result (NamesSet (own_in self.old).staging self.old self.new) }
        ensures standing { D.tells → OnOk result (AreStanding (D.disk dev.new) self.new.hosting.stores) }
        ensures stands { D.tells → (w : World) (said : List Said) → StandsFor (D.disk dev.old) self.old w → MaySayIn w name.now said transactions records.now lasting → OnOk result (StandsFor (D.disk dev.new) self.new (done w (logged name.now said transactions))) }
        ensures crash { D.tells → (w : World) (said : List Said) → StandsFor (D.disk dev.old) self.old w → MaySayIn w name.now said transactions records.now lasting → Effect IsOurs (CutsSaying w name.now said transactions) (D.disk dev.old) (D.disk dev.new) }
        ensures touches { D.tells → TouchesOnly NoMedium (D.disk dev.old) (D.disk dev.new) }
        ensures sets { D.tells → (set : Guid) → (D.disk dev.new).files (staging_file set) ≡ (D.disk dev.old).files (staging_file set) }
        ensures trouble { IfErr result IsPassing }
        ensures cause { HasCause D.disk_faults D.tell_faults dev.old dev.new (IsErrOf result Trouble.Fault) }
    {
        acts_keep_worlds_sound();
        hosted_databases_follow_acts();
        sets_that_stay();
        let Some(at) = self.hosting.find(name) else {
            self.hosting.at_rest(dev);
            return Err(Trouble::NoMemory);
        };
        self.hosting
            .log(self.alloc, dev, at, records, transactions, lasting)
    }
}
