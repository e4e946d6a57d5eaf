// Databases that are brought up of a set on a medium.
ghost use Rattle.std.specs.Prelude.{◌≡◌, OnOk, IsErrOf};
ghost use Rattle.bk_archive.specs.Media.{IsMediumFile};
ghost use Rattle.bk_device.specs.Counts.{HasCause};
ghost use Rattle.bk_device.specs.Effects.{Effect};
ghost use Rattle.bk_header.specs.Conditions.{IsHeader};
ghost use Rattle.bk_machine.specs.Acts.{done_all};
ghost use Rattle.bk_machine.specs.World.{World};
ghost use Rattle.bk_stores.specs.Standing.{AreStanding};
ghost use Rattle.bk_engine.specs.Bringing.{CutsActs, IsSetOn, Laws, MayComeUp, MovesOnly, coming_up};
ghost use Rattle.bk_engine.specs.Stands.{IsOurs, IsReady, NamesSet, StandsFor, own_in};
ghost use Rattle.bk_engine.specs.Touched.{NoMedium, TouchesOnly};

use crate::coming::{Coming, coming_of};
use crate::engine::Engine;
use bk_archive::acts_keep_media;
use bk_carried::{carried_sets_suffice, extents_lie_in_order};
use bk_device::{Device, Trouble};
use bk_hosted::hosted_databases_follow_restores;
use bk_ids::{Body, Guid, Lsn, Rec};
use bk_machine::acts_keep_worlds_sound;
use bk_volume::{Medium, StoredSet};
use bk_world::Header;
use std::thread::Threads;

// What the laws of the crates below say of sets that bring databases up.
fn laws()
    ensures { Laws }
{
    acts_keep_media();
    acts_keep_worlds_sound();
    carried_sets_suffice();
    extents_lie_in_order();
    hosted_databases_follow_restores();
}

impl Engine {
    /// The set that was opened brings up the database of this name, whose place it has taken (`park`) under this header: its own, but for paths. The database is recovered at the set's end, on this branch, which
    /// a record with the number `last` names. A crash leaves the world before both acts, but for what waited, or the one behind both.
    ///
    /// `Broken` comes only where the set makes no such database, or a usable one has its data files.
    pub fn bring_up<R: Threads + Sync, D: Device>(
        &mut self,
        rt: &R,
        dev: &mut D,
        name: &str,
        medium: &Medium,
        stored: &StoredSet,
        header: &Header,
        branch: Guid,
        last: Lsn,
    ) -> Result<(), Trouble>
        requires ready { IsReady self.old }
        requires medium { IsMediumFile medium.now.name }
        requires moves { MovesOnly stored.now.header header.now }
        requires is_header { IsHeader header.now }
        requires standing { D.tells → AreStanding (D.disk dev.old) self.old.hosting.stores }
        ensures ready { OnOk result (IsReady self.new) }
        ensures own { OnOk result (NamesSet (own_in self.old).staging self.old self.new) }
        ensures standing { D.tells → OnOk result (AreStanding (D.disk dev.new) self.new.hosting.stores) }
        ensures stands { D.tells → (w : World) → StandsFor (D.disk dev.old) self.old w → IsSetOn (D.disk dev.old).files medium.now.name stored.now → MayComeUp w name.now header.now branch last
            → OnOk result (StandsFor (D.disk dev.new) self.new (done_all w (coming_up w name.now header.now branch))) }
        ensures crash { D.tells → (w : World) → StandsFor (D.disk dev.old) self.old w → IsSetOn (D.disk dev.old).files medium.now.name stored.now → MayComeUp w name.now header.now branch last
            → Effect IsOurs (CutsActs w (coming_up w name.now header.now branch)) (D.disk dev.old) (D.disk dev.new) }
        ensures touches { D.tells → TouchesOnly NoMedium (D.disk dev.old) (D.disk dev.new) }
        ensures broken { D.tells → IsErrOf result Trouble.Broken → (w : World) → StandsFor (D.disk dev.old) self.old w → IsSetOn (D.disk dev.old).files medium.now.name stored.now
            → MayComeUp w name.now header.now branch last → ⊥ }
        ensures cause { HasCause D.disk_faults D.tell_faults dev.old dev.new (IsErrOf result Trouble.Fault) }
    {
        laws();
        self.reserve(dev, 1)?;
        let Some(at) = self.hosting.find(name) else {
            return Err(Trouble::NoMemory);
        };
        let coming = coming_of(self.alloc, name, header, stored.tables(), branch)?;
        let Coming {
            files,
            known,
            points,
        } = coming;
        let checkpoint = header.checkpoint;
        let named = Rec {
            lsn: last,
            begin: 0,
            body: Body::Recovery { branch },
        };
        self.hosting.bring_up(
            rt, self.alloc, dev, at, medium, stored, files, checkpoint, &known, points, &named,
        )?;
        self.drawn += 1;
        Ok(())
    }
}
