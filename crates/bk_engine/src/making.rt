// Media are made.
ghost use Rattle.std.specs.Prelude.{◌≡◌, ◌≤◌, ◌+◌, Option, None, Some, IfErr, IfOk, OnOk, IsErrOf};
ghost use Rattle.bk_archive.specs.Media.{KeepsMedia};
ghost use Rattle.bk_bytes.specs.Field.{AreBytes};
ghost use Rattle.bk_device.specs.Counts.{HasCause};
ghost use Rattle.bk_device.specs.Effects.{Effect};
ghost use Rattle.bk_device.specs.Troubles.{IsPassing};
ghost use Rattle.bk_hosting.specs.Hosting.{IsReady as AreReady};
ghost use Rattle.bk_machine.specs.Acts.{done, medium_made};
ghost use Rattle.bk_machine.specs.World.{World};
ghost use Rattle.bk_master.specs.Spelling.{IsShort};
ghost use Rattle.bk_stores.specs.Standing.{AreStanding};
ghost use Rattle.bk_world.specs.Medium.{medium_at};
ghost use Rattle.bk_engine.specs.Acts.{CutsAct};
ghost use Rattle.bk_engine.specs.Amid.{Amid};
ghost use Rattle.bk_engine.specs.Stands.{Covers, IsOurs, IsReady, NamesSet, StandsFor, own_in};
ghost use Rattle.bk_engine.specs.Touched.{IsAt, NoMedium, TouchesOnly};

use crate::engine::Engine;
use crate::staging::copied_sets;
use bk_archive::{make_medium, media_stay};
use bk_device::{Device, Trouble};
use bk_hosted::hosted_databases_follow_acts;
use bk_ids::Text;
use bk_machine::acts_keep_worlds_sound;
use bk_master::Own;
use std::alloc::{AllocError, Global};

// A path is bytes.
pub(crate) fn path_law(path: &Text)
    ensures { AreBytes path.now }
{
    let _path = path.as_str();
}

// A path of its own, with the same bytes.
fn copy_path(alloc: Global, path: &Text) -> Result<Text, AllocError>
    ensures copy { IfOk result (λ copy. copy ≡ path.now) }
{
    let copy = String::from_str(alloc, path.as_str())?;
    Ok(Text::new(copy))
}

impl Engine {
    // The record names this medium as being made, or none.
    fn name_making<D: Device>(&mut self, dev: &mut D, making: Option<Text>) -> Result<(), Trouble>
        requires ready { AreReady self.old.hosting }
        requires short { IsShort making }
        requires standing { D.tells → AreStanding (D.disk dev.old) self.old.hosting.stores }
        ensures ready { OnOk result (AreReady self.new.hosting) }
        ensures own { OnOk result (own_in self.new ≡ record (own_in self.old) { making = making }) }
        ensures same { self.new ≡ record self.old { hosting = self.new.hosting } }
        ensures standing { D.tells → OnOk result (AreStanding (D.disk dev.new) self.new.hosting.stores) }
        ensures stands { D.tells → (w : World) → Amid (D.disk dev.old) self.old.hosting w → KeepsMedia w making (D.disk dev.old).files → OnOk result (Amid (D.disk dev.new) self.new.hosting w) }
        ensures crash { D.tells → (w : World) → Amid (D.disk dev.old) self.old.hosting w → KeepsMedia w making (D.disk dev.old).files → Effect IsOurs (Covers w) (D.disk dev.old) (D.disk dev.new) }
        ensures touches { D.tells → TouchesOnly NoMedium (D.disk dev.old) (D.disk dev.new) }
        ensures trouble { IfErr result IsPassing }
        ensures cause { HasCause D.disk_faults D.tell_faults dev.old dev.new (IsErrOf result Trouble.Fault) }
    {
        self.hosting.at_rest(dev);
        let own = self.hosting.own();
        let copying = copied_sets(self.alloc, own.copying.as_slice())?;
        let next = Own {
            number: own.number,
            counter: own.counter,
            making,
            staging: own.staging,
            copying,
        };
        self.hosting.put_own(self.alloc, dev, next)
    }

    // Makes the medium that the record names, where there is none.
    fn make_named<D: Device>(&self, dev: &mut D, path: &Text) -> Result<(), Trouble>
        requires standing { D.tells → AreStanding (D.disk dev.old) self.now.hosting.stores }
        ensures standing { D.tells → AreStanding (D.disk dev.new) self.now.hosting.stores }
        ensures stands { D.tells → (w : World) → Amid (D.disk dev.old) self.now.hosting w → (own_in self.now).making ≡ Some path.now → w.counter + 1 ≤ (own_in self.now).counter → medium_at w.media path.now ≡ None
            → OnOk result (Amid (D.disk dev.new) self.now.hosting (done w (medium_made path.now)) × KeepsMedia (done w (medium_made path.now)) None (D.disk dev.new).files) }
        ensures crash { D.tells → (w : World) → Amid (D.disk dev.old) self.now.hosting w → (own_in self.now).making ≡ Some path.now → w.counter + 1 ≤ (own_in self.now).counter → medium_at w.media path.now ≡ None
            → Effect IsOurs (CutsAct w (medium_made path.now)) (D.disk dev.old) (D.disk dev.new) }
        ensures touches { D.tells → TouchesOnly (IsAt path.now) (D.disk dev.old) (D.disk dev.new) }
        ensures trouble { IfErr result IsPassing }
        ensures cause { HasCause D.disk_faults D.tell_faults dev.old dev.new (IsErrOf result Trouble.Fault) }
    {
        hosted_databases_follow_acts();
        path_law(path);
        self.hosting.at_rest(dev);
        make_medium(self.alloc, dev, path)
    }

    /// Makes a medium without sets at a path of 1 to 100 bytes, where there is none. A crash leaves the world before it, but for what waited, or the one behind it.
    ///
    /// Only `Fault` and `NoMemory` are answered. Where all GUIDs are used up, the call ends as if memory were wanting.
    pub fn make_medium<D: Device>(&mut self, dev: &mut D, path: &Text) -> Result<(), Trouble>
        requires ready { IsReady self.old }
        requires short { IsShort (Some path.now) }
        requires standing { D.tells → AreStanding (D.disk dev.old) self.old.hosting.stores }
        ensures ready { OnOk result (IsReady self.new) }
        ensures own { OnOk result (NamesSet (own_in self.old).staging self.old self.new) }
        ensures standing { D.tells → OnOk result (AreStanding (D.disk dev.new) self.new.hosting.stores) }
        ensures stands { D.tells → (w : World) → StandsFor (D.disk dev.old) self.old w → medium_at w.media path.now ≡ None → OnOk result (StandsFor (D.disk dev.new) self.new (done w (medium_made path.now))) }
        ensures crash { D.tells → (w : World) → StandsFor (D.disk dev.old) self.old w → medium_at w.media path.now ≡ None → Effect IsOurs (CutsAct w (medium_made path.now)) (D.disk dev.old) (D.disk dev.new) }
        ensures touches { D.tells → TouchesOnly (IsAt path.now) (D.disk dev.old) (D.disk dev.new) }
        ensures trouble { IfErr result IsPassing }
        ensures cause { HasCause D.disk_faults D.tell_faults dev.old dev.new (IsErrOf result Trouble.Fault) }
    {
        acts_keep_worlds_sound();
        media_stay();
        path_law(path);
        self.reserve(dev, 1)?;
        let making = copy_path(self.alloc, path)?;
        self.name_making(dev, Some(making))?;
        self.make_named(dev, path)?;
        self.name_making(dev, None)?;
        self.drawn += 1;
        Ok(())
    }
}
