// An instance is loaded.
ghost use Rattle.std.specs.Prelude.{◌≡◌, ◌≢◌, ℕ, None, IfOk, OnOk, IsErrOf, MatchResult};
ghost use Rattle.bk_device.specs.Calls.{ChangesNothing};
ghost use Rattle.bk_device.specs.Counts.{HasCause};
ghost use Rattle.bk_device.specs.Disk.{IsSettled};
ghost use Rattle.bk_device.specs.Effects.{Effect};
ghost use Rattle.bk_machine.specs.World.{World, opened};
ghost use Rattle.bk_master.specs.Master.{IsMade, IsNoInstance};
ghost use Rattle.bk_stores.specs.Quiet.{AreQuiet};
ghost use Rattle.bk_stores.specs.Standing.{AreStanding};
ghost use Rattle.bk_engine.specs.Loading.{Stands};
ghost use Rattle.bk_engine.specs.Stands.{IsOurs, IsReady, StandsFor, own_in};
ghost use Rattle.bk_engine.specs.Touched.{IsMadeAt, IsPath, TouchesOnly};

use crate::engine::Engine;
use crate::finishing::finish;
use bk_device::Device;
use bk_hosted::hosted_databases_follow_acts;
use bk_hosting::Hosting;
use bk_machine::runs_begin_and_end_in_sound_worlds;
use bk_stores::LoadError;
use std::alloc::Global;
use std::thread::Threads;

impl Engine {
    /// Loads the instance whose files these are, or makes one with this number where none is made: a run begins. What was pending is undone, what was being made, removed or written is finished or
    /// removed; where there is nothing of this, the files stay. A crash leaves files that stand for the same world.
    ///
    /// `NotAnInstance` comes only where a made instance has no control, `Broken` only where the files stand for no world; files may be changed at `NoMemory`.
    pub fn load<R: Threads + Sync, D: Device>(
        rt: &R,
        alloc: Global,
        dev: &mut D,
        number: u64,
    ) -> Result<Engine, LoadError>
        ensures ready { IfOk result IsReady }
        ensures none { IfOk result (λ e. (own_in e).staging ≡ None) }
        ensures exact { IfOk result (λ e. (own_in e).counter ≡ e.drawn) }
        ensures standing { D.tells → IfOk result (λ e. AreStanding (D.disk dev.new) e.hosting.stores) }
        ensures stands { D.tells → IsSettled (D.disk dev.old) → (w : World) → Stands number (D.disk dev.old).files w → IfOk result (λ e. StandsFor (D.disk dev.new) e (opened w)) }
        ensures crash { D.tells → IsSettled (D.disk dev.old) → (w : World) → Stands number (D.disk dev.old).files w → Effect IsOurs (λ image. Stands number image w) (D.disk dev.old) (D.disk dev.new) }
        ensures touches { D.tells → TouchesOnly IsPath (D.disk dev.old) (D.disk dev.new) }
        ensures spares { D.tells → IsSettled (D.disk dev.old) → (w : World) (is : Stands number (D.disk dev.old).files w) → TouchesOnly (IsMadeAt is.own.making) (D.disk dev.old) (D.disk dev.new) }
        ensures made { D.tells → OnOk result (IsMade (D.disk dev.new).files) }
        ensures no_instance { D.tells → IsNoInstance (D.disk dev.old).files → MatchResult result (λ _. ⊥) (λ e. e ≢ LoadError.Broken) }
        ensures untouched { D.tells → IsErrOf result LoadError.NotAnInstance → ChangesNothing (D.disk dev.old) (D.disk dev.new) }
        ensures still { D.tells → IsSettled (D.disk dev.old) → AreQuiet (D.disk dev.old).files → OnOk result (ChangesNothing (D.disk dev.old) (D.disk dev.new)) }
        ensures not_an_instance { D.tells → IsErrOf result LoadError.NotAnInstance → IsNoInstance (D.disk dev.old).files }
        ensures broken { D.tells → IsErrOf result LoadError.Broken → IsSettled (D.disk dev.old) → (w : World) → Stands number (D.disk dev.old).files w → ⊥ }
        ensures cause { HasCause D.disk_faults D.tell_faults dev.old dev.new (IsErrOf result LoadError.Fault) }
    {
        hosted_databases_follow_acts();
        runs_begin_and_end_in_sound_worlds();
        let mut hosting = Hosting::load(rt, alloc, dev, number)?;
        finish(alloc, dev, &mut hosting)?;
        let drawn = hosting.own().counter;
        Ok(Engine {
            alloc,
            hosting,
            drawn,
            session: 1,
            sessions: Vec::new(alloc),
        })
    }
}
