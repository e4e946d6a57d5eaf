// Between two calls.
ghost use Rattle.std.specs.Prelude.{◌≡◌};
ghost use Rattle.bk_device.specs.Effects.{Effect};
ghost use Rattle.bk_machine.specs.World.{World};
ghost use Rattle.bk_engine.specs.Stands.{Covers, IsOurs, IsReady, StandsFor};

use crate::engine::Engine;
use bk_device::Device;

impl Engine {
    /// What a crash may leave between two calls: the world, but for what waits in memory. Does nothing.
    pub fn at_rest<D: Device>(&self, dev: &mut D)
        requires ready { IsReady self.now }
        ensures same { dev.new ≡ dev.old }
        ensures crash { D.tells → (w : World) → StandsFor (D.disk dev.old) self.now w → Effect IsOurs (Covers w) (D.disk dev.old) (D.disk dev.new) }
    {
        self.hosting.at_rest(dev);
    }
}
