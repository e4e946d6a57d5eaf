// Sessions.
ghost use Rattle.std.specs.Prelude.{◌≡◌, OnOk};
ghost use Rattle.bk_machine.specs.Acts.{readied, seated, turned};
ghost use Rattle.bk_engine.specs.Acts.{DoesAct};
ghost use Rattle.bk_engine.specs.Stands.{IsReady};

use crate::engine::Engine;
use bk_device::Device;
use bk_ids::Text;
use bk_kept::{set_current, set_starts};
use bk_machine::acts_keep_worlds_sound;
use std::alloc::AllocError;

impl Engine {
    /// This session, from 1, is the current one from now on. Nothing is written.
    pub fn seat<D: Device>(&mut self, dev: &mut D, session: u8)
        ensures same { dev.new ≡ dev.old }
        ensures hosting { self.new.hosting ≡ self.old.hosting }
        ensures drawn { self.new.drawn ≡ self.old.drawn }
        ensures ready { IsReady self.old → IsReady self.new }
        ensures stands { D.tells → DoesAct self.old (D.disk dev.old) (seated session) self.new (D.disk dev.new) }
    {
        acts_keep_worlds_sound();
        self.session = session;
    }

    /// The current session's current database is the one of this name from now on, or there is none. Nothing is written.
    pub fn turn<D: Device>(&mut self, dev: &mut D, name: Option<Text>) -> Result<(), AllocError>
        ensures same { dev.new ≡ dev.old }
        ensures hosting { self.new.hosting ≡ self.old.hosting }
        ensures drawn { self.new.drawn ≡ self.old.drawn }
        ensures ready { IsReady self.old → IsReady self.new }
        ensures stands { D.tells → OnOk result (DoesAct self.old (D.disk dev.old) (turned name) self.new (D.disk dev.new)) }
    {
        acts_keep_worlds_sound();
        set_current(&mut self.sessions, self.session, name)
    }

    /// The current session's next backup only starts from now on, or it doesn't any more. Nothing is written.
    pub fn ready_backup<D: Device>(&mut self, dev: &mut D, starts: bool) -> Result<(), AllocError>
        ensures same { dev.new ≡ dev.old }
        ensures hosting { self.new.hosting ≡ self.old.hosting }
        ensures drawn { self.new.drawn ≡ self.old.drawn }
        ensures ready { IsReady self.old → IsReady self.new }
        ensures stands { D.tells → OnOk result (DoesAct self.old (D.disk dev.old) (readied starts) self.new (D.disk dev.new)) }
    {
        acts_keep_worlds_sound();
        set_starts(&mut self.sessions, self.session, starts)
    }
}
