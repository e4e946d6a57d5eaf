// An instance.
ghost use Rattle.bk_engine.specs.Stands.{Kept};

use bk_hosting::Hosting;
use bk_kept::Session;
use std::alloc::Global;
use std::marker::Model;

/// An instance: the databases that it hosts on its device, the GUIDs that it has drawn, and its sessions.
///
/// Once a call that took the value by `&mut` has answered an error it is no longer used.
#[derive(Drop)]
pub struct Engine {
    // where its memory comes from
    pub(crate) alloc: Global,
    pub(crate) hosting: Hosting,
    // the low number of the GUID that is drawn next
    pub(crate) drawn: u64,
    // the current session
    pub(crate) session: u8,
    pub(crate) sessions: Vec<Session>,
}

impl Model for Engine {
    ghost Value = { Kept };

    ghost view = { λ e. record { hosting = e.hosting; drawn = e.drawn; session = e.session; sessions = e.sessions.items } };
}

impl Engine {
    /// Where its memory comes from.
    pub fn alloc(&self) -> Global {
        self.alloc
    }
}
