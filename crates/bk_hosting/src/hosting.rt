// The databases that an instance hosts.
ghost use Rattle.bk_hosting.specs.Hosting.{Kept};

use bk_ids::Sequence;
use bk_known::Known;
use bk_machine::Job;
use bk_points::Points;
use bk_stores::Stores;
use bk_world::Open;
use std::marker::Model;

/// What an instance keeps of a database beside its store.
pub struct State {
    /// The points of its log, its base, its status and its units of restore.
    pub points: Points,
    /// The backup that runs beside the sessions.
    pub job: Option<Job>,
    /// What is open in it, in the order in which it began.
    pub transactions: Sequence<Open>,
    /// What is known of it as of its end, while it is being restored: its store isn't open then.
    pub known: Option<Known>,
}

impl Drop for State {
    fn drop(self) {
        let State {
            points: _,
            job: _,
            transactions: _,
            known: _,
        } = self;
    }
}

/// The databases of an instance on its device, in their order: each an open store, and what is kept beside it; of one that is being restored only that.
///
/// Once a call that took the value by `&mut` has answered an error it is no longer used.
#[derive(Drop)]
pub struct Hosting {
    pub(crate) stores: Stores,
    pub(crate) states: Vec<State>,
}

impl Model for Hosting {
    ghost Value = { Kept };

    ghost view = { λ h. record { stores = h.stores; states = h.states.items } };
}
