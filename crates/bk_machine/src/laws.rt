ghost use Rattle.std.specs.Prelude.{◌≤◌, ℕ};
ghost use Rattle.bk_machine.specs.Sound.{AreIdle, IsSound, IsWhole};
ghost use Rattle.bk_machine.specs.World.{World, empty_world, ended, opened, restarted};

/// The world of an instance that has nothing yet is sound, and nothing is open in it.
#[tactic(auto, unfolding(crate::specs::World::empty_world))]
pub fn empty_worlds_are_sound()
    ensures sound { (instance : ℕ) → IsSound (empty_world instance) }
    ensures idle { (instance : ℕ) → AreIdle (empty_world instance) }
{}

/// A run begins in a sound world, and ends in one. Where nothing was open, nothing is then.
pub fn runs_begin_and_end_in_sound_worlds()
    ensures begins { (w : World) → IsSound w → IsSound (opened w) }
    ensures ends { (w : World) → IsSound w → IsSound (ended w) }
    ensures begins_idle { (w : World) → AreIdle w → AreIdle (opened w) }
    ensures ends_idle { (w : World) → AreIdle w → AreIdle (ended w) }
{}

/// A crash that loses nothing of a sound world leaves a sound one, whatever its counter, if it isn't less. Where nothing was open, nothing is then.
pub fn restarts_keep_worlds_sound()
    ensures sound { (counter : ℕ) (w : World) → IsSound w → w.counter ≤ counter → IsSound (restarted counter w) }
    ensures whole { (counter : ℕ) (w : World) → IsWhole w → w.counter ≤ counter → IsWhole (restarted counter w) }
    ensures idle { (counter : ℕ) (w : World) → AreIdle w → AreIdle (restarted counter w) }
{}
