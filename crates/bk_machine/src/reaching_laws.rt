ghost use Rattle.bk_machine.specs.Reached.{IsReached};
ghost use Rattle.bk_machine.specs.Sound.{AreIdle, IsSound};
ghost use Rattle.bk_machine.specs.World.{World};

/// Every world that an instance comes to, by any runs, crashes and events, is sound, and nothing is open in it.
pub fn reached_worlds_are_sound()
    ensures sound { (w : World) → IsReached w → IsSound w }
    ensures idle { (w : World) → IsReached w → AreIdle w }
{}
