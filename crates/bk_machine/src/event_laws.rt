ghost use Rattle.std.specs.Prelude.{◌≡◌, true};
ghost use Rattle.std.specs.List.{AllZip};
ghost use Rattle.bk_machine.specs.Events.{Happen, Happens};
ghost use Rattle.bk_machine.specs.Sound.{AreIdle, IsSound};
ghost use Rattle.bk_machine.specs.World.{Database, World, log_of};
ghost use Rattle.bk_world.specs.Lines.{Grew};

/// Events keep sound worlds sound, idle ones idle and closed ones closed, however many happen. Histories only grow, so paths
/// read as before; and each database has the log that it had.
pub fn events_keep_worlds_sound()
    ensures one { (old new : World) → IsSound old → Happens old new → IsSound new }
    ensures many { (old new : World) → IsSound old → Happen old new → IsSound new }
    ensures idle { (old new : World) → AreIdle old → Happen old new → AreIdle new }
    ensures closed { (old new : World) → old.closed ≡ true → Happen old new → new.closed ≡ true }
    ensures grows { (old new : World) → IsSound old → Happen old new → Grew old.history new.history }
    ensures logs { (old new : World) → IsSound old → Happen old new
        → AllZip (λ (before after : Database). log_of new.history after ≡ log_of old.history before) old.databases new.databases }
{}
