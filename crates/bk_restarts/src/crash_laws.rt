ghost use Rattle.std.specs.Prelude.{◌≡◌, ℕ, List, [], ◌∷◌, ◌++◌};
ghost use Rattle.bk_device.specs.Disk.{Files};
ghost use Rattle.bk_engine.specs.Loading.{Stands};
ghost use Rattle.bk_engine.specs.Stands.{IsOurs};
ghost use Rattle.bk_items.specs.declared.item.ScriptEntry.{ScriptEntry};
ghost use Rattle.bk_machine.specs.Acts.{Act};
ghost use Rattle.bk_machine.specs.Closing.{AreClosing, closed_by};
ghost use Rattle.bk_machine.specs.Crash.{Leaves};
ghost use Rattle.bk_machine.specs.Outcome.{Outcome};
ghost use Rattle.bk_machine.specs.Run.{IsRun, behind_all};
ghost use Rattle.bk_machine.specs.Sound.{AreIdle, IsSound};
ghost use Rattle.bk_machine.specs.World.{World, opened};
ghost use Rattle.bk_restarts.specs.Crashes.{CrashLaws, LeavesEnded, LeavesFrom};

use bk_hosted::{acts_tell_last, crashes_leave_settled_fronts, what_waits_may_be_lost};
use bk_machine::{
    closings_are_cut_between_acts, closings_are_cut_in_whole_worlds, runs_are_closed,
    runs_are_cut_between_acts, runs_begin_and_end_in_sound_worlds, runs_keep_worlds_sound,
};

/// Let a run from a sound world, or its closing, be cut inside of a statement, and let files hold what is left there, but for what
/// waited in memory. They stand for a world that a crash may leave.
pub fn crashes_leave_files_that_stand()
    ensures runs { (number : ℕ) (old : World) (statements : List ScriptEntry) (moments : List ℕ) (outcomes : List Outcome)
        → IsSound old → IsRun old statements moments outcomes → LeavesFrom number old outcomes }
    ensures closings { (number : ℕ) (old : World) (statements : List ScriptEntry) (moments : List ℕ) (outcomes : List Outcome) (acts : List Act)
        → IsSound old → IsRun old statements moments outcomes → AreClosing (behind_all old outcomes) acts → LeavesFrom number old (outcomes ++ closed_by acts ∷ []) }
{
    acts_tell_last();
    closings_are_cut_between_acts();
    closings_are_cut_in_whole_worlds();
    crashes_leave_settled_fronts();
    runs_are_cut_between_acts();
    runs_keep_worlds_sound();
    what_waits_may_be_lost();
}

/// Nothing is open in a world for which files stand, and so do files that agree with them under our names. They stand for a world
/// that a crash may leave of a run from there in which nothing is done yet; and where they stand for the world in which a run has
/// ended, for one that a crash may leave of it.
pub fn runs_begin_where_files_stand()
    ensures same { (number : ℕ) (w : World) (files image : Files) → ((name : List ℕ) → IsOurs name → image name ≡ files name) → Stands number files w → Stands number image w }
    ensures idle { (number : ℕ) (w : World) (files : Files) → Stands number files w → AreIdle w }
    ensures begins { (number : ℕ) (w : World) (image : Files) → Stands number image w → (left : World) × Leaves (opened w) [] 0 left × Stands number image left }
    ensures ends { (number : ℕ) (old : World) (statements : List ScriptEntry) (moments : List ℕ) (outcomes : List Outcome) (acts : List Act)
        → IsSound old → IsRun old statements moments outcomes → AreClosing (behind_all old outcomes) acts → LeavesEnded number old outcomes acts }
{
    closings_are_cut_between_acts();
    closings_are_cut_in_whole_worlds();
    runs_are_cut_between_acts();
    runs_begin_and_end_in_sound_worlds();
    runs_keep_worlds_sound();
}

/// Files that a crash leaves of a run, or of its closing, stand for a world that the machine's crash may leave. Each run may be closed.
pub fn crashes_leave_worlds()
    ensures { CrashLaws }
{
    crashes_leave_files_that_stand();
    runs_are_closed();
    runs_begin_where_files_stand();
    runs_keep_worlds_sound();
}
