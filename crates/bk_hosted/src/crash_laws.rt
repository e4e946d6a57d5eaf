ghost use Rattle.std.specs.Prelude.{◌≡◌, ◌≤◌, ℕ, ◌+◌, true, false, List, [], ◌∷◌, ◌++◌, map};
ghost use Rattle.std.specs.List.{AllByRecursion};
ghost use Rattle.bk_hosted.specs.Fronts.{AreFronts, IsFrontOf, SameRows, TellsLast, Waits, settling};
ghost use Rattle.bk_hosted.specs.Hosted.{Hosted, Hosts, database_of, is_up};
ghost use Rattle.bk_items.specs.declared.item.ScriptEntry.{ScriptEntry};
ghost use Rattle.bk_machine.specs.Acts.{Act};
ghost use Rattle.bk_machine.specs.Closing.{AreClosing, closed_by};
ghost use Rattle.bk_machine.specs.Crash.{CutsRun, Leaves, open_begins};
ghost use Rattle.bk_machine.specs.Machine.{May};
ghost use Rattle.bk_machine.specs.Outcome.{Outcome};
ghost use Rattle.bk_machine.specs.Run.{IsRun, behind_all};
ghost use Rattle.bk_machine.specs.Same.{SameMedia};
ghost use Rattle.bk_machine.specs.Sound.{IsSound};
ghost use Rattle.bk_machine.specs.World.{World};
ghost use Rattle.bk_world.specs.declared.transaction.Open.{Open};
ghost use Rattle.bk_world.specs.Cut.{is_among};
ghost use Rattle.bk_world.specs.Records.{Logged};
ghost use Rattle.bk_world.specs.SoundLogs.{NoLoadPends};

use bk_machine::{
    closings_are_cut_in_whole_worlds, crashes_keep_worlds_sound, crashes_leave_what_stays,
    fronts_may_stay, runs_are_cut_in_whole_worlds,
};

/// Let a run from a sound world, or its closing, be cut, and let fronts of the hosted databases be left there, behind which only is lost what was open before the statement or is of it. A crash may
/// leave a world that hosts these with all undone that is pending in them, whatever its counter within the bounds, with the same sets and rows of msdb.
pub fn crashes_leave_settled_fronts()
    ensures runs { (old : World) (statements : List ScriptEntry) (moments : List ℕ) (outcomes : List Outcome) (least : ℕ) (before cut whole : World) (hosted fronts : List Hosted) (counter : ℕ)
        → IsSound old → IsRun old statements moments outcomes → CutsRun old outcomes least before cut whole → Hosts cut hosted → AreFronts before hosted fronts
        → cut.counter ≤ counter → counter ≤ cut.counter + 1024
        → (left : World) × Leaves old outcomes least left × (left.counter ≡ counter) × Hosts left (map settling fronts) × SameMedia cut left × SameRows cut left }
    ensures closings { (old : World) (statements : List ScriptEntry) (moments : List ℕ) (outcomes : List Outcome) (acts : List Act) (least : ℕ) (before cut whole : World) (hosted fronts : List Hosted) (counter : ℕ)
        → IsSound old → IsRun old statements moments outcomes → AreClosing (behind_all old outcomes) acts → CutsRun old (outcomes ++ closed_by acts ∷ []) least before cut whole
        → Hosts cut hosted → AreFronts before hosted fronts → cut.counter ≤ counter → counter ≤ cut.counter + 1024
        → (left : World) × Leaves old (outcomes ++ closed_by acts ∷ []) least left × (left.counter ≡ counter) × Hosts left (map settling fronts) × SameMedia cut left × SameRows cut left }
{
    closings_are_cut_in_whole_worlds();
    crashes_keep_worlds_sound();
    crashes_leave_what_stays();
    fronts_may_stay();
    runs_are_cut_in_whole_worlds();
}

/// Where an end of a database's records waits in memory, and what is open in it is of some transactions, a crash may lose that end. Nothing is open in one that is being restored.
pub fn what_waits_may_be_lost()
    ensures front { (begins : List ℕ) (h : Hosted) (records lost : List Logged) → h.records ≡ records ++ lost → AllByRecursion (Waits h.transactions) lost
        → AllByRecursion (λ (t : Open). is_among begins t.begin ≡ true) h.transactions → (is_up h ≡ true → NoLoadPends records) → (is_up h ≡ false → h.transactions ≡ []) → IsFrontOf begins h (record h { records = records }) }
{}

/// Of what a database says in one act of a statement, or of a closing, only the last record tells an entry. So an act may be cut inside.
pub fn acts_tell_last()
    ensures statements { (w : World) (s : ScriptEntry) (now : ℕ) (outcome : Outcome) → May w s now outcome → AllByRecursion TellsLast outcome.acts }
    ensures closings { (w : World) (acts : List Act) → AreClosing w acts → AllByRecursion TellsLast acts }
{}
