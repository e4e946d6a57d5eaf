ghost use Rattle.std.specs.Prelude.{ℕ, List, take};
ghost use Rattle.bk_items.specs.declared.item.ScriptEntry.{ScriptEntry};
ghost use Rattle.bk_machine.specs.Acts.{Act, done, done_all};
ghost use Rattle.bk_machine.specs.Built.{IsBuilt, SayNoLoad, SaysNoLoad};
ghost use Rattle.bk_machine.specs.Crash.{WorldLeft, cut_between};
ghost use Rattle.bk_machine.specs.Events.{FileRemoved, MediumAdded, MediumChanged, MediumRemoved, PageDamaged, StandbyRemoved};
ghost use Rattle.bk_machine.specs.Machine.{May};
ghost use Rattle.bk_machine.specs.MayDo.{MayDo, MayDoAll};
ghost use Rattle.bk_machine.specs.Outcome.{Outcome};
ghost use Rattle.bk_machine.specs.Run.{IsRun, behind_all};
ghost use Rattle.bk_machine.specs.Sound.{IsSound, IsWhole};
ghost use Rattle.bk_machine.specs.World.{World, empty_world, ended, opened, restarted};

/// Acts that say no load leave a sound world of built logs (no load was said, and files have different numbers) such a world.
pub fn acts_keep_worlds_built()
    ensures act { (w : World) (act : Act) → IsSound w → IsBuilt w → MayDo w act → SaysNoLoad w act → IsBuilt (done w act) }
    ensures acts { (w : World) (acts : List Act) → IsSound w → IsBuilt w → MayDoAll w acts → SayNoLoad w acts → IsBuilt (done_all w acts) }
{}

/// Logs are built from nothing on, behind any front of a statement, behind runs, where they begin and end, are cut, or crash.
pub fn runs_keep_worlds_built()
    ensures nothing { (instance : ℕ) → IsBuilt (empty_world instance) }
    ensures says { (w : World) (s : ScriptEntry) (now : ℕ) (outcome : Outcome) → IsSound w → IsBuilt w → May w s now outcome → SayNoLoad w outcome.acts }
    ensures statement { (w : World) (s : ScriptEntry) (now : ℕ) (outcome : Outcome) → IsSound w → IsBuilt w → May w s now outcome
        → (k : ℕ) → IsBuilt (done_all w (take k outcome.acts)) }
    ensures run { (w : World) (statements : List ScriptEntry) (moments : List ℕ) (outcomes : List Outcome)
        → IsSound w → IsBuilt w → IsRun w statements moments outcomes → IsBuilt (behind_all w outcomes) }
    ensures between { (old : World) (statements : List ScriptEntry) (moments : List ℕ) (outcomes : List Outcome) (done k : ℕ)
        → IsSound old → IsBuilt old → IsRun old statements moments outcomes → IsBuilt (cut_between old outcomes done k) }
    ensures opened { (w : World) → IsSound w → IsBuilt w → IsBuilt (opened w) }
    ensures ended { (w : World) → IsSound w → IsBuilt w → IsBuilt (ended w) }
    ensures restarted { (counter : ℕ) (w : World) → IsSound w → IsBuilt w → IsBuilt (restarted counter w) }
    ensures crash { (before whole cut left : World) → IsWhole cut → IsBuilt cut → WorldLeft before whole cut left → IsBuilt left }
{}

/// Logs stay built through events, unless a medium is added of a world of other logs.
pub fn events_keep_worlds_built()
    ensures page_damaged { (old new : World) → IsSound old → IsBuilt old → PageDamaged old new → IsBuilt new }
    ensures file_removed { (old new : World) → IsSound old → IsBuilt old → FileRemoved old new → IsBuilt new }
    ensures medium_removed { (old new : World) → IsSound old → IsBuilt old → MediumRemoved old new → IsBuilt new }
    ensures standby_removed { (old new : World) → IsSound old → IsBuilt old → StandbyRemoved old new → IsBuilt new }
    ensures medium_changed { (old new : World) → IsSound old → IsBuilt old → MediumChanged old new → IsBuilt new }
    ensures medium_added { (old new : World) → IsSound old → IsBuilt old → (e : MediumAdded old new) → IsBuilt e.other → IsBuilt new }
{}
