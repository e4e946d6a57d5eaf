ghost use Rattle.std.specs.Prelude.{◌≡◌, ℕ, List, length};
ghost use Rattle.bk_items.specs.declared.item.ScriptEntry.{ScriptEntry};
ghost use Rattle.bk_machine.specs.Built.{IsBuilt};
ghost use Rattle.bk_machine.specs.Machine.{May};
ghost use Rattle.bk_machine.specs.Outcome.{Outcome};
ghost use Rattle.bk_machine.specs.Run.{IsRun};
ghost use Rattle.bk_machine.specs.Sound.{IsSound};
ghost use Rattle.bk_machine.specs.World.{World};

/// In a sound world of built logs (no load was said, and files have different numbers) each statement comes to an outcome, and so do several, one after another.
pub fn statements_come_to_outcomes()
    ensures statement { (w : World) (s : ScriptEntry) (now : ℕ) → IsSound w → IsBuilt w → (outcome : Outcome) × May w s now outcome }
    ensures run { (w : World) (statements : List ScriptEntry) (moments : List ℕ) → IsSound w → IsBuilt w
        → length moments ≡ length statements → (outcomes : List Outcome) × IsRun w statements moments outcomes }
{}
