ghost use Rattle.std.specs.Prelude.{◌≡◌, ℕ, List, Option, take};
ghost use Rattle.bk_items.specs.declared.item.Catalog.{Catalog};
ghost use Rattle.bk_items.specs.declared.item.MediumQuery.{MediumQuery};
ghost use Rattle.bk_items.specs.declared.item.ScriptEntry.{ScriptEntry};
ghost use Rattle.bk_items.specs.declared.item.ScriptItem.TheVariants as script;
ghost use Rattle.bk_items.specs.declared.rows.RowStatement.TheVariants as row;
ghost use Rattle.bk_machine.specs.Acts.{Act, done, done_all};
ghost use Rattle.bk_machine.specs.Crash.{Leaves};
ghost use Rattle.bk_machine.specs.Machine.{May, behind};
ghost use Rattle.bk_machine.specs.MayDo.{LeavesIdle, MayDo, MayDoAll};
ghost use Rattle.bk_machine.specs.Outcome.{Outcome};
ghost use Rattle.bk_machine.specs.Run.{IsRun, behind_all};
ghost use Rattle.bk_machine.specs.Sound.{AreIdle, IsSound};
ghost use Rattle.bk_machine.specs.World.{World};
ghost use Rattle.bk_machine.specs.Writes.{ActsWrite, IsStill, StatementWrites};
ghost use Rattle.bk_world.specs.declared.reply.Reply.TheVariants.{Refused};
ghost use Rattle.bk_world.specs.declared.rule.Rule.{Rule};

/// What a statement comes to in a sound world are acts that may be done, and the world behind them is sound.
pub fn statements_do_what_they_may()
    ensures may { (w : World) (s : ScriptEntry) (now : ℕ) (outcome : Outcome) → IsSound w → May w s now outcome → MayDoAll w outcome.acts }
    ensures sound { (w : World) (s : ScriptEntry) (now : ℕ) (outcome : Outcome) → IsSound w → May w s now outcome → IsSound (behind w outcome) }
{}

/// Behind each front of what a statement comes to the world is sound. Where nothing is open, nothing is behind an act that leaves nothing open.
pub fn acts_of_statements()
    ensures fronts { (w : World) (s : ScriptEntry) (now : ℕ) (outcome : Outcome) → IsSound w → May w s now outcome
        → (k : ℕ) → IsSound (done_all w (take k outcome.acts)) }
    ensures idle { (w : World) (act : Act) → IsSound w → AreIdle w → MayDo w act → LeavesIdle act → AreIdle (done w act) }
{}

/// What statements write to: one that is refused, USE, `:session`, `:start`, SELECT, and what asks of a medium store nothing. Only BACKUP
/// writes to a medium, the one that it names, and `:wait` to that of the current database's backup.
pub fn what_statements_write_to()
    ensures refused { (w : World) (s : ScriptEntry) (now : ℕ) (outcome : Outcome) (rule : Rule) → May w s now outcome → outcome.reply ≡ Refused rule → IsStill outcome }
    ensures uses { (w : World) (line : ℕ) (name : List ℕ) (now : ℕ) (outcome : Outcome) → May w (record { item = script.Use name; line = line }) now outcome → IsStill outcome }
    ensures sits { (w : World) (line n : ℕ) (now : ℕ) (outcome : Outcome) → May w (record { item = script.Session n; line = line }) now outcome → IsStill outcome }
    ensures starts { (w : World) (line : ℕ) (now : ℕ) (outcome : Outcome) → May w (record { item = script.Start; line = line }) now outcome → IsStill outcome }
    ensures selects { (w : World) (line : ℕ) (table : List ℕ) (key : Option ℕ) (now : ℕ) (outcome : Outcome)
        → May w (record { item = script.Rows table (row.Select key); line = line }) now outcome → IsStill outcome }
    ensures asks { (w : World) (line : ℕ) (query : MediumQuery) (disk : List ℕ) (file : Option ℕ) (now : ℕ) (outcome : Outcome)
        → May w (record { item = script.QueryMedium query disk file; line = line }) now outcome → IsStill outcome }
    ensures lists { (w : World) (line : ℕ) (catalog : Catalog) (now : ℕ) (outcome : Outcome)
        → May w (record { item = script.SelectCatalog catalog; line = line }) now outcome → IsStill outcome }
    ensures media { (w : World) (s : ScriptEntry) (now : ℕ) (outcome : Outcome) (path : List ℕ) → May w s now outcome → ActsWrite outcome.acts path → StatementWrites w s.item path }
{}

/// A run keeps a sound world sound. So does a crash of it, behind which nothing is open.
pub fn runs_keep_worlds_sound()
    ensures run { (w : World) (statements : List ScriptEntry) (moments : List ℕ) (outcomes : List Outcome)
        → IsSound w → IsRun w statements moments outcomes → IsSound (behind_all w outcomes) }
    ensures crash { (old : World) (statements : List ScriptEntry) (moments : List ℕ) (outcomes : List Outcome) (least : ℕ) (left : World)
        → IsSound old → IsRun old statements moments outcomes → Leaves old outcomes least left → IsSound left }
    ensures crash_idle { (old : World) (outcomes : List Outcome) (least : ℕ) (left : World) → Leaves old outcomes least left → AreIdle left }
{}
