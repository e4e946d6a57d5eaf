ghost use Rattle.std.specs.Prelude.{◌≡◌, ◌≤◌, ℕ, ◌+◌, Bool, false, true, List, [], ◌∷◌, ◌++◌, Some, length};
ghost use Rattle.std.specs.List.{AllByRecursion, AllZip};
ghost use Rattle.bk_items.specs.declared.item.ScriptEntry.{ScriptEntry};
ghost use Rattle.bk_machine.specs.Acts.{Act, done, jobs_dropped};
ghost use Rattle.bk_machine.specs.Built.{SaysNoLoad};
ghost use Rattle.bk_machine.specs.Closing.{AreClosing, closed_by};
ghost use Rattle.bk_machine.specs.Crash.{Leaves, WorldLeft, cut_between};
ghost use Rattle.bk_machine.specs.MayDo.{MayDo};
ghost use Rattle.bk_machine.specs.Outcome.{Outcome};
ghost use Rattle.bk_machine.specs.Run.{IsRun, behind_all};
ghost use Rattle.bk_machine.specs.Same.{SameLogs, SameMedia};
ghost use Rattle.bk_machine.specs.Settled.{IsSettledTo, needs_settling, settled_database, settles};
ghost use Rattle.bk_machine.specs.Sound.{AreIdle, IsSound, IsWhole};
ghost use Rattle.bk_machine.specs.World.{Database, World, database_named, log_of, opened, restarted};
ghost use Rattle.bk_world.specs.Cut.{settled};
ghost use Rattle.bk_world.specs.Lines.{RecordLines};
ghost use Rattle.bk_world.specs.Pending.{pending};
ghost use Rattle.bk_world.specs.declared.database.Status.TheVariants.{Online};

/// A crash that leaves each log whole, and settled where its database is online, leaves the world at the cut with all undone that
/// was pending in it. Where a run from a sound world, or its closing, is cut between two acts, it may leave such a world,
/// whatever the counter within the bounds.
pub fn crashes_leave_settled_worlds()
    ensures crash { (before whole cut left : World) → IsWhole cut → WorldLeft before whole cut left
        → AllZip (λ (old new : Database). old.status ≡ Online → log_of left.history new ≡ settled (log_of cut.history old)) cut.databases left.databases
        → IsSettledTo cut left }
    ensures runs { (old : World) (statements : List ScriptEntry) (moments : List ℕ) (outcomes : List Outcome) (least done k counter : ℕ)
        → IsSound old → IsRun old statements moments outcomes → least ≤ done → done ≤ length outcomes
        → (cut_between old outcomes done k).counter ≤ counter → counter ≤ (cut_between old outcomes done k).counter + 1024
        → (left : World) × Leaves old outcomes least left × (left.counter ≡ counter) × IsSettledTo (cut_between old outcomes done k) left }
    ensures closings { (old : World) (statements : List ScriptEntry) (moments : List ℕ) (outcomes : List Outcome) (acts : List Act) (least done k counter : ℕ)
        → IsSound old → IsRun old statements moments outcomes → AreClosing (behind_all old outcomes) acts
        → least ≤ done → done ≤ length (outcomes ++ closed_by acts ∷ [])
        → (cut_between old (outcomes ++ closed_by acts ∷ []) done k).counter ≤ counter → counter ≤ (cut_between old (outcomes ++ closed_by acts ∷ []) done k).counter + 1024
        → (left : World) × Leaves old (outcomes ++ closed_by acts ∷ []) least left × (left.counter ≡ counter) × IsSettledTo (cut_between old (outcomes ++ closed_by acts ∷ []) done k) left }
{}

/// In what a world is settled to nothing is open. A sound world in which nothing is open is settled: it has the databases and
/// logs of each world that it is settled to. What a world is settled to depends on its databases, logs and media alone,
/// and not on backups that run.
pub fn settled_worlds()
    ensures idle { (w : World) → IsSound w → AreIdle w → IsSettledTo w w }
    ensures ended { (w v : World) → IsSound w → AreIdle w → IsSettledTo w v → SameLogs w v }
    ensures dropped { (w v : World) → IsSettledTo w v → IsSettledTo (done w jobs_dropped) v }
    ensures leaves_idle { (w v : World) → IsSettledTo w v → AreIdle v }
    ensures before { (w x v : World) → SameLogs w x → SameMedia w x → IsSettledTo w v → IsSettledTo x v }
    ensures behind { (w v x : World) → SameLogs v x → SameMedia v x → IsSettledTo w v → IsSettledTo w x }
    ensures opened { (w v : World) → IsSettledTo w v → IsSettledTo w (opened v) }
    ensures restarted { (counter : ℕ) (w v : World) → IsSettledTo w v → IsSettledTo w (restarted counter v) }
{}

/// A database of a sound world that is online is settled by an act that may be done: behind it no transaction of it is open and
/// nothing is pending in its log, the other databases are as they were, and the world is settled to the same as before.
pub fn settling_goes_database_by_database()
    ensures may { (w : World) (db : Database) → IsSound w → database_named w.databases db.name ≡ Some db → db.status ≡ Online → MayDo w (settles w db) }
    ensures sound { (w : World) (db : Database) → IsSound w → database_named w.databases db.name ≡ Some db → db.status ≡ Online → IsSound (done w (settles w db)) }
    ensures says_no_load { (w : World) (db : Database) → SaysNoLoad w (settles w db) }
    ensures settled { (w : World) (db : Database) → IsSound w → database_named w.databases db.name ≡ Some db → db.status ≡ Online
        → (v : World) → IsSettledTo w v → IsSettledTo (done w (settles w db)) v }
    ensures found { (w : World) (db : Database) → IsSound w → database_named w.databases db.name ≡ Some db → db.status ≡ Online
        → database_named (done w (settles w db)).databases db.name ≡ Some (settled_database w db) }
    ensures log { (w : World) (db : Database) → IsSound w → database_named w.databases db.name ≡ Some db → db.status ≡ Online
        → log_of (done w (settles w db)).history (settled_database w db) ≡ settled (log_of w.history db) }
    ensures nothing_pends { (w : World) (db : Database) → IsSound w → database_named w.databases db.name ≡ Some db → db.status ≡ Online
        → pending (log_of (done w (settles w db)).history (settled_database w db)) ≡ [] }
    ensures place { (w : World) (db : Database) → IsSound w → database_named w.databases db.name ≡ Some db → db.status ≡ Online
        → (front rest : List Database) → w.databases ≡ front ++ db ∷ rest → (done w (settles w db)).databases ≡ front ++ settled_database w db ∷ rest }
    ensures logs { (w : World) (db : Database) → IsSound w → database_named w.databases db.name ≡ Some db → db.status ≡ Online
        → AllByRecursion (λ (other : Database). log_of (done w (settles w db)).history other ≡ log_of w.history other) w.databases }
    ensures media { (w : World) (db : Database) → IsSound w → database_named w.databases db.name ≡ Some db → db.status ≡ Online → SameMedia w (done w (settles w db)) }
{}

/// Where no database of a sound world needs to be settled, none has an open transaction, and nothing is pending in one that is
/// online. One that needs it is online; once it is settled, it needs it no more.
pub fn settling_ends()
    ensures needs { (history : RecordLines) (db : Database) → needs_settling history db ≡ true → db.status ≡ Online }
    ensures closed { (w : World) → IsSound w → AllByRecursion (λ (db : Database). needs_settling w.history db ≡ false → db.transactions ≡ []) w.databases }
    ensures nothing_pends { (history : RecordLines) (db : Database) → db.status ≡ Online → needs_settling history db ≡ false → pending (log_of history db) ≡ [] }
    ensures settled { (w : World) (db : Database) → IsSound w → database_named w.databases db.name ≡ Some db → db.status ≡ Online
        → needs_settling (done w (settles w db)).history (settled_database w db) ≡ false }
{}
