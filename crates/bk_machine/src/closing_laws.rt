ghost use Rattle.std.specs.Prelude.{◌≡◌, ◌⊎◌, ◌≤◌, ℕ, ◌+◌, true, List, [], ◌∷◌, ◌++◌, length, Some, take};
ghost use Rattle.std.specs.List.{AllByRecursion, AllZip};
ghost use Rattle.bk_items.specs.declared.item.ScriptEntry.{ScriptEntry};
ghost use Rattle.bk_machine.specs.Acts.{Act, done, done_all, jobs_dropped};
ghost use Rattle.bk_machine.specs.Built.{IsBuilt, SaysNoLoad};
ghost use Rattle.bk_machine.specs.Closing.{AreClosing, HasNoJobs, IsClosingFront, IsFirst, closed_by, count_open};
ghost use Rattle.bk_machine.specs.Crash.{CutsRun, Leaves, cut_between, open_begins};
ghost use Rattle.bk_machine.specs.MayDo.{MayDo, MayDoAll};
ghost use Rattle.bk_machine.specs.Outcome.{Outcome};
ghost use Rattle.bk_machine.specs.Run.{IsRun, behind_all};
ghost use Rattle.bk_machine.specs.Sound.{AreIdle, IsSound, IsWhole};
ghost use Rattle.bk_machine.specs.Stays.{IsCutOf, IsFront};
ghost use Rattle.bk_machine.specs.World.{Database, Held, World, held_in, log_of, restarted};
ghost use Rattle.bk_machine.specs.statements.Rollback.{rolls_back};
ghost use Rattle.bk_world.specs.Cut.{is_among, settled};
ghost use Rattle.bk_world.specs.Records.{Logged};
ghost use Rattle.bk_world.specs.declared.transaction.Open.{Open};
ghost use Rattle.bk_world.specs.declared.database.Status.TheVariants.{Online};

/// Each sound world can be closed: its open transactions are rolled back by rising session, and backups that run are dropped. These are acts that may be done,
/// behind them the world is sound, and built where it was. Where a run began with nothing open, nothing is open behind its closing.
pub fn runs_are_closed()
    ensures comes { (w : World) → IsSound w → (acts : List Act) × AreClosing w acts }
    ensures may { (w : World) (acts : List Act) → IsSound w → AreClosing w acts → MayDoAll w acts }
    ensures sound { (w : World) (acts : List Act) → IsSound w → AreClosing w acts → IsSound (done_all w acts) }
    ensures built { (w : World) (acts : List Act) → IsSound w → IsBuilt w → AreClosing w acts → IsBuilt (done_all w acts) }
    ensures idle { (w : World) (outcomes : List Outcome) (acts : List Act) → AreIdle w → AreClosing (behind_all w outcomes) acts
        → AreIdle (done_all (behind_all w outcomes) acts) }
{}

/// Let a run from a sound world be cut, at the latest while it is closed. The world at the cut is whole, what is pending in a
/// database that is online is of what was open, and for any fronts of its logs behind which only what was open is lost, a crash
/// may leave a world in which they are settled. What a crash leaves is sound.
pub fn closings_are_cut_in_whole_worlds()
    ensures whole { (old : World) (statements : List ScriptEntry) (moments : List ℕ) (outcomes : List Outcome) (acts : List Act) (least : ℕ) (before cut whole : World)
        → IsSound old → IsRun old statements moments outcomes → AreClosing (behind_all old outcomes) acts
        → CutsRun old (outcomes ++ closed_by acts ∷ []) least before cut whole → IsWhole cut }
    ensures cut { (old : World) (statements : List ScriptEntry) (moments : List ℕ) (outcomes : List Outcome) (acts : List Act) (least : ℕ) (before cut whole : World)
        → IsSound old → IsRun old statements moments outcomes → AreClosing (behind_all old outcomes) acts
        → CutsRun old (outcomes ++ closed_by acts ∷ []) least before cut whole
        → AllByRecursion (λ (db : Database). db.status ≡ Online → IsCutOf before whole cut db) cut.databases }
    ensures leaves { (old : World) (statements : List ScriptEntry) (moments : List ℕ) (outcomes : List Outcome) (acts : List Act) (least : ℕ) (before cut whole : World)
        → IsSound old → IsRun old statements moments outcomes → AreClosing (behind_all old outcomes) acts
        → CutsRun old (outcomes ++ closed_by acts ∷ []) least before cut whole
        → (kept : Database → List Logged) (counter : ℕ) → AllByRecursion (λ (db : Database). db.status ≡ Online → IsFront before cut db (kept db)) cut.databases
        → cut.counter ≤ counter → counter ≤ cut.counter + 1024
        → (left : World) × Leaves old (outcomes ++ closed_by acts ∷ []) least left × (left.counter ≡ counter)
        × AllZip (λ (now new : Database). now.status ≡ Online → log_of left.history new ≡ settled (kept now)) cut.databases left.databases }
    ensures sound { (old : World) (statements : List ScriptEntry) (moments : List ℕ) (outcomes : List Outcome) (acts : List Act) (least : ℕ) (left : World)
        → IsSound old → IsRun old statements moments outcomes → AreClosing (behind_all old outcomes) acts
        → Leaves old (outcomes ++ closed_by acts ∷ []) least left → IsSound left }
{}

/// Let a run from a sound world and its closing be cut between two acts. The world there is sound, and what is open in it was open
/// before the statement that is cut, or is of it. Where nothing is open, a crash may leave just this world, with no session and
/// whatever counter within the bounds; or one with fronts of its logs settled, behind which only what was open is lost.
pub fn closings_are_cut_between_acts()
    ensures sound { (old : World) (statements : List ScriptEntry) (moments : List ℕ) (outcomes : List Outcome) (acts : List Act) (done k : ℕ)
        → IsSound old → IsRun old statements moments outcomes → AreClosing (behind_all old outcomes) acts
        → IsSound (cut_between old (outcomes ++ closed_by acts ∷ []) done k) }
    ensures open { (old : World) (statements : List ScriptEntry) (moments : List ℕ) (outcomes : List Outcome) (acts : List Act) (done k : ℕ)
        → IsSound old → IsRun old statements moments outcomes → AreClosing (behind_all old outcomes) acts
        → AllByRecursion (λ (db : Database). AllByRecursion (λ (t : Open). is_among (open_begins (behind_all old (take done (outcomes ++ closed_by acts ∷ []))) db) t.begin ≡ true) db.transactions)
        (cut_between old (outcomes ++ closed_by acts ∷ []) done k).databases }
    ensures leaves { (old : World) (statements : List ScriptEntry) (moments : List ℕ) (outcomes : List Outcome) (acts : List Act) (least done k counter : ℕ)
        → IsSound old → IsRun old statements moments outcomes → AreClosing (behind_all old outcomes) acts
        → AreIdle (cut_between old (outcomes ++ closed_by acts ∷ []) done k) → least ≤ done → done ≤ length (outcomes ++ closed_by acts ∷ [])
        → (cut_between old (outcomes ++ closed_by acts ∷ []) done k).counter ≤ counter → counter ≤ (cut_between old (outcomes ++ closed_by acts ∷ []) done k).counter + 1024
        → Leaves old (outcomes ++ closed_by acts ∷ []) least (restarted counter (cut_between old (outcomes ++ closed_by acts ∷ []) done k)) }
    ensures fronts { (old : World) (statements : List ScriptEntry) (moments : List ℕ) (outcomes : List Outcome) (acts : List Act) (least done k counter : ℕ) (kept : Database → List Logged)
        → IsSound old → IsRun old statements moments outcomes → AreClosing (behind_all old outcomes) acts
        → least ≤ done → done ≤ length (outcomes ++ closed_by acts ∷ [])
        → AllByRecursion (λ (db : Database). db.status ≡ Online
        → IsFront (behind_all old (take done (outcomes ++ closed_by acts ∷ []))) (cut_between old (outcomes ++ closed_by acts ∷ []) done k) db (kept db)) (cut_between old (outcomes ++ closed_by acts ∷ []) done k).databases
        → (cut_between old (outcomes ++ closed_by acts ∷ []) done k).counter ≤ counter → counter ≤ (cut_between old (outcomes ++ closed_by acts ∷ []) done k).counter + 1024
        → (left : World) × Leaves old (outcomes ++ closed_by acts ∷ []) least left × (left.counter ≡ counter)
        × AllZip (λ (now new : Database). now.status ≡ Online → log_of left.history new ≡ settled (kept now)) (cut_between old (outcomes ++ closed_by acts ∷ []) done k).databases left.databases }
{}

/// A run is closed rollback by rollback. While a transaction is open in a sound world, just one is the first to be rolled back: in
/// the first database that has one of the least session. That leaves a sound world in which one less is open. Where none is open
/// the run is closed once no backup runs any more. Behind a front of a closing its rest closes the run.
pub fn runs_are_closed_one_by_one()
    ensures comes { (w : World) → IsSound w → AllByRecursion (λ (db : Database). db.transactions ≡ []) w.databases ⊎ ((held : Held) × IsFirst w held) }
    ensures found { (w : World) (session : ℕ) (held : Held) → held_in w.databases session ≡ Some held
        → AllByRecursion (λ (db : Database). AllByRecursion (λ (t : Open). session ≤ t.session) db.transactions) w.databases → IsFirst w held }
    ensures alone { (w : World) (a b : Held) → IsFirst w a → IsFirst w b → a ≡ b }
    ensures may { (w : World) (held : Held) → IsSound w → IsFirst w held → MayDo w (rolls_back w held) }
    ensures sound { (w : World) (held : Held) → IsSound w → IsFirst w held → IsSound (done w (rolls_back w held)) }
    ensures says_no_load { (w : World) (held : Held) → SaysNoLoad w (rolls_back w held) }
    ensures fewer { (w : World) (held : Held) → IsSound w → IsFirst w held → count_open (done w (rolls_back w held)).databases + 1 ≡ count_open w.databases }
    ensures none { (w : World) → count_open w.databases ≡ 0 → AreClosing w (jobs_dropped ∷ []) }
    ensures drops { (w : World) → HasNoJobs (done w jobs_dropped) }
    ensures jobless { (w : World) (acts : List Act) → IsClosingFront w acts → HasNoJobs w → HasNoJobs (done_all w acts) }
    ensures closed { (w : World) → count_open w.databases ≡ 0 → HasNoJobs w → AreClosing w [] }
    ensures front_may { (w : World) (acts : List Act) → IsSound w → IsClosingFront w acts → MayDoAll w acts }
    ensures front_sound { (w : World) (acts : List Act) → IsSound w → IsClosingFront w acts → IsSound (done_all w acts) }
    ensures front_more { (w : World) (acts : List Act) (held : Held) → IsClosingFront w acts → IsFirst (done_all w acts) held
        → IsClosingFront w (acts ++ rolls_back (done_all w acts) held ∷ []) }
    ensures joined { (w : World) (acts rest : List Act) → IsClosingFront w acts → AreClosing (done_all w acts) rest → AreClosing w (acts ++ rest) }
    ensures parts { (w : World) (acts rest : List Act) → AreClosing w (acts ++ rest) → IsClosingFront w acts × AreClosing (done_all w acts) rest }
{}
