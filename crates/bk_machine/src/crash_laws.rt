ghost use Rattle.std.specs.Prelude.{◌≡◌, ◌≤◌, ℕ, ◌+◌, true, List, length, take};
ghost use Rattle.std.specs.List.{AllByRecursion, AllZip};
ghost use Rattle.bk_ids.specs.declared.path.Branch.{Branch};
ghost use Rattle.bk_items.specs.declared.item.ScriptEntry.{ScriptEntry};
ghost use Rattle.bk_machine.specs.Crash.{CutsRun, Leaves, WorldLeft, cut_between, open_begins};
ghost use Rattle.bk_machine.specs.Outcome.{Outcome};
ghost use Rattle.bk_machine.specs.Run.{IsRun, behind_all};
ghost use Rattle.bk_machine.specs.Sound.{AreIdle, IsHeld, IsSound, IsWhole, IsWholeDatabase};
ghost use Rattle.bk_machine.specs.Stays.{IsCutOf, IsFront, MayStay};
ghost use Rattle.bk_machine.specs.World.{Database, World, log_of, restarted};
ghost use Rattle.bk_world.specs.Cut.{is_among, settled};
ghost use Rattle.bk_world.specs.Lines.{log_below};
ghost use Rattle.bk_world.specs.Records.{Logged};
ghost use Rattle.bk_world.specs.Telling.{entries};
ghost use Rattle.bk_world.specs.declared.database.Status.TheVariants.{Online};
ghost use Rattle.bk_world.specs.declared.transaction.Open.{Open};

/// What a crash leaves of a sound world is sound, nothing is open in it, its databases tell what they told at the cut, and
/// sets read as they did.
pub fn crashes_keep_worlds_sound()
    ensures sound { (before whole cut left : World) → IsWhole cut → WorldLeft before whole cut left → IsSound left }
    ensures idle { (before whole cut left : World) → WorldLeft before whole cut left → AreIdle left }
    ensures tells { (before whole cut left : World) → WorldLeft before whole cut left
        → AllZip (λ (old new : Database). entries (log_of left.history new) ≡ entries (log_of cut.history old)) cut.databases left.databases }
    ensures sets { (before whole cut left : World) → IsWhole cut → WorldLeft before whole cut left → (path : List Branch) (n : ℕ) → IsHeld cut.history path n
        → log_below left.history path n ≡ log_below cut.history path n }
{}

/// A front of a log behind which only what was open is lost may stay: settled, it uses up no more numbers than a crash may.
pub fn fronts_may_stay()
    ensures { (before whole cut : World) (db : Database) (kept : List Logged) → IsWholeDatabase cut db → IsCutOf before whole cut db → IsFront before cut db kept
        → MayStay before whole cut db kept }
{}

/// Let a front of the log of each database that is online be one that may stay. Then a crash may leave a world in which these
/// fronts are settled, whatever its counter within the bounds.
pub fn crashes_leave_what_stays()
    ensures { (before whole cut : World) (kept : Database → List Logged) (counter : ℕ) → IsWhole cut
        → AllByRecursion (λ (db : Database). db.status ≡ Online → MayStay before whole cut db (kept db)) cut.databases
        → cut.counter ≤ counter → counter ≤ cut.counter + 1024
        → (left : World) × WorldLeft before whole cut left × (left.counter ≡ counter)
        × AllZip (λ (old new : Database). old.status ≡ Online → log_of left.history new ≡ settled (kept old)) cut.databases left.databases }
{}

/// Let a run from a sound world be cut. The world at the cut is whole, what is pending in a database that is online is of what
/// was open or of the statement that is cut, and its end is within those before and behind the statement. For any fronts
/// of its logs behind which only what was open is lost, a crash of the run may leave a world in which they are settled.
pub fn runs_are_cut_in_whole_worlds()
    ensures whole { (old : World) (statements : List ScriptEntry) (moments : List ℕ) (outcomes : List Outcome) (least : ℕ) (before cut whole : World)
        → IsSound old → IsRun old statements moments outcomes → CutsRun old outcomes least before cut whole → IsWhole cut }
    ensures cut { (old : World) (statements : List ScriptEntry) (moments : List ℕ) (outcomes : List Outcome) (least : ℕ) (before cut whole : World)
        → IsSound old → IsRun old statements moments outcomes → CutsRun old outcomes least before cut whole
        → AllByRecursion (λ (db : Database). db.status ≡ Online → IsCutOf before whole cut db) cut.databases }
    ensures leaves { (old : World) (statements : List ScriptEntry) (moments : List ℕ) (outcomes : List Outcome) (least : ℕ) (before cut whole : World)
        → IsSound old → IsRun old statements moments outcomes → CutsRun old outcomes least before cut whole
        → (kept : Database → List Logged) (counter : ℕ) → AllByRecursion (λ (db : Database). db.status ≡ Online → IsFront before cut db (kept db)) cut.databases
        → cut.counter ≤ counter → counter ≤ cut.counter + 1024
        → (left : World) × Leaves old outcomes least left × (left.counter ≡ counter)
        × AllZip (λ (now new : Database). now.status ≡ Online → log_of left.history new ≡ settled (kept now)) cut.databases left.databases }
{}

/// Let a run from a sound world be cut between two acts. The world there is sound, and what is open in it was open before the
/// statement that is cut, or is of it. Where nothing is open, a crash may leave just this world, with no session and whatever
/// counter within the bounds; or one with fronts of its logs settled, behind which only what was open is lost.
pub fn runs_are_cut_between_acts()
    ensures sound { (old : World) (statements : List ScriptEntry) (moments : List ℕ) (outcomes : List Outcome) (done k : ℕ)
        → IsSound old → IsRun old statements moments outcomes → IsSound (cut_between old outcomes done k) }
    ensures open { (old : World) (statements : List ScriptEntry) (moments : List ℕ) (outcomes : List Outcome) (done k : ℕ)
        → IsSound old → IsRun old statements moments outcomes
        → AllByRecursion (λ (db : Database). AllByRecursion (λ (t : Open). is_among (open_begins (behind_all old (take done outcomes)) db) t.begin ≡ true) db.transactions)
        (cut_between old outcomes done k).databases }
    ensures leaves { (old : World) (statements : List ScriptEntry) (moments : List ℕ) (outcomes : List Outcome) (least done k counter : ℕ)
        → IsSound old → IsRun old statements moments outcomes → AreIdle (cut_between old outcomes done k) → least ≤ done → done ≤ length outcomes
        → (cut_between old outcomes done k).counter ≤ counter → counter ≤ (cut_between old outcomes done k).counter + 1024
        → Leaves old outcomes least (restarted counter (cut_between old outcomes done k)) }
    ensures fronts { (old : World) (statements : List ScriptEntry) (moments : List ℕ) (outcomes : List Outcome) (least done k counter : ℕ) (kept : Database → List Logged)
        → IsSound old → IsRun old statements moments outcomes → least ≤ done → done ≤ length outcomes
        → AllByRecursion (λ (db : Database). db.status ≡ Online → IsFront (behind_all old (take done outcomes)) (cut_between old outcomes done k) db (kept db)) (cut_between old outcomes done k).databases
        → (cut_between old outcomes done k).counter ≤ counter → counter ≤ (cut_between old outcomes done k).counter + 1024
        → (left : World) × Leaves old outcomes least left × (left.counter ≡ counter)
        × AllZip (λ (now new : Database). now.status ≡ Online → log_of left.history new ≡ settled (kept now)) (cut_between old outcomes done k).databases left.databases }
{}
