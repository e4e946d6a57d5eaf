ghost use Rattle.std.specs.Prelude.{ℕ, Bool, List, Option};
ghost use Rattle.bk_machine.specs.declared.history_row.HistoryRow.{HistoryRow};
ghost use Rattle.bk_machine.specs.Acts.{done, job_set, jobs_dropped, logged, medium_made, noted, readied, seated, set_drawn, set_sealed, turned};
ghost use Rattle.bk_machine.specs.Events.{MediumAdded, MediumChanged, MediumRemoved, StandbyRemoved};
ghost use Rattle.bk_machine.specs.MayDo.{MayDo};
ghost use Rattle.bk_machine.specs.Same.{SameLogs, SameMedia};
ghost use Rattle.bk_machine.specs.Sound.{AreIdle, IsSound};
ghost use Rattle.bk_machine.specs.declared.job.Job.{Job};
ghost use Rattle.bk_machine.specs.World.{World, ended, opened, restarted};
ghost use Rattle.bk_world.specs.Records.{Said};
ghost use Rattle.bk_world.specs.declared.transaction.Open.{Open};
ghost use Rattle.bk_world.specs.declared.header.Header.{Header};

/// Databases and their logs stay the same behind acts on sessions, media and msdb, where a run begins and ends, behind a crash of
/// nothing that was said, and through events on media and standby files. Where they are the same, nothing more is open.
pub fn logs_that_stay()
    ensures reflexive { (w : World) → SameLogs w w }
    ensures transitive { (a b c : World) → SameLogs a b → SameLogs b c → SameLogs a c }
    ensures idle { (old new : World) → SameLogs old new → AreIdle old → AreIdle new }
    ensures turned { (w : World) (name : Option (List ℕ)) → SameLogs w (done w (turned name)) }
    ensures seated { (w : World) (session : ℕ) → SameLogs w (done w (seated session)) }
    ensures readied { (w : World) (starts : Bool) → SameLogs w (done w (readied starts)) }
    ensures medium_made { (w : World) (path : List ℕ) → SameLogs w (done w (medium_made path)) }
    ensures set_drawn { (w : World) → SameLogs w (done w set_drawn) }
    ensures noted { (w : World) (row : HistoryRow) → SameLogs w (done w (noted row)) }
    ensures set_sealed { (w : World) (path : List ℕ) (header : Header) → SameLogs w (done w (set_sealed path header)) }
    ensures opened { (w : World) → SameLogs w (opened w) }
    ensures ended { (w : World) → SameLogs w (ended w) }
    ensures restarted { (counter : ℕ) (w : World) → SameLogs w (restarted counter w) }
    ensures medium_removed { (old new : World) → IsSound old → MediumRemoved old new → SameLogs old new }
    ensures standby_removed { (old new : World) → IsSound old → StandbyRemoved old new → SameLogs old new }
    ensures medium_changed { (old new : World) → IsSound old → MediumChanged old new → SameLogs old new }
    ensures medium_added { (old new : World) → IsSound old → MediumAdded old new → SameLogs old new }
{}

/// The media of an instance stay, and sets on them read the same, behind acts on sessions, where the GUID of a set is drawn or a row
/// of msdb added, where a run begins and ends, and behind a crash of nothing that was said.
pub fn media_that_stay()
    ensures reflexive { (w : World) → SameMedia w w }
    ensures symmetric { (a b : World) → SameMedia a b → SameMedia b a }
    ensures transitive { (a b c : World) → SameMedia a b → SameMedia b c → SameMedia a c }
    ensures turned { (w : World) (name : Option (List ℕ)) → SameMedia w (done w (turned name)) }
    ensures seated { (w : World) (session : ℕ) → SameMedia w (done w (seated session)) }
    ensures readied { (w : World) (starts : Bool) → SameMedia w (done w (readied starts)) }
    ensures job_set { (w : World) (name : List ℕ) (job : Option Job) → SameMedia w (done w (job_set name job)) }
    ensures jobs_dropped { (w : World) → SameMedia w (done w jobs_dropped) }
    ensures set_drawn { (w : World) → SameMedia w (done w set_drawn) }
    ensures noted { (w : World) (row : HistoryRow) → SameMedia w (done w (noted row)) }
    ensures said { (w : World) (name : List ℕ) (said : List Said) (transactions : List Open) → IsSound w → MayDo w (logged name said transactions)
        → SameMedia w (done w (logged name said transactions)) }
    ensures opened { (w : World) → SameMedia w (opened w) }
    ensures ended { (w : World) → SameMedia w (ended w) }
    ensures restarted { (counter : ℕ) (w : World) → SameMedia w (restarted counter w) }
{}
