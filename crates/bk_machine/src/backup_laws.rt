ghost use Rattle.std.specs.Prelude.{◌≡◌, ◌≤◌, ◌<◌, ℕ, List, Some, Ok};
ghost use Rattle.std.specs.List.{AllByRecursion};
ghost use Rattle.bk_ids.specs.declared.guid.Guid.{Guid};
ghost use Rattle.bk_items.specs.declared.options.BackupOptions.{BackupOptions};
ghost use Rattle.bk_machine.specs.Acts.{kept_after};
ghost use Rattle.bk_machine.specs.Sound.{IsSound};
ghost use Rattle.bk_world.specs.declared.transaction.Open.{Open};
ghost use Rattle.bk_machine.specs.World.{Database, World, database_named, log_of};
ghost use Rattle.bk_machine.specs.statements.Backup.{full_header};
ghost use Rattle.bk_machine.specs.statements.Job.{Running, check_job, job_header};
ghost use Rattle.bk_world.specs.Pending.{Pending, pending};
ghost use Rattle.bk_world.specs.Telling.{model};
ghost use Rattle.bk_world.specs.declared.database.Status.TheVariants.{Online};

/// The log of a full set begins at its checkpoint, or below it where a transaction began before: so it holds all that is pending,
/// which its restore undoes. Behind that checkpoint the live log keeps the first record of the set, or more.
pub fn sets_hold_what_is_pending()
    ensures checkpoint { (w : World) (db : Database) (options : BackupOptions) (path : List ℕ) (set : Guid) (time : ℕ) → (full_header w db options path set time).first ≤ (full_header w db options path set time).checkpoint }
    ensures begins { (w : World) (db : Database) (options : BackupOptions) (path : List ℕ) (set : Guid) (time : ℕ) → AllByRecursion (λ (t : Open). (full_header w db options path set time).first ≤ t.begin) db.transactions }
    ensures keeps { (w : World) (db : Database) (options : BackupOptions) (path : List ℕ) (set : Guid) (time : ℕ) → IsSound w → database_named w.databases db.name ≡ Some db → db.status ≡ Online
        → kept_after db (model (log_of w.history db)) db.end ≤ (full_header w db options path set time).first }
    ensures pending { (w : World) (db : Database) (options : BackupOptions) (path : List ℕ) (set : Guid) (time : ℕ) → IsSound w → database_named w.databases db.name ≡ Some db → db.status ≡ Online
        → AllByRecursion (λ (p : Pending). (full_header w db options path set time).first ≤ p.begin) (pending (log_of w.history db)) }
{}

/// The set that a job of a sound world finishes begins at its checkpoint or below, which lies in its log; and its log, too, holds all
/// that is pending. The live log keeps its first record, or more.
pub fn sets_of_jobs_hold_what_is_pending()
    ensures first { (w : World) (r : Running) (time : ℕ) → IsSound w → check_job w ≡ Ok r → (job_header w r time).first ≤ (job_header w r time).checkpoint }
    ensures last { (w : World) (r : Running) (time : ℕ) → IsSound w → check_job w ≡ Ok r → (job_header w r time).checkpoint < (job_header w r time).last }
    ensures keeps { (w : World) (r : Running) (time : ℕ) → IsSound w → check_job w ≡ Ok r → r.database.kept ≤ (job_header w r time).first }
    ensures begins { (w : World) (r : Running) (time : ℕ) → IsSound w → check_job w ≡ Ok r
        → AllByRecursion (λ (t : Open). (job_header w r time).first ≤ t.begin) r.database.transactions }
    ensures pending { (w : World) (r : Running) (time : ℕ) → IsSound w → check_job w ≡ Ok r
        → AllByRecursion (λ (p : Pending). (job_header w r time).first ≤ p.begin) (pending (log_of w.history r.database)) }
{}
