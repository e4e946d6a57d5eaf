ghost use Rattle.std.specs.Prelude.{◌≡◌, ℕ, List, Option, Some};
ghost use Rattle.bk_ids.specs.declared.path.Branch.{Branch};
ghost use Rattle.bk_world.specs.Lines.{log_below};
ghost use Rattle.bk_world.specs.Records.{Counts, Said, more};
ghost use Rattle.bk_world.specs.Telling.{model};
ghost use Rattle.bk_machine.specs.Acts.{Act, Recovery, done, done_all, goes_online, gone_on, gone_online, says};
ghost use Rattle.bk_machine.specs.MayDo.{MayDo, MayDoAll, MayRecover, MaySay};
ghost use Rattle.bk_machine.specs.Sound.{IsSound, IsWhole};
ghost use Rattle.bk_world.specs.declared.transaction.Open.{Open};
ghost use Rattle.bk_machine.specs.World.{World, Database, database_named, log_of, log_to};

/// Acts that may be done to a sound world leave a sound world.
pub fn acts_keep_worlds_sound()
    ensures says { (w : World) (name : List ℕ) (db : Database) (said : List Said) (transactions : List Open)
        → IsWhole w → database_named w.databases name ≡ Some db → MaySay w db said → IsWhole (says w db said transactions) }
    ensures act { (w : World) (act : Act) → IsSound w → MayDo w act → IsSound (done w act) }
    ensures acts { (w : World) (acts : List Act) → IsSound w → MayDoAll w acts → IsSound (done_all w acts) }
{}

/// A path that has each number once reads the same behind any acts that may be done.
pub fn acts_keep_what_is_read()
    ensures act { (w : World) (act : Act) → IsSound w → MayDo w act
        → (path : List Branch) (n : ℕ) → Counts 1 (log_below w.history path n) n → log_below (done w act).history path n ≡ log_below w.history path n }
    ensures acts { (w : World) (acts : List Act) → IsSound w → MayDoAll w acts
        → (path : List Branch) (n : ℕ) → Counts 1 (log_below w.history path n) n → log_below (done_all w acts).history path n ≡ log_below w.history path n }
{}

/// What a database says comes behind its log, and it is found behind it.
pub fn what_is_said_comes_last()
    ensures found { (w : World) (name : List ℕ) (db : Database) (said : List Said) (transactions : List Open)
        → IsWhole w → database_named w.databases name ≡ Some db → MaySay w db said
        → database_named (says w db said transactions).databases name ≡ Some (gone_on (model (log_of w.history db)) said transactions db) }
    ensures log { (w : World) (name : List ℕ) (db : Database) (said : List Said) (transactions : List Open)
        → IsWhole w → database_named w.databases name ≡ Some db → MaySay w db said
        → log_of (says w db said transactions).history (gone_on (model (log_of w.history db)) said transactions db) ≡ more (log_of w.history db) db.end said }
{}

/// A database that is recovered has its log up to there, and what the recovery says behind it.
pub fn a_recovery_is_said_last()
    ensures found { (w : World) (name : List ℕ) (db : Database) (r : Recovery)
        → IsSound w → database_named w.databases name ≡ Some db → MayRecover w db r
        → database_named (goes_online w db r).databases name ≡ Some (gone_online (model (log_to w.history db r.at)) r db) }
    ensures log { (w : World) (name : List ℕ) (db : Database) (r : Recovery)
        → IsSound w → database_named w.databases name ≡ Some db → MayRecover w db r
        → log_of (goes_online w db r).history (gone_online (model (log_to w.history db r.at)) r db) ≡ more (log_to w.history db r.at) r.at r.said }
{}
