ghost use Rattle.std.specs.Prelude.{◌≡◌, ◌≤◌, ℕ, ◌+◌, List, Some, length};
ghost use Rattle.bk_machine.specs.Checks.{last_number};
ghost use Rattle.bk_machine.specs.Sound.{IsSound, SetIn};
ghost use Rattle.bk_machine.specs.World.{Database, Held, World, database_named, held_in, log_of};
ghost use Rattle.bk_world.specs.Lines.{log_below};
ghost use Rattle.bk_world.specs.Pending.{pending};
ghost use Rattle.bk_world.specs.declared.database.Status.TheVariants.{Online};
ghost use Rattle.bk_world.specs.declared.header.Header.{Header};

/// In a sound world numbers are left for what is never refused. In a database that is online all that is pending may be undone, and each open
/// transaction may end: a session's may be rolled back, or committed. A set may be recovered at its end.
pub fn numbers_are_left()
    ensures online { (w : World) (db : Database) → IsSound w → database_named w.databases db.name ≡ Some db → db.status ≡ Online
        → db.«end» + (length (pending (log_of w.history db)) + length db.transactions) ≤ last_number }
    ensures held { (w : World) (session : ℕ) (held : Held) → IsSound w → held_in w.databases session ≡ Some held
        → held.database.«end» + (length (pending (log_of w.history held.database)) + 1) ≤ last_number }
    ensures sets { (w : World) (path : List ℕ) (header : Header) → IsSound w → SetIn w path header
        → header.last + (length (pending (log_below w.history header.path header.last)) + 1) ≤ last_number }
{}
