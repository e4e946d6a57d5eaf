//! Laws of sets that hold what their path shows.

ghost use Rattle.std.specs.Prelude.{◌≡◌, ◌≤◌, ◌<◌, ℕ, ◌+◌, ◌*◌, ◌++◌, List, [], None, Ok, Some, true, length, map, slice_get};
ghost use Rattle.std.specs.List.{AllByRecursion};
ghost use Rattle.bk_body.specs.Body.{Body, Extent};
ghost use Rattle.bk_body.specs.Conditions.{ExtentsRise, IsBody, has_extent, holds_extent};
ghost use Rattle.bk_carried.specs.Arrived.{IsFor, MayName, arrived, known_of};
ghost use Rattle.bk_carried.specs.Carried.{Carries, IsCopied, data_extents, given, id_of, is_there, page_part};
ghost use Rattle.bk_carried.specs.Copied.{IsCopy, IsHeaderOf, WasRead, backed_up, said_last};
ghost use Rattle.bk_filling.specs.Filling.{MayFill, names_of};
ghost use Rattle.bk_filling.specs.Records.{Spell};
ghost use Rattle.bk_header.specs.Conditions.{AreNumbered};
ghost use Rattle.bk_hosted.specs.Hosted.{set_storage};
ghost use Rattle.bk_ids.specs.declared.guid.Guid.{Guid};
ghost use Rattle.bk_ids.specs.declared.record.Rec.{Rec};
ghost use Rattle.bk_items.specs.declared.options.BackupOptions.{BackupOptions};
ghost use Rattle.bk_known.specs.Known.{KeepsKnown};
ghost use Rattle.bk_known.specs.declared.known.DatabaseSpec.{DatabaseSpec};
ghost use Rattle.bk_machine.specs.Acts.{Recovery};
ghost use Rattle.bk_machine.specs.Sound.{IsSound, IsSoundSet};
ghost use Rattle.bk_machine.specs.World.{Database, World, database_named, log_of};
ghost use Rattle.bk_machine.specs.statements.Backup.{full_header};
ghost use Rattle.bk_machine.specs.statements.Job.{Running, check_job, job_header};
ghost use Rattle.bk_page.specs.Page.{fresh_page};
ghost use Rattle.bk_paths.specs.Paths.{IsPath};
ghost use Rattle.bk_record.specs.Log.{IsLog};
ghost use Rattle.bk_restored.specs.Restored.{SufficesTold};
ghost use Rattle.bk_restored.specs.RestoringArriving.{Kept};
ghost use Rattle.bk_shown.specs.Shown.{ArePlaced};
ghost use Rattle.bk_side.specs.Names.{AreDifferent};
ghost use Rattle.bk_restored.specs.StoreCopying.{ArePages};
ghost use Rattle.bk_restored.specs.StoreTold.{Told, data_file, files_of};
ghost use Rattle.bk_undo.specs.Spelled.{spelled};
ghost use Rattle.bk_world.specs.Lines.{RecordLines, log_below};
ghost use Rattle.bk_world.specs.Records.{Logged, stamped};
ghost use Rattle.bk_world.specs.declared.database.FileSpec.{FileSpec};
ghost use Rattle.bk_world.specs.declared.database.Status.TheVariants.{Online};
ghost use Rattle.bk_world.specs.declared.header.HeaderFile.{HeaderFile};

use bk_paths::settling_law;
use bk_record::log_law;
use bk_redo::page_law;

/// A set that was made of a database carries its log. Its extents were read one after the other, each when the records were a front of those at its end that has the checkpoint's: each page is as of some
/// number from there on, since what was said later fills no extent.
pub fn backups_carry()
    ensures pages { (rs : List Logged) (files : List FileSpec) (since : ℕ) (e : Extent) → IsPath (map spelled rs) → ArePlaced files [] rs → WasRead rs since e → IsCopied (map spelled rs) since e }
    ensures carries { (lines : RecordLines) (told : Told) (body : Body) → log_below lines body.header.path body.header.last ≡ told.records → IsCopy told body → Carries lines body }
{}

/// The header of a full backup in a sound world is of its database as it is once the checkpoint and the stamp are said.
pub fn full_headers_are_of_databases()
    ensures { (w : World) (db : Database) (options : BackupOptions) (path : List ℕ) (set : Guid) (time : ℕ) (told : Told) → IsSound w → database_named w.databases db.name ≡ Some db → db.status ≡ Online → files_of told ≡ db.files
        → told.records ≡ backed_up (log_of w.history db) (full_header w db options path set time) → IsHeaderOf told (full_header w db options path set time) }
{}

/// The header of the set that a job of a sound world finishes is of its database once the stamp is said. What was read of that goes on being so whatever is said later, and what is read now is as of its end.
pub fn job_headers_are_of_databases()
    ensures header { (w : World) (r : Running) (time : ℕ) (told : Told) → IsSound w → check_job w ≡ Ok r → files_of told ≡ r.database.files
        → told.records ≡ said_last (log_of w.history r.database) (stamped time r.job.set) → IsHeaderOf told (job_header w r time) }
    ensures later { (rs more : List Logged) (since : ℕ) (e : Extent) → WasRead rs since e → WasRead (rs ++ more) since e }
    ensures read { (rs : List Logged) (since : ℕ) (e : Extent) → since ≤ length rs → ArePages (map spelled rs) e.file e.extent 8 e.bytes → WasRead rs since e }
{}

/// A set goes on carrying its log where that reads the same.
pub fn carried_sets_stay()
    ensures { (lines more : RecordLines) (body : Body) → Carries lines body → log_below more body.header.path body.header.last ≡ log_below lines body.header.path body.header.last → Carries more body }
{}

/// The extents of a set that has each data extent of its files are just these, in their order. Where extents are so, each is there, they rise, and the set holds each, where all its files are in it.
pub fn extents_lie_in_order()
    ensures listed { (body : Body) → IsBody body → ((file extent : ℕ) → has_extent body.header.files file extent ≡ true → is_there body.extents file extent ≡ true) → map id_of body.extents ≡ data_extents body.header.files }
    ensures there { (files : List HeaderFile) (extents : List Extent) → map id_of extents ≡ data_extents files → (file extent : ℕ) → has_extent files file extent ≡ true → is_there extents file extent ≡ true }
    ensures rise { (files : List HeaderFile) (extents : List Extent) → AreNumbered 1 files → map id_of extents ≡ data_extents files → ExtentsRise extents }
    ensures held { (files : List HeaderFile) (extents : List Extent) → AllByRecursion (λ (f : HeaderFile). f.in_set ≡ true) files → map id_of extents ≡ data_extents files → AllByRecursion (λ (e : Extent). holds_extent files e.file e.extent ≡ true) extents }
{}

/// Pages 0 to 7 of each data file that a set makes are fresh, and each page of an extent of the set is its part there.
pub fn pages_are_given()
    ensures fresh { (body : Body) (file page : ℕ) → page < 8 → given body (file, page) ≡ fresh_page file page }
    ensures copied { (body : Body) (i : ℕ) (e : Extent) (j : ℕ) → IsBody body → slice_get body.extents i ≡ Some e → j < 8 → given body (e.file, 8 * e.extent + j) ≡ page_part e.bytes j }
{}

/// A database may be made with the data files of a set, where their paths differ, and what is known of it has room in a note.
pub fn sets_have_room()
    ensures fills { (body : Body) → IsBody body → AreDifferent (names_of (map data_file (set_storage body.header).files)) → MayFill (map data_file (set_storage body.header).files) }
    ensures keeps { (body : Body) (spec : DatabaseSpec) → IsBody body → length spec.path ≤ 64 → spec.storage ≡ set_storage body.header → KeepsKnown (known_of spec body) }
{}

/// A sound set that carries its log is enough to restore it: with its pages and its records a database that arrives is that of the set's log, under a name and on a branch of its own. The set's bytes spell
/// those records, from its first number on.
pub fn carried_sets_suffice()
    ensures log { (w : World) (body : Body) (records : List Rec) → Carries w.history body → IsSoundSet w body.header → IsBody body → IsLog body.log records None → Spell body.log body.header.first records }
    ensures told { (w : World) (body : Body) (name : List ℕ) (r : Recovery) (note : List ℕ) (a : Kept) (records : List Rec) → Carries w.history body → IsSoundSet w body.header → IsBody body
        → MayName name body.header r note → IsFor a body.header.first (arrived w name body.header r note) → IsLog body.log records None
        → SufficesTold a body.header.checkpoint note (given body) records (known_of (arrived w name body.header r note).spec body) (arrived w name body.header r note) }
{
    log_law();
    page_law();
    settling_law();
}
