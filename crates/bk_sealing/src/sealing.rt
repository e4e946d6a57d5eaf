//! The set of a database is sealed.
ghost use Rattle.std.specs.Prelude.{◌≡◌, ◌<◌, ◌+◌, ◌^◌, None, Some, false, length, slice_get, IfErr, OnOk, IsErrOf};
ghost use Rattle.bk_device.specs.Counts.{HasCause};
ghost use Rattle.bk_device.specs.Effects.{Effect};
ghost use Rattle.bk_device.specs.Troubles.{IsPassing};
ghost use Rattle.bk_engine.specs.Acts.{CutsAct};
ghost use Rattle.bk_engine.specs.Copying.{HoldsFront};
ghost use Rattle.bk_engine.specs.Guids.{IsGuid};
ghost use Rattle.bk_engine.specs.HostingCopying.{HaveExtents};
ghost use Rattle.bk_engine.specs.Jobs.{IsFinishing};
ghost use Rattle.bk_engine.specs.Stands.{IsOurs, IsReady, IsStagingFile, NamesSet, StandsFor};
ghost use Rattle.bk_engine.specs.Touched.{IsAt, TouchesOnly};
ghost use Rattle.bk_engine.specs.Viewing.{Remembers};
ghost use Rattle.bk_header.specs.Conditions.{KeepsConditions};
ghost use Rattle.bk_ids.specs.declared.guid.Guid.{Guid};
ghost use Rattle.bk_kept.specs.Jobs.{IsApart};
ghost use Rattle.bk_kept.specs.Keeps.{Sees};
ghost use Rattle.bk_machine.specs.Acts.{done, set_sealed};
ghost use Rattle.bk_machine.specs.World.{World, log_of};
ghost use Rattle.bk_engine.specs.StoresStanding.{AreStanding};
ghost use Rattle.bk_volume.specs.Names.{staging_file};
ghost use Rattle.bk_volume.specs.Staging.{IsStaged};
ghost use Rattle.bk_world.specs.Telling as telling;
ghost use Rattle.bk_sealing.specs.Copied.{HoldsCopy};
ghost use Rattle.bk_sealing.specs.Sealing.{IsSetNow};

use crate::copying::{copy_rest, place_of};
use bk_carried::{backups_carry, extents_lie_in_order};
use bk_device::{Device, Trouble};
use bk_engine::{Engine, Finishing};
use bk_ids::{ExtentId, Text};
use bk_kept::InstanceView;
use bk_volume::Staged;
use bk_world::{Header, TableSpec};

// A set has at most so many tables.
const MOST_TABLES: usize = 64;

// A set that is being written has fewer than 2^32 extents, and fewer than 2^64 bytes of log.
fn size_law(staged: &Staged)
    ensures few { staged.now.extents < 2 ^ 32 }
    ensures short { staged.now.log < 2 ^ 64 }
{
    let _extents = staged.extents();
    let _log = staged.log_len();
}

// Seals what was copied of a database with these tables. Where there are too many the call ends as if memory were wanting.
fn seal_tables<D: Device>(
    engine: &Engine,
    dev: &mut D,
    path: &Text,
    staged: &Staged,
    header: &Header,
    tables: &[TableSpec],
) -> Result<(), Trouble>
    requires ready { IsReady engine.now }
    requires whole { staged.now.failed ≡ false }
    requires named { IsStagingFile staged.now.name }
    requires keeps { KeepsConditions header.now }
    requires standing { D.tells → AreStanding (D.disk dev.old) engine.now.hosting.stores }
    requires staged { D.tells → IsStaged (D.disk dev.old) staged.now }
    ensures standing { D.tells → AreStanding (D.disk dev.new) engine.now.hosting.stores }
    ensures stands { D.tells → (w : World) (is : IsSetNow w header.now) → StandsFor (D.disk dev.old) engine.now w → tables.now ≡ telling.tables (log_of w.history is.db) → HoldsCopy w is.db header.now.checkpoint header.now.first header.now.last (D.disk dev.old) staged.now
        → OnOk result (StandsFor (D.disk dev.new) engine.now (done w (set_sealed path.now header.now))) }
    ensures crash { D.tells → (w : World) (is : IsSetNow w header.now) → StandsFor (D.disk dev.old) engine.now w → tables.now ≡ telling.tables (log_of w.history is.db) → HoldsCopy w is.db header.now.checkpoint header.now.first header.now.last (D.disk dev.old) staged.now
        → Effect IsOurs (CutsAct w (set_sealed path.now header.now)) (D.disk dev.old) (D.disk dev.new) }
    ensures touches { D.tells → TouchesOnly (IsAt path.now) (D.disk dev.old) (D.disk dev.new) }
    ensures trouble { IfErr result IsPassing }
    ensures cause { HasCause D.disk_faults D.tell_faults dev.old dev.new (IsErrOf result Trouble.Fault) }
{
    backups_carry();
    extents_lie_in_order();
    size_law(staged);
    engine.at_rest(dev);
    if tables.len() > MOST_TABLES {
        return Err(Trouble::NoMemory);
    }
    engine.seal_set(dev, path, staged, header, tables)
}

// Seals what was copied of a header's database; this is seen of the instance.
fn seal_over<D: Device>(
    engine: &Engine,
    seen: &InstanceView<'_>,
    dev: &mut D,
    path: &Text,
    staged: &Staged,
    header: &Header,
) -> Result<(), Trouble>
    requires ready { IsReady engine.now }
    requires sees { (w : World) → Remembers engine.now w → Sees w seen.now }
    requires whole { staged.now.failed ≡ false }
    requires named { IsStagingFile staged.now.name }
    requires keeps { KeepsConditions header.now }
    requires standing { D.tells → AreStanding (D.disk dev.old) engine.now.hosting.stores }
    requires staged { D.tells → IsStaged (D.disk dev.old) staged.now }
    ensures standing { D.tells → AreStanding (D.disk dev.new) engine.now.hosting.stores }
    ensures stands { D.tells → (w : World) (is : IsSetNow w header.now) → StandsFor (D.disk dev.old) engine.now w → HoldsCopy w is.db header.now.checkpoint header.now.first header.now.last (D.disk dev.old) staged.now
        → OnOk result (StandsFor (D.disk dev.new) engine.now (done w (set_sealed path.now header.now))) }
    ensures crash { D.tells → (w : World) (is : IsSetNow w header.now) → StandsFor (D.disk dev.old) engine.now w → HoldsCopy w is.db header.now.checkpoint header.now.first header.now.last (D.disk dev.old) staged.now
        → Effect IsOurs (CutsAct w (set_sealed path.now header.now)) (D.disk dev.old) (D.disk dev.new) }
    ensures touches { D.tells → TouchesOnly (IsAt path.now) (D.disk dev.old) (D.disk dev.new) }
    ensures trouble { IfErr result IsPassing }
    ensures cause { HasCause D.disk_faults D.tell_faults dev.old dev.new (IsErrOf result Trouble.Fault) }
{
    engine.at_rest(dev);
    let Some(database) = seen.named(header.database.as_str()) else {
        return Err(Trouble::NoMemory);
    };
    let tables = database.shown.tables();
    seal_tables(engine, dev, path, staged, header, tables)
}

// Seals what was copied of a header's database.
fn seal_seen<D: Device>(
    engine: &Engine,
    dev: &mut D,
    path: &Text,
    staged: &Staged,
    header: &Header,
) -> Result<(), Trouble>
    requires ready { IsReady engine.now }
    requires whole { staged.now.failed ≡ false }
    requires named { IsStagingFile staged.now.name }
    requires keeps { KeepsConditions header.now }
    requires standing { D.tells → AreStanding (D.disk dev.old) engine.now.hosting.stores }
    requires staged { D.tells → IsStaged (D.disk dev.old) staged.now }
    ensures standing { D.tells → AreStanding (D.disk dev.new) engine.now.hosting.stores }
    ensures stands { D.tells → (w : World) (is : IsSetNow w header.now) → StandsFor (D.disk dev.old) engine.now w → HoldsCopy w is.db header.now.checkpoint header.now.first header.now.last (D.disk dev.old) staged.now
        → OnOk result (StandsFor (D.disk dev.new) engine.now (done w (set_sealed path.now header.now))) }
    ensures crash { D.tells → (w : World) (is : IsSetNow w header.now) → StandsFor (D.disk dev.old) engine.now w → HoldsCopy w is.db header.now.checkpoint header.now.first header.now.last (D.disk dev.old) staged.now
        → Effect IsOurs (CutsAct w (set_sealed path.now header.now)) (D.disk dev.old) (D.disk dev.new) }
    ensures touches { D.tells → TouchesOnly (IsAt path.now) (D.disk dev.old) (D.disk dev.new) }
    ensures trouble { IfErr result IsPassing }
    ensures cause { HasCause D.disk_faults D.tell_faults dev.old dev.new (IsErrOf result Trouble.Fault) }
{
    engine.at_rest(dev);
    let ends = engine.ends(engine.alloc())?;
    let seen = engine.view(engine.alloc(), &ends)?;
    seal_over(engine, &seen, dev, path, staged, header)
}

// Copies these extents, which are left to a set without a log, and the log of a header's database, which stands at this place, and seals the set on the medium at a path. The record names no set then.
fn seal_rest<D: Device>(
    engine: &mut Engine,
    dev: &mut D,
    path: &Text,
    at: usize,
    staged: Staged,
    rest: &[ExtentId],
    header: &Header,
) -> Result<(), Trouble>
    requires ready { IsReady engine.old }
    requires inside { at < length engine.old.hosting.states }
    requires there { HaveExtents engine.old.hosting.stores.slots at rest.now }
    requires keeps { KeepsConditions header.now }
    requires standing { D.tells → AreStanding (D.disk dev.old) engine.old.hosting.stores }
    requires sound { staged.failed ≡ false }
    requires named { IsStagingFile staged.name }
    requires first { staged.log ≡ 0 }
    requires few { staged.extents + length rest.now < 2 ^ 32 }
    requires staged { D.tells → IsStaged (D.disk dev.old) staged }
    ensures ready { OnOk result (IsReady engine.new) }
    ensures own { OnOk result (NamesSet None engine.old engine.new) }
    ensures standing { D.tells → OnOk result (AreStanding (D.disk dev.new) engine.new.hosting.stores) }
    ensures stands { D.tells → (w : World) (is : IsSetNow w header.now) → StandsFor (D.disk dev.old) engine.old w → (set : Guid) → IsGuid set → staged.name ≡ staging_file set → IsApart w set → slice_get w.databases at ≡ Some is.db
        → HoldsFront w is.db header.now.checkpoint rest.now (D.disk dev.old) staged → OnOk result (StandsFor (D.disk dev.new) engine.new (done w (set_sealed path.now header.now))) }
    ensures crash { D.tells → (w : World) (is : IsSetNow w header.now) → StandsFor (D.disk dev.old) engine.old w → (set : Guid) → IsGuid set → staged.name ≡ staging_file set → IsApart w set → slice_get w.databases at ≡ Some is.db
        → HoldsFront w is.db header.now.checkpoint rest.now (D.disk dev.old) staged → Effect IsOurs (CutsAct w (set_sealed path.now header.now)) (D.disk dev.old) (D.disk dev.new) }
    ensures touches { D.tells → TouchesOnly (IsAt path.now) (D.disk dev.old) (D.disk dev.new) }
    ensures trouble { IfErr result IsPassing }
    ensures cause { HasCause D.disk_faults D.tell_faults dev.old dev.new (IsErrOf result Trouble.Fault) }
{
    let mut staged = staged;
    copy_rest(engine, dev, at, &mut staged, rest, header)?;
    seal_seen(engine, dev, path, &staged, header)?;
    engine.end_set(dev, staged)
}

/// Copies a header's database into a set, and seals that on the medium at a path. Where it is a set of the database as it is, which no backup that runs has, the instance stands for the world behind that
/// then; a crash leaves the world before it, but for what waited, or the one behind it. The record names no set then.
///
/// `NoMemory` comes too where there is no such database or medium, or no set of it.
pub fn seal_database<D: Device>(
    engine: &mut Engine,
    dev: &mut D,
    path: &Text,
    header: &Header,
) -> Result<(), Trouble>
    requires ready { IsReady engine.old }
    requires keeps { KeepsConditions header.now }
    requires standing { D.tells → AreStanding (D.disk dev.old) engine.old.hosting.stores }
    ensures ready { OnOk result (IsReady engine.new) }
    ensures own { OnOk result (NamesSet None engine.old engine.new) }
    ensures standing { D.tells → OnOk result (AreStanding (D.disk dev.new) engine.new.hosting.stores) }
    ensures stands { D.tells → (w : World) → StandsFor (D.disk dev.old) engine.old w → IsSetNow w header.now → IsApart w header.now.set → OnOk result (StandsFor (D.disk dev.new) engine.new (done w (set_sealed path.now header.now))) }
    ensures crash { D.tells → (w : World) → StandsFor (D.disk dev.old) engine.old w → IsSetNow w header.now → IsApart w header.now.set → Effect IsOurs (CutsAct w (set_sealed path.now header.now)) (D.disk dev.old) (D.disk dev.new) }
    ensures touches { D.tells → TouchesOnly (IsAt path.now) (D.disk dev.old) (D.disk dev.new) }
    ensures trouble { IfErr result IsPassing }
    ensures cause { HasCause D.disk_faults D.tell_faults dev.old dev.new (IsErrOf result Trouble.Fault) }
{
    let staged = engine.begin_set(dev, header.set)?;
    let at = place_of(engine, dev, header)?;
    let rest = engine.extents(dev, at)?;
    seal_rest(engine, dev, path, at, staged, &rest, header)
}

/// Copies what is left of a header's database to the set that a backup beside the sessions finishes, and its log, and seals that on the medium at a path. Where it is a set of the database as it is,
/// and holds what isn't left, the instance stands for the world behind that then; a crash leaves that before it, but for what waited, or that behind it.
///
/// `NoMemory` comes too where it does of `seal_database`.
pub fn seal_finishing<D: Device>(
    engine: &mut Engine,
    dev: &mut D,
    path: &Text,
    header: &Header,
    finishing: Finishing,
) -> Result<(), Trouble>
    requires ready { IsReady engine.old }
    requires keeps { KeepsConditions header.now }
    requires set { IsFinishing engine.old finishing }
    requires standing { D.tells → AreStanding (D.disk dev.old) engine.old.hosting.stores }
    requires staged { D.tells → IsStaged (D.disk dev.old) finishing.staged }
    ensures ready { OnOk result (IsReady engine.new) }
    ensures own { OnOk result (NamesSet None engine.old engine.new) }
    ensures standing { D.tells → OnOk result (AreStanding (D.disk dev.new) engine.new.hosting.stores) }
    ensures stands { D.tells → (w : World) (is : IsSetNow w header.now) → StandsFor (D.disk dev.old) engine.old w → IsApart w finishing.set → HoldsFront w is.db header.now.checkpoint finishing.rest (D.disk dev.old) finishing.staged
        → OnOk result (StandsFor (D.disk dev.new) engine.new (done w (set_sealed path.now header.now))) }
    ensures crash { D.tells → (w : World) (is : IsSetNow w header.now) → StandsFor (D.disk dev.old) engine.old w → IsApart w finishing.set → HoldsFront w is.db header.now.checkpoint finishing.rest (D.disk dev.old) finishing.staged
        → Effect IsOurs (CutsAct w (set_sealed path.now header.now)) (D.disk dev.old) (D.disk dev.new) }
    ensures touches { D.tells → TouchesOnly (IsAt path.now) (D.disk dev.old) (D.disk dev.new) }
    ensures trouble { IfErr result IsPassing }
    ensures cause { HasCause D.disk_faults D.tell_faults dev.old dev.new (IsErrOf result Trouble.Fault) }
{
    engine.at_rest(dev);
    let at = place_of(engine, dev, header)?;
    if at != finishing.at {
        return Err(Trouble::NoMemory);
    }
    seal_rest(
        engine,
        dev,
        path,
        at,
        finishing.staged,
        &finishing.rest,
        header,
    )
}
