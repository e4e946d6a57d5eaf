//! The headers of the sets of a medium.
ghost use Rattle.std.specs.Prelude.{◌≡◌, ◌++◌, ◌∷◌, [], None, Some, false, IfErr, IfOk, OnOk, IsErrOf};
ghost use Rattle.bk_device.specs.Calls.{ChangesNothing};
ghost use Rattle.bk_device.specs.Counts.{HasCause};
ghost use Rattle.bk_device.specs.Troubles.{IsPassing};
ghost use Rattle.bk_device.specs.declared.trouble.Trouble.TheVariants.{Fault};
ghost use Rattle.bk_machine.specs.World.{World};
ghost use Rattle.bk_machine.specs.statements.Query.{headers_of};
ghost use Rattle.bk_volume.specs.Media.{ShowsMedium};
ghost use Rattle.bk_volume.specs.Names.{medium_file};
ghost use Rattle.bk_world.specs.Medium.{medium_at};
ghost use Rattle.bk_archive.specs.Listed.{Lists, header_of, one_header};
ghost use Rattle.bk_archive.specs.Media.{KeepsMedia};
ghost use Rattle.bk_archive.specs.Opened.{set_of};

use crate::loading::load_medium;
use crate::opening::{OpenedSet, open_at, open_set};
use bk_device::{Device, Trouble};
use bk_ids::Sequence;
use bk_volume::{Medium, StoredSet};
use bk_world::{Header, Rule};
use std::alloc::{AllocError, Global};

// Adds the header of a set, with its position.
fn add_header(
    sets: &mut Vec<(u64, Header)>,
    position: u64,
    set: StoredSet,
) -> Result<(), AllocError>
    ensures { OnOk result (sets.new.items ≡ sets.old.items ++ (position, set.header) ∷ []) }
{
    sets.push((position, set.into_header()))?;
    Ok(())
}

// The headers of all sets of a medium, each with its position.
fn list_on<D: Device>(
    alloc: Global,
    dev: &mut D,
    medium: &Medium,
) -> Result<Result<Sequence<(u64, Header)>, Rule>, Trouble>
    requires fit { medium.now.failed ≡ false }
    requires shows { D.tells → ShowsMedium (D.disk dev.old) medium.now }
    ensures sets { D.tells → IfOk result (Lists ((D.disk dev.old).files medium.now.name)) }
    ensures effect { D.tells → ChangesNothing (D.disk dev.old) (D.disk dev.new) }
    ensures trouble { IfErr result IsPassing }
    ensures cause { HasCause D.disk_faults D.tell_faults dev.old dev.new (IsErrOf result Fault) }
{
    let mut sets = Vec::new(alloc);
    'sets: for index in 0..medium.count() {
        let position = index as u64 + 1;
        match open_at(alloc, dev, medium, position)? {
            Ok(set) => add_header(&mut sets, position, set)?,
            Err(rule) => return Ok(Err(rule)),
        }
    }
    Ok(Ok(Sequence::new(sets)))
}

// The headers of all sets of the medium at a path.
fn list_all<D: Device>(
    alloc: Global,
    dev: &mut D,
    path: &str,
) -> Result<Result<Sequence<(u64, Header)>, Rule>, Trouble>
    ensures sets { D.tells → IfOk result (Lists ((D.disk dev.old).files (medium_file path.now))) }
    ensures effect { D.tells → ChangesNothing (D.disk dev.old) (D.disk dev.new) }
    ensures trouble { IfErr result IsPassing }
    ensures cause { HasCause D.disk_faults D.tell_faults dev.old dev.new (IsErrOf result Fault) }
{
    match load_medium(alloc, dev, path) {
        Ok(Ok(medium)) => list_on(alloc, dev, &medium),
        Ok(Err(rule)) => Ok(Err(rule)),
        Err(e) => Err(e),
    }
}

// The header of a set with its position, where it was opened.
fn one_of(
    alloc: Global,
    position: u64,
    opened: Result<OpenedSet, Rule>,
) -> Result<Result<Sequence<(u64, Header)>, Rule>, AllocError>
    ensures { IfOk result (λ sets. sets ≡ one_header position (header_of (set_of opened))) }
{
    let set = match opened {
        Ok(OpenedSet { set, .. }) => set,
        Err(rule) => return Ok(Err(rule)),
    };
    let mut sets = Vec::new(alloc);
    add_header(&mut sets, position, set)?;
    Ok(Ok(Sequence::new(sets)))
}

// The header of the set at a position of the medium at a path.
fn list_one<D: Device>(
    alloc: Global,
    dev: &mut D,
    path: &str,
    position: u64,
) -> Result<Result<Sequence<(u64, Header)>, Rule>, Trouble>
    ensures sets { D.tells → (w : World) → KeepsMedia w None (D.disk dev.old).files → IfOk result (λ sets. headers_of (medium_at w.media path.now) (Some position) ≡ sets) }
    ensures effect { D.tells → ChangesNothing (D.disk dev.old) (D.disk dev.new) }
    ensures trouble { IfErr result IsPassing }
    ensures cause { HasCause D.disk_faults D.tell_faults dev.old dev.new (IsErrOf result Fault) }
{
    let opened = open_set(alloc, dev, path, position)?;
    let sets = one_of(alloc, position, opened)?;
    Ok(sets)
}

/// The headers of all sets of the medium at a path, each with its position from 1, or that of the set at one position; or the
/// rule by which the first of them is refused that can't be read. Each set's digest is checked on the way, in pieces: the memory
/// that it takes doesn't grow with a set. Changes nothing.
pub fn list_sets<D: Device>(
    alloc: Global,
    dev: &mut D,
    path: &str,
    file: Option<u64>,
) -> Result<Result<Sequence<(u64, Header)>, Rule>, Trouble>
    ensures sets { D.tells → (w : World) → KeepsMedia w None (D.disk dev.old).files → IfOk result (λ sets. headers_of (medium_at w.media path.now) file ≡ sets) }
    ensures effect { D.tells → ChangesNothing (D.disk dev.old) (D.disk dev.new) }
    ensures trouble { IfErr result IsPassing }
    ensures cause { HasCause D.disk_faults D.tell_faults dev.old dev.new (IsErrOf result Fault) }
{
    match file {
        Some(position) => list_one(alloc, dev, path, position),
        None => list_all(alloc, dev, path),
    }
}
