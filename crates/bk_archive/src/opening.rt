//! The set at a position of a medium.
ghost use Rattle.std.specs.Prelude.{◌≡◌, ◌⊎◌, Ok, Err, None, false, IfErr, IfOk, IsErrOf};
ghost use Rattle.bk_device.specs.Calls.{ChangesNothing};
ghost use Rattle.bk_device.specs.Counts.{HasCause};
ghost use Rattle.bk_device.specs.Troubles.{IsPassing};
ghost use Rattle.bk_device.specs.declared.trouble.Trouble.TheVariants.{Fault};
ghost use Rattle.bk_machine.specs.World.{World};
ghost use Rattle.bk_volume.specs.Media.{ShowsMedium};
ghost use Rattle.bk_volume.specs.Names.{medium_file};
ghost use Rattle.bk_archive.specs.Opened.{AnswersSet, IsFound, set_of};
ghost use Rattle.bk_archive.specs.Media.{KeepsMedia};

use crate::loading::load_medium;
use bk_device::{Device, Trouble};
use bk_ids::Digest;
use bk_volume::{Medium, SetError, StoredSet};
use bk_world::Rule;
use std::alloc::Global;

/// A medium that was opened, and a set on it.
#[derive(Drop)]
pub struct OpenedSet {
    pub medium: Medium,
    pub set: StoredSet,
}

/// Opens the set at a position, from 1, of the medium at a path, or answers the rule by which it is refused. Changes nothing.
pub fn open_set<D: Device>(
    alloc: Global,
    dev: &mut D,
    path: &str,
    position: u64,
) -> Result<Result<OpenedSet, Rule>, Trouble>
    ensures answer { D.tells → IfOk result (λ opened. IsFound position ((D.disk dev.old).files (medium_file path.now)) (set_of opened)) }
    ensures set { D.tells → (w : World) → KeepsMedia w None (D.disk dev.old).files → IfOk result (λ opened. AnswersSet w path.now position ((D.disk dev.old).files (medium_file path.now)) (set_of opened)) }
    ensures name { IfOk result (λ opened. IfOk opened (λ o. o.medium.name ≡ medium_file path.now)) }
    ensures fit { IfOk result (λ opened. IfOk opened (λ o. o.medium.failed ≡ false)) }
    ensures shows { D.tells → IfOk result (λ opened. IfOk opened (λ o. ShowsMedium (D.disk dev.new) o.medium)) }
    ensures effect { D.tells → ChangesNothing (D.disk dev.old) (D.disk dev.new) }
    ensures trouble { IfErr result IsPassing }
    ensures cause { HasCause D.disk_faults D.tell_faults dev.old dev.new (IsErrOf result Fault) }
{
    match load_medium(alloc, dev, path) {
        Ok(Ok(medium)) => open_on(alloc, dev, medium, position),
        Ok(Err(rule)) => Ok(Err(rule)),
        Err(e) => Err(e),
    }
}

// A medium with the set at a position.
fn open_on<D: Device>(
    alloc: Global,
    dev: &mut D,
    medium: Medium,
    position: u64,
) -> Result<Result<OpenedSet, Rule>, Trouble>
    requires fit { medium.failed ≡ false }
    requires shows { D.tells → ShowsMedium (D.disk dev.old) medium }
    ensures answer { D.tells → IfOk result (λ opened. IsFound position ((D.disk dev.old).files medium.name) (set_of opened)) }
    ensures medium { IfOk result (λ opened. IfOk opened (λ o. o.medium ≡ medium)) }
    ensures effect { D.tells → ChangesNothing (D.disk dev.old) (D.disk dev.new) }
    ensures trouble { IfErr result IsPassing }
    ensures cause { HasCause D.disk_faults D.tell_faults dev.old dev.new (IsErrOf result Fault) }
{
    match open_at(alloc, dev, &medium, position) {
        Ok(set) => Ok(with_medium(medium, set)),
        Err(e) => {
            drop(medium);
            Err(e)
        }
    }
}

// The medium beside a set on it, where that was opened.
fn with_medium(medium: Medium, set: Result<StoredSet, Rule>) -> Result<OpenedSet, Rule>
    ensures set { set_of result ≡ set }
    ensures medium { IfOk result (λ o. o.medium ≡ medium) }
{
    match set {
        Ok(set) => Ok(OpenedSet { medium, set }),
        Err(rule) => {
            drop(medium);
            Err(rule)
        }
    }
}

/// Opens the set at a position, from 1, of a medium, or answers the rule by which it is refused. Changes nothing.
pub fn open_at<D: Device>(
    alloc: Global,
    dev: &mut D,
    medium: &Medium,
    position: u64,
) -> Result<Result<StoredSet, Rule>, Trouble>
    requires fit { medium.now.failed ≡ false }
    requires shows { D.tells → ShowsMedium (D.disk dev.old) medium.now }
    ensures answer { D.tells → IfOk result (IsFound position ((D.disk dev.old).files medium.now.name)) }
    ensures effect { D.tells → ChangesNothing (D.disk dev.old) (D.disk dev.new) }
    ensures trouble { IfErr result IsPassing }
    ensures cause { HasCause D.disk_faults D.tell_faults dev.old dev.new (IsErrOf result Fault) }
{
    match medium.open_set(alloc, dev, position as usize) {
        Ok(set) => Ok(Ok(set)),
        Err(SetError::NoSuchSet) => Ok(Err(Rule::NoSuchSet {
            position,
            count: medium.count() as u64,
        })),
        Err(SetError::Damaged { stored, found }) => Ok(Err(Rule::SetDamaged {
            stored: Digest { bytes: stored },
            found: Digest { bytes: found },
        })),
        Err(SetError::NotMedia) => Ok(Err(Rule::NotMedia)),
        Err(SetError::Fault) => Err(Trouble::Fault),
        Err(SetError::NoMemory) => Err(Trouble::NoMemory),
    }
}
