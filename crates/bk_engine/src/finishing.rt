// What a run that was cut off left behind: a medium that was being made, and what was written of sets.
ghost use Rattle.std.specs.Prelude.{◌≡◌, ℕ, [], true, None, IfErr, OnOk, IsErrOf};
ghost use Rattle.bk_archive.specs.Media.{IfDurable, IsMediumFile, MediaAreDurable};
ghost use Rattle.bk_device.specs.Calls.{ChangesNothing};
ghost use Rattle.bk_device.specs.Counts.{HasCause};
ghost use Rattle.bk_device.specs.Effects.{Effect};
ghost use Rattle.bk_device.specs.Troubles.{IsPassing};
ghost use Rattle.bk_hosting.specs.Hosting.{IsReady as AreReady, own_of};
ghost use Rattle.bk_machine.specs.World.{World};
ghost use Rattle.bk_stores.specs.Standing.{AreStanding};
ghost use Rattle.bk_engine.specs.LoadLaws.{Cleared};
ghost use Rattle.bk_engine.specs.Loading.{HasFinishedAny, LeavesFinishingAny, Opened, Stands};
ghost use Rattle.bk_engine.specs.Stands.{IsOurs, IsStagingFile};
ghost use Rattle.bk_engine.specs.Touched.{IsMadeAt, NoMedium, TouchesOnly};

use bk_archive::finish_medium;
use bk_device::{Device, Trouble};
use bk_hosting::Hosting;
use bk_ids::{Guid, Sequence, Text};
use bk_master::Own;
use bk_volume::remove_staged;
use std::alloc::Global;

// Finishes the medium that was being made, if one was, or takes it away.
fn finish_making<D: Device>(
    alloc: Global,
    dev: &mut D,
    making: &Option<Text>,
) -> Result<(), Trouble>
    ensures finished { D.tells → OnOk result (HasFinishedAny making.now (D.disk dev.old).files (D.disk dev.new).files) }
    ensures calm { D.tells → MediaAreDurable (D.disk dev.old) → OnOk result (MediaAreDurable (D.disk dev.new)) }
    ensures crash { D.tells → Effect IsMediumFile (IfDurable (D.disk dev.old) (LeavesFinishingAny making.now (D.disk dev.old).files)) (D.disk dev.old) (D.disk dev.new) }
    ensures touches { D.tells → TouchesOnly (IsMadeAt making.now) (D.disk dev.old) (D.disk dev.new) }
    ensures trouble { IfErr result IsPassing }
    ensures cause { HasCause D.disk_faults D.tell_faults dev.old dev.new (IsErrOf result Trouble.Fault) }
{
    match making {
        Some(path) => finish_medium(alloc, dev, path.as_str()),
        None => Ok(()),
    }
}

// Removes what was written of this set.
fn remove_at<D: Device>(alloc: Global, dev: &mut D, set: Guid) -> Result<(), Trouble>
    ensures crash { D.tells → Effect IsStagingFile (λ image. Unit {0}) (D.disk dev.old) (D.disk dev.new) }
    ensures touches { D.tells → TouchesOnly NoMedium (D.disk dev.old) (D.disk dev.new) }
    ensures trouble { IfErr result IsPassing }
    ensures cause { HasCause D.disk_faults D.tell_faults dev.old dev.new (IsErrOf result Trouble.Fault) }
{
    remove_staged(alloc, dev, set)?;
    Ok(())
}

// Removes what was written of a set, if one was.
fn remove_set<D: Device>(alloc: Global, dev: &mut D, staging: Option<Guid>) -> Result<(), Trouble>
    ensures crash { D.tells → Effect IsStagingFile (λ image. Unit {0}) (D.disk dev.old) (D.disk dev.new) }
    ensures touches { D.tells → TouchesOnly NoMedium (D.disk dev.old) (D.disk dev.new) }
    ensures trouble { IfErr result IsPassing }
    ensures cause { HasCause D.disk_faults D.tell_faults dev.old dev.new (IsErrOf result Trouble.Fault) }
{
    match staging {
        Some(set) => remove_at(alloc, dev, set),
        None => Ok(()),
    }
}

// Removes what was written of these sets.
pub(crate) fn remove_sets<D: Device>(
    alloc: Global,
    dev: &mut D,
    sets: &[Guid],
) -> Result<(), Trouble>
    ensures crash { D.tells → Effect IsStagingFile (λ image. Unit {0}) (D.disk dev.old) (D.disk dev.new) }
    ensures touches { D.tells → TouchesOnly NoMedium (D.disk dev.old) (D.disk dev.new) }
    ensures trouble { IfErr result IsPassing }
    ensures cause { HasCause D.disk_faults D.tell_faults dev.old dev.new (IsErrOf result Trouble.Fault) }
{
    for set in sets {
        remove_at(alloc, dev, *set)?;
    }
    Ok(())
}

// Removes what was written of the sets that a record names.
fn remove_named<D: Device>(alloc: Global, dev: &mut D, own: &Own) -> Result<(), Trouble>
    ensures crash { D.tells → Effect IsStagingFile (λ image. Unit {0}) (D.disk dev.old) (D.disk dev.new) }
    ensures touches { D.tells → TouchesOnly NoMedium (D.disk dev.old) (D.disk dev.new) }
    ensures trouble { IfErr result IsPassing }
    ensures cause { HasCause D.disk_faults D.tell_faults dev.old dev.new (IsErrOf result Trouble.Fault) }
{
    remove_set(alloc, dev, own.staging)?;
    remove_sets(alloc, dev, own.copying.as_slice())
}

// Finishes the medium that a record names as being made, or takes it away, and removes what was written of the sets that it names.
fn clear<D: Device>(alloc: Global, dev: &mut D, hosting: &Hosting) -> Result<(), Trouble>
    requires standing { D.tells → AreStanding (D.disk dev.old) hosting.now.stores }
    ensures standing { D.tells → AreStanding (D.disk dev.new) hosting.now.stores }
    ensures stands { D.tells → (w : World) → Opened (D.disk dev.old) hosting.now w → OnOk result (Cleared (D.disk dev.new) hosting.now w) }
    ensures crash { D.tells → (number : ℕ) (w : World) → Opened (D.disk dev.old) hosting.now w → Effect IsOurs (λ image. Stands number image w) (D.disk dev.old) (D.disk dev.new) }
    ensures touches { D.tells → TouchesOnly (IsMadeAt (own_of hosting.now).making) (D.disk dev.old) (D.disk dev.new) }
    ensures trouble { IfErr result IsPassing }
    ensures cause { HasCause D.disk_faults D.tell_faults dev.old dev.new (IsErrOf result Trouble.Fault) }
{
    hosting.at_rest(dev);
    let own = hosting.own();
    finish_making(alloc, dev, &own.making)?;
    hosting.at_rest(dev);
    remove_named(alloc, dev, own)
}

// Whether nothing was being made.
fn is_whole(own: &Own) -> bool
    ensures whole { result ≡ true → (own.now.making ≡ None) × (own.now.staging ≡ None) }
    ensures copied { result ≡ true → own.now.copying ≡ [] }
    ensures all { own.now.making ≡ None → own.now.staging ≡ None → own.now.copying ≡ [] → result ≡ true }
{
    own.making.is_none() && own.staging.is_none() && own.copying.as_slice().is_empty()
}

/// Clears up what a run that was cut off left behind, and then the record names nothing as being made.
///
/// A crash leaves files that stand for the same world. Where the record names nothing the files stay as they are. Only `Fault` and `NoMemory` are answered.
pub(crate) fn finish<D: Device>(
    alloc: Global,
    dev: &mut D,
    hosting: &mut Hosting,
) -> Result<(), Trouble>
    requires ready { AreReady hosting.old }
    requires standing { D.tells → AreStanding (D.disk dev.old) hosting.old.stores }
    ensures ready { OnOk result (AreReady hosting.new) }
    ensures none { OnOk result (((own_of hosting.new).making ≡ None) × ((own_of hosting.new).staging ≡ None)) }
    ensures copied { OnOk result ((own_of hosting.new).copying ≡ []) }
    ensures standing { D.tells → OnOk result (AreStanding (D.disk dev.new) hosting.new.stores) }
    ensures stands { D.tells → (w : World) → Opened (D.disk dev.old) hosting.old w → OnOk result (Opened (D.disk dev.new) hosting.new w) }
    ensures crash { D.tells → (number : ℕ) (w : World) → Opened (D.disk dev.old) hosting.old w → Effect IsOurs (λ image. Stands number image w) (D.disk dev.old) (D.disk dev.new) }
    ensures touches { D.tells → TouchesOnly (IsMadeAt (own_of hosting.old).making) (D.disk dev.old) (D.disk dev.new) }
    ensures still { D.tells → (own_of hosting.old).making ≡ None → (own_of hosting.old).staging ≡ None → (own_of hosting.old).copying ≡ [] → OnOk result (ChangesNothing (D.disk dev.old) (D.disk dev.new)) }
    ensures trouble { IfErr result IsPassing }
    ensures cause { HasCause D.disk_faults D.tell_faults dev.old dev.new (IsErrOf result Trouble.Fault) }
{
    hosting.at_rest(dev);
    if is_whole(hosting.own()) {
        return Ok(());
    }
    clear(alloc, dev, hosting)?;
    let own = hosting.own();
    let next = Own {
        number: own.number,
        counter: own.counter,
        making: None,
        staging: None,
        copying: Sequence::new(Vec::new(alloc)),
    };
    hosting.put_own(alloc, dev, next)
}
