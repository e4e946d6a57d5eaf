// Sets that are being written.
ghost use Rattle.std.specs.Prelude.{◌≡◌, ◌≤◌, [], ◌∷◌, ◌++◌, length, List, ℕ, false, None, Some, IfErr, IfOk, OnOk, IsErrOf};
ghost use Rattle.bk_device.specs.Calls.{ChangesNothing};
ghost use Rattle.bk_device.specs.Counts.{HasCause};
ghost use Rattle.bk_device.specs.Effects.{Effect, IsName};
ghost use Rattle.bk_device.specs.Troubles.{IsPassing};
ghost use Rattle.bk_fields.specs.Guids.{IsGuid};
ghost use Rattle.bk_ids.specs.declared.guid.Guid.{Guid as Guids};
ghost use Rattle.bk_kept.specs.Jobs.{IsApart};
ghost use Rattle.bk_machine.specs.World.{World};
ghost use Rattle.bk_stores.specs.Standing.{AreStanding};
ghost use Rattle.bk_stores.specs.Stores.{TouchesOurs};
ghost use Rattle.bk_volume.specs.Names.{staging_file};
ghost use Rattle.bk_volume.specs.Staging.{HoldsParts, IsStaged};
ghost use Rattle.bk_engine.specs.Amid.{AmidBare};
ghost use Rattle.bk_engine.specs.Copied.{staging_of};
ghost use Rattle.bk_engine.specs.Stands.{Covers, IsOurs, IsReady, IsStagingFile, NamesSet, StandsFor, own_in};
ghost use Rattle.bk_engine.specs.Touched.{NoMedium, TouchesOnly};

use crate::engine::Engine;
use bk_device::{Device, Trouble};
use bk_ids::{Guid, Sequence};
use bk_master::Own;
use bk_volume::Staged;
use std::alloc::{AllocError, Global};

// At most so many sets are copied beside the sessions.
const MOST_COPIED: usize = 16;

// These sets, of their own.
pub(crate) fn copied_sets(alloc: Global, sets: &[Guid]) -> Result<Sequence<Guid>, AllocError>
    ensures { IfOk result (λ copy. copy ≡ sets.now) }
{
    let mut copy = Vec::new(alloc);
    for set in sets {
        copy.push(*set)?;
    }
    Ok(Sequence::new(copy))
}

// These sets and one behind them.
fn with_set(alloc: Global, sets: &[Guid], set: Guid) -> Result<Sequence<Guid>, AllocError>
    ensures { IfOk result (λ copy. copy ≡ sets.now ++ set ∷ []) }
{
    let mut copy = copied_sets(alloc, sets)?.into_vec();
    copy.push(set)?;
    Ok(Sequence::new(copy))
}

// These sets but for one.
fn without_set(alloc: Global, sets: &[Guid], set: Guid) -> Result<Sequence<Guid>, AllocError>
    ensures { IfOk result (λ copy. length copy ≤ length sets.now) }
{
    let mut copy = Vec::new(alloc);
    for other in sets {
        if other.high != set.high || other.low != set.low {
            copy.push(*other)?;
        }
    }
    Ok(Sequence::new(copy))
}

// Begins the file of a set that is to be written.
fn begin_at<D: Device>(alloc: Global, dev: &mut D, set: Guid) -> Result<Staged, Trouble>
    ensures guid { IsGuid set }
    ensures begun { IfOk result (λ s. s ≡ record { name = staging_file set; extents = 0; log = 0; failed = false }) }
    ensures empty { D.tells → OnOk result ((D.disk dev.new).files (staging_file set) ≡ None) }
    ensures crash { D.tells → Effect (IsName (staging_file set)) (λ image. Unit {0}) (D.disk dev.old) (D.disk dev.new) }
    ensures trouble { IfErr result IsPassing }
    ensures cause { HasCause D.disk_faults D.tell_faults dev.old dev.new (IsErrOf result Trouble.Fault) }
{
    Ok(Staged::begin(alloc, dev, set)?)
}

// Takes up the file of a set to which so many extents were added.
fn again_at<D: Device>(
    alloc: Global,
    dev: &mut D,
    set: Guid,
    extents: u32,
) -> Result<Staged, Trouble>
    ensures again { IfOk result (λ s. s ≡ staging_of set extents) }
    ensures staged { D.tells → IfOk result (λ s. IsStaged (D.disk dev.new) s) }
    ensures effect { D.tells → ChangesNothing (D.disk dev.old) (D.disk dev.new) }
    ensures trouble { IfErr result IsPassing }
    ensures cause { HasCause D.disk_faults D.tell_faults dev.old dev.new (IsErrOf result Trouble.Fault) }
{
    Ok(Staged::again(alloc, dev, set, extents)?)
}

// Removes the file of a set that was written.
fn remove_file<D: Device>(dev: &mut D, staged: Staged) -> Result<(), Trouble>
    ensures removed { D.tells → OnOk result ((D.disk dev.new).files staged.name ≡ None) }
    ensures crash { D.tells → Effect (IsName staged.name) (λ image. Unit {0}) (D.disk dev.old) (D.disk dev.new) }
    ensures trouble { IfErr result IsPassing }
    ensures cause { HasCause D.disk_faults D.tell_faults dev.old dev.new (IsErrOf result Trouble.Fault) }
{
    staged.remove(dev)?;
    Ok(())
}

impl Engine {
    // The record names this set as being written, or none, and these as being copied beside the sessions.
    pub(crate) fn put_sets<D: Device>(
        &mut self,
        dev: &mut D,
        staging: Option<Guid>,
        copying: Sequence<Guid>,
    ) -> Result<(), Trouble>
        requires ready { IsReady self.old }
        requires few { length copying ≤ 16 }
        requires standing { D.tells → AreStanding (D.disk dev.old) self.old.hosting.stores }
        ensures ready { OnOk result (IsReady self.new) }
        ensures own { OnOk result (NamesSet staging self.old self.new) }
        ensures same { self.new ≡ record self.old { hosting = self.new.hosting } }
        ensures standing { D.tells → OnOk result (AreStanding (D.disk dev.new) self.new.hosting.stores) }
        ensures stands { D.tells → (w : World) → StandsFor (D.disk dev.old) self.old w → OnOk result (StandsFor (D.disk dev.new) self.new w) }
        ensures crash { D.tells → (w : World) → StandsFor (D.disk dev.old) self.old w → Effect IsOurs (Covers w) (D.disk dev.old) (D.disk dev.new) }
        ensures bare { D.tells → (w : World) → AmidBare (D.disk dev.old) self.old.hosting w → Effect IsOurs (Covers w) (D.disk dev.old) (D.disk dev.new) }
        ensures touches { D.tells → TouchesOurs (D.disk dev.old) (D.disk dev.new) }
        ensures trouble { IfErr result IsPassing }
        ensures cause { HasCause D.disk_faults D.tell_faults dev.old dev.new (IsErrOf result Trouble.Fault) }
    {
        let own = self.hosting.own();
        let next = Own {
            number: own.number,
            counter: own.counter,
            making: None,
            staging,
            copying,
        };
        self.hosting.put_own(self.alloc, dev, next)
    }

    // The record names this set as being written, or none.
    pub(crate) fn name_set<D: Device>(
        &mut self,
        dev: &mut D,
        staging: Option<Guid>,
    ) -> Result<(), Trouble>
        requires ready { IsReady self.old }
        requires standing { D.tells → AreStanding (D.disk dev.old) self.old.hosting.stores }
        ensures ready { OnOk result (IsReady self.new) }
        ensures own { OnOk result (NamesSet staging self.old self.new) }
        ensures same { self.new ≡ record self.old { hosting = self.new.hosting } }
        ensures standing { D.tells → OnOk result (AreStanding (D.disk dev.new) self.new.hosting.stores) }
        ensures stands { D.tells → (w : World) → StandsFor (D.disk dev.old) self.old w → OnOk result (StandsFor (D.disk dev.new) self.new w) }
        ensures crash { D.tells → (w : World) → StandsFor (D.disk dev.old) self.old w → Effect IsOurs (Covers w) (D.disk dev.old) (D.disk dev.new) }
        ensures touches { D.tells → TouchesOurs (D.disk dev.old) (D.disk dev.new) }
        ensures trouble { IfErr result IsPassing }
        ensures cause { HasCause D.disk_faults D.tell_faults dev.old dev.new (IsErrOf result Trouble.Fault) }
    {
        self.at_rest(dev);
        let copying = copied_sets(self.alloc, self.hosting.own().copying.as_slice())?;
        self.put_sets(dev, staging, copying)
    }

    // The record names this set among those that are being copied beside the sessions, of which it names at most 16: where it names as many, the call ends as if memory were wanting.
    pub(crate) fn name_copying<D: Device>(&mut self, dev: &mut D, set: Guid) -> Result<(), Trouble>
        requires ready { IsReady self.old }
        requires standing { D.tells → AreStanding (D.disk dev.old) self.old.hosting.stores }
        ensures ready { OnOk result (IsReady self.new) }
        ensures own { OnOk result (NamesSet (own_in self.old).staging self.old self.new) }
        ensures standing { D.tells → OnOk result (AreStanding (D.disk dev.new) self.new.hosting.stores) }
        ensures stands { D.tells → (w : World) → StandsFor (D.disk dev.old) self.old w → OnOk result (StandsFor (D.disk dev.new) self.new w) }
        ensures crash { D.tells → (w : World) → StandsFor (D.disk dev.old) self.old w → Effect IsOurs (Covers w) (D.disk dev.old) (D.disk dev.new) }
        ensures touches { D.tells → TouchesOurs (D.disk dev.old) (D.disk dev.new) }
        ensures trouble { IfErr result IsPassing }
        ensures cause { HasCause D.disk_faults D.tell_faults dev.old dev.new (IsErrOf result Trouble.Fault) }
    {
        self.at_rest(dev);
        let own = self.hosting.own();
        let staging = own.staging;
        if own.copying.as_slice().len() >= MOST_COPIED {
            return Err(Trouble::NoMemory);
        }
        let copying = with_set(self.alloc, own.copying.as_slice(), set)?;
        self.put_sets(dev, staging, copying)
    }

    // The record names this set as being written, and not as being copied beside the sessions any more.
    pub(crate) fn name_finishing<D: Device>(
        &mut self,
        dev: &mut D,
        set: Guid,
    ) -> Result<(), Trouble>
        requires ready { IsReady self.old }
        requires standing { D.tells → AreStanding (D.disk dev.old) self.old.hosting.stores }
        ensures ready { OnOk result (IsReady self.new) }
        ensures own { OnOk result (NamesSet (Some set) self.old self.new) }
        ensures standing { D.tells → OnOk result (AreStanding (D.disk dev.new) self.new.hosting.stores) }
        ensures stands { D.tells → (w : World) → StandsFor (D.disk dev.old) self.old w → OnOk result (StandsFor (D.disk dev.new) self.new w) }
        ensures crash { D.tells → (w : World) → StandsFor (D.disk dev.old) self.old w → Effect IsOurs (Covers w) (D.disk dev.old) (D.disk dev.new) }
        ensures touches { D.tells → TouchesOurs (D.disk dev.old) (D.disk dev.new) }
        ensures trouble { IfErr result IsPassing }
        ensures cause { HasCause D.disk_faults D.tell_faults dev.old dev.new (IsErrOf result Trouble.Fault) }
    {
        self.at_rest(dev);
        let copying = without_set(self.alloc, self.hosting.own().copying.as_slice(), set)?;
        self.put_sets(dev, Some(set), copying)
    }

    // Begins the file of a set that is to be written.
    pub(crate) fn begin_staged<D: Device>(&self, dev: &mut D, set: Guid) -> Result<Staged, Trouble>
        requires standing { D.tells → AreStanding (D.disk dev.old) self.now.hosting.stores }
        ensures guid { IsGuid set }
        ensures begun { IfOk result (λ s. s ≡ record { name = staging_file set; extents = 0; log = 0; failed = false }) }
        ensures empty { D.tells → IfOk result (λ s. HoldsParts (D.disk dev.new) s [] []) }
        ensures standing { D.tells → AreStanding (D.disk dev.new) self.now.hosting.stores }
        ensures stands { D.tells → (w : World) → IsReady self.now → StandsFor (D.disk dev.old) self.now w → IsApart w set → StandsFor (D.disk dev.new) self.now w }
        ensures crash { D.tells → (w : World) → IsReady self.now → StandsFor (D.disk dev.old) self.now w → Effect IsOurs (Covers w) (D.disk dev.old) (D.disk dev.new) }
        ensures touches { D.tells → TouchesOnly NoMedium (D.disk dev.old) (D.disk dev.new) }
        ensures trouble { IfErr result IsPassing }
        ensures cause { HasCause D.disk_faults D.tell_faults dev.old dev.new (IsErrOf result Trouble.Fault) }
    {
        self.hosting.at_rest(dev);
        begin_at(self.alloc, dev, set)
    }

    // Takes up the file of a set to which so many extents were added. The world stays.
    pub(crate) fn take_up<D: Device>(
        &self,
        dev: &mut D,
        set: Guid,
        extents: u32,
    ) -> Result<Staged, Trouble>
        requires standing { D.tells → AreStanding (D.disk dev.old) self.now.hosting.stores }
        ensures guid { IsGuid set }
        ensures again { IfOk result (λ s. s ≡ staging_of set extents) }
        ensures staged { D.tells → IfOk result (λ s. IsStaged (D.disk dev.new) s) }
        ensures files { D.tells → (name : List ℕ) → (D.disk dev.new).files name ≡ (D.disk dev.old).files name }
        ensures standing { D.tells → AreStanding (D.disk dev.new) self.now.hosting.stores }
        ensures stands { D.tells → (w : World) → IsReady self.now → StandsFor (D.disk dev.old) self.now w → StandsFor (D.disk dev.new) self.now w }
        ensures crash { D.tells → (w : World) → IsReady self.now → StandsFor (D.disk dev.old) self.now w → Effect IsOurs (Covers w) (D.disk dev.old) (D.disk dev.new) }
        ensures touches { D.tells → TouchesOnly NoMedium (D.disk dev.old) (D.disk dev.new) }
        ensures trouble { IfErr result IsPassing }
        ensures cause { HasCause D.disk_faults D.tell_faults dev.old dev.new (IsErrOf result Trouble.Fault) }
    {
        self.hosting.at_rest(dev);
        again_at(self.alloc, dev, set, extents)
    }

    /// Begins a set that is to be written, with no extent and no log, in a file of its own, which the record names until `end_set`: if the run is cut off, the next one removes it. The world stays.
    ///
    /// Only `Fault` and `NoMemory` are answered.
    pub fn begin_set<D: Device>(&mut self, dev: &mut D, set: Guid) -> Result<Staged, Trouble>
        requires ready { IsReady self.old }
        requires standing { D.tells → AreStanding (D.disk dev.old) self.old.hosting.stores }
        ensures ready { OnOk result (IsReady self.new) }
        ensures own { OnOk result (NamesSet (Some set) self.old self.new) }
        ensures guid { IsGuid set }
        ensures begun { IfOk result (λ s. s ≡ record { name = staging_file set; extents = 0; log = 0; failed = false }) }
        ensures empty { D.tells → IfOk result (λ s. HoldsParts (D.disk dev.new) s [] []) }
        ensures standing { D.tells → OnOk result (AreStanding (D.disk dev.new) self.new.hosting.stores) }
        ensures stands { D.tells → (w : World) → StandsFor (D.disk dev.old) self.old w → IsApart w set → OnOk result (StandsFor (D.disk dev.new) self.new w) }
        ensures crash { D.tells → (w : World) → StandsFor (D.disk dev.old) self.old w → Effect IsOurs (Covers w) (D.disk dev.old) (D.disk dev.new) }
        ensures touches { D.tells → TouchesOnly NoMedium (D.disk dev.old) (D.disk dev.new) }
        ensures trouble { IfErr result IsPassing }
        ensures cause { HasCause D.disk_faults D.tell_faults dev.old dev.new (IsErrOf result Trouble.Fault) }
    {
        self.name_set(dev, Some(set))?;
        self.begin_staged(dev, set)
    }

    // Removes the file of a set that was written.
    fn remove_staged<D: Device>(&self, dev: &mut D, staged: Staged) -> Result<(), Trouble>
        requires named { IsStagingFile staged.name }
        requires standing { D.tells → AreStanding (D.disk dev.old) self.now.hosting.stores }
        ensures standing { D.tells → AreStanding (D.disk dev.new) self.now.hosting.stores }
        ensures stands { D.tells → (w : World) → IsReady self.now → StandsFor (D.disk dev.old) self.now w → (set : Guids) → IsGuid set → staged.name ≡ staging_file set → IsApart w set → StandsFor (D.disk dev.new) self.now w }
        ensures bare { D.tells → (w : World) → IsReady self.now → StandsFor (D.disk dev.old) self.now w → AmidBare (D.disk dev.new) self.now.hosting w }
        ensures crash { D.tells → (w : World) → IsReady self.now → StandsFor (D.disk dev.old) self.now w → Effect IsOurs (Covers w) (D.disk dev.old) (D.disk dev.new) }
        ensures touches { D.tells → TouchesOnly NoMedium (D.disk dev.old) (D.disk dev.new) }
        ensures removed { D.tells → OnOk result ((D.disk dev.new).files staged.name ≡ None) }
        ensures trouble { IfErr result IsPassing }
        ensures cause { HasCause D.disk_faults D.tell_faults dev.old dev.new (IsErrOf result Trouble.Fault) }
    {
        self.hosting.at_rest(dev);
        remove_file(dev, staged)
    }

    /// Removes the file in which a set was written, and the record names none then. The world stays.
    ///
    /// Only `Fault` and `NoMemory` are answered.
    pub fn end_set<D: Device>(&mut self, dev: &mut D, staged: Staged) -> Result<(), Trouble>
        requires ready { IsReady self.old }
        requires named { IsStagingFile staged.name }
        requires standing { D.tells → AreStanding (D.disk dev.old) self.old.hosting.stores }
        ensures ready { OnOk result (IsReady self.new) }
        ensures own { OnOk result (NamesSet None self.old self.new) }
        ensures standing { D.tells → OnOk result (AreStanding (D.disk dev.new) self.new.hosting.stores) }
        ensures stands { D.tells → (w : World) → StandsFor (D.disk dev.old) self.old w → (set : Guids) → IsGuid set → staged.name ≡ staging_file set → IsApart w set → OnOk result (StandsFor (D.disk dev.new) self.new w) }
        ensures crash { D.tells → (w : World) → StandsFor (D.disk dev.old) self.old w → Effect IsOurs (Covers w) (D.disk dev.old) (D.disk dev.new) }
        ensures touches { D.tells → TouchesOnly NoMedium (D.disk dev.old) (D.disk dev.new) }
        ensures gone { D.tells → OnOk result ((D.disk dev.new).files staged.name ≡ None) }
        ensures trouble { IfErr result IsPassing }
        ensures cause { HasCause D.disk_faults D.tell_faults dev.old dev.new (IsErrOf result Trouble.Fault) }
    {
        self.at_rest(dev);
        let copying = copied_sets(self.alloc, self.hosting.own().copying.as_slice())?;
        self.remove_staged(dev, staged)?;
        self.put_sets(dev, None, copying)
    }
}
