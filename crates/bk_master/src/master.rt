// An instance's own files.
ghost use Rattle.std.specs.Prelude.{◌≡◌, ◌≢◌, ◌⊎◌, Some, false, true, IfErr, IfOk, MatchResult, OnOk, IsErrOf};
ghost use Rattle.bk_device.specs.Calls.{ChangesNothing};
ghost use Rattle.bk_device.specs.Counts.{HasCause};
ghost use Rattle.bk_device.specs.Disk.{IsDurable};
ghost use Rattle.bk_device.specs.Effects.{Effect};
ghost use Rattle.bk_master.specs.Master.{AreDurable, HoldsRecord, IsBroken, IsMade, IsMaster, IsNoInstance, IsNotMade, IsOwn, IsTrouble, Kept, Makes, fresh, made_file};
ghost use Rattle.bk_master.specs.Spelling.{KeepsRecord};

use crate::error::MasterError;
use crate::making::{is_made, make_control, mark_made};
use crate::opening::{load_control, recorded};
use crate::record::{Own, Record};
use crate::writing::spell_record;
use bk_control::Control;
use bk_device::Device;
use bk_ids::Sequence;
use std::alloc::Global;
use std::marker::Model;

/// An instance's own files.
///
/// Once a call that took the value by `&mut` has answered `Fault` it is failed, and is no longer used.
pub struct Master {
    control: Control,
    record: Record,
}

impl Drop for Master {
    fn drop(self) {
        let Master {
            control: _,
            record: _,
        } = self;
    }
}

impl Model for Master {
    ghost Value = { Kept };

    ghost view = { λ m. record {
      control = m.control;
      «record» = m.record;
      failed = m.control.failed;
    } };
}

// The record of an instance that is made with this number.
fn first_record(alloc: Global, number: u64) -> Record
    ensures { result ≡ fresh number }
{
    Record {
        own: Own {
            number,
            counter: 1,
            making: None,
            staging: None,
            copying: Sequence::new(Vec::new(alloc)),
        },
        next: 1,
        databases: Sequence::new(Vec::new(alloc)),
        unfinished: Sequence::new(Vec::new(alloc)),
    }
}

impl Master {
    /// Opens the own files of an instance. Where it isn't made it is made, with this number, a counter of 1 and no database; `sqlbak.made` is written last, so a crash leaves an
    /// instance that isn't made or one that is whole. Where it is made nothing is changed.
    ///
    /// `NotAnInstance` is answered exactly where it is made and the control file holds no control, `Broken` only where the control holds no record. `NoMemory` may come after files were
    /// touched.
    pub fn load<D: Device>(alloc: Global, dev: &mut D, number: u64) -> Result<Master, MasterError>
        ensures failed { IfOk result (λ m. m.failed ≡ false) }
        ensures fresh { D.tells → IsNotMade (D.disk dev.old).files → IfOk result (λ m. m.record ≡ fresh number) }
        ensures loaded { D.tells → IsMade (D.disk dev.old).files → IfOk result (λ m. HoldsRecord (D.disk dev.old).files m.record) }
        ensures stands { D.tells → IsNotMade (D.disk dev.old).files ⊎ AreDurable (D.disk dev.old) → IfOk result (λ m. IsMaster (D.disk dev.new) m) }
        ensures not_an_instance { D.tells → IsErrOf result MasterError.NotAnInstance → IsNoInstance (D.disk dev.old).files }
        ensures no_instance { D.tells → IsNoInstance (D.disk dev.old).files → MatchResult result (λ _. ⊥) (λ e. e ≢ MasterError.Broken) }
        ensures broken { D.tells → IsErrOf result MasterError.Broken → IsBroken (D.disk dev.old).files }
        ensures effect { D.tells → IsMade (D.disk dev.old).files → ChangesNothing (D.disk dev.old) (D.disk dev.new) }
        ensures crash { D.tells → IsNotMade (D.disk dev.old).files → IsDurable (D.disk dev.old) made_file → Effect IsOwn (Makes number) (D.disk dev.old) (D.disk dev.new) }
        ensures cause { HasCause D.disk_faults D.tell_faults dev.old dev.new (IsErrOf result MasterError.Fault) }
    {
        if is_made(dev)? {
            let master = Master::open(alloc, dev)?;
            Ok(master)
        } else {
            let master = Master::make(alloc, dev, number)?;
            Ok(master)
        }
    }

    // Opens the files of an instance that is made, and changes nothing.
    fn open<D: Device>(alloc: Global, dev: &mut D) -> Result<Master, MasterError>
        ensures failed { IfOk result (λ m. m.failed ≡ false) }
        ensures loaded { D.tells → IsMade (D.disk dev.old).files → IfOk result (λ m. HoldsRecord (D.disk dev.old).files m.record) }
        ensures stands { D.tells → IsMade (D.disk dev.old).files → AreDurable (D.disk dev.old) → IfOk result (λ m. IsMaster (D.disk dev.new) m) }
        ensures not_an_instance { D.tells → IsMade (D.disk dev.old).files → IsErrOf result MasterError.NotAnInstance → IsNoInstance (D.disk dev.old).files }
        ensures broken { D.tells → IsMade (D.disk dev.old).files → IsErrOf result MasterError.Broken → IsBroken (D.disk dev.old).files }
        ensures effect { D.tells → ChangesNothing (D.disk dev.old) (D.disk dev.new) }
        ensures cause { HasCause D.disk_faults D.tell_faults dev.old dev.new (IsErrOf result MasterError.Fault) }
    {
        let control = load_control(alloc, dev)?;
        let record = recorded(alloc, &control)?;
        Ok(Master { control, record })
    }

    // Makes the files of an instance, in place of those that a making before may have left.
    fn make<D: Device>(alloc: Global, dev: &mut D, number: u64) -> Result<Master, MasterError>
        requires { D.tells → IsNotMade (D.disk dev.old).files }
        ensures failed { IfOk result (λ m. m.failed ≡ false) }
        ensures fresh { IfOk result (λ m. m.record ≡ fresh number) }
        ensures stands { D.tells → IfOk result (λ m. IsMaster (D.disk dev.new) m) }
        ensures trouble { IfErr result IsTrouble }
        ensures crash { D.tells → IsDurable (D.disk dev.old) made_file → Effect IsOwn (Makes number) (D.disk dev.old) (D.disk dev.new) }
        ensures cause { HasCause D.disk_faults D.tell_faults dev.old dev.new (IsErrOf result MasterError.Fault) }
    {
        let record = first_record(alloc, number);
        let bytes = spell_record(alloc, &record)?;
        let control = make_control(alloc, dev, &bytes)?;
        mark_made(dev)?;
        Ok(Master { control, record })
    }

    /// The instance's record.
    pub fn record(&self) -> &Record
        ensures { result.now ≡ self.now.record }
    {
        &self.record
    }

    /// Makes this the instance's record. A crash leaves the old record or the new one.
    ///
    /// `NoMemory` leaves the device and the value as they were; only `Fault` and `NoMemory` are answered.
    pub fn put<D: Device>(
        &mut self,
        alloc: Global,
        dev: &mut D,
        next: Record,
    ) -> Result<(), MasterError>
        requires fit { self.old.failed ≡ false }
        requires keeps { KeepsRecord next }
        requires stands { D.tells → IsMaster (D.disk dev.old) self.old }
        ensures stands { D.tells → OnOk result (IsMaster (D.disk dev.new) self.new) }
        ensures put { OnOk result (self.new.record ≡ next) }
        ensures fit { OnOk result (self.new.failed ≡ false) }
        ensures failed { IsErrOf result MasterError.Fault → self.new.failed ≡ true }
        ensures no_memory { IsErrOf result MasterError.NoMemory → (self.new ≡ self.old) × (dev.new ≡ dev.old) }
        ensures trouble { IfErr result IsTrouble }
        ensures crash { D.tells → Effect IsOwn (λ image. HoldsRecord image self.old.record ⊎ HoldsRecord image next) (D.disk dev.old) (D.disk dev.new) }
        ensures cause { HasCause D.disk_faults D.tell_faults dev.old dev.new (IsErrOf result MasterError.Fault) }
    {
        let bytes = spell_record(alloc, &next)?;
        self.control.put(dev, &bytes)?;
        self.record = next;
        Ok(())
    }
}
