//! A medium: a gate file, whose first blob says so and whose further blobs are backup sets.
ghost use Rattle.std.specs.Prelude.{◌≡◌, ◌≢◌, ◌≤◌, ◌<◌, ◌⊎◌, ◌+◌, ◌-◌, ◌^◌, [], Some, None, length, false, true, is_err, IfOk, OnOk, IsErr, IsErrOf};
ghost use Rattle.bk_body.specs.Body.{Body};
ghost use Rattle.bk_device.specs.Calls.{ChangesNothing};
ghost use Rattle.bk_device.specs.Counts.{HasCause};
ghost use Rattle.bk_device.specs.Disk.{IsDurable};
ghost use Rattle.bk_device.specs.Effects.{Effect, IsName};
ghost use Rattle.bk_gate.specs.Gate.{Kept};
ghost use Rattle.bk_header.specs.Conditions.{KeepsConditions};
ghost use Rattle.bk_world.specs.Medium.{not_media};
ghost use Rattle.bk_volume.specs.Names.{medium_file};
ghost use Rattle.bk_volume.specs.Media.{HasSets, LeavesMade, HasAdded, LeavesAdded, IsMedium, ShowsMedium, sets_of, read_medium, count_of};
ghost use Rattle.bk_volume.specs.Staging.{IsStaged, IsSetOf};

mod reading;

use crate::around::{seal_around, take_around};
use crate::error::{LoadError, WriteError};
use crate::first::{begins_well, load_gate, make_empty, start_again};
use crate::name::medium_file;
use crate::staging::Staged;
use bk_device::{Device, Failed};
use bk_gate::Gate;
use bk_world::{Header, TableSpec};
use std::alloc::Global;
use std::marker::Model;

/// A medium.
///
/// Once a call has answered `Fault` at a `&mut` value it is failed, and is no longer used.
pub struct Medium {
    gate: Gate,
    failed: bool,
}

impl Drop for Medium {
    fn drop(self) {
        let Medium { gate: _, failed: _ } = self;
    }
}

impl Model for Medium {
    ghost Value = { Kept };

    ghost view = { λ m. record m.gate { failed = m.failed } };

    ghost invariant = { λ m. m.failed ≡ false → (m.gate.failed ≡ false) × (1 ≤ length m.gate.spans) × (m.gate.begun ≡ None) };
}

impl Medium {
    /// Opens the medium at this path, and changes nothing.
    ///
    /// `Missing` is answered exactly where there is no file at the path, `NotMedia` exactly where the file is no gate
    /// file or its first blob isn't `SBMEDIA1`. `NoMemory` may come after reads.
    pub fn load<D: Device>(alloc: Global, dev: &mut D, path: &str) -> Result<Medium, LoadError>
        ensures name { IfOk result (λ m. m.name ≡ medium_file path.now) }
        ensures failed { IfOk result (λ m. m.failed ≡ false) }
        ensures sets { D.tells → OnOk result (HasSets (sets_of ((D.disk dev.old).files (medium_file path.now))) ((D.disk dev.old).files (medium_file path.now))) }
        ensures count { D.tells → IfOk result (λ m. count_of m ≡ length (sets_of ((D.disk dev.old).files (medium_file path.now)))) }
        ensures shows { D.tells → IfOk result (λ m. ShowsMedium (D.disk dev.new) m) }
        ensures stands { D.tells → IsDurable (D.disk dev.old) (medium_file path.now) → IfOk result (λ m. IsMedium (D.disk dev.new) m) }
        ensures missing { D.tells → IsErrOf result LoadError.Missing → (D.disk dev.old).files (medium_file path.now) ≡ None }
        ensures not_media { D.tells → IsErrOf result LoadError.NotMedia → read_medium ((D.disk dev.old).files (medium_file path.now)) ≡ Some not_media }
        ensures effect { D.tells → ChangesNothing (D.disk dev.old) (D.disk dev.new) }
        ensures cause { HasCause D.disk_faults D.tell_faults dev.old dev.new (IsErrOf result LoadError.Fault) }
    {
        let name = medium_file(alloc, path)?;
        if dev.len(&name)?.is_none() {
            return Err(LoadError::Missing);
        }
        let gate = load_gate(alloc, dev, &name)?;
        if begins_well(dev, &gate)? {
            Ok(Medium {
                gate,
                failed: false,
            })
        } else {
            Err(LoadError::NotMedia)
        }
    }

    /// Makes a medium without sets, in place of what is at the path. A crash leaves what it might have left before, or
    /// a file with no sealed blob, or the medium. `NoMemory` may come after the file was touched.
    pub fn make<D: Device>(alloc: Global, dev: &mut D, path: &str) -> Result<Medium, WriteError>
        ensures name { IfOk result (λ m. m.name ≡ medium_file path.now) }
        ensures failed { IfOk result (λ m. m.failed ≡ false) }
        ensures none { IfOk result (λ m. count_of m ≡ 0) }
        ensures stands { D.tells → IfOk result (λ m. IsMedium (D.disk dev.new) m) }
        ensures sets { D.tells → OnOk result (HasSets [] ((D.disk dev.new).files (medium_file path.now))) }
        ensures durable { D.tells → OnOk result (IsDurable (D.disk dev.new) (medium_file path.now)) }
        ensures crash { D.tells → Effect (IsName (medium_file path.now)) (λ image. LeavesMade ((D.disk dev.old).may (medium_file path.now)) (image (medium_file path.now))) (D.disk dev.old) (D.disk dev.new) }
        ensures cause { HasCause D.disk_faults D.tell_faults dev.old dev.new (IsErrOf result WriteError.Fault) }
    {
        let name = medium_file(alloc, path)?;
        let gate = make_empty(alloc, dev, &name)?;
        Ok(Medium {
            gate,
            failed: false,
        })
    }

    /// How many slots there are, one for each set.
    pub fn count(&self) -> usize
        requires { self.now.failed ≡ false }
        ensures { result ≡ count_of self.now }
    {
        self.gate.count() - 1
    }

    /// Seals the set whose extents and log were added, behind the others, with this header and these tables. It is written
    /// in pieces of at most 1 MiB. A crash leaves the sets that there were, or this one too. Takes the memory first. Whatever was
    /// added, the medium's file alone is touched.
    pub fn seal_set<D: Device>(
        &mut self,
        alloc: Global,
        dev: &mut D,
        set: &Staged,
        header: &Header,
        tables: &[TableSpec],
    ) -> Result<(), WriteError>
        requires fit { self.old.failed ≡ false }
        requires whole { set.now.failed ≡ false }
        requires apart { set.now.name ≢ self.old.name }
        requires keeps { KeepsConditions header.now }
        requires few { length tables.now ≤ 64 }
        requires stands { D.tells → IsMedium (D.disk dev.old) self.old }
        requires staged { D.tells → IsStaged (D.disk dev.old) set.now }
        ensures stands { D.tells → OnOk result (IsMedium (D.disk dev.new) self.new) }
        ensures sets { D.tells → OnOk result ((body : Body) → IsSetOf (D.disk dev.old) set.now header.now tables.now body → HasAdded (sets_of ((D.disk dev.old).files self.old.name)) body ((D.disk dev.new).files self.old.name)) }
        ensures count { OnOk result (count_of self.new ≡ count_of self.old + 1) }
        ensures durable { D.tells → OnOk result (IsDurable (D.disk dev.new) self.old.name) }
        ensures name { OnOk result (self.new.name ≡ self.old.name) }
        ensures failed { IsErrOf result WriteError.Fault → self.new.failed ≡ true }
        ensures fit { OnOk result (self.new.failed ≡ false) }
        ensures no_memory { IsErrOf result WriteError.NoMemory → (self.new ≡ self.old) × (dev.new ≡ dev.old) }
        ensures touches { D.tells → Effect (IsName self.old.name) (λ image. Unit {0}) (D.disk dev.old) (D.disk dev.new) }
        ensures crash { D.tells → (body : Body) → IsSetOf (D.disk dev.old) set.now header.now tables.now body → Effect (IsName self.old.name) (λ image. LeavesAdded (sets_of ((D.disk dev.old).files self.old.name)) body (image self.old.name)) (D.disk dev.old) (D.disk dev.new) }
        ensures cause { HasCause D.disk_faults D.tell_faults dev.old dev.new (IsErrOf result WriteError.Fault) }
    {
        let mut around = take_around(alloc, set, header, tables)?;
        self.gate.reserve(1)?;
        self.failed = true;
        seal_around(dev, &mut self.gate, set, &mut around)?;
        self.failed = false;
        Ok(())
    }

    /// Makes it a medium without sets, and takes no memory. A crash leaves the sets that there were, or a file with no sealed
    /// blob, or a medium without sets: until the call has ended it is a medium that is being emptied.
    pub fn empty<D: Device>(&mut self, dev: &mut D) -> Result<(), Failed>
        requires fit { self.old.failed ≡ false }
        requires stands { D.tells → IsMedium (D.disk dev.old) self.old }
        ensures stands { D.tells → OnOk result (IsMedium (D.disk dev.new) self.new) }
        ensures sets { D.tells → OnOk result (HasSets [] ((D.disk dev.new).files self.old.name)) }
        ensures none { OnOk result (count_of self.new ≡ 0) }
        ensures durable { D.tells → OnOk result (IsDurable (D.disk dev.new) self.old.name) }
        ensures name { OnOk result (self.new.name ≡ self.old.name) }
        ensures failed { self.new.failed ≡ is_err result }
        ensures crash { D.tells → Effect (IsName self.old.name) (λ image. LeavesMade (HasSets (sets_of ((D.disk dev.old).files self.old.name))) (image self.old.name)) (D.disk dev.old) (D.disk dev.new) }
        ensures cause { HasCause D.disk_faults D.tell_faults dev.old dev.new (IsErr result) }
    {
        self.failed = true;
        start_again(dev, &mut self.gate)?;
        self.failed = false;
        Ok(())
    }
}
