// A device around a device.
ghost use Rattle.std.specs.Prelude.{◌≡◌, ◌<◌, ℕ, length, IsErrOf, OnOk};
ghost use Rattle.std.proofs.Props.{props};
ghost use Rattle.bk_device.specs.Calls.{ChangesNothing};
ghost use Rattle.bk_device.specs.Counts.{HasCause};
ghost use Rattle.bk_device.specs.Disk.{IsSettled};
ghost use Rattle.bk_device.specs.Effects.{Effect, MayLeaveOwn};
ghost use Rattle.bk_settling.specs.Noted.{Knows};
ghost use Rattle.bk_settling.specs.Settling.{Narrows};

use crate::error::SettleError;
use crate::names::Names;
use crate::noted::Noted;
use bk_device::{Device, Failed};
use std::alloc::Global;
use std::marker::{Brand, PhantomData};

/// What a call picks that makes a [`Settling`].
pub trait Beginning {
    /// Nothing was pending on the device then.
    ghost calm: { Type 0 };

    /// The ghost name of the reference to the device.
    ghost name: { ℕ };
}

impl Beginning for Brand {
    ghost calm = { Unit {0} };

    ghost name = { 0 };
}

/// A device that knows under which names something may be pending: what it does, `device` does.
#[derive(Drop)]
pub struct Settling<'d, B: Beginning, D: Device> {
    device: &'d mut D,
    noted: Noted,
    begun: PhantomData<B>,
    ghost same_reference: { device.ghost_name ≡ B.name },
    ghost knows: { D.tells → B.calm → Knows noted (D.disk device.now) } by { Prim.hlevel props },
}

/// A reference to a device, as it goes into a [`Settling`] and comes out of it.
#[derive(Drop)]
pub struct Lent<'d, D: Device> {
    device: &'d mut D,
}

impl<'d, D: Device> Lent<'d, D> {
    /// The reference to this device.
    pub fn new(device: &'d mut D) -> Lent<'d, D>
        ensures same_reference { result.device.ghost_name ≡ device.entry.ghost_name }
        ensures same { result.device.now ≡ device.old }
    {
        Lent { device }
    }

    /// Around the device, with nothing noted.
    pub fn begin<B: Beginning>(self, alloc: Global) -> Settling<'d, B, D>
        requires same_reference { self.device.ghost_name ≡ B.name }
        requires calm { D.tells → B.calm → IsSettled (D.disk self.device.now) }
        ensures same { result.device.now ≡ self.entry.device.now }
    {
        let Lent { device } = self;
        Settling {
            device,
            noted: Noted::new(alloc),
            begun: PhantomData,
        }
    }
}

impl<'d, B: Beginning, D: Device> Settling<'d, B, D> {
    /// The reference.
    pub fn end(self) -> Lent<'d, D>
        ensures same_reference { result.device.ghost_name ≡ B.name }
        ensures same { result.device.now ≡ self.entry.device.now }
    {
        let Settling { device, .. } = self;
        Lent { device }
    }

    /// Makes durable what is noted. On `Ok` nothing is pending, if nothing was where the value was made, and nothing has changed.
    pub fn settle<N: Names>(&mut self) -> Result<(), SettleError>
        ensures settled { D.tells → B.calm → OnOk result (IsSettled (D.disk self.new.device.now)) }
        ensures same { D.tells → OnOk result (ChangesNothing (D.disk self.old.device.now) (D.disk self.new.device.now)) }

        // No other name is touched, and a crash leaves what it might have left before.
        ensures crash { D.tells → Effect N.own (MayLeaveOwn N.own (D.disk self.old.device.now)) (D.disk self.old.device.now) (D.disk self.new.device.now) }
        ensures narrows { D.tells → Narrows (D.disk self.old.device.now) (D.disk self.new.device.now) }
        ensures cause { HasCause D.disk_faults D.tell_faults self.old.device.now self.new.device.now (IsErrOf result SettleError.Fault) }
    {
        if self.noted.lost {
            return Err(SettleError::NoMemory);
        }
        while !self.noted.names.is_empty() {
            self.settle_last::<N>()?;
        }
        Ok(())
    }

    // Makes durable the name that was noted last.
    fn settle_last<N: Names>(&mut self) -> Result<(), SettleError>
        requires { 0 < length self.old.noted.names.items }
        ensures fewer { OnOk result (length self.new.noted.names.items < length self.old.noted.names.items) }
        ensures lost { self.new.noted.lost ≡ self.old.noted.lost }
        ensures same { D.tells → OnOk result (ChangesNothing (D.disk self.old.device.now) (D.disk self.new.device.now)) }
        ensures crash { D.tells → Effect N.own (MayLeaveOwn N.own (D.disk self.old.device.now)) (D.disk self.old.device.now) (D.disk self.new.device.now) }
        ensures narrows { D.tells → Narrows (D.disk self.old.device.now) (D.disk self.new.device.now) }
        ensures cause { HasCause D.disk_faults D.tell_faults self.old.device.now self.new.device.now (IsErrOf result SettleError.Fault) }
    {
        let at = self.noted.names.len() - 1;
        let last = self.noted.name_at(at)?;
        if !N::is_own(self.noted.alloc, &last)? {
            return Err(SettleError::NoMemory);
        }
        self.device.sync(&last)?;
        self.noted.drop_at(at);
        Ok(())
    }
}

impl<'d, B: Beginning, D: Device> Device for Settling<'d, B, D> {
    ghost tells = { D.tells };

    ghost disk = { λ s. D.disk s.device.now };

    ghost disk_faults = { λ s. D.disk_faults s.device.now };

    ghost tell_faults = { λ s. D.tell_faults s.device.now };

    ghost lawful = { λ tells s. D.lawful tells s.device.now };

    fn len(&mut self, name: &str) -> Result<Option<u64>, Failed> {
        self.device.len(name)
    }

    fn read(&mut self, name: &str, at: u64, buf: &mut [u8]) -> Result<usize, Failed> {
        self.device.read(name, at, buf)
    }

    fn write(&mut self, name: &str, at: u64, bytes: &[u8]) -> Result<(), Failed> {
        self.noted.note(name);
        self.device.write(name, at, bytes)
    }

    fn sync(&mut self, name: &str) -> Result<(), Failed> {
        self.device.sync(name)?;
        self.noted.take_out(name);
        Ok(())
    }

    fn cut(&mut self, name: &str, len: u64) -> Result<(), Failed> {
        self.noted.note(name);
        self.device.cut(name, len)
    }

    fn remove(&mut self, name: &str) -> Result<(), Failed> {
        self.noted.note(name);
        self.device.remove(name)
    }

    fn tell(&mut self, bytes: &[u8]) -> Result<(), Failed> {
        self.device.tell(bytes)
    }
}
