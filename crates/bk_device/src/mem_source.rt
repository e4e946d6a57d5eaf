// A source over bytes in memory.
ghost use Rattle.std.specs.Prelude.{◌≡◌, ◌<◌, ◌≤◌, ◌+◌, ◌++◌, ◌∷◌, ◌↔◌, [], length, take, drop, min, IsErr, IfOk, OnOk, OnErr, Contains};
ghost use Rattle.bk_device.specs.Calls.{filled};
ghost use Rattle.bk_device.specs.Counts.{one_more};
ghost use Rattle.bk_device.specs.Sources.{SourceState};

use crate::{Failed, Source};
use std::alloc::{AllocError, Global};
use std::marker::Model;

/// A source that gives these bytes and tells them. A read fails exactly where `fail_at` was asked for.
pub struct MemSource {
    bytes: Vec<u8>,
    at: usize,
    failing: Vec<u64>,
    calls: u64,
    faults: u64,
}

impl Drop for MemSource {
    fn drop(self) {
        let MemSource {
            bytes: _,
            at: _,
            failing: _,
            calls: _,
            faults: _,
        } = self;
    }
}

impl Model for MemSource {
    ghost Value = { SourceState };

    ghost view = { λ s. record { rest = drop s.at s.bytes.items; failing = s.failing.items; calls = s.calls; faults = s.faults } };

    ghost invariant = { λ s. s.at ≤ length s.bytes.items };
}

impl MemSource {
    /// A source of these bytes.
    pub fn new(alloc: Global, bytes: &[u8]) -> Result<MemSource, AllocError>
        ensures { IfOk result (λ s. s ≡ record { rest = bytes.now; failing = []; calls = 0; faults = 0 }) }
    {
        Ok(MemSource {
            bytes: Vec::from_slice(alloc, bytes)?,
            at: 0,
            failing: Vec::new(alloc),
            calls: 0,
            faults: 0,
        })
    }

    /// The call of this number, counted from 1, will fail. On `Err` nothing has changed.
    pub fn fail_at(&mut self, call: u64) -> Result<(), AllocError>
        ensures ok { OnOk result (self.new ≡ record self.old { failing = self.old.failing ++ call ∷ [] }) }
        ensures err { OnErr result (self.new ≡ self.old) }
    {
        self.failing.push(call)?;
        Ok(())
    }
}

impl Source for MemSource {
    ghost tells = { Unit {0} };

    ghost rest = { λ s. s.rest };

    ghost read_faults = { λ s. s.faults };

    fn read(&mut self, buf: &mut [u8]) -> Result<usize, Failed>
        // It fails exactly where that was asked for.
        ensures fails { IsErr result ↔ Contains self.old.failing (one_more self.old.calls) }
        ensures unread { OnErr result (self.new.rest ≡ self.old.rest) }
        ensures cause { OnErr result (self.new.faults ≡ one_more self.old.faults) }
        ensures never_falls { self.old.faults ≤ self.new.faults }

        // It gives as much as there is room for, and leaves the buffer behind that.
        ensures count { IfOk result (λ n. n ≡ min (length buf.old) (length self.old.rest)) }
        ensures filled { IfOk result (λ n. buf.new ≡ filled buf.old (take n self.old.rest)) }
        ensures rest { IfOk result (λ n. self.new.rest ≡ drop n self.old.rest) }
        ensures no_fault { OnOk result (self.new.faults ≡ self.old.faults) }

        ensures calls { self.new.calls ≡ one_more self.old.calls }
        ensures failing { self.new.failing ≡ self.old.failing }
    {
        self.calls = self.calls.saturating_add(1);
        if self.failing.contains(&self.calls) {
            self.faults = self.faults.saturating_add(1);
            return Err(Failed);
        }
        let rest = &self.bytes[self.at..];
        let n = rest.len().min(buf.len());
        buf[..n].copy_from_slice(&rest[..n]);
        self.at += n;
        Ok(n)
    }
}
