// A clock that shows what it was told to show.
ghost use Rattle.std.specs.Prelude.{◌≡◌, ◌+◌, ℕ};
ghost use Rattle.bk_device.specs.Sources.{time_after};

use crate::Clock;

/// A clock that tells each time it will show: a start, and a step more at each call, never past the greatest `u64`.
#[derive(Clone, Copy, Debug, PartialEq, Eq)]
pub struct FixedClock {
    /// The answer of the next call, in milliseconds since 1970-01-01 00:00:00 UTC.
    pub next: u64,
    /// The milliseconds from one call to the next.
    pub step: u64,
}

impl FixedClock {
    /// A clock that shows `start` at its first call.
    pub fn new(start: u64, step: u64) -> FixedClock
        ensures { result ≡ record { next = start; step = step } }
    {
        FixedClock { next: start, step }
    }
}

impl Clock for FixedClock {
    ghost tells = { Unit {0} };

    ghost coming = { λ c i. time_after c.next c.step i };

    fn now(&mut self) -> u64 {
        let now = self.next;
        self.next = now.saturating_add(self.step);
        now
    }
}
