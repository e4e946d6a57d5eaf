// The clock of the system. Nothing is claimed of its times.
use bk_device::Clock;

/// The clock of the system. It shows 0 where it can't be read.
#[derive(Drop)]
pub struct SystemClock<'a, R: std::rt::Clock> {
    rt: &'a R,
}

impl<'a, R: std::rt::Clock> SystemClock<'a, R> {
    /// The clock of this runtime. Doesn't read it yet.
    pub fn new(rt: &'a R) -> SystemClock<'a, R> {
        SystemClock { rt }
    }
}

impl<'a, R: std::rt::Clock> Clock for SystemClock<'a, R> {
    ghost tells = { ⊥ };

    ghost coming = { λ _ _. 0 };

    fn now(&mut self) -> u64 {
        match self.rt.since_1970() {
            Ok(time) => u64::try_from(time.as_millis()).unwrap_or(u64::MAX),
            Err(_) => 0,
        }
    }
}
