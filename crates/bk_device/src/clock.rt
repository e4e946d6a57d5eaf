// The time of day.
ghost use Rattle.std.specs.Prelude.{◌≡◌, ◌+◌, ℕ};

/// A clock, in milliseconds since 1970-01-01 00:00:00 UTC.
pub trait Clock {
    /// Whether this type tells what it will show.
    ghost tells: { Type 0 };

    /// The answer of the coming call of this number, from 0. Says something only where `tells`.
    ghost coming: { Self → ℕ → ℕ };

    /// The time now.
    fn now(&mut self) -> u64
        ensures value { tells → result ≡ coming self.old 0 }
        ensures coming { tells → (i : ℕ) → coming self.new i ≡ coming self.old (i + 1) };
}
