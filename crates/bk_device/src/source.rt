// Bytes that are read once, from the front.
ghost use Rattle.std.specs.Prelude.{◌≡◌, ◌<◌, ◌≤◌, ◌++◌, [], List, ℕ, length, take, IfOk, OnErr};
ghost use Rattle.bk_device.specs.Counts.{HasRisen};

use crate::Failed;

/// Bytes to be read, as a script.
pub trait Source {
    /// Whether this type tells which bytes come.
    ghost tells: { Type 0 };

    /// The bytes not yet read. Says something only where `tells`.
    ghost rest: { Self → List ℕ };

    /// How often a read failed: a number that never falls, and stays at its greatest value, 2^64 - 1.
    ghost read_faults: { Self → ℕ };

    /// Reads into the front of `buf` and says how many bytes; 0 for a buffer that isn't empty means the end.
    /// After `Failed` no byte has been taken, and the buffer may hold anything.
    fn read(&mut self, buf: &mut [u8]) -> Result<usize, Failed>
        ensures bytes { tells → IfOk result (λ n. rest self.old ≡ take n buf.new ++ rest self.new) }
        ensures end { tells → IfOk result (λ n. n ≡ 0 → 0 < length buf.old → rest self.old ≡ []) }
        ensures bound { IfOk result (λ n. n ≤ length buf.old) }
        ensures unread { tells → OnErr result (rest self.new ≡ rest self.old) }
        ensures cause { OnErr result (HasRisen (read_faults self.old) (read_faults self.new)) }
        ensures never_falls { read_faults self.old ≤ read_faults self.new };
}
