// Named files and an output: what calls give, and what a crash may leave.
ghost use Rattle.std.specs.Prelude.{◌≡◌, ◌<◌, ◌≤◌, ◌+◌, ◌^◌, ◌++◌, List, ℕ, Some, None, length, take, option_map, IfOk, OnOk, OnErr, IsSomeAnd};
ghost use Rattle.bk_device.specs.Calls.{contents, written, read_at, filled, LeavesWrite, LeavesCut, LeavesRemoval, LeavesSame, CallsOn, ChangesNothing, TellsBytes};
ghost use Rattle.bk_device.specs.Counts.{HasRisen};
ghost use Rattle.bk_device.specs.Disk.{Disk, IsDurable, IsLawful};

use crate::Failed;

/// Files by name, and an output. A write, a creation, a removal and a cut are durable once `sync` of that name was `Ok`.
///
/// A call that answers `Failed` leaves what a crash in that call may leave.
pub trait Device {
    /// Whether this type tells what its files hold, what it told and what crashes may leave.
    ghost tells: { Type 0 };

    /// What it holds now, and what crashes may have left of it. Says something only where `tells`.
    ghost disk: { Self → Disk };

    /// How often a call on a file failed: a number that never falls, and stays at its greatest value, 2^64 - 1.
    ghost disk_faults: { Self → ℕ };

    /// How often `tell` failed: a number that never falls, and stays at its greatest value, 2^64 - 1.
    ghost tell_faults: { Self → ℕ };

    /// The length of a file in bytes, or `None` where there is none of that name. Changes nothing.
    fn len(&mut self, name: &str) -> Result<Option<u64>, Failed>
        ensures value { tells → IfOk result (λ len. len ≡ option_map length ((disk self.old).files name.now)) }
        ensures effect { tells → ChangesNothing (disk self.old) (disk self.new) }
        ensures cause { OnErr result (HasRisen (disk_faults self.old) (disk_faults self.new)) }
        ensures never_falls { disk_faults self.old ≤ disk_faults self.new }
        ensures tell_faults { tell_faults self.new ≡ tell_faults self.old };

    /// Reads from offset `at` into the front of `buf`, and says how many bytes: as many as are there, at most the
    /// buffer's length; 0 where the file is absent. Changes no file. After `Failed` the buffer may hold anything.
    fn read(&mut self, name: &str, at: u64, buf: &mut [u8]) -> Result<usize, Failed>
        ensures count { tells → IfOk result (λ n. n ≡ length (read_at (contents ((disk self.old).files name.now)) at (length buf.old))) }
        ensures bytes { tells → OnOk result (buf.new ≡ filled buf.old (read_at (contents ((disk self.old).files name.now)) at (length buf.old))) }
        ensures bound { IfOk result (λ n. n ≤ length buf.old) }
        ensures effect { tells → ChangesNothing (disk self.old) (disk self.new) }
        ensures cause { OnErr result (HasRisen (disk_faults self.old) (disk_faults self.new)) }
        ensures never_falls { disk_faults self.old ≤ disk_faults self.new }
        ensures tell_faults { tell_faults self.new ≡ tell_faults self.old };

    /// Writes these bytes from offset `at` on, which is at most the file's length; an absent file is created, with `at`
    /// 0. Where `at` and the number of bytes together aren't below 2^62 it writes nothing and answers `Failed`.
    fn write(&mut self, name: &str, at: u64, bytes: &[u8]) -> Result<(), Failed>
        requires { tells → at ≤ length (contents ((disk self.old).files name.now)) }
        ensures written { tells → OnOk result ((disk self.new).files name.now ≡ Some (written (contents ((disk self.old).files name.now)) at bytes.now)) }
        ensures small { OnOk result (at + length bytes.now < 2 ^ 62) }
        ensures refused { tells → 2 ^ 62 ≤ at + length bytes.now → ChangesNothing (disk self.old) (disk self.new) }
        ensures effect { tells → CallsOn name.now (LeavesWrite at (length bytes.now)) (disk self.old) (disk self.new) }
        ensures cause { OnErr result (HasRisen (disk_faults self.old) (disk_faults self.new)) }
        ensures never_falls { disk_faults self.old ≤ disk_faults self.new }
        ensures tell_faults { tell_faults self.new ≡ tell_faults self.old };

    /// Makes what a read of this file gives durable, its creation, removal and length too.
    fn sync(&mut self, name: &str) -> Result<(), Failed>
        ensures same { tells → OnOk result ((disk self.new).files name.now ≡ (disk self.old).files name.now) }
        ensures durable { tells → OnOk result (IsDurable (disk self.new) name.now) }
        ensures effect { tells → CallsOn name.now LeavesSame (disk self.old) (disk self.new) }
        ensures cause { OnErr result (HasRisen (disk_faults self.old) (disk_faults self.new)) }
        ensures never_falls { disk_faults self.old ≤ disk_faults self.new }
        ensures tell_faults { tell_faults self.new ≡ tell_faults self.old };

    /// Cuts a file, which is there, to a length in bytes that is at most its own.
    fn cut(&mut self, name: &str, len: u64) -> Result<(), Failed>
        requires { tells → IsSomeAnd ((disk self.old).files name.now) (λ content. len ≤ length content) }
        ensures cut { tells → OnOk result ((disk self.new).files name.now ≡ option_map (take len) ((disk self.old).files name.now)) }
        ensures effect { tells → CallsOn name.now (LeavesCut len) (disk self.old) (disk self.new) }
        ensures cause { OnErr result (HasRisen (disk_faults self.old) (disk_faults self.new)) }
        ensures never_falls { disk_faults self.old ≤ disk_faults self.new }
        ensures tell_faults { tell_faults self.new ≡ tell_faults self.old };

    /// Removes a file; `Ok` also where there is none of that name.
    fn remove(&mut self, name: &str) -> Result<(), Failed>
        ensures removed { tells → OnOk result ((disk self.new).files name.now ≡ None) }
        ensures effect { tells → CallsOn name.now LeavesRemoval (disk self.old) (disk self.new) }
        ensures cause { OnErr result (HasRisen (disk_faults self.old) (disk_faults self.new)) }
        ensures never_falls { disk_faults self.old ≤ disk_faults self.new }
        ensures tell_faults { tell_faults self.new ≡ tell_faults self.old };

    /// Appends these bytes to the output. After `Failed` a front of them is told. Changes no file.
    fn tell(&mut self, bytes: &[u8]) -> Result<(), Failed>
        ensures told { tells → OnOk result ((disk self.new).told ≡ (disk self.old).told ++ bytes.now) }
        ensures effect { tells → TellsBytes bytes.now (disk self.old) (disk self.new) }
        ensures cause { OnErr result (HasRisen (tell_faults self.old) (tell_faults self.new)) }
        ensures never_falls { tell_faults self.old ≤ tell_faults self.new }
        ensures disk_faults { disk_faults self.new ≡ disk_faults self.old };

    /// What is kept at every moment.
    ghost lawful: { tells → (device : Self) → IsLawful (disk device) };
}
