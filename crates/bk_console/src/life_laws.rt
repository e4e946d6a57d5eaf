ghost use Rattle.std.specs.Prelude.{ℕ};
ghost use Rattle.bk_device.specs.Disk.{Files};
ghost use Rattle.bk_machine.specs.World.{World, empty_world};
ghost use Rattle.bk_console.specs.Life.{IsEmpty, Lasts, Live};

use bk_device::{Clock, Device, Source};
use bk_machine::events_keep_worlds_sound;
use bk_restarts::{empty_files_stand, events_keep_what_stands, runs_begin_where_files_stand};

/// The life of a device, from an empty one on: however many calls of `run` with any words come to it, each ended or cut
/// off anywhere, and whatever events between them, its files stand for a world that the machine comes to. No call ends
/// with the status of no instance.
pub fn lives_of_devices<D: Device, S: Source, C: Clock>()
    ensures begins { (number : ℕ) (files : Files) → IsEmpty files → Live files (empty_world number) }
    ensures lasts { (n : ℕ) (files : Files) (w : World) → Live files w → Lasts S.tells C.tells D.tells D.disk n files w }
    ensures lives { (n number : ℕ) (files : Files) → IsEmpty files → Lasts S.tells C.tells D.tells D.disk n files (empty_world number) }
{
    empty_files_stand();
    events_keep_what_stands();
    events_keep_worlds_sound();
    runs_begin_where_files_stand();
}
