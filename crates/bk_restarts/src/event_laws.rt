ghost use Rattle.std.specs.Prelude.{◌≡◌, ℕ, List, None};
ghost use Rattle.bk_bytes.specs.Field.{AreBytes};
ghost use Rattle.bk_device.specs.Disk.{Files};
ghost use Rattle.bk_machine.specs.Events.{Happen};
ghost use Rattle.bk_machine.specs.World.{World, empty_world};
ghost use Rattle.bk_master.specs.Master.{IsNotMade};
ghost use Rattle.bk_msdb.specs.Msdb.{msdb_file};
ghost use Rattle.bk_restarts.specs.Events.{AddsMedium, ChangesMedium, HappenOn, RemovesMedium, RemovesStandby, StandsAtRest};
ghost use Rattle.bk_volume.specs.Names.{medium_file};

use bk_archive::{events_keep_media, media_stay};
use bk_machine::{empty_worlds_are_sound, events_keep_worlds_sound, logs_that_stay};

/// Where no instance is made, and there is no medium and no file of the rows of msdb, the files stand for the empty world of each number.
pub fn empty_files_stand()
    ensures { (number : ℕ) (files : Files) → IsNotMade files → ((path : List ℕ) → AreBytes path → files (medium_file path) ≡ None) → files msdb_file ≡ None → StandsAtRest number files (empty_world number) }
{
    empty_worlds_are_sound();
    media_stay();
}

/// What may happen between two runs, done to the files and to the world together, keeps that they stand for it.
pub fn events_keep_what_stands()
    ensures removed { (number : ℕ) (f g : Files) (w v : World) → StandsAtRest number f w → RemovesMedium f w g v → StandsAtRest number g v }
    ensures standby { (number : ℕ) (f g : Files) (w v : World) → StandsAtRest number f w → RemovesStandby f w g v → StandsAtRest number g v }
    ensures changed { (number : ℕ) (f g : Files) (w v : World) → StandsAtRest number f w → ChangesMedium f w g v → StandsAtRest number g v }
    ensures added { (number : ℕ) (f g : Files) (w v : World) → StandsAtRest number f w → AddsMedium f w g v → StandsAtRest number g v }
    ensures any { (number : ℕ) (f g : Files) (w v : World) → HappenOn f w g v → StandsAtRest number f w → StandsAtRest number g v }
    ensures of_world { (f g : Files) (w v : World) → HappenOn f w g v → Happen w v }
{
    events_keep_media();
    events_keep_worlds_sound();
    logs_that_stay();
}
