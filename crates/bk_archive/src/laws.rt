//! Laws of the media of a world as files.
ghost use Rattle.std.specs.Prelude.{◌≡◌, ◌⊎◌, ℕ, List, [], Option, None, Some, false};
ghost use Rattle.bk_body.specs.Body.{Body};
ghost use Rattle.bk_body.specs.Slots.{holds};
ghost use Rattle.bk_bytes.specs.Field.{AreBytes};
ghost use Rattle.bk_device.specs.Disk.{Files};
ghost use Rattle.bk_gate.specs.Blobs.{sealed};
ghost use Rattle.bk_machine.specs.Acts.{Act, done, done_all};
ghost use Rattle.bk_machine.specs.MayDo.{MayDo, MayDoAll};
ghost use Rattle.bk_machine.specs.Same.{SameMedia};
ghost use Rattle.bk_machine.specs.Sound.{IsSound, SetIn};
ghost use Rattle.bk_machine.specs.World.{World};
ghost use Rattle.bk_machine.specs.Writes.{ActWrites, ActsWrite};
ghost use Rattle.bk_volume.specs.Media.{read_medium, slot_at};
ghost use Rattle.bk_volume.specs.Names.{medium_file};
ghost use Rattle.bk_world.specs.Medium.{medium_at};
ghost use Rattle.bk_archive.specs.Events.{AddsMedium, ChangesMedium, RemovesMedium};
ghost use Rattle.bk_archive.specs.Media.{KeepsMedia, is_begun};
ghost use Rattle.bk_archive.specs.MediaLaws.{SameFiles};

use bk_machine::{acts_keep_worlds_sound, sets_that_stay};

/// Which files keep the media of a world is up to the files of media alone, and the same files keep them for each world with
/// the same media. Where a record names none, a medium is read as its file is, and a set that is found there is one of the
/// world. A record may name a medium that isn't there, and need not name one that has a sealed blob or whose file is gone.
pub fn media_stay()
    ensures none { (w : World) (making : Option (List ℕ)) (files : Files) → w.media ≡ [] → ((path : List ℕ) → AreBytes path → files (medium_file path) ≡ None) → KeepsMedia w making files }
    ensures files { (w : World) (making : Option (List ℕ)) (files image : Files) → SameFiles files image → KeepsMedia w making files → KeepsMedia w making image }
    ensures worlds { (w v : World) (making : Option (List ℕ)) (files : Files) → SameMedia w v → KeepsMedia w making files → KeepsMedia v making files }
    ensures read { (w : World) (files : Files) (path : List ℕ) → KeepsMedia w None files → AreBytes path → medium_at w.media path ≡ read_medium (files (medium_file path)) }
    ensures set { (w : World) (making : Option (List ℕ)) (files : Files) (path : List ℕ) (p : ℕ) (body : Body) → KeepsMedia w making files → AreBytes path → slot_at (files (medium_file path)) p ≡ Some (holds body) → SetIn w path body.header }
    ensures named { (w : World) (files : Files) (path : List ℕ) → AreBytes path → KeepsMedia w None files → medium_at w.media path ≡ None → KeepsMedia w (Some path) files }
    ensures unnamed { (w : World) (files : Files) (path : List ℕ) → AreBytes path → KeepsMedia w (Some path) files → (files (medium_file path) ≡ None) ⊎ (is_begun (sealed (files (medium_file path))) ≡ false) → KeepsMedia w None files }
{}

/// Behind acts that may be done and write to no medium, the same files keep the media of a sound world.
pub fn acts_keep_media()
    ensures act { (w : World) (act : Act) (making : Option (List ℕ)) (files : Files) → IsSound w → MayDo w act → ((path : List ℕ) → ActWrites act path → ⊥) → KeepsMedia w making files → KeepsMedia (done w act) making files }
    ensures acts { (w : World) (acts : List Act) (making : Option (List ℕ)) (files : Files) → IsSound w → MayDoAll w acts → ((path : List ℕ) → ActsWrite acts path → ⊥) → KeepsMedia w making files → KeepsMedia (done_all w acts) making files }
{
    acts_keep_worlds_sound();
    sets_that_stay();
}

/// What may happen to media between two runs, done to the files and to a sound world together, keeps that the files keep its
/// media.
pub fn events_keep_media()
    ensures removed { (f g : Files) (w v : World) → KeepsMedia w None f → RemovesMedium f w g v → KeepsMedia v None g }
    ensures changed { (f g : Files) (w v : World) → KeepsMedia w None f → ChangesMedium f w g v → KeepsMedia v None g }
    ensures added { (f g : Files) (w v : World) → IsSound w → KeepsMedia w None f → AddsMedium f w g v → KeepsMedia v None g }
{
    sets_that_stay();
}
