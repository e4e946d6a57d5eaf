ghost use Rattle.std.specs.Prelude.{◌≡◌, ℕ, List};
ghost use Rattle.bk_machine.specs.Acts.{Act, done, done_all};
ghost use Rattle.bk_machine.specs.Events.{Happen, Happens};
ghost use Rattle.bk_machine.specs.MayDo.{MayDo, MayDoAll};
ghost use Rattle.bk_machine.specs.Sound.{IsSound, IsSoundSet, SetIn};
ghost use Rattle.bk_machine.specs.World.{World, ended, opened, restarted};
ghost use Rattle.bk_world.specs.Lines.{Grew, RecordLines, log_below};
ghost use Rattle.bk_world.specs.Records.{Counts};
ghost use Rattle.bk_world.specs.declared.header.Header.{Header};

/// A set on a medium of a sound world is sound: its log has each number once. So it reads the same in a history that has grown,
/// behind acts that may be done, through events, and where a run begins, ends, or is cut off with nothing lost.
pub fn sets_that_stay()
    ensures sound { (w : World) (path : List ℕ) (header : Header) → IsSound w → SetIn w path header → IsSoundSet w header }
    ensures counts { (w : World) (path : List ℕ) (header : Header) → IsSound w → SetIn w path header
        → Counts 1 (log_below w.history header.path header.last) header.last }
    ensures grown { (w : World) (path : List ℕ) (header : Header) → IsSound w → SetIn w path header
        → (history : RecordLines) → Grew w.history history → log_below history header.path header.last ≡ log_below w.history header.path header.last }
    ensures act { (w : World) (path : List ℕ) (header : Header) → IsSound w → SetIn w path header
        → (act : Act) → MayDo w act → log_below (done w act).history header.path header.last ≡ log_below w.history header.path header.last }
    ensures acts { (w : World) (path : List ℕ) (header : Header) → IsSound w → SetIn w path header
        → (acts : List Act) → MayDoAll w acts → log_below (done_all w acts).history header.path header.last ≡ log_below w.history header.path header.last }
    ensures event { (w : World) (path : List ℕ) (header : Header) → IsSound w → SetIn w path header
        → (new : World) → Happens w new → log_below new.history header.path header.last ≡ log_below w.history header.path header.last }
    ensures events { (w : World) (path : List ℕ) (header : Header) → IsSound w → SetIn w path header
        → (new : World) → Happen w new → log_below new.history header.path header.last ≡ log_below w.history header.path header.last }
    ensures opened { (w : World) (header : Header) → log_below (opened w).history header.path header.last ≡ log_below w.history header.path header.last }
    ensures ended { (w : World) (header : Header) → log_below (ended w).history header.path header.last ≡ log_below w.history header.path header.last }
    ensures restarted { (counter : ℕ) (w : World) (header : Header)
        → log_below (restarted counter w).history header.path header.last ≡ log_below w.history header.path header.last }
{}
