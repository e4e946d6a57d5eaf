ghost use Rattle.std.specs.Prelude.{◌≡◌, ℕ, Bool, true, List, [], ◌∷◌, ◌++◌, Option, None, Some, map, remove, set, slice_get};
ghost use Rattle.std.specs.List.{position};
ghost use Rattle.bk_hosted.specs.Hosted.{Hosted, Hosts, SaysNoCheckpoint, basing, bringing_up, creating, folding, is_up, names, noting, parking, restoring, running, saying, set_log};
ghost use Rattle.bk_machine.specs.Acts.{Recovery, based, created, done, done_all, dropped, job_set, jobs_dropped, logged, medium_made, noted, readied, replaced, seated, set_drawn, set_sealed, turned};
ghost use Rattle.bk_machine.specs.declared.history_row.HistoryRow.{HistoryRow};
ghost use Rattle.bk_machine.specs.declared.job.Job.{Job};
ghost use Rattle.bk_machine.specs.MayDo.{MayDo, MayDoAll};
ghost use Rattle.bk_machine.specs.Sound.{IsSound, IsSoundSet};
ghost use Rattle.bk_machine.specs.World.{World, ended, opened};
ghost use Rattle.bk_world.specs.declared.database.Creation.{Creation};
ghost use Rattle.bk_world.specs.declared.header.Header.{Header};
ghost use Rattle.bk_world.specs.declared.transaction.Open.{Open};
ghost use Rattle.bk_world.specs.Lines.{Grew};
ghost use Rattle.bk_world.specs.Records.{Said, checkpointed};
ghost use Rattle.bk_world.specs.Says.{alone};

use bk_machine::{
    a_recovery_is_said_last, acts_keep_what_is_read, acts_keep_worlds_sound,
    what_is_said_comes_last,
};

/// An act of a sound world does to its hosted databases what it does to the world: what one says comes behind its records, also a front of it, and a checkpoint once it is
/// noted as the next one, which by itself changes nothing. One is based on a set, has a backup that runs or none, comes or goes. Other acts leave them, and so do the beginning and the end of a run.
pub fn hosted_databases_follow_acts()
    ensures said { (w : World) (name : List ℕ) (said : List Said) (transactions : List Open) (hosted : List Hosted) (i : ℕ) (h : Hosted) → IsSound w → Hosts w hosted
        → position (names name) hosted ≡ Some i → slice_get hosted i ≡ Some h → MayDo w (logged name said transactions) → SaysNoCheckpoint said
        → Hosts (done w (logged name said transactions)) (set hosted i (saying said transactions h)) }
    ensures front { (w : World) (name : List ℕ) (said : List Said) (transactions : List Open) (hosted : List Hosted) (i : ℕ) (h : Hosted) → IsSound w → Hosts w hosted
        → position (names name) hosted ≡ Some i → slice_get hosted i ≡ Some h → is_up h ≡ true → SaysNoCheckpoint said
        → Hosts (done w (logged name said transactions)) (set hosted i (saying said transactions h)) }
    ensures grows { (w : World) (name : List ℕ) (said : List Said) (transactions : List Open) (hosted : List Hosted) (i : ℕ) (h : Hosted) → IsSound w → Hosts w hosted
        → position (names name) hosted ≡ Some i → slice_get hosted i ≡ Some h → is_up h ≡ true → Grew w.history (done w (logged name said transactions)).history }
    ensures noted { (w : World) (name : List ℕ) (hosted : List Hosted) (i : ℕ) (h : Hosted) → IsSound w → Hosts w hosted
        → position (names name) hosted ≡ Some i → slice_get hosted i ≡ Some h → Hosts w (set hosted i (noting h)) }
    ensures folded { (w : World) (name : List ℕ) (hosted : List Hosted) (i : ℕ) (h : Hosted) → IsSound w → Hosts w hosted
        → position (names name) hosted ≡ Some i → slice_get hosted i ≡ Some h → Hosts w (set hosted i (folding h)) }
    ensures checkpoint { (w : World) (name : List ℕ) (time : ℕ) (transactions : List Open) (hosted : List Hosted) (i : ℕ) (h : Hosted) → IsSound w → Hosts w hosted
        → position (names name) hosted ≡ Some i → slice_get hosted i ≡ Some h → MayDo w (logged name (alone (checkpointed time)) transactions)
        → Hosts (done w (logged name (alone (checkpointed time)) transactions)) (set hosted i (saying (alone (checkpointed time)) transactions (noting h))) }
    ensures based { (w : World) (name : List ℕ) (header : Header) (hosted : List Hosted) (i : ℕ) (h : Hosted) → IsSound w → Hosts w hosted
        → position (names name) hosted ≡ Some i → slice_get hosted i ≡ Some h → Hosts (done w (based name header)) (set hosted i (basing header h)) }
    ensures created { (w : World) (c : Creation) (hosted : List Hosted) → IsSound w → MayDo w (created c) → Hosts w hosted → Hosts (done w (created c)) (hosted ++ creating c ∷ []) }
    ensures dropped { (w : World) (name : List ℕ) (hosted : List Hosted) (i : ℕ) (h : Hosted) → IsSound w → Hosts w hosted
        → position (names name) hosted ≡ Some i → slice_get hosted i ≡ Some h → Hosts (done w (dropped name)) (remove hosted i) }
    ensures readied { (w : World) (starts : Bool) (hosted : List Hosted) → Hosts w hosted → Hosts (done w (readied starts)) hosted }
    ensures job_set { (w : World) (name : List ℕ) (job : Option Job) (hosted : List Hosted) (i : ℕ) (h : Hosted) → Hosts w hosted
        → position (names name) hosted ≡ Some i → slice_get hosted i ≡ Some h → Hosts (done w (job_set name job)) (set hosted i (running job h)) }
    ensures jobs_dropped { (w : World) (hosted : List Hosted) → Hosts w hosted → Hosts (done w jobs_dropped) (map (running None) hosted) }
    ensures turned { (w : World) (name : Option (List ℕ)) (hosted : List Hosted) → Hosts w hosted → Hosts (done w (turned name)) hosted }
    ensures seated { (w : World) (session : ℕ) (hosted : List Hosted) → Hosts w hosted → Hosts (done w (seated session)) hosted }
    ensures medium_made { (w : World) (path : List ℕ) (hosted : List Hosted) → Hosts w hosted → Hosts (done w (medium_made path)) hosted }
    ensures set_drawn { (w : World) (hosted : List Hosted) → Hosts w hosted → Hosts (done w set_drawn) hosted }
    ensures row_noted { (w : World) (row : HistoryRow) (hosted : List Hosted) → Hosts w hosted → Hosts (done w (noted row)) hosted }
    ensures set_sealed { (w : World) (path : List ℕ) (header : Header) (hosted : List Hosted) → Hosts w hosted → Hosts (done w (set_sealed path header)) hosted }
    ensures opened { (w : World) (hosted : List Hosted) → Hosts w hosted → Hosts (opened w) hosted }
    ensures ended { (w : World) (hosted : List Hosted) → Hosts w hosted → Hosts (ended w) hosted }
{
    acts_keep_what_is_read();
    what_is_said_comes_last();
}

/// A whole restore, in a sound world, first puts a database in the place of the hosted one of its name, or behind the others, with its files Bad. Brought up, that has the log of the set, and what the
/// recovery says behind it.
pub fn hosted_databases_follow_restores()
    ensures replaced { (w : World) (name : List ℕ) (header : Header) (hosted : List Hosted) (i : ℕ) → IsSound w → Hosts w hosted → MayDo w (replaced name header)
        → position (names name) hosted ≡ Some i → Hosts (done w (replaced name header)) (set hosted i (parking (set_log w header) name header)) }
    ensures new { (w : World) (name : List ℕ) (header : Header) (hosted : List Hosted) → IsSound w → Hosts w hosted → MayDo w (replaced name header)
        → position (names name) hosted ≡ None → Hosts (done w (replaced name header)) (hosted ++ parking (set_log w header) name header ∷ []) }
    ensures brought_up { (w : World) (name : List ℕ) (header : Header) (r : Recovery) (hosted : List Hosted) (i : ℕ) → IsSound w → Hosts w hosted → IsSoundSet w header
        → MayDoAll w (bringing_up name header r) → r.at ≡ header.last → position (names name) hosted ≡ Some i → slice_get hosted i ≡ Some (parking (set_log w header) name header)
        → Hosts (done_all w (bringing_up name header r)) (set hosted i (restoring (set_log w header) name header r)) }
{
    a_recovery_is_said_last();
    acts_keep_what_is_read();
    acts_keep_worlds_sound();
}
