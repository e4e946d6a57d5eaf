// Answering statements, one after the other.
ghost use Rattle.std.specs.Prelude.{◌≡◌, List, None, IfOk, OnOk, OnErr, IsErrOf};
ghost use Rattle.bk_device.specs.Counts.{HasCause};
ghost use Rattle.bk_device.specs.Effects.{KeepsFiles};
ghost use Rattle.bk_executing.specs.EngineStands.{IsReady, NamesSet, StandsFor, own_in};
ghost use Rattle.bk_executing.specs.EngineTouched.{IsPath, TouchesOnly};
ghost use Rattle.bk_items.specs.declared.item.ScriptEntry.{ScriptEntry as EntryOf};
ghost use Rattle.bk_machine.specs.World.{World};
ghost use Rattle.bk_stores.specs.Standing.{AreStanding};
ghost use Rattle.bk_syntax.specs.Items.{AreItems};
ghost use Rattle.bk_console.specs.Answers as spec;
ghost use Rattle.bk_console.specs.Answers.{NotOurs, IsDone, IsNotDone, Answered, CutShort, AnsweredBy, CutAll, executed_error};
ghost use Rattle.bk_console.specs.Causes.{HasCauses};
ghost use Rattle.bk_console.specs.declared.answers.AnswerError.TheVariants as answer_error;

use crate::report;
use bk_device::{Clock, Device, Failed, Trouble};
use bk_executing::{Engine, execute};
use bk_items::ScriptEntry;
use bk_restarts::crashes_leave_worlds;
use bk_syntax::Reader;
use bk_world::Reply;
use std::alloc::{AllocError, Global};
use std::thread::Threads;
use thiserror::Error;

/// Why an answer was cut short.
#[derive(Clone, Copy, Debug, PartialEq, Eq, Error)]
pub enum AnswerError {
    /// Telling it failed.
    #[error("the console failed")]
    Console,
    /// A file call of its statement failed.
    #[error("the device failed")]
    Device,
    /// Memory was wanting.
    #[error("out of memory")]
    NoMemory,
    /// The instance stands for no world.
    #[error("the instance is broken")]
    Broken,
}

impl From<Failed> for AnswerError {
    ghost from_gives = { λ _ e. e ≡ answer_error.Console };

    fn from(_: Failed) -> Self {
        AnswerError::Console
    }
}

impl From<Trouble> for AnswerError {
    ghost from_gives = { λ error e. e ≡ executed_error error };

    fn from(error: Trouble) -> Self {
        match error {
            Trouble::Fault => AnswerError::Device,
            Trouble::NoMemory => AnswerError::NoMemory,
            Trouble::Broken => AnswerError::Broken,
        }
    }
}

impl From<AllocError> for AnswerError {
    ghost from_gives = { λ _ e. e ≡ answer_error.NoMemory };

    fn from(_: AllocError) -> Self {
        AnswerError::NoMemory
    }
}

/// Where answering ended that wasn't cut short.
#[derive(Clone, Copy, Debug, PartialEq, Eq)]
pub enum Ended {
    /// Each statement has its reply.
    AtTheEnd,
    /// The last reply is a refusal, behind which no statement was to be begun.
    AtARefusal,
}

fn is_refusal(reply: &Reply) -> bool
    ensures { result ≡ spec.is_refusal reply.now }
{
    matches!(reply, Reply::Refused { .. })
}

// Executes one statement at this moment.
fn execute_one<R: Threads + Sync, D: Device>(
    rt: &R,
    engine: &mut Engine,
    statement: &ScriptEntry,
    device: &mut D,
    now: u64,
) -> Result<Reply, Trouble>
    requires ready { IsReady engine.old }
    requires none { (own_in engine.old).staging ≡ None }
    requires standing { D.tells → AreStanding (D.disk device.old) engine.old.hosting.stores }
    ensures ready { OnOk result (IsReady engine.new) }
    ensures own { OnOk result (NamesSet None engine.old engine.new) }
    ensures standing { D.tells → OnOk result (AreStanding (D.disk device.new) engine.new.hosting.stores) }
    ensures done { IfOk result (λ reply. IsDone D.tells engine.old (D.disk device.old) statement.now now reply engine.new (D.disk device.new)) }
    ensures not_done { OnErr result (IsNotDone D.tells engine.old (D.disk device.old) statement.now now (D.disk device.new)) }
    ensures touches { D.tells → TouchesOnly IsPath (D.disk device.old) (D.disk device.new) }
    ensures broken { D.tells → IsErrOf result Trouble.Broken → (w : World) → StandsFor (D.disk device.old) engine.old w → ⊥ }
    ensures cause { HasCause D.disk_faults D.tell_faults device.old device.new (IsErrOf result Trouble.Fault) }
{
    engine.at_rest(device);
    let reply = execute(engine, rt, device, statement, now)?;
    engine.at_rest(device);
    Ok(reply)
}

/// Asks the clock, makes the step of one statement, and tells its reply. Says whether that is a refusal.
pub fn answer<R: Threads + Sync, D: Device, C: Clock>(
    rt: &R,
    alloc: Global,
    engine: &mut Engine,
    statement: &ScriptEntry,
    device: &mut D,
    clock: &mut C,
) -> Result<bool, AnswerError>
    requires ready { IsReady engine.old }
    requires none { (own_in engine.old).staging ≡ None }
    requires standing { D.tells → AreStanding (D.disk device.old) engine.old.hosting.stores }
    ensures answered { IfOk result (λ refused. Answered engine.old engine.new statement.now C.tells (C.coming clock.old) (C.coming clock.new)
        D.tells (D.disk device.old) (D.disk device.new) refused) }
    ensures cut_short { OnErr result (CutShort engine.old statement.now C.tells (C.coming clock.old) (C.coming clock.new)
        D.tells (D.disk device.old) (D.disk device.new) (IsErrOf result answer_error.Console)) }
    ensures ready { OnOk result (IsReady engine.new) }
    ensures own { OnOk result (NamesSet None engine.old engine.new) }
    ensures standing { D.tells → OnOk result (AreStanding (D.disk device.new) engine.new.hosting.stores) }
    ensures others { D.tells → KeepsFiles NotOurs (D.disk device.old) (D.disk device.new) }
    ensures broken { D.tells → IsErrOf result answer_error.Broken → (w : World) → StandsFor (D.disk device.old) engine.old w → ⊥ }
    ensures causes { HasCauses D.disk_faults D.tell_faults device.old device.new (IsErrOf result answer_error.Device) (IsErrOf result answer_error.Console) }
{
    let now = clock.now();
    let reply = execute_one(rt, engine, statement, device, now)?;
    let refused = is_refusal(&reply);
    let written = report::text(alloc, &reply);
    drop(reply);
    let text = written?;
    device.tell(text.as_bytes())?;
    Ok(refused)
}

fn let_go(_statement: ScriptEntry) {}

/// Answers the statements of a script in their order: all of them, or up to the first that is refused, where `stop` asks for
/// that. They are read one by one. At an error the rest isn't begun. A crash leaves what it may leave of the machine's run,
/// after at least the statements whose replies were told whole.
pub fn answer_all<R: Threads + Sync, D: Device, C: Clock>(
    rt: &R,
    alloc: Global,
    engine: &mut Engine,
    script: &[u8],
    stop: bool,
    device: &mut D,
    clock: &mut C,
) -> Result<Ended, AnswerError>
    requires ready { IsReady engine.old }
    requires none { (own_in engine.old).staging ≡ None }
    requires standing { D.tells → AreStanding (D.disk device.old) engine.old.hosting.stores }
    ensures answered { (ss : List EntryOf) → AreItems script.now ss → IfOk result (λ ended. AnsweredBy ended stop engine.old engine.new ss C.tells (C.coming clock.old) (C.coming clock.new)
        D.tells (D.disk device.old) (D.disk device.new)) }
    ensures cut_short { (ss : List EntryOf) → AreItems script.now ss → OnErr result (CutAll stop engine.old ss C.tells (C.coming clock.old) (C.coming clock.new)
        D.tells (D.disk device.old) (D.disk device.new) (IsErrOf result answer_error.Console)) }
    ensures ready { OnOk result (IsReady engine.new) }
    ensures own { OnOk result (NamesSet None engine.old engine.new) }
    ensures standing { D.tells → OnOk result (AreStanding (D.disk device.new) engine.new.hosting.stores) }
    ensures stands { D.tells → OnOk result ((w : World) → StandsFor (D.disk device.old) engine.old w → (v : World) × StandsFor (D.disk device.new) engine.new v) }
    ensures others { D.tells → KeepsFiles NotOurs (D.disk device.old) (D.disk device.new) }
    ensures broken { D.tells → IsErrOf result answer_error.Broken → (w : World) → StandsFor (D.disk device.old) engine.old w → ⊥ }
    ensures causes { HasCauses D.disk_faults D.tell_faults device.old device.new (IsErrOf result answer_error.Device) (IsErrOf result answer_error.Console) }
{
    crashes_leave_worlds();
    let mut reader = Reader::new(alloc);
    while let Some(statement) = reader.next(alloc, script)? {
        let answered = answer(rt, alloc, engine, &statement, device, clock);
        let_go(statement);
        let refused = answered?;
        if refused && stop {
            return Ok(Ended::AtARefusal);
        }
    }
    Ok(Ended::AtTheEnd)
}
