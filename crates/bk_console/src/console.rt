// The top call.
ghost use Rattle.std.specs.Prelude.{◌≡◌, ◌≢◌, ◌⊎◌, ◌≤◌, ◌↔◌, List, None, Some, IfErr, OnOk, map};
ghost use Rattle.std.specs.String.{string_bytes};
ghost use Rattle.bk_device.specs.Calls.{ChangesNothing};
ghost use Rattle.bk_device.specs.Counts.{HasRisen};
ghost use Rattle.bk_device.specs.Disk.{IsSettled};
ghost use Rattle.bk_device.specs.Effects.{KeepsFiles};
ghost use Rattle.bk_executing.specs.EngineLoading.{Stands};
ghost use Rattle.bk_items.specs.declared.item.ScriptEntry.{ScriptEntry as EntryOf};
ghost use Rattle.bk_machine.specs.World.{World};
ghost use Rattle.bk_master.specs.Master.{IsNoInstance};
ghost use Rattle.bk_syntax.specs.Items.{AreItems};
ghost use Rattle.bk_console.specs.Answers.{NotOurs};
ghost use Rattle.bk_console.specs.Causes.{HasCauses};
ghost use Rattle.bk_console.specs.Life.{Called};
ghost use Rattle.bk_console.specs.Words.{options_of, as_asked};
ghost use Rattle.bk_console.specs.Run.{code_of, status_of, MayBegin, Executed, Over, Ran};

use crate::answers::{Ended, answer_all};
use crate::command_line::{self, Options};
use crate::reading::read_script;
use crate::status::Status;
use bk_device::{Clock, Device, Source};
use bk_executing::{Engine, close};
use bk_machine::runs_begin_and_end_in_sound_worlds;
use bk_names::Ours;
use bk_restarts::crashes_leave_worlds;
use bk_settling::{Beginning, Lent, Settling};
use bk_syntax::one_item_list;
use std::alloc::Global;
use std::marker::Brand;
use std::thread::Threads;

/// Runs the source's script over the device's instance, made where there is none: executes its items in order, and tells each
/// reply before it reads the next. With `-b` it stops at the first refusal. At its end all open is rolled back. Answers the exit
/// status; at 2, 3, 7 and 8 nothing was told and no file changed.
///
/// What is acknowledged is on the device before its reply; a crash leaves what a crash of the machine leaves.
pub fn run<R: Threads + Sync, D: Device, S: Source, C: Clock>(
    rt: &R,
    alloc: Global,
    words: &[String],
    source: &mut S,
    device: &mut D,
    clock: &mut C,
) -> u8
    // The replies are the machine's, over the script of the bytes read, and are what was told; crashes leave what the machine's leave.
    ensures run { Ran (options_of (map string_bytes words.now)) S.tells (S.rest source.old) (S.rest source.new) C.tells (C.coming clock.old) (C.coming clock.new)
        D.tells (D.disk device.old) (D.disk device.new) result }

    // A call in the life of its device.
    ensures called { D.tells → IsSettled (D.disk device.old)
        → Called S.tells C.tells D.tells D.disk (options_of (map string_bytes words.now)) (D.disk device.old).files device.old device.new result }

    // Which statuses there are, and when they come.
    ensures statuses { (status : Status) × (result ≡ code_of status) }
    ensures usage { (result ≡ 2) ↔ (options_of (map string_bytes words.now) ≡ None) }
    ensures source_fault { result ≡ 3 → HasRisen (S.read_faults source.old) (S.read_faults source.new) }
    ensures causes { HasCauses D.disk_faults D.tell_faults device.old device.new (result ≡ 5) (result ≡ 4) }
    ensures not_an_instance { D.tells → result ≡ 7 → IsNoInstance (D.disk device.old).files }
    ensures no_instance { D.tells → IsNoInstance (D.disk device.old).files → (result ≡ 0) ⊎ (result ≡ 1) ⊎ (result ≡ 4) → ⊥ }

    // Where nothing was pending at entry, nothing is at the end of a run.
    ensures settled { D.tells → IsSettled (D.disk device.old) → (result ≡ 0) ⊎ (result ≡ 1) → IsSettled (D.disk device.new) }

    // What is left alone.
    ensures unread { result ≡ 2 → source.new ≡ source.old }
    ensures untouched { (result ≡ 2) ⊎ (result ≡ 3) ⊎ (result ≡ 8) → device.new ≡ device.old }
    ensures unchanged { D.tells → result ≡ 7 → ChangesNothing (D.disk device.old) (D.disk device.new) }
    ensures others { D.tells → KeepsFiles NotOurs (D.disk device.old) (D.disk device.new) }
    ensures read_faults { S.read_faults source.old ≤ S.read_faults source.new }
{
    run_script(rt, alloc, words, source, device, clock).code()
}

/// The same by its status, which tells `Broken` apart from `NoMemory`, though their code is one: `Broken` comes only where
/// something was pending at entry, or the files stand for no world.
pub fn run_script<R: Threads + Sync, D: Device, S: Source, C: Clock>(
    rt: &R,
    alloc: Global,
    words: &[String],
    source: &mut S,
    device: &mut D,
    clock: &mut C,
) -> Status
    ensures run { Ran (options_of (map string_bytes words.now)) S.tells (S.rest source.old) (S.rest source.new) C.tells (C.coming clock.old) (C.coming clock.new)
        D.tells (D.disk device.old) (D.disk device.new) (code_of result) }
    ensures usage { (result ≡ Status.Usage) ↔ (options_of (map string_bytes words.now) ≡ None) }
    ensures source_fault { result ≡ Status.SourceFault → HasRisen (S.read_faults source.old) (S.read_faults source.new) }
    ensures causes { HasCauses D.disk_faults D.tell_faults device.old device.new (result ≡ Status.DeviceFault) (result ≡ Status.ConsoleFault) }
    ensures not_an_instance { D.tells → result ≡ Status.NotAnInstance → IsNoInstance (D.disk device.old).files }
    ensures no_instance { D.tells → IsNoInstance (D.disk device.old).files → (result ≡ Status.Done) ⊎ (result ≡ Status.StoppedAtRefusal) ⊎ (result ≡ Status.ConsoleFault) → ⊥ }
    ensures unbroken { D.tells → IsSettled (D.disk device.old) → (w : World) → MayBegin (options_of (map string_bytes words.now)) (D.disk device.old).files w → result ≢ Status.Broken }
    ensures settled { D.tells → IsSettled (D.disk device.old) → (result ≡ Status.Done) ⊎ (result ≡ Status.StoppedAtRefusal) → IsSettled (D.disk device.new) }
    ensures unread { result ≡ Status.Usage → source.new ≡ source.old }
    ensures untouched { (result ≡ Status.Usage) ⊎ (result ≡ Status.SourceFault) ⊎ (result ≡ Status.ScriptTooLong) → device.new ≡ device.old }
    ensures unchanged { D.tells → result ≡ Status.NotAnInstance → ChangesNothing (D.disk device.old) (D.disk device.new) }
    ensures others { D.tells → KeepsFiles NotOurs (D.disk device.old) (D.disk device.new) }
    ensures read_faults { S.read_faults source.old ≤ S.read_faults source.new }
{
    crashes_leave_worlds();
    runs_begin_and_end_in_sound_worlds();
    let options = match command_line::words(alloc, words) {
        Ok(options) => options,
        Err(error) => return Status::from(error),
    };
    let script = match read_script(alloc, source) {
        Ok(script) => script,
        Err(error) => return Status::from(error),
    };
    one_item_list();
    match over_instance(rt, alloc, &options, &script, device, clock) {
        Ok(ended) => Status::from(ended),
        Err(status) => status,
    }
}

// Executes the statements of a script over the instance on the device. Where it comes to its end, nothing is pending then.
fn over_instance<R: Threads + Sync, D: Device, C: Clock>(
    rt: &R,
    alloc: Global,
    options: &Options,
    script: &[u8],
    device: &mut D,
    clock: &mut C,
) -> Result<Ended, Status>
    ensures over { Over (as_asked options.now) script.now C.tells (C.coming clock.old) (C.coming clock.new) D.tells (D.disk device.old) (D.disk device.new) result }
    ensures causes { HasCauses D.disk_faults D.tell_faults device.old device.new (status_of result ≡ Status.DeviceFault) (status_of result ≡ Status.ConsoleFault) }
    ensures settled { D.tells → IsSettled (D.disk device.old) → OnOk result (IsSettled (D.disk device.new)) }
{
    let lent = Lent::new(device);
    let (_, ended) = over_lent::<Brand, R, D, C>(rt, alloc, options, script, lent, clock);
    ended
}

// The same over a reference that goes in and comes out.
fn over_lent<'d, B: Beginning, R: Threads + Sync, D: Device, C: Clock>(
    rt: &R,
    alloc: Global,
    options: &Options,
    script: &[u8],
    lent: Lent<'d, D>,
    clock: &mut C,
) -> (Lent<'d, D>, Result<Ended, Status>)
    requires same_reference { lent.device.ghost_name ≡ B.name }
    requires calm { D.tells → B.calm → IsSettled (D.disk lent.device.now) }
    ensures same_reference { result.0.device.ghost_name ≡ B.name }
    ensures over { Over (as_asked options.now) script.now C.tells (C.coming clock.old) (C.coming clock.new) D.tells (D.disk lent.entry.device.now) (D.disk result.0.device.now) result.1 }
    ensures causes { HasCauses D.disk_faults D.tell_faults lent.entry.device.now result.0.device.now (status_of result.1 ≡ Status.DeviceFault) (status_of result.1 ≡ Status.ConsoleFault) }
    ensures settled { D.tells → B.calm → OnOk result.1 (IsSettled (D.disk result.0.device.now)) }
{
    let mut settling = lent.begin::<B>(alloc);
    let ended = run_and_settle(rt, alloc, options, script, &mut settling, clock);
    (settling.end(), ended)
}

// The same over a device that knows under which names something may be pending: at the end all is made durable.
fn run_and_settle<B: Beginning, R: Threads + Sync, D: Device, C: Clock>(
    rt: &R,
    alloc: Global,
    options: &Options,
    script: &[u8],
    settling: &mut Settling<'_, B, D>,
    clock: &mut C,
) -> Result<Ended, Status>
    ensures over { Over (as_asked options.now) script.now C.tells (C.coming clock.old) (C.coming clock.new) D.tells (D.disk settling.old.device.now) (D.disk settling.new.device.now) result }
    ensures causes { HasCauses D.disk_faults D.tell_faults settling.old.device.now settling.new.device.now (status_of result ≡ Status.DeviceFault) (status_of result ≡ Status.ConsoleFault) }
    ensures settled { D.tells → B.calm → OnOk result (IsSettled (D.disk settling.new.device.now)) }
{
    let ended = over_engine(rt, alloc, options, script, settling, clock)?;
    settling.settle::<Ours>()?;
    Ok(ended)
}

// Loads the instance on the device, answers the statements of a script, and closes it.
fn over_engine<R: Threads + Sync, D: Device, C: Clock>(
    rt: &R,
    alloc: Global,
    options: &Options,
    script: &[u8],
    device: &mut D,
    clock: &mut C,
) -> Result<Ended, Status>
    ensures executed { (ss : List EntryOf) → AreItems script.now ss → Executed (Some (as_asked options.now)) ss C.tells (C.coming clock.old) (C.coming clock.new)
        D.tells (D.disk device.old) (D.disk device.new) (code_of (status_of result)) }
    ensures begun { (status_of result ≡ Status.Usage) ⊎ (status_of result ≡ Status.SourceFault) ⊎ (status_of result ≡ Status.ScriptTooLong) → ⊥ }
    ensures fails { IfErr result (λ status. (status ≡ Status.Done) ⊎ (status ≡ Status.StoppedAtRefusal) → ⊥) }
    ensures causes { HasCauses D.disk_faults D.tell_faults device.old device.new (status_of result ≡ Status.DeviceFault) (status_of result ≡ Status.ConsoleFault) }
    ensures not_an_instance { D.tells → status_of result ≡ Status.NotAnInstance → IsNoInstance (D.disk device.old).files }
    ensures no_instance { D.tells → IsNoInstance (D.disk device.old).files → (status_of result ≡ Status.Done) ⊎ (status_of result ≡ Status.StoppedAtRefusal) ⊎ (status_of result ≡ Status.ConsoleFault) → ⊥ }
    ensures unbroken { D.tells → IsSettled (D.disk device.old) → (w : World) → Stands options.now.instance (D.disk device.old).files w → status_of result ≢ Status.Broken }
    ensures unchanged { D.tells → status_of result ≡ Status.NotAnInstance → ChangesNothing (D.disk device.old) (D.disk device.new) }
    ensures others { D.tells → KeepsFiles NotOurs (D.disk device.old) (D.disk device.new) }
{
    crashes_leave_worlds();
    runs_begin_and_end_in_sound_worlds();
    let mut engine = Engine::load(rt, alloc, device, options.instance)?;
    match answer_all(rt, alloc, &mut engine, script, options.stop, device, clock) {
        Ok(ended) => {
            let closed = close(&mut engine, device);
            drop(engine);
            closed?;
            Ok(ended)
        }
        Err(error) => {
            drop(engine);
            Err(Status::from(error))
        }
    }
}
