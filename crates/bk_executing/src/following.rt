// How an engine follows a plan.
ghost use Rattle.std.specs.Prelude.{◌≡◌, [], None, IfErr, IfOk, OnOk, IsErrOf};
ghost use Rattle.std.specs.List.{AllByRecursion};
ghost use Rattle.bk_device.specs.Counts.{HasCause};
ghost use Rattle.bk_device.specs.Effects.{Effect};
ghost use Rattle.bk_device.specs.Troubles.{IsPassing};
ghost use Rattle.bk_engine.specs.Stands.{Covers, IsOurs, IsReady, NamesSet, StandsFor, own_in};
ghost use Rattle.bk_engine.specs.Touched.{NoMedium, TouchesOnly};
ghost use Rattle.bk_executing.specs.Executing.{Rests};
ghost use Rattle.bk_executing.specs.Parts.{CutsPart, CutsParts, CutsPlan, CutsReadying, DoesPart, DoesParts, DoesPlan, DoesReadying, HasNoParts, PartWrites, PartsWrite, PlanWrites};
ghost use Rattle.bk_machine.specs.Acts.{done, readied};
ghost use Rattle.bk_machine.specs.World.{World};
ghost use Rattle.bk_plans.specs.Planning.{KeepsPart, KeepsPlan, reply_of};
ghost use Rattle.bk_plans.specs.declared.parts.Part.TheVariants as part;
ghost use Rattle.bk_plans.specs.declared.parts.Plan.TheVariants as plan;
ghost use Rattle.bk_stores.specs.Standing.{AreStanding};

use crate::doing::do_act;
use bk_acts::StoredAct;
use bk_device::{Device, Trouble};
use bk_engine::Engine;
use bk_ids::{Name, Text};
use bk_machine::{HistoryRow, Job};
use bk_plans::{Part, Plan};
use bk_sealing::seal_database;
use bk_world::{Header, Reply};

// Does an act that outlasts the run.
fn do_stored<D: Device>(engine: &mut Engine, dev: &mut D, act: &StoredAct) -> Result<(), Trouble>
    requires ready { IsReady engine.old }
    requires keeps { KeepsPart (part.Stored act.now) }
    requires none { (own_in engine.old).staging ≡ None }
    requires standing { D.tells → AreStanding (D.disk dev.old) engine.old.hosting.stores }
    ensures ready { OnOk result (IsReady engine.new) }
    ensures own { OnOk result (NamesSet None engine.old engine.new) }
    ensures standing { D.tells → OnOk result (AreStanding (D.disk dev.new) engine.new.hosting.stores) }
    ensures does { D.tells → OnOk result (DoesPart engine.old (D.disk dev.old) (part.Stored act.now) engine.new (D.disk dev.new)) }
    ensures crash { D.tells → CutsPart engine.old (D.disk dev.old) (part.Stored act.now) (D.disk dev.new) }
    ensures touches { D.tells → TouchesOnly (PartWrites (part.Stored act.now)) (D.disk dev.old) (D.disk dev.new) }
    ensures trouble { IfErr result IsPassing }
    ensures cause { HasCause D.disk_faults D.tell_faults dev.old dev.new (IsErrOf result Trouble.Fault) }
{
    do_act(engine, dev, act)
}

// Makes a medium.
fn make_medium<D: Device>(engine: &mut Engine, dev: &mut D, path: &Text) -> Result<(), Trouble>
    requires ready { IsReady engine.old }
    requires keeps { KeepsPart (part.MediumMade path.now) }
    requires none { (own_in engine.old).staging ≡ None }
    requires standing { D.tells → AreStanding (D.disk dev.old) engine.old.hosting.stores }
    ensures ready { OnOk result (IsReady engine.new) }
    ensures own { OnOk result (NamesSet None engine.old engine.new) }
    ensures standing { D.tells → OnOk result (AreStanding (D.disk dev.new) engine.new.hosting.stores) }
    ensures does { D.tells → OnOk result (DoesPart engine.old (D.disk dev.old) (part.MediumMade path.now) engine.new (D.disk dev.new)) }
    ensures crash { D.tells → CutsPart engine.old (D.disk dev.old) (part.MediumMade path.now) (D.disk dev.new) }
    ensures touches { D.tells → TouchesOnly (PartWrites (part.MediumMade path.now)) (D.disk dev.old) (D.disk dev.new) }
    ensures trouble { IfErr result IsPassing }
    ensures cause { HasCause D.disk_faults D.tell_faults dev.old dev.new (IsErrOf result Trouble.Fault) }
{
    engine.make_medium(dev, path)
}

// Draws the GUID of a set that comes behind those on a medium.
fn draw_set<D: Device>(engine: &mut Engine, dev: &mut D) -> Result<(), Trouble>
    requires ready { IsReady engine.old }
    requires none { (own_in engine.old).staging ≡ None }
    requires standing { D.tells → AreStanding (D.disk dev.old) engine.old.hosting.stores }
    ensures ready { OnOk result (IsReady engine.new) }
    ensures own { OnOk result (NamesSet None engine.old engine.new) }
    ensures standing { D.tells → OnOk result (AreStanding (D.disk dev.new) engine.new.hosting.stores) }
    ensures does { D.tells → OnOk result (DoesPart engine.old (D.disk dev.old) part.SetDrawn engine.new (D.disk dev.new)) }
    ensures crash { D.tells → CutsPart engine.old (D.disk dev.old) part.SetDrawn (D.disk dev.new) }
    ensures touches { D.tells → TouchesOnly (PartWrites part.SetDrawn) (D.disk dev.old) (D.disk dev.new) }
    ensures trouble { IfErr result IsPassing }
    ensures cause { HasCause D.disk_faults D.tell_faults dev.old dev.new (IsErrOf result Trouble.Fault) }
{
    engine.draw_set(dev)
}

// Seals the set with this header on the medium at a path.
fn seal_set<D: Device>(
    engine: &mut Engine,
    dev: &mut D,
    path: &Text,
    header: &Header,
) -> Result<(), Trouble>
    requires ready { IsReady engine.old }
    requires keeps { KeepsPart (part.SetSealed path.now header.now) }
    requires none { (own_in engine.old).staging ≡ None }
    requires standing { D.tells → AreStanding (D.disk dev.old) engine.old.hosting.stores }
    ensures ready { OnOk result (IsReady engine.new) }
    ensures own { OnOk result (NamesSet None engine.old engine.new) }
    ensures standing { D.tells → OnOk result (AreStanding (D.disk dev.new) engine.new.hosting.stores) }
    ensures does { D.tells → OnOk result (DoesPart engine.old (D.disk dev.old) (part.SetSealed path.now header.now) engine.new (D.disk dev.new)) }
    ensures crash { D.tells → CutsPart engine.old (D.disk dev.old) (part.SetSealed path.now header.now) (D.disk dev.new) }
    ensures touches { D.tells → TouchesOnly (PartWrites (part.SetSealed path.now header.now)) (D.disk dev.old) (D.disk dev.new) }
    ensures trouble { IfErr result IsPassing }
    ensures cause { HasCause D.disk_faults D.tell_faults dev.old dev.new (IsErrOf result Trouble.Fault) }
{
    seal_database(engine, dev, path, header)
}

// Adds a row to its table of msdb.
fn note<D: Device>(engine: &mut Engine, dev: &mut D, row: &HistoryRow) -> Result<(), Trouble>
    requires ready { IsReady engine.old }
    requires keeps { KeepsPart (part.Noted row.now) }
    requires none { (own_in engine.old).staging ≡ None }
    requires standing { D.tells → AreStanding (D.disk dev.old) engine.old.hosting.stores }
    ensures ready { OnOk result (IsReady engine.new) }
    ensures own { OnOk result (NamesSet None engine.old engine.new) }
    ensures standing { D.tells → OnOk result (AreStanding (D.disk dev.new) engine.new.hosting.stores) }
    ensures does { D.tells → OnOk result (DoesPart engine.old (D.disk dev.old) (part.Noted row.now) engine.new (D.disk dev.new)) }
    ensures crash { D.tells → CutsPart engine.old (D.disk dev.old) (part.Noted row.now) (D.disk dev.new) }
    ensures touches { D.tells → TouchesOnly (PartWrites (part.Noted row.now)) (D.disk dev.old) (D.disk dev.new) }
    ensures trouble { IfErr result IsPassing }
    ensures cause { HasCause D.disk_faults D.tell_faults dev.old dev.new (IsErrOf result Trouble.Fault) }
{
    engine.note(dev, row)
}

// The backup of the database of this name starts.
fn begin_job<D: Device>(
    engine: &mut Engine,
    dev: &mut D,
    name: &Name,
    job: &Job,
) -> Result<(), Trouble>
    requires ready { IsReady engine.old }
    requires keeps { KeepsPart (part.JobBegun name.now job.now) }
    requires none { (own_in engine.old).staging ≡ None }
    requires standing { D.tells → AreStanding (D.disk dev.old) engine.old.hosting.stores }
    ensures ready { OnOk result (IsReady engine.new) }
    ensures own { OnOk result (NamesSet None engine.old engine.new) }
    ensures standing { D.tells → OnOk result (AreStanding (D.disk dev.new) engine.new.hosting.stores) }
    ensures does { D.tells → OnOk result (DoesPart engine.old (D.disk dev.old) (part.JobBegun name.now job.now) engine.new (D.disk dev.new)) }
    ensures crash { D.tells → CutsPart engine.old (D.disk dev.old) (part.JobBegun name.now job.now) (D.disk dev.new) }
    ensures touches { D.tells → TouchesOnly (PartWrites (part.JobBegun name.now job.now)) (D.disk dev.old) (D.disk dev.new) }
    ensures trouble { IfErr result IsPassing }
    ensures cause { HasCause D.disk_faults D.tell_faults dev.old dev.new (IsErrOf result Trouble.Fault) }
{
    engine.at_rest(dev);
    let job = job.copy(engine.alloc())?;
    engine.start_set(dev, name.as_str(), job)
}

// So many more of the extents are copied that are left to the backup of the database of this name.
fn step_job<D: Device>(
    engine: &mut Engine,
    dev: &mut D,
    name: &Name,
    count: u64,
) -> Result<(), Trouble>
    requires ready { IsReady engine.old }
    requires keeps { KeepsPart (part.JobStepped name.now count) }
    requires none { (own_in engine.old).staging ≡ None }
    requires standing { D.tells → AreStanding (D.disk dev.old) engine.old.hosting.stores }
    ensures ready { OnOk result (IsReady engine.new) }
    ensures own { OnOk result (NamesSet None engine.old engine.new) }
    ensures standing { D.tells → OnOk result (AreStanding (D.disk dev.new) engine.new.hosting.stores) }
    ensures does { D.tells → OnOk result (DoesPart engine.old (D.disk dev.old) (part.JobStepped name.now count) engine.new (D.disk dev.new)) }
    ensures crash { D.tells → CutsPart engine.old (D.disk dev.old) (part.JobStepped name.now count) (D.disk dev.new) }
    ensures touches { D.tells → TouchesOnly (PartWrites (part.JobStepped name.now count)) (D.disk dev.old) (D.disk dev.new) }
    ensures trouble { IfErr result IsPassing }
    ensures cause { HasCause D.disk_faults D.tell_faults dev.old dev.new (IsErrOf result Trouble.Fault) }
{
    engine.step_set(dev, name.as_str(), count)
}

// Does one part. A crash leaves what it may leave inside of its act.
fn do_part<D: Device>(engine: &mut Engine, dev: &mut D, part: &Part) -> Result<(), Trouble>
    requires ready { IsReady engine.old }
    requires keeps { KeepsPart part.now }
    requires none { (own_in engine.old).staging ≡ None }
    requires standing { D.tells → AreStanding (D.disk dev.old) engine.old.hosting.stores }
    ensures ready { OnOk result (IsReady engine.new) }
    ensures own { OnOk result (NamesSet None engine.old engine.new) }
    ensures standing { D.tells → OnOk result (AreStanding (D.disk dev.new) engine.new.hosting.stores) }
    ensures does { D.tells → OnOk result (DoesPart engine.old (D.disk dev.old) part.now engine.new (D.disk dev.new)) }
    ensures crash { D.tells → CutsPart engine.old (D.disk dev.old) part.now (D.disk dev.new) }
    ensures touches { D.tells → TouchesOnly (PartWrites part.now) (D.disk dev.old) (D.disk dev.new) }
    ensures trouble { IfErr result IsPassing }
    ensures cause { HasCause D.disk_faults D.tell_faults dev.old dev.new (IsErrOf result Trouble.Fault) }
{
    match part {
        Part::Stored(act) => do_stored(engine, dev, act),
        Part::MediumMade { path } => make_medium(engine, dev, path),
        Part::SetDrawn => draw_set(engine, dev),
        Part::SetSealed { path, header } => seal_set(engine, dev, path, header),
        Part::Noted { row } => note(engine, dev, row),
        Part::JobBegun { name, job } => begin_job(engine, dev, name, job),
        Part::JobStepped { name, count } => step_job(engine, dev, name, *count),
    }
}

// Does parts, one after the other. A crash leaves what it may leave inside of their acts.
fn carry_out<D: Device>(engine: &mut Engine, dev: &mut D, parts: &[Part]) -> Result<(), Trouble>
    requires ready { IsReady engine.old }
    requires keep { AllByRecursion KeepsPart parts.now }
    requires none { (own_in engine.old).staging ≡ None }
    requires standing { D.tells → AreStanding (D.disk dev.old) engine.old.hosting.stores }
    ensures ready { OnOk result (IsReady engine.new) }
    ensures own { OnOk result (NamesSet None engine.old engine.new) }
    ensures standing { D.tells → OnOk result (AreStanding (D.disk dev.new) engine.new.hosting.stores) }
    ensures does { D.tells → OnOk result (DoesParts engine.old (D.disk dev.old) parts.now engine.new (D.disk dev.new)) }
    ensures crash { D.tells → CutsParts engine.old (D.disk dev.old) parts.now (D.disk dev.new) }
    ensures still { D.tells → parts.now ≡ [] → OnOk result (Rests engine.old (D.disk dev.old) engine.new (D.disk dev.new)) }
    ensures touches { D.tells → TouchesOnly (PartsWrite parts.now) (D.disk dev.old) (D.disk dev.new) }
    ensures trouble { IfErr result IsPassing }
    ensures cause { HasCause D.disk_faults D.tell_faults dev.old dev.new (IsErrOf result Trouble.Fault) }
{
    engine.at_rest(dev);
    for part in parts {
        do_part(engine, dev, part)?;
    }
    Ok(())
}

// The current session's next backup only starts from now on, or it doesn't any more.
fn make_ready<D: Device>(engine: &mut Engine, dev: &mut D, starts: bool) -> Result<(), Trouble>
    requires ready { IsReady engine.old }
    requires none { (own_in engine.old).staging ≡ None }
    requires standing { D.tells → AreStanding (D.disk dev.old) engine.old.hosting.stores }
    ensures ready { OnOk result (IsReady engine.new) }
    ensures own { OnOk result (NamesSet None engine.old engine.new) }
    ensures standing { D.tells → OnOk result (AreStanding (D.disk dev.new) engine.new.hosting.stores) }
    ensures does { D.tells → (w : World) → StandsFor (D.disk dev.old) engine.old w → OnOk result (StandsFor (D.disk dev.new) engine.new (done w (readied starts))) }
    ensures crash { D.tells → (w : World) → StandsFor (D.disk dev.old) engine.old w → Effect IsOurs (Covers w) (D.disk dev.old) (D.disk dev.new) }
    ensures still { D.tells → OnOk result (Rests engine.old (D.disk dev.old) engine.new (D.disk dev.new)) }
    ensures touches { D.tells → TouchesOnly NoMedium (D.disk dev.old) (D.disk dev.new) }
    ensures trouble { IfErr result IsPassing }
    ensures cause { HasCause D.disk_faults D.tell_faults dev.old dev.new (IsErrOf result Trouble.Fault) }
{
    engine.at_rest(dev);
    engine.ready_backup(dev, starts)?;
    Ok(())
}

// Does parts, one after the other, and then the current session's next backup only starts, or it doesn't any more. A crash leaves what it may leave inside of their acts.
fn carry_out_readying<D: Device>(
    engine: &mut Engine,
    dev: &mut D,
    parts: &[Part],
    starts: bool,
) -> Result<(), Trouble>
    requires ready { IsReady engine.old }
    requires keep { AllByRecursion KeepsPart parts.now }
    requires none { (own_in engine.old).staging ≡ None }
    requires standing { D.tells → AreStanding (D.disk dev.old) engine.old.hosting.stores }
    ensures ready { OnOk result (IsReady engine.new) }
    ensures own { OnOk result (NamesSet None engine.old engine.new) }
    ensures standing { D.tells → OnOk result (AreStanding (D.disk dev.new) engine.new.hosting.stores) }
    ensures does { D.tells → OnOk result (DoesReadying engine.old (D.disk dev.old) parts.now starts engine.new (D.disk dev.new)) }
    ensures crash { D.tells → CutsReadying engine.old (D.disk dev.old) parts.now starts (D.disk dev.new) }
    ensures still { D.tells → parts.now ≡ [] → OnOk result (Rests engine.old (D.disk dev.old) engine.new (D.disk dev.new)) }
    ensures touches { D.tells → TouchesOnly (PartsWrite parts.now) (D.disk dev.old) (D.disk dev.new) }
    ensures trouble { IfErr result IsPassing }
    ensures cause { HasCause D.disk_faults D.tell_faults dev.old dev.new (IsErrOf result Trouble.Fault) }
{
    carry_out(engine, dev, parts)?;
    make_ready(engine, dev, starts)
}

// The current database of the session is another one from now on, or there is none.
fn turn<D: Device>(engine: &mut Engine, dev: &mut D, name: Option<Text>) -> Result<(), Trouble>
    requires ready { IsReady engine.old }
    requires none { (own_in engine.old).staging ≡ None }
    requires standing { D.tells → AreStanding (D.disk dev.old) engine.old.hosting.stores }
    ensures ready { OnOk result (IsReady engine.new) }
    ensures own { OnOk result (NamesSet None engine.old engine.new) }
    ensures standing { D.tells → OnOk result (AreStanding (D.disk dev.new) engine.new.hosting.stores) }
    ensures does { D.tells → OnOk result (DoesPlan engine.old (D.disk dev.old) (plan.Turned name) engine.new (D.disk dev.new)) }
    ensures crash { D.tells → CutsPlan engine.old (D.disk dev.old) (plan.Turned name) (D.disk dev.new) }
    ensures still { D.tells → OnOk result (Rests engine.old (D.disk dev.old) engine.new (D.disk dev.new)) }
    ensures touches { D.tells → TouchesOnly NoMedium (D.disk dev.old) (D.disk dev.new) }
    ensures trouble { IfErr result IsPassing }
    ensures cause { HasCause D.disk_faults D.tell_faults dev.old dev.new (IsErrOf result Trouble.Fault) }
{
    engine.at_rest(dev);
    engine.turn(dev, name)?;
    Ok(())
}

// This session is the current one from now on.
fn seat<D: Device>(engine: &mut Engine, dev: &mut D, session: u8)
    requires ready { IsReady engine.old }
    requires none { (own_in engine.old).staging ≡ None }
    requires standing { D.tells → AreStanding (D.disk dev.old) engine.old.hosting.stores }
    ensures ready { IsReady engine.new }
    ensures own { NamesSet None engine.old engine.new }
    ensures standing { D.tells → AreStanding (D.disk dev.new) engine.new.hosting.stores }
    ensures does { D.tells → DoesPlan engine.old (D.disk dev.old) (plan.Seated session) engine.new (D.disk dev.new) }
    ensures crash { D.tells → CutsPlan engine.old (D.disk dev.old) (plan.Seated session) (D.disk dev.new) }
    ensures still { D.tells → Rests engine.old (D.disk dev.old) engine.new (D.disk dev.new) }
    ensures touches { D.tells → TouchesOnly NoMedium (D.disk dev.old) (D.disk dev.new) }
    ensures cause { HasCause D.disk_faults D.tell_faults dev.old dev.new ⊥ }
{
    engine.at_rest(dev);
    engine.seat(dev, session);
}

/// Does what a plan says, and gives its reply. A crash leaves what it may leave inside of its acts.
pub(crate) fn follow<D: Device>(
    engine: &mut Engine,
    dev: &mut D,
    plan: Plan,
) -> Result<Reply, Trouble>
    requires ready { IsReady engine.old }
    requires keeps { KeepsPlan plan }
    requires none { (own_in engine.old).staging ≡ None }
    requires standing { D.tells → AreStanding (D.disk dev.old) engine.old.hosting.stores }
    ensures ready { OnOk result (IsReady engine.new) }
    ensures own { OnOk result (NamesSet None engine.old engine.new) }
    ensures standing { D.tells → OnOk result (AreStanding (D.disk dev.new) engine.new.hosting.stores) }
    ensures replies { IfOk result (λ reply. reply ≡ reply_of plan) }
    ensures does { D.tells → OnOk result (DoesPlan engine.old (D.disk dev.old) plan engine.new (D.disk dev.new)) }
    ensures crash { D.tells → CutsPlan engine.old (D.disk dev.old) plan (D.disk dev.new) }
    ensures still { D.tells → HasNoParts plan → OnOk result (Rests engine.old (D.disk dev.old) engine.new (D.disk dev.new)) }
    ensures touches { D.tells → TouchesOnly (PlanWrites plan) (D.disk dev.old) (D.disk dev.new) }
    ensures sound { IsErrOf result Trouble.Broken → ⊥ }
    ensures cause { HasCause D.disk_faults D.tell_faults dev.old dev.new (IsErrOf result Trouble.Fault) }
{
    match plan {
        Plan::Refused { rule } => {
            engine.at_rest(dev);
            Ok(Reply::Refused { rule })
        }
        Plan::Answered { reply } => {
            engine.at_rest(dev);
            Ok(reply)
        }
        Plan::Turned { name } => {
            turn(engine, dev, name)?;
            Ok(Reply::Done)
        }
        Plan::Seated { session } => {
            seat(engine, dev, session);
            Ok(Reply::Nothing)
        }
        Plan::Parts { parts, reply } => {
            let done = carry_out(engine, dev, &parts);
            drop(parts);
            done?;
            Ok(reply)
        }
        Plan::Readied {
            parts,
            starts,
            reply,
        } => {
            let done = carry_out_readying(engine, dev, &parts, starts);
            drop(parts);
            done?;
            Ok(reply)
        }
    }
}
