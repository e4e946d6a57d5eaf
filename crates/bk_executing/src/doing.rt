// What an act that outlasts a run does.
ghost use Rattle.std.specs.Prelude.{◌≤◌, OnOk, IfErr, IsErrOf};
ghost use Rattle.bk_acts.specs.Conditions.{KeepsAct};
ghost use Rattle.bk_acts.specs.declared.act.StoredAct.TheVariants as kind;
ghost use Rattle.bk_device.specs.Counts.{HasCause};
ghost use Rattle.bk_device.specs.Troubles.{IsPassing};
ghost use Rattle.bk_engine.specs.Stands.{IsReady, NamesSet, own_in};
ghost use Rattle.bk_engine.specs.Touched.{NoMedium, TouchesOnly};
ghost use Rattle.bk_executing.specs.Parts.{CutsStored, DoesStored};
ghost use Rattle.bk_stores.specs.Standing.{AreStanding};

use crate::copies::copy_creation;
use bk_acts::StoredAct;
use bk_device::{Device, Trouble};
use bk_engine::Engine;
use bk_ids::{Name, Rec, Sequence};
use bk_kept::copy_transactions;
use bk_side::name_law;
use bk_world::{Creation, FileSpec, Open};

// At most so many pages of a database are kept in memory, of 8 KiB each.
const MOST_FRAMES: u32 = 1024;

// So many pages of a database with these data files are kept in memory: as many as they have, from 1 to 1,024. Each extent has eight.
fn frames_of(files: &[FileSpec]) -> usize
    ensures some { 1 ≤ result }
    ensures few { result ≤ 1024 }
{
    let mut pages: u32 = 0;
    for file in files {
        pages = pages.saturating_add(file.extents.saturating_mul(8));
    }
    pages.max(1).min(MOST_FRAMES) as usize
}

// Makes a database.
fn create<D: Device>(engine: &mut Engine, dev: &mut D, creation: &Creation) -> Result<(), Trouble>
    requires ready { IsReady engine.old }
    requires keeps { KeepsAct (kind.Created creation.now) }
    requires standing { D.tells → AreStanding (D.disk dev.old) engine.old.hosting.stores }
    ensures ready { OnOk result (IsReady engine.new) }
    ensures own { OnOk result (NamesSet (own_in engine.old).staging engine.old engine.new) }
    ensures standing { D.tells → OnOk result (AreStanding (D.disk dev.new) engine.new.hosting.stores) }
    ensures does { D.tells → OnOk result (DoesStored engine.old (D.disk dev.old) (kind.Created creation.now) engine.new (D.disk dev.new)) }
    ensures crash { D.tells → CutsStored engine.old (D.disk dev.old) (kind.Created creation.now) (D.disk dev.new) }
    ensures touches { D.tells → TouchesOnly NoMedium (D.disk dev.old) (D.disk dev.new) }
    ensures trouble { IfErr result IsPassing }
    ensures cause { HasCause D.disk_faults D.tell_faults dev.old dev.new (IsErrOf result Trouble.Fault) }
{
    name_law();
    engine.at_rest(dev);
    let frames = frames_of(creation.storage.files.as_slice());
    let creation = copy_creation(engine.alloc(), creation)?;
    engine.create(dev, creation, frames)
}

// A database says something.
fn say<D: Device>(
    engine: &mut Engine,
    dev: &mut D,
    name: &Name,
    transactions: &Sequence<Open>,
    records: &Sequence<Rec>,
) -> Result<(), Trouble>
    requires ready { IsReady engine.old }
    requires keeps { KeepsAct (kind.Logged name.now transactions.now records.now) }
    requires standing { D.tells → AreStanding (D.disk dev.old) engine.old.hosting.stores }
    ensures ready { OnOk result (IsReady engine.new) }
    ensures own { OnOk result (NamesSet (own_in engine.old).staging engine.old engine.new) }
    ensures standing { D.tells → OnOk result (AreStanding (D.disk dev.new) engine.new.hosting.stores) }
    ensures does { D.tells → OnOk result (DoesStored engine.old (D.disk dev.old) (kind.Logged name.now transactions.now records.now) engine.new (D.disk dev.new)) }
    ensures crash { D.tells → CutsStored engine.old (D.disk dev.old) (kind.Logged name.now transactions.now records.now) (D.disk dev.new) }
    ensures touches { D.tells → TouchesOnly NoMedium (D.disk dev.old) (D.disk dev.new) }
    ensures trouble { IfErr result IsPassing }
    ensures cause { HasCause D.disk_faults D.tell_faults dev.old dev.new (IsErrOf result Trouble.Fault) }
{
    engine.at_rest(dev);
    let transactions = copy_transactions(engine.alloc(), transactions.as_slice())?;
    engine.say(dev, name.as_str(), records.as_slice(), transactions)
}

/// Does an act that outlasts the run. A crash leaves the world before it, but for what waited, or the one behind it, or behind a front of what it says.
pub(crate) fn do_act<D: Device>(
    engine: &mut Engine,
    dev: &mut D,
    act: &StoredAct,
) -> Result<(), Trouble>
    requires ready { IsReady engine.old }
    requires keeps { KeepsAct act.now }
    requires standing { D.tells → AreStanding (D.disk dev.old) engine.old.hosting.stores }
    ensures ready { OnOk result (IsReady engine.new) }
    ensures own { OnOk result (NamesSet (own_in engine.old).staging engine.old engine.new) }
    ensures standing { D.tells → OnOk result (AreStanding (D.disk dev.new) engine.new.hosting.stores) }
    ensures does { D.tells → OnOk result (DoesStored engine.old (D.disk dev.old) act.now engine.new (D.disk dev.new)) }
    ensures crash { D.tells → CutsStored engine.old (D.disk dev.old) act.now (D.disk dev.new) }
    ensures touches { D.tells → TouchesOnly NoMedium (D.disk dev.old) (D.disk dev.new) }
    ensures trouble { IfErr result IsPassing }
    ensures cause { HasCause D.disk_faults D.tell_faults dev.old dev.new (IsErrOf result Trouble.Fault) }
{
    match act {
        StoredAct::Created { creation } => create(engine, dev, creation),
        StoredAct::Dropped { name } => engine.drop(dev, name.as_str()),
        StoredAct::Logged {
            name,
            transactions,
            records,
        } => say(engine, dev, name, transactions, records),
        StoredAct::Checkpointed { name, time, kept } => {
            engine.checkpoint(dev, name.as_str(), *time, *kept)
        }
        StoredAct::Based { name, header } => engine.base(dev, name.as_str(), header),
    }
}
