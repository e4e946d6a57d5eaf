// What databases say, which may wait in memory.
ghost use Rattle.std.specs.Prelude.{◌≡◌, true, List, IfErr, OnOk, IsErrOf};
ghost use Rattle.std.specs.List.{AllByRecursion, list_all};
ghost use Rattle.bk_device.specs.Counts.{HasCause};
ghost use Rattle.bk_device.specs.Effects.{Effect};
ghost use Rattle.bk_device.specs.Troubles.{IsPassing};
ghost use Rattle.bk_ids.specs.declared.record.Rec.{Rec as Recs};
ghost use Rattle.bk_machine.specs.Acts.{done, logged};
ghost use Rattle.bk_machine.specs.Sound.{has_begin};
ghost use Rattle.bk_machine.specs.World.{World};
ghost use Rattle.bk_record.specs.Spelling.{KeepsLimits};
ghost use Rattle.bk_stores.specs.Standing.{AreStanding};
ghost use Rattle.bk_world.specs.Records.{Said};
ghost use Rattle.bk_engine.specs.Acts.{CutsSaying, MaySayIn};
ghost use Rattle.bk_engine.specs.Saying as spec;
ghost use Rattle.bk_engine.specs.Stands.{IsOurs, IsReady, NamesSet, StandsFor, own_in};
ghost use Rattle.bk_engine.specs.Touched.{NoMedium, TouchesOnly};

use crate::engine::Engine;
use bk_device::{Device, Trouble};
use bk_ids::{Body, Lsn, Rec, Sequence};
use bk_world::Open;

// Whether a transaction with this first record is open.
fn is_open(transactions: &[Open], begin: Lsn) -> bool
    ensures { result ≡ has_begin transactions.now begin }
{
    transactions.iter().any(|t| t.begin == begin)
}

// Whether a record begins a transaction, or is a write of one.
fn is_begin_or_write(body: &Body) -> bool
    ensures { result ≡ spec.is_begin_or_write body.now }
{
    matches!(body, Body::Begin | Body::Write { .. })
}

// Whether a record is so of a transaction that is open.
fn is_open_write(transactions: &[Open], record: &Rec) -> bool
    ensures { result ≡ spec.is_open_write transactions.now «record».now }
{
    0 < record.begin && is_open(transactions, record.begin) && is_begin_or_write(&record.body)
}

// Whether each of some records is so.
fn are_open_writes(transactions: &[Open], records: &[Rec]) -> bool
    ensures { result ≡ list_all (spec.is_open_write transactions.now) records.now }
{
    records.iter().all(|r| is_open_write(transactions, r))
}

// Whether transactions that were open before still are.
fn are_open(transactions: &[Open], before: &[Open]) -> bool
    ensures { result ≡ list_all (λ t. has_begin transactions.now t.begin) before.now }
{
    before.iter().all(|t| is_open(transactions, t.begin))
}

// Whether records may wait among transactions that are open then, where these were open before.
fn may_wait(records: &[Rec], transactions: &[Open], before: &[Open]) -> bool
    ensures { result ≡ spec.may_wait records.now transactions.now before.now }
{
    are_open_writes(transactions, records) && are_open(transactions, before)
}

impl Engine {
    /// The database of this name says these records, and then these transactions are open. Where each record begins one of them or is a write of one, and what was open before still is, they wait in memory;
    /// else all that it has said is durable then. A crash leaves the world before it, but for what waited, or the one behind a front of what is said.
    ///
    /// Only `Fault` and `NoMemory` are answered, as by `log`.
    pub fn say<D: Device>(
        &mut self,
        dev: &mut D,
        name: &str,
        records: &[Rec],
        transactions: Sequence<Open>,
    ) -> Result<(), Trouble>
        requires ready { IsReady self.old }
        requires limits { AllByRecursion (λ (r : Recs). KeepsLimits r.body) records.now }
        requires standing { D.tells → AreStanding (D.disk dev.old) self.old.hosting.stores }
        ensures ready { OnOk result (IsReady self.new) }
        ensures own { OnOk result (NamesSet (own_in self.old).staging self.old self.new) }
        ensures standing { D.tells → OnOk result (AreStanding (D.disk dev.new) self.new.hosting.stores) }
        ensures stands { D.tells → (w : World) (said : List Said) → StandsFor (D.disk dev.old) self.old w → MaySayIn w name.now said transactions records.now true → OnOk result (StandsFor (D.disk dev.new) self.new (done w (logged name.now said transactions))) }
        ensures crash { D.tells → (w : World) (said : List Said) → StandsFor (D.disk dev.old) self.old w → MaySayIn w name.now said transactions records.now true → Effect IsOurs (CutsSaying w name.now said transactions) (D.disk dev.old) (D.disk dev.new) }
        ensures touches { D.tells → TouchesOnly NoMedium (D.disk dev.old) (D.disk dev.new) }
        ensures trouble { IfErr result IsPassing }
        ensures cause { HasCause D.disk_faults D.tell_faults dev.old dev.new (IsErrOf result Trouble.Fault) }
    {
        let Some(at) = self.hosting.find(name) else {
            self.hosting.at_rest(dev);
            return Err(Trouble::NoMemory);
        };
        let before = &self.hosting.state(at).transactions;
        let waits = may_wait(records, transactions.as_slice(), before.as_slice());
        self.log(dev, name, records, transactions, !waits)
    }
}
