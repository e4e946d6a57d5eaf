//! `CREATE DATABASE`: its check and its plan.

ghost use Rattle.std.specs.Prelude.{◌≡◌, ◌+◌, ◌||◌, min, true, false, is_some, length, nat_le, IfOk};
ghost use Rattle.bk_machine.specs.Fits.{FitsStorage};
ghost use Rattle.bk_acts.specs.declared.act.StoredAct.TheVariants.{Created};
ghost use Rattle.bk_items.specs.declared.item.ScriptItem.TheVariants as script;
ghost use Rattle.bk_machine.specs.Acts.{latest};
ghost use Rattle.bk_machine.specs.Checks as checks;
ghost use Rattle.bk_machine.specs.World.{World, database_named};
ghost use Rattle.bk_machine.specs.statements.CreateDatabase as create;
ghost use Rattle.bk_world.specs.declared.reply.Reply.TheVariants.{Done};
ghost use Rattle.bk_kept.specs.Keeps.{Sees};
ghost use Rattle.bk_new_plans.specs.Storing as storing;
ghost use Rattle.bk_plans.specs.Checking.{IsCheck};
ghost use Rattle.bk_plans.specs.Planned.{IsOne};
ghost use Rattle.bk_plans.specs.Planning.{KeepsPlan, Plans};

use crate::new_storage::{are_named, check_in_use, storage_within};
use bk_acts::StoredAct;
use bk_ids::{Guid, Sequence, Text};
use bk_items::{NewFile, NewGroup};
use bk_kept::{InstanceView, used_up};
use bk_machine::statements_do_what_they_may;
use bk_plans::{
    LATEST, MOST_DATABASES, Plan, Refusal, is_system, limit, name_in, outside, refuse_if, refused,
    stored,
};
use bk_world::{Creation, Limit, Reply, Rule, Storage};
use std::alloc::{AllocError, Global};

// Whether files, filegroups and a log may be used, and GUIDs are left.
#[tactic(auto, unfolding(bk_machine::specs::statements::CreateDatabase::check_free))]
fn check_free(kept: &InstanceView<'_>, alloc: Global, storage: &Storage) -> Result<(), Refusal>
    ensures check { (w : World) → Sees w kept.now → IsCheck (λ u. storage.now) result (create.check_free w storage.now) }
    ensures left { IfOk result (λ u. checks.used_up kept.now.counter ≡ false) }
{
    check_in_use(alloc, &kept.databases, storage)?;
    limit(used_up(kept.counter))
}

// These files, filegroups and log, where they may be used.
fn free_storage(
    kept: &InstanceView<'_>,
    alloc: Global,
    storage: Storage,
) -> Result<Storage, Refusal>
    ensures check { (w : World) → Sees w kept.now → IsCheck (λ s. s) result (create.check_free w storage) }
    ensures same { IfOk result (λ s. s ≡ storage) }
    ensures left { IfOk result (λ s. checks.used_up kept.now.counter ≡ false) }
{
    match check_free(kept, alloc, &storage) {
        Ok(()) => Ok(storage),
        Err(refusal) => {
            drop(storage);
            Err(refusal)
        }
    }
}

// Whether a name is a database's, or one that the server keeps for itself.
fn is_taken(kept: &InstanceView<'_>, name: &Text) -> bool
    ensures { (w : World) → Sees w kept.now → result ≡ (checks.is_system name.now || is_some (database_named w.databases name.now)) }
{
    is_system(name.as_str()) || kept.named(name.as_str()).is_some()
}

// Whether there are as many databases as there may be.
fn is_full(kept: &InstanceView<'_>) -> bool
    ensures { (w : World) → Sees w kept.now → result ≡ nat_le checks.most_databases (length w.databases) }
{
    kept.databases.len() >= MOST_DATABASES
}

// The files, filegroups and log that a new database of this name gets.
fn new_files_of(
    kept: &InstanceView<'_>,
    alloc: Global,
    name: &Text,
    primary: &[NewFile],
    groups: &[NewGroup],
    log: &Option<NewFile>,
) -> Result<Storage, Refusal>
    requires { create.are_named name.now primary.now groups.now log.now ≡ true }
    ensures check { (w : World) → Sees w kept.now → IsCheck (λ s. s) result (storing.check_storage w name.now primary.now groups.now log.now) }
    ensures left { IfOk result (λ s. checks.used_up kept.now.counter ≡ false) }
    ensures fits { IfOk result FitsStorage }
{
    refuse_if(is_taken(kept, name), Rule::DatabaseExists)?;
    refuse_if(
        is_full(kept),
        Rule::LimitReached {
            which: Limit::Databases,
        },
    )?;
    let storage = storage_within(alloc, name, primary, groups, log)?;
    free_storage(kept, alloc, storage)
}

// The files, filegroups and log that `CREATE DATABASE` on this line makes.
#[tactic(auto, unfolding(bk_machine::specs::statements::CreateDatabase::check_create_database))]
fn check_create_database(
    kept: &InstanceView<'_>,
    alloc: Global,
    line: u32,
    name: &Text,
    primary: &Sequence<NewFile>,
    groups: &Sequence<NewGroup>,
    log: &Option<NewFile>,
) -> Result<Storage, Refusal>
    ensures check { (w : World) → Sees w kept.now → IsCheck (λ s. s) result (create.check_create_database w line name.now primary.now groups.now log.now) }
    ensures named { IfOk result (λ s. checks.is_name name.now ≡ true) }
    ensures left { IfOk result (λ s. checks.used_up kept.now.counter ≡ false) }
    ensures fits { IfOk result FitsStorage }
{
    let (primary, groups) = (primary.as_slice(), groups.as_slice());
    refuse_if(
        !are_named(name.as_str(), primary, groups, log),
        Rule::NotBuilt { line },
    )?;
    outside(kept)?;
    new_files_of(kept, alloc, name, primary, groups, log)
}

// A database of these files is made on the two next GUIDs.
fn creation(
    kept: &InstanceView<'_>,
    alloc: Global,
    name: &Text,
    storage: Storage,
    now: u64,
) -> Result<Plan, AllocError>
    requires named { checks.is_name name.now ≡ true }
    requires left { checks.used_up kept.now.counter ≡ false }
    requires fits { FitsStorage storage }
    ensures one { IfOk result (IsOne (Created (record {
      name = name.now;
      family = record { high = kept.now.number; low = kept.now.counter };
      branch = record { high = kept.now.number; low = kept.now.counter + 1 };
      time = min now latest;
      storage = storage;
    })) Done) }
    ensures keeps { IfOk result KeepsPlan }
{
    match name_in(alloc, name) {
        Ok(name) => {
            let creation = Creation {
                name,
                family: Guid {
                    high: kept.number,
                    low: kept.counter,
                },
                branch: Guid {
                    high: kept.number,
                    low: kept.counter + 1,
                },
                time: now.min(LATEST),
                storage,
            };
            stored(alloc, StoredAct::Created { creation }, Reply::Done)
        }
        Err(error) => {
            drop(storage);
            Err(error)
        }
    }
}

/// What `CREATE DATABASE` on this line comes to at `now`, in milliseconds since 1970-01-01 00:00:00 UTC.
pub fn plan_create_database(
    kept: &InstanceView<'_>,
    alloc: Global,
    line: u32,
    name: &Text,
    primary: &Sequence<NewFile>,
    groups: &Sequence<NewGroup>,
    log: &Option<NewFile>,
    now: u64,
) -> Result<Plan, AllocError>
    ensures plans { IfOk result (Plans kept.now (λ w. Unit {0}) (record { item = script.CreateDatabase name.now primary.now groups.now log.now; line = line }) now) }
    ensures keeps { IfOk result KeepsPlan }
{
    statements_do_what_they_may();
    match check_create_database(kept, alloc, line, name, primary, groups, log) {
        Ok(storage) => creation(kept, alloc, name, storage, now),
        Err(refusal) => refused(refusal),
    }
}
