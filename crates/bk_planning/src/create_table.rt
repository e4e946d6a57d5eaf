//! `CREATE TABLE`: its check and its plan.

ghost use Rattle.std.specs.Prelude.{◌≡◌, ◌+◌, nat_le, take, length, true, false, IfOk};
ghost use Rattle.std.specs.List.{position};
ghost use Rattle.bk_ids.specs.Name.{same_name};
ghost use Rattle.bk_acts.specs.Conditions.{KeepsAct};
ghost use Rattle.bk_items.specs.declared.item.ScriptItem.TheVariants as script;
ghost use Rattle.bk_kept.specs.Keeps.{Sees, ShowsLog, database_of};
ghost use Rattle.bk_machine.specs.Checks as checks;
ghost use Rattle.bk_machine.specs.Seen.{tables_in};
ghost use Rattle.bk_machine.specs.World.{World, current_database};
ghost use Rattle.bk_machine.specs.statements.CreateTable as create;
ghost use Rattle.bk_plans.specs.Checking.{IsCheck};
ghost use Rattle.bk_planning.specs.NewTables as tables;
ghost use Rattle.bk_plans.specs.Planned.{SaysNow, SaysThen, StoresOne};
ghost use Rattle.bk_plans.specs.Planning.{KeepsPlan, Plans};
ghost use Rattle.bk_world.specs.Records.{table_made};
ghost use Rattle.bk_world.specs.Says.{alone};
ghost use Rattle.bk_world.specs.declared.reply.Reply.TheVariants.{Done};
ghost use Rattle.bk_world.specs.declared.rule.Limit.TheVariants.{Tables};
ghost use Rattle.bk_world.specs.declared.rule.Rule.TheVariants.{LimitReached};

use bk_acts::StoredAct;
use bk_ids::{Body, Name, Text};
use bk_kept::{DatabaseView, InstanceView, copy_transactions, used_up};
use bk_machine::statements_do_what_they_may;
use bk_plans::{
    MOST_GROUPS, Plan, Refusal, current_or_refuse, is_name, limit, logged, name_in, online,
    outside, refuse_if, refused, said_time, say_one, stored,
};
use bk_world::{Limit, Reply, Rule};
use std::alloc::{AllocError, Global};

// How many tables a database has at most.
const MOST_TABLES: usize = 64;

// The position of the first filegroup of a name, in any case of ASCII letters.
fn position_of(groups: &[Name], name: &str) -> Option<usize>
    ensures { result ≡ position (λ group. same_name group name.now) groups.now }
{
    groups
        .iter()
        .position(|group| group.as_str().eq_ignore_ascii_case(name))
}

// The number of the first filegroup of a name among the first eight.
fn group_named(groups: &[Name], name: &str) -> Option<u8>
    ensures { result ≡ create.group_named (take 8 groups.now) name.now }
{
    let at = position_of(groups, name)?;
    if at < MOST_GROUPS {
        Some(at as u8)
    } else {
        None
    }
}

// The number of the filegroup in which a table is made: of the one that is named, or of PRIMARY.
fn check_group(database: &DatabaseView<'_>, group: &Option<Text>) -> Result<u8, Refusal>
    ensures { IsCheck (λ number. number) result (create.check_group (database_of database.now) group.now) }
{
    match group {
        None => Ok(0),
        Some(name) => match group_named(database.groups.as_slice(), name.as_str()) {
            Some(number) => Ok(number),
            None => Err(Refusal::Broken(Rule::NoSuchGroup)),
        },
    }
}

// The number of a further table of a database, refused where it has 64.
fn check_number(database: &DatabaseView<'_>) -> Result<u32, Refusal>
    ensures check { (w : World) → ShowsLog w.history database.now
        → IsCheck (λ number. tt) result (checks.refuse_if (nat_le create.most_tables (length (tables_in w (database_of database.now)))) (LimitReached Tables)) }
    ensures number { (w : World) → ShowsLog w.history database.now → IfOk result (λ number. number ≡ length (tables_in w (database_of database.now)) + 1) }
{
    let made = database.tables().len();
    refuse_if(
        made >= MOST_TABLES,
        Rule::LimitReached {
            which: Limit::Tables,
        },
    )?;
    Ok(made as u32 + 1)
}

// Where a table is made: in a database, with a number, in a filegroup.
#[derive(Clone, Copy)]
struct Room<'a> {
    database: &'a DatabaseView<'a>,
    number: u32,
    group: u8,
}

// Where a table is made in a database.
fn check_room<'a>(
    database: &'a DatabaseView<'a>,
    table: &Text,
    group: &Option<Text>,
) -> Result<Room<'a>, Refusal>
    ensures check { (w : World) → ShowsLog w.history database.now
        → IsCheck (λ r. record { database = database_of r.database.now; group = r.group }) result (tables.check_room w (database_of database.now) table.now group.now) }
    ensures same { IfOk result (λ r. r.database.now ≡ database.now) }
    ensures left { IfOk result (λ r. checks.used_up r.database.now.shown.«end» ≡ false) }
    ensures number { (w : World) → ShowsLog w.history database.now → IfOk result (λ r. r.number ≡ length (tables_in w (database_of r.database.now)) + 1) }
{
    let there = database.table_named(table.as_str()).is_some();
    refuse_if(there, Rule::TableExists)?;
    let group = check_group(database, group)?;
    let number = check_number(database)?;
    limit(used_up(database.shown.end()))?;
    Ok(Room {
        database,
        number,
        group,
    })
}

// Where `CREATE TABLE` on this line makes a table.
#[tactic(auto, unfolding(bk_machine::specs::statements::CreateTable::check_create_table))]
fn check_create_table<'a>(
    kept: &'a InstanceView<'a>,
    line: u32,
    table: &Text,
    group: &Option<Text>,
) -> Result<Room<'a>, Refusal>
    ensures check { (w : World) → Sees w kept.now
        → IsCheck (λ r. record { database = database_of r.database.now; group = r.group }) result (create.check_create_table w line table.now group.now) }
    ensures named { IfOk result (λ r. checks.is_name table.now ≡ true) }
    ensures left { IfOk result (λ r. checks.used_up r.database.now.shown.«end» ≡ false) }
    ensures shows { (w : World) → Sees w kept.now → IfOk result (λ r. ShowsLog w.history r.database.now) }
    ensures number { (w : World) → Sees w kept.now → IfOk result (λ r. r.number ≡ length (tables_in w (database_of r.database.now)) + 1) }
{
    refuse_if(!is_name(table.as_str()), Rule::NotBuilt { line })?;
    outside(kept)?;
    let database = online(current_or_refuse(kept)?)?;
    let room = check_room(database, table, group)?;
    Ok(room)
}

// The act by which a table is made at a time.
fn table_act(
    alloc: Global,
    database: &DatabaseView<'_>,
    number: u32,
    group: u8,
    table: &Text,
    time: u64,
) -> Result<StoredAct, AllocError>
    requires { checks.is_name table.now ≡ true }
    ensures says { IfOk result (SaysNow database.now (alone (table_made time (record { number = number; name = table.now; group = group }))) database.now.transactions) }
    ensures keeps { IfOk result KeepsAct }
{
    let body = Body::Table {
        time,
        number,
        name: name_in(alloc, table)?,
        group,
    };
    let records = say_one(alloc, database.shown.end(), 0, body)?;
    match copy_transactions(alloc, database.transactions.as_slice()) {
        Ok(transactions) => logged(alloc, database, transactions, records),
        Err(error) => {
            drop(records);
            Err(error)
        }
    }
}

// A table is made.
fn table_plan(
    alloc: Global,
    database: &DatabaseView<'_>,
    number: u32,
    group: u8,
    table: &Text,
    now: u64,
) -> Result<Plan, AllocError>
    requires { checks.is_name table.now ≡ true }
    ensures says { IfOk result (StoresOne (SaysThen database.now now (λ time. alone (table_made time (record { number = number; name = table.now; group = group }))) database.now.transactions) Done) }
    ensures keeps { IfOk result KeepsPlan }
{
    let time = said_time(database, now);
    let act = table_act(alloc, database, number, group, table, time)?;
    stored(alloc, act, Reply::Done)
}

// What `CREATE TABLE` on this line comes to.
pub(crate) fn plan_create_table(
    kept: &InstanceView<'_>,
    alloc: Global,
    line: u32,
    table: &Text,
    group: &Option<Text>,
    now: u64,
) -> Result<Plan, AllocError>
    ensures plans { IfOk result (Plans kept.now (λ w. Unit {0}) (record { item = script.CreateTable table.now group.now; line = line }) now) }
    ensures keeps { IfOk result KeepsPlan }
{
    statements_do_what_they_may();
    match check_create_table(kept, line, table, group) {
        Ok(room) => table_plan(alloc, room.database, room.number, room.group, table, now),
        Err(refusal) => refused(refusal),
    }
}
