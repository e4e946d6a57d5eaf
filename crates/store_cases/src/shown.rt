// What hosted databases show.
ghost use Rattle.bk_hosting.specs.Hosting.{IsReady};

use bk_hosting::{Hosting, State};
use bk_points::Points;
use bk_store::{Store, copy_tables};
use bk_world::TableSpec;
use std::alloc::{AllocError, Global};

/// The store of the database at this place, if there is one.
pub(crate) fn store_at(hosting: &Hosting, at: usize) -> Option<&Store>
    requires ready { IsReady hosting.now }
{
    if at < hosting.count() {
        hosting.store(at)
    } else {
        None
    }
}

// Adds the points of the log, and how many transactions are open.
fn add_state(state: &State, out: &mut String) -> Result<(), AllocError> {
    let Points {
        next_checkpoint,
        archive,
        kept,
        checkpoint,
        chain,
        began,
        ..
    } = &state.points;
    write!(
        out,
        " awaits {next_checkpoint} archive {archive} kept {kept}"
    )?;
    write!(out, " checkpoint {checkpoint} chain {chain} {began}")?;
    if let Some(base) = state.points.base {
        write!(out, " base {}@{}", base.set.low, base.lsn)?;
    }
    write!(out, " open {}", state.transactions.as_slice().len())
}

// Adds a table: its name, and its committed rows.
fn add_table(
    alloc: Global,
    store: &Store,
    table: &TableSpec,
    out: &mut String,
) -> Result<(), AllocError> {
    write!(out, " {}:", table.name.as_str())?;
    for (key, value) in &store.shown().rows(alloc, table.number)? {
        write!(out, " {key}={}", value.as_str())?;
    }
    Ok(())
}

// Adds how far the log reaches, and the last time; then the tables.
fn add_store(alloc: Global, store: &Store, out: &mut String) -> Result<(), AllocError> {
    let (kept, stored, end) = (store.kept(), store.stored(), store.end());
    write!(
        out,
        " log {kept} {stored} {end} time {}",
        store.shown().time()
    )?;
    let tables = copy_tables(alloc, store.shown().tables())?;
    for table in tables.as_slice() {
        add_table(alloc, store, table, out)?;
    }
    Ok(())
}

// Adds a line with the database at this place.
fn add_one(alloc: Global, hosting: &Hosting, at: usize, out: &mut String) -> Result<(), AllocError>
    requires ready { IsReady hosting.now }
{
    let Some(store) = store_at(hosting, at) else {
        return out.push_str("one that is being restored\n");
    };
    out.push_str(store.spec().name.as_str())?;
    if at < hosting.count() {
        add_state(hosting.state(at), out)?;
    }
    add_store(alloc, store, out)?;
    out.push('\n')
}

/// Each database, in their order.
pub(crate) fn told(alloc: Global, hosting: &Hosting) -> Result<String, AllocError>
    requires ready { IsReady hosting.now }
{
    let mut out = String::new(alloc);
    if hosting.count() == 0 {
        out.push_str("no database\n")?;
    }
    for at in 0..hosting.count() {
        add_one(alloc, hosting, at, &mut out)?;
    }
    Ok(out)
}
