//! What the current session sees: committed rows, with its own pending writes over them.

ghost use Rattle.std.specs.Prelude.{◌≡◌, ◌==◌, ◌&&◌, if◌then◌else◌, map, nat_le, IfOk, IfSome, OnOk, ◌<◌, length};
ghost use Rattle.std.specs.List.{position};
ghost use Rattle.std.specs.Option.{option_map};
ghost use Rattle.std.specs.BTreeMap.{insert_entry, is_at};
ghost use Rattle.std.specs.Map.{remove_entry};
ghost use Rattle.std.specs.Ordering.{nat_cmp};
ghost use Rattle.bk_machine.specs.Seen.{visible, has_key};
ghost use Rattle.bk_machine.specs.World.{World};
ghost use Rattle.bk_shown.specs.Shown.{pending_of};
ghost use Rattle.bk_world.specs.Pending.{changes_of, of_transaction};
ghost use Rattle.bk_world.specs.Rows.{rows_changed, with_row};
ghost use Rattle.bk_world.specs.Telling.{row_at};
ghost use Rattle.bk_kept.specs.Keeps.{Sees, ShowsLog, database_of};

use crate::opens::own_open;
use bk_ids::{Lsn, Value};
use bk_kept::{DatabaseView, InstanceView};
use bk_shown::Written;
use bk_world::TableSpec;
use std::alloc::{AllocError, Global};

/// The value of a row of a table as the current session sees it, if it sees one.
pub fn seen_row<'a>(
    kept: &InstanceView<'_>,
    database: &DatabaseView<'a>,
    table: &TableSpec,
    key: u64,
) -> Option<&'a Value>
    ensures { (w : World) → Sees w kept.now → ShowsLog w.history database.now
        → option_map (λ text. text.now) result ≡ row_at (visible w (database_of database.now) table.now) key }
{
    match own_open(kept, database) {
        Some(transaction) => database.shown.seen(transaction.begin, table.number, key),
        None => database.shown.value(table.number, key),
    }
}

/// Whether the current session sees a row of a table with this key.
pub fn sees_key(
    kept: &InstanceView<'_>,
    database: &DatabaseView<'_>,
    table: &TableSpec,
    key: u64,
) -> bool
    ensures { (w : World) → Sees w kept.now → ShowsLog w.history database.now → result ≡ has_key (visible w (database_of database.now) table.now) key }
{
    seen_row(kept, database, table, key).is_some()
}

// The place of the first row with this key or a greater one.
fn place_for(rows: &[(u64, Value)], key: u64) -> Option<usize>
    ensures place { result ≡ position (λ row. nat_le key row.0) rows.now }
    ensures within { IfSome result (λ at. at < length rows.now) }
{
    rows.iter().position(|row| row.0 >= key)
}

// The row of this key has this value from now on.
fn put_row(rows: &mut Vec<(u64, Value)>, key: u64, value: Value) -> Result<(), AllocError>
    ensures { OnOk result (rows.new.items ≡ insert_entry nat_cmp rows.old.items key value) }
{
    let Some(at) = place_for(rows, key) else {
        rows.push((key, value))?;
        return Ok(());
    };
    if rows[at].0 == key {
        rows[at] = (key, value);
    } else {
        rows.insert(at, (key, value))?;
    }
    Ok(())
}

// The place of the row with this key.
fn place_of(rows: &[(u64, Value)], key: u64) -> Option<usize>
    ensures place { result ≡ position (λ row. row.0 == key) rows.now }
    ensures within { IfSome result (λ at. at < length rows.now) }
{
    rows.iter().position(|row| row.0 == key)
}

// There is no row of this key any more.
fn leave_out(rows: &mut Vec<(u64, Value)>, key: u64)
    ensures { rows.new.items ≡ remove_entry (is_at (nat_cmp key)) rows.old.items }
{
    match place_of(rows, key) {
        Some(at) => {
            let _gone = rows.remove(at);
        }
        None => {}
    }
}

// A row gets a value, or is gone.
fn set_row(
    alloc: Global,
    rows: &mut Vec<(u64, Value)>,
    key: u64,
    value: &Option<Value>,
) -> Result<(), AllocError>
    ensures { OnOk result (rows.new.items ≡ with_row rows.old.items key value.now) }
{
    match value {
        Some(value) => put_row(rows, key, value.copy(alloc)?),
        None => {
            leave_out(rows, key);
            Ok(())
        }
    }
}

// Lays a write over the rows of a table, if it is one of this transaction there.
fn lay_one(
    alloc: Global,
    rows: &mut Vec<(u64, Value)>,
    write: &Written,
    begin: Lsn,
    table: u32,
) -> Result<(), AllocError>
    ensures { OnOk result (rows.new.items ≡ (if write.now.begin == begin && write.now.table == table then with_row rows.old.items write.now.key write.now.value else rows.old.items)) }
{
    if write.begin == begin && write.table == table {
        return set_row(alloc, rows, write.key, &write.value);
    }
    Ok(())
}

// Lays the pending writes that a transaction has in a table over its rows.
fn lay_over(
    alloc: Global,
    rows: &mut Vec<(u64, Value)>,
    written: &[Written],
    begin: Lsn,
    table: u32,
) -> Result<(), AllocError>
    ensures { OnOk result (rows.new.items ≡ rows_changed table rows.old.items (changes_of (of_transaction begin (map pending_of written.now)))) }
{
    for write in written {
        lay_one(alloc, rows, write, begin, table)?;
    }
    Ok(())
}

/// The rows of a table that the current session sees, their keys and values, by rising key.
pub fn seen_rows(
    alloc: Global,
    kept: &InstanceView<'_>,
    database: &DatabaseView<'_>,
    table: &TableSpec,
) -> Result<Vec<(u64, Value)>, AllocError>
    ensures { IfOk result (λ rows. (w : World) → Sees w kept.now → ShowsLog w.history database.now → rows.items ≡ visible w (database_of database.now) table.now) }
{
    let mut rows = database.shown.rows(alloc, table.number)?;
    let Some(transaction) = own_open(kept, database) else {
        return Ok(rows);
    };
    let written = database.shown.written();
    lay_over(alloc, &mut rows, written, transaction.begin, table.number)?;
    Ok(rows)
}
