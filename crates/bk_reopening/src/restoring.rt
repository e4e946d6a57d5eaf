// What a log shows in which nothing is pending, from its pages and what it says of tables, model and time.
ghost use Rattle.std.specs.Prelude.{◌≡◌, ◌<◌, ◌^◌, List, Option, length, IfOk, IsErrOf};
ghost use Rattle.std.specs.List.Sorted.{IsPermutation};
ghost use Rattle.bk_bytes.specs.Cell.{Row};
ghost use Rattle.bk_groups.specs.Groups.{AreFiles};
ghost use Rattle.bk_ids.specs.declared.record.Place.{Place as Places};
ghost use Rattle.bk_opening.specs.Opening.{AreIn};
ghost use Rattle.bk_reopening.specs.Cells.{AreAll, AreInPool, DontFall};
ghost use Rattle.bk_reopening.specs.Reopening.{IsQuiet};
ghost use Rattle.bk_shown.specs.Shown.{Shows};
ghost use Rattle.bk_world.specs.Records.{Logged};

use crate::cells::found_rows;
use crate::error::OpenError;
use bk_cells::rows_law;
use bk_paged::Paged;
use bk_record::Records;
use bk_shown::{Shown, placed_logs};
use bk_store::Recent;
use bk_world::{FileSpec, PlacedRow};
use std::alloc::Global;

// Brings rows in the order of their tables and keys.
fn sort_rows(rows: &mut Vec<PlacedRow>)
    ensures moves { IsPermutation rows.old.items rows.new.items }
    ensures sorted { DontFall rows.new.items }
{
    rows.sort_unstable_by_key(|row| (row.table, row.key));
}

// The rows in the cells of the data files, whose pages lie in frames, in the order of their tables and keys.
fn sorted_rows(alloc: Global, paged: &Paged) -> Result<Vec<PlacedRow>, OpenError>
    ensures sorted { IfOk result (λ rows. DontFall rows.items) }
    ensures all { IfOk result (λ rows. (cells : Places → Option Row) → AreInPool cells paged.now.pool → AreAll cells paged.now.facts.files rows.items) }
    ensures foreign { IsErrOf result OpenError.Foreign → (cells : Places → Option Row) → AreInPool cells paged.now.pool → AreIn paged.now.facts.files paged.now.pool → length paged.now.facts.files < 2 ^ 16 → ⊥ }
    ensures fault { IsErrOf result OpenError.Fault → ⊥ }
{
    let mut rows = found_rows(alloc, paged)?;
    sort_rows(&mut rows);
    Ok(rows)
}

// What a log in these files shows in which nothing is pending. `Foreign` is answered only where there is none.
pub fn shown_of(
    alloc: Global,
    paged: &Paged,
    files: &[FileSpec],
    recent: &Recent,
) -> Result<Shown, OpenError>
    requires { AreFiles files.now }
    ensures shows { IfOk result (λ shown. (rs : List Logged) → IsQuiet files.now rs paged.now recent.now → Shows files.now rs shown) }
    ensures foreign { IsErrOf result OpenError.Foreign → (rs : List Logged) → IsQuiet files.now rs paged.now recent.now → ⊥ }
    ensures fault { IsErrOf result OpenError.Fault → ⊥ }
{
    placed_logs();
    rows_law();
    let rows = sorted_rows(alloc, paged)?;
    let shown = Shown::restored(
        alloc,
        files,
        recent.tables.as_slice(),
        rows.as_slice(),
        &Records::none(alloc),
        recent.model,
        recent.time,
        paged.end(),
    )?;
    Ok(shown)
}
