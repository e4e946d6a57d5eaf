//! What was restored and marked.

ghost use Rattle.std.specs.Prelude.{◌≡◌, ◌++◌, IfOk, OnOk, OnErr};
ghost use Rattle.std.specs.String.{string_bytes};
ghost use Rattle.bk_report.specs.Cells.{maybe_text};
ghost use Rattle.bk_report.specs.Histories.{mark_line, restore_line};
ghost use Rattle.bk_report.specs.Histories as spec;

use crate::cells::{NULL, flag, maybe_text, time};
use crate::sets::type_letter;
use bk_ids::Description;
use bk_world::{MarkRow, RestoreKind, RestoreRow};
use std::alloc::{AllocError, Global};

fn restore_letter(kind: RestoreKind) -> &'static str
    ensures { result.now ≡ spec.restore_letter kind }
{
    match kind {
        RestoreKind::Set(kind) => type_letter(kind),
        RestoreKind::Files => "F",
        RestoreKind::Pages => "P",
    }
}

fn restored_cells(alloc: Global, row: &RestoreRow) -> Result<String, AllocError>
    ensures { IfOk result (λ text. string_bytes text ≡ spec.restored_cells row.now) }
{
    let time = time(alloc, row.time)?;
    let database = row.database.as_str();
    let set = row.set.text(alloc)?;
    let kind = restore_letter(row.kind);
    format!(in alloc; "{time}\t{database}\t{set}\t{kind}")
}

fn asked_cells(alloc: Global, row: &RestoreRow) -> Result<String, AllocError>
    ensures { IfOk result (λ text. string_bytes text ≡ spec.asked_cells row.now) }
{
    let replace = flag(row.replace);
    let recovery = flag(row.recovery);
    let stop = maybe_text(&row.stop);
    format!(in alloc; "{replace}\t{recovery}\t{stop}")
}

/// Adds a row of restorehistory, by its number in the table from 1. Where memory is wanting, the text is as it was.
pub fn push_restore(
    alloc: Global,
    text: &mut String,
    id: u64,
    row: &RestoreRow,
) -> Result<(), AllocError>
    ensures ok { OnOk result (string_bytes text.new ≡ string_bytes text.old ++ restore_line id row.now) }
    ensures err { OnErr result (string_bytes text.new ≡ string_bytes text.old) }
{
    let restored = restored_cells(alloc, row)?;
    let asked = asked_cells(alloc, row)?;
    text.push_str(&format!(in alloc; "{id}\t{restored}\t{asked}\n")?)
}

fn description_text(description: &Option<Description>) -> &str
    ensures { result.now ≡ maybe_text description.now }
{
    match description {
        Some(description) => description.as_str(),
        None => NULL,
    }
}

/// Adds a row of logmarkhistory. Where memory is wanting, the text is as it was.
pub fn push_mark(alloc: Global, text: &mut String, row: &MarkRow) -> Result<(), AllocError>
    ensures ok { OnOk result (string_bytes text.new ≡ string_bytes text.old ++ mark_line row.now) }
    ensures err { OnErr result (string_bytes text.new ≡ string_bytes text.old) }
{
    let database = row.database.as_str();
    let mark = row.mark.name.as_str();
    let description = description_text(&row.mark.description);
    let lsn = row.lsn;
    let time = time(alloc, row.time)?;
    text.push_str(&format!(in alloc; "{database}\t{mark}\t{description}\t{lsn}\t{time}\n")?)
}
