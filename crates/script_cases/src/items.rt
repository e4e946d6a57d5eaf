// Items as lines.
use crate::databases::add_database_item;
use crate::media::add_media_item;
use crate::rows::add_row_item;
use crate::words::add_counted;
use bk_items::{ScriptEntry, ScriptItem};
use bk_syntax::items;
use std::alloc::{AllocError, Global};

fn add_item(out: &mut String, item: &ScriptItem) -> Result<(), AllocError> {
    match item {
        ScriptItem::Session { number } => add_counted(out, "session", *number),
        ScriptItem::Start => out.push_str("start"),
        ScriptItem::Step { count } => add_counted(out, "step", *count),
        ScriptItem::Wait => out.push_str("wait"),
        ScriptItem::Syntax { line } => add_counted(out, "syntax", u64::from(*line)),
        ScriptItem::TooLong => out.push_str("too long"),
        ScriptItem::BackupDatabase { .. }
        | ScriptItem::BackupLog { .. }
        | ScriptItem::RestoreDatabase { .. }
        | ScriptItem::RestoreLog { .. }
        | ScriptItem::QueryMedium { .. } => add_media_item(out, item),
        ScriptItem::CreateDatabase { .. }
        | ScriptItem::Use { .. }
        | ScriptItem::SetRecovery { .. }
        | ScriptItem::DropDatabase { .. } => add_database_item(out, item),
        _ => add_row_item(out, item),
    }
}

/// A line for one item: its line in the script, and what it is.
pub fn add_entry(out: &mut String, entry: &ScriptEntry) -> Result<(), AllocError> {
    write!(out, "{} ", entry.line)?;
    add_item(out, &entry.item)?;
    out.push('\n')
}

fn add_entries(out: &mut String, entries: &[ScriptEntry]) -> Result<(), AllocError> {
    for entry in entries {
        add_entry(out, entry)?;
    }
    Ok(())
}

/// A line for each item: its line in the script, and what it is.
pub fn add_items(alloc: Global, src: &[u8], out: &mut String) -> Result<(), AllocError> {
    let entries = items(alloc, src)?;
    add_entries(out, &entries)
}
