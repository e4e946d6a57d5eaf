// Items on media.
use crate::options::{add_backup_options, add_restore_options};
use crate::words::{add_count, add_name, add_pieces};
use bk_ids::Text;
use bk_items::{MediumQuery, PageName, RestoredUnits, ScriptItem, UnitName};
use std::alloc::AllocError;

fn add_units(out: &mut String, units: &[UnitName]) -> Result<(), AllocError> {
    for unit in units {
        match unit {
            UnitName::File(name) => add_name(out, " file", name)?,
            UnitName::Group(name) => add_name(out, " group", name)?,
        }
    }
    Ok(())
}

fn add_pages(out: &mut String, pages: &[PageName]) -> Result<(), AllocError> {
    for name in pages {
        write!(out, " page {}:{}", name.file, name.page)?;
    }
    Ok(())
}

fn add_restored(out: &mut String, restored: &RestoredUnits) -> Result<(), AllocError> {
    match restored {
        RestoredUnits::Named { units } => add_units(out, units.as_slice()),
        RestoredUnits::Pages { pages } => add_pages(out, pages.as_slice()),
    }
}

fn add_origin(out: &mut String, disk: &Option<Text>) -> Result<(), AllocError> {
    match disk {
        Some(disk) => add_name(out, " from", disk),
        None => Ok(()),
    }
}

fn add_query(
    out: &mut String,
    query: MediumQuery,
    disk: &Text,
    file: Option<u64>,
) -> Result<(), AllocError> {
    write!(out, "{query:?}")?;
    add_name(out, "", disk)?;
    match file {
        Some(file) => add_count(out, file),
        None => Ok(()),
    }
}

fn add_restore_item(out: &mut String, item: &ScriptItem) -> Result<(), AllocError> {
    match item {
        ScriptItem::RestoreDatabase {
            database,
            units,
            disk,
            options,
        } => {
            add_name(out, "restore", database)?;
            add_restored(out, units)?;
            add_origin(out, disk)?;
            add_restore_options(out, options)
        }
        ScriptItem::RestoreLog {
            database,
            disk,
            options,
        } => {
            add_name(out, "restore log", database)?;
            add_origin(out, disk)?;
            add_restore_options(out, options)
        }
        ScriptItem::QueryMedium { query, disk, file } => add_query(out, *query, disk, *file),
        _ => out.push_str("?"),
    }
}

/// Adds what the item is: one on media.
pub fn add_media_item(out: &mut String, item: &ScriptItem) -> Result<(), AllocError> {
    match item {
        ScriptItem::BackupDatabase {
            database,
            units,
            disk,
            options,
        } => {
            add_name(out, "backup", database)?;
            add_units(out, units.as_slice())?;
            add_name(out, " to", disk)?;
            add_backup_options(out, options)
        }
        ScriptItem::BackupLog {
            database,
            disk,
            options,
        } => {
            add_pieces(
                out,
                &["backup log ", database.as_str(), " to ", disk.as_str()],
            )?;
            add_backup_options(out, options)
        }
        _ => add_restore_item(out, item),
    }
}
