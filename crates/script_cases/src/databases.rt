// Items on databases.
use crate::words::{add_count, add_name, add_pieces};
use bk_items::{NewFile, NewGroup, ScriptItem, Size};
use std::alloc::AllocError;

fn add_size(out: &mut String, size: &Size) -> Result<(), AllocError> {
    add_count(out, size.count)?;
    match size.unit {
        Some(unit) => write!(out, " {unit:?}"),
        None => Ok(()),
    }
}

fn add_file(out: &mut String, file: &NewFile) -> Result<(), AllocError> {
    add_pieces(out, &[" (", file.name.as_str(), " ", file.path.as_str()])?;
    if let Some(size) = &file.size {
        add_size(out, size)?;
    }
    out.push(')')
}

fn add_files(out: &mut String, files: &[NewFile]) -> Result<(), AllocError> {
    for file in files {
        add_file(out, file)?;
    }
    Ok(())
}

fn add_groups(out: &mut String, groups: &[NewGroup]) -> Result<(), AllocError> {
    for group in groups {
        add_name(out, " group", &group.name)?;
        add_files(out, group.files.as_slice())?;
    }
    Ok(())
}

fn add_log(out: &mut String, log: &Option<NewFile>) -> Result<(), AllocError> {
    match log {
        Some(file) => {
            out.push_str(" log")?;
            add_file(out, file)
        }
        None => Ok(()),
    }
}

/// Adds what the item is: one on databases.
pub fn add_database_item(out: &mut String, item: &ScriptItem) -> Result<(), AllocError> {
    match item {
        ScriptItem::CreateDatabase {
            database,
            primary,
            groups,
            log,
        } => {
            add_name(out, "create", database)?;
            add_files(out, primary.as_slice())?;
            add_groups(out, groups.as_slice())?;
            add_log(out, log)
        }
        ScriptItem::Use { database } => add_name(out, "use", database),
        ScriptItem::SetRecovery { database, model } => {
            add_name(out, "recovery", database)?;
            write!(out, " {model:?}")
        }
        ScriptItem::DropDatabase { database } => add_name(out, "drop", database),
        _ => out.push_str("?"),
    }
}
