// Items on tables, rows and transactions.
use crate::words::{add_count, add_name, add_pieces, add_text};
use bk_ids::Text;
use bk_items::{Marking, NamedTransaction, RowStatement, ScriptItem};
use std::alloc::AllocError;

fn add_begin(out: &mut String, transaction: &Option<NamedTransaction>) -> Result<(), AllocError> {
    out.push_str("begin")?;
    let Some(begun) = transaction else {
        return Ok(());
    };
    let name = begun.name.as_str();
    match &begun.marking {
        Marking::Unmarked => add_pieces(out, &[" ", name]),
        Marking::Marked => add_pieces(out, &[" ", name, " marked"]),
        Marking::Described(text) => add_pieces(out, &[" ", name, " marked '", text.as_str(), "'"]),
    }
}

fn add_transaction_item(out: &mut String, item: &ScriptItem) -> Result<(), AllocError> {
    match item {
        ScriptItem::Begin { transaction } => add_begin(out, transaction),
        ScriptItem::Commit => out.push_str("commit"),
        ScriptItem::Rollback => out.push_str("rollback"),
        ScriptItem::Checkpoint => out.push_str("checkpoint"),
        ScriptItem::SelectCatalog { catalog } => write!(out, "catalog {catalog:?}"),
        _ => out.push_str("?"),
    }
}

fn add_insert(out: &mut String, table: &str, key: u64, value: &Text) -> Result<(), AllocError> {
    add_pieces(out, &["insert ", table])?;
    add_count(out, key)?;
    add_text(out, "", value)
}

fn add_update(out: &mut String, table: &str, key: u64, value: &Text) -> Result<(), AllocError> {
    add_pieces(out, &["update ", table, " '", value.as_str(), "'"])?;
    add_count(out, key)
}

fn add_of_key(
    out: &mut String,
    word: &str,
    table: &str,
    key: Option<u64>,
) -> Result<(), AllocError> {
    add_pieces(out, &[word, table])?;
    match key {
        Some(key) => add_count(out, key),
        None => Ok(()),
    }
}

fn add_load(
    out: &mut String,
    table: &str,
    first: u64,
    count: u64,
    value: &Text,
) -> Result<(), AllocError> {
    add_pieces(out, &["bulk ", table])?;
    add_count(out, first)?;
    add_count(out, count)?;
    add_text(out, "", value)
}

fn add_statement(
    out: &mut String,
    table: &str,
    statement: &RowStatement,
) -> Result<(), AllocError> {
    match statement {
        RowStatement::Insert { key, value } => add_insert(out, table, *key, value),
        RowStatement::Update { key, value } => add_update(out, table, *key, value),
        RowStatement::Delete { key } => add_of_key(out, "delete ", table, Some(*key)),
        RowStatement::Select { key } => add_of_key(out, "select ", table, *key),
        RowStatement::BulkInsert {
            first,
            count,
            value,
        } => add_load(out, table, *first, *count, value),
    }
}

/// Adds what the item is: one on tables, rows or transactions.
pub fn add_row_item(out: &mut String, item: &ScriptItem) -> Result<(), AllocError> {
    match item {
        ScriptItem::CreateTable { table, group: None } => add_name(out, "table", table),
        ScriptItem::CreateTable {
            table,
            group: Some(group),
        } => add_pieces(out, &["table ", table.as_str(), " on ", group.as_str()]),
        ScriptItem::Rows { table, statement } => add_statement(out, table.as_str(), statement),
        _ => add_transaction_item(out, item),
    }
}
