//! The statements on the rows of a table.

ghost use Rattle.std.specs.Prelude.{◌≡◌};
ghost use Rattle.bk_parse.specs.Parse.{Parses};
ghost use Rattle.bk_forms.specs.Rows as spec;

use bk_ids::Text;
use bk_items::{Catalog, RowStatement, ScriptItem};
use bk_parse::{
    Stop, behind, fixed, keyword, name, next_is, next_sign, number, number_in, same_text, sign,
    skip, stuck, text,
};
use bk_token::Token;
use std::alloc::Global;

#[tactic(auto, unfolding(crate::specs::Rows::owned))]
fn owned<'t>(
    alloc: Global,
    src: &[u8],
    name: Text,
    tokens: &'t [Token],
) -> Result<(Text, &'t [Token]), Stop>
    ensures { Parses (λ x. (x.0, x.1.now)) result (spec.owned src.now name tokens.now) }
{
    if same_text(name.as_str(), "dbo") && next_sign(tokens, b'.') {
        bk_parse::name(alloc, src, behind(tokens))
    } else {
        Ok((name, tokens))
    }
}

/// The name of a table, with dbo and a point before it or without.
#[tactic(auto, unfolding(crate::specs::Rows::table))]
pub fn table<'t>(
    alloc: Global,
    src: &[u8],
    tokens: &'t [Token],
) -> Result<(Text, &'t [Token]), Stop>
    ensures { Parses (λ x. (x.0, x.1.now)) result (spec.table src.now tokens.now) }
{
    let (name, rest) = name(alloc, src, tokens)?;
    owned(alloc, src, name, rest)
}

#[tactic(auto, unfolding(crate::specs::Rows::column_names))]
fn column_names<'t>(alloc: Global, src: &[u8], tokens: &'t [Token]) -> Result<&'t [Token], Stop>
    ensures { Parses (λ x. x.now) result (spec.column_names src.now tokens.now) }
{
    if next_sign(tokens, b'(') {
        let rest = fixed(alloc, src, "k", behind(tokens))?;
        let rest = sign(b',', rest)?;
        let rest = fixed(alloc, src, "v", rest)?;
        sign(b')', rest)
    } else {
        Ok(tokens)
    }
}

#[tactic(auto, unfolding(crate::specs::Rows::row))]
fn row<'t>(
    alloc: Global,
    src: &[u8],
    tokens: &'t [Token],
) -> Result<((u64, Text), &'t [Token]), Stop>
    ensures { Parses (λ x. ((x.0.0, x.0.1), x.1.now)) result (spec.row src.now tokens.now) }
{
    let rest = sign(b'(', tokens)?;
    let (key, rest) = number(rest)?;
    let rest = sign(b',', rest)?;
    let (value, rest) = text(alloc, src, rest)?;
    let rest = sign(b')', rest)?;
    Ok(((key, value), rest))
}

// `INSERT`, behind it.
#[tactic(auto, unfolding(crate::specs::Rows::insert))]
fn insert<'t>(
    alloc: Global,
    src: &[u8],
    tokens: &'t [Token],
) -> Result<(ScriptItem, &'t [Token]), Stop>
    ensures { Parses (λ x. (x.0, x.1.now)) result (spec.insert src.now tokens.now) }
{
    let (table, rest) = table(alloc, src, skip(src, b"INTO", tokens))?;
    let rest = column_names(alloc, src, rest)?;
    let rest = keyword(src, b"VALUES", rest)?;
    let ((key, value), rest) = row(alloc, src, rest)?;
    let statement = RowStatement::Insert { key, value };
    Ok((ScriptItem::Rows { table, statement }, rest))
}

#[tactic(auto, unfolding(crate::specs::Rows::where_key))]
fn where_key<'t>(alloc: Global, src: &[u8], tokens: &'t [Token]) -> Result<(u64, &'t [Token]), Stop>
    ensures { Parses (λ x. (x.0, x.1.now)) result (spec.where_key src.now tokens.now) }
{
    let rest = keyword(src, b"WHERE", tokens)?;
    let rest = fixed(alloc, src, "k", rest)?;
    let rest = sign(b'=', rest)?;
    number(rest)
}

#[tactic(auto, unfolding(crate::specs::Rows::assignment))]
fn assignment<'t>(
    alloc: Global,
    src: &[u8],
    tokens: &'t [Token],
) -> Result<(Text, &'t [Token]), Stop>
    ensures { Parses (λ x. (x.0, x.1.now)) result (spec.assignment src.now tokens.now) }
{
    let rest = fixed(alloc, src, "v", tokens)?;
    let rest = sign(b'=', rest)?;
    text(alloc, src, rest)
}

// `UPDATE`, behind it.
#[tactic(auto, unfolding(crate::specs::Rows::update))]
fn update<'t>(
    alloc: Global,
    src: &[u8],
    tokens: &'t [Token],
) -> Result<(ScriptItem, &'t [Token]), Stop>
    ensures { Parses (λ x. (x.0, x.1.now)) result (spec.update src.now tokens.now) }
{
    let (table, rest) = table(alloc, src, tokens)?;
    let rest = keyword(src, b"SET", rest)?;
    let (value, rest) = assignment(alloc, src, rest)?;
    let (key, rest) = where_key(alloc, src, rest)?;
    let statement = RowStatement::Update { key, value };
    Ok((ScriptItem::Rows { table, statement }, rest))
}

// `DELETE`, behind it.
#[tactic(auto, unfolding(crate::specs::Rows::delete))]
fn delete<'t>(
    alloc: Global,
    src: &[u8],
    tokens: &'t [Token],
) -> Result<(ScriptItem, &'t [Token]), Stop>
    ensures { Parses (λ x. (x.0, x.1.now)) result (spec.delete src.now tokens.now) }
{
    let (table, rest) = table(alloc, src, skip(src, b"FROM", tokens))?;
    let (key, rest) = where_key(alloc, src, rest)?;
    let statement = RowStatement::Delete { key };
    Ok((ScriptItem::Rows { table, statement }, rest))
}

#[tactic(auto, unfolding(crate::specs::Rows::maybe_key))]
fn maybe_key<'t>(
    alloc: Global,
    src: &[u8],
    tokens: &'t [Token],
) -> Result<(Option<u64>, &'t [Token]), Stop>
    ensures { Parses (λ x. (x.0, x.1.now)) result (spec.maybe_key src.now tokens.now) }
{
    if next_is(src, tokens, b"WHERE") {
        let (key, rest) = where_key(alloc, src, tokens)?;
        Ok((Some(key), rest))
    } else {
        Ok((None, tokens))
    }
}

fn history_of(name: &str) -> Option<Catalog>
    ensures { result ≡ spec.history_of name.now }
{
    if same_text(name, "backupset") {
        Some(Catalog::BackupSet)
    } else if same_text(name, "restorehistory") {
        Some(Catalog::RestoreHistory)
    } else if same_text(name, "logmarkhistory") {
        Some(Catalog::LogMarkHistory)
    } else {
        None
    }
}

#[tactic(auto, unfolding(crate::specs::Rows::history))]
fn history<'t>(
    alloc: Global,
    src: &[u8],
    tokens: &'t [Token],
) -> Result<(ScriptItem, &'t [Token]), Stop>
    ensures { Parses (λ x. (x.0, x.1.now)) result (spec.history src.now tokens.now) }
{
    let rest = fixed(alloc, src, "dbo", tokens)?;
    let point = sign(b'.', rest)?;
    let (name, rest) = name(alloc, src, point)?;
    match history_of(name.as_str()) {
        Some(catalog) => Ok((ScriptItem::SelectCatalog { catalog }, rest)),
        None => Err(stuck(point)),
    }
}

#[tactic(auto, unfolding(crate::specs::Rows::select_rows))]
fn select_rows<'t>(
    alloc: Global,
    src: &[u8],
    name: Text,
    tokens: &'t [Token],
) -> Result<(ScriptItem, &'t [Token]), Stop>
    ensures { Parses (λ x. (x.0, x.1.now)) result (spec.select_rows src.now name tokens.now) }
{
    let (table, rest) = owned(alloc, src, name, tokens)?;
    let (key, rest) = maybe_key(alloc, src, rest)?;
    let statement = RowStatement::Select { key };
    Ok((ScriptItem::Rows { table, statement }, rest))
}

#[tactic(auto, unfolding(crate::specs::Rows::select_all))]
fn select_all<'t>(
    alloc: Global,
    src: &[u8],
    tokens: &'t [Token],
) -> Result<(ScriptItem, &'t [Token]), Stop>
    ensures { Parses (λ x. (x.0, x.1.now)) result (spec.select_all src.now tokens.now) }
{
    let rest = keyword(src, b"FROM", tokens)?;
    let (name, rest) = name(alloc, src, rest)?;
    if same_text(name.as_str(), "msdb") && next_sign(rest, b'.') {
        history(alloc, src, behind(rest))
    } else {
        select_rows(alloc, src, name, rest)
    }
}

#[tactic(auto, unfolding(crate::specs::Rows::system_view))]
fn system_view<'t>(alloc: Global, src: &[u8], tokens: &'t [Token]) -> Result<&'t [Token], Stop>
    ensures { Parses (λ x. x.now) result (spec.system_view src.now tokens.now) }
{
    let rest = fixed(alloc, src, "sys", tokens)?;
    let rest = sign(b'.', rest)?;
    fixed(alloc, src, "databases", rest)
}

#[tactic(auto, unfolding(crate::specs::Rows::select_databases))]
fn select_databases<'t>(
    alloc: Global,
    src: &[u8],
    tokens: &'t [Token],
) -> Result<(ScriptItem, &'t [Token]), Stop>
    ensures { Parses (λ x. (x.0, x.1.now)) result (spec.select_databases src.now tokens.now) }
{
    let rest = fixed(alloc, src, "name", tokens)?;
    let rest = sign(b',', rest)?;
    let rest = fixed(alloc, src, "state_desc", rest)?;
    let rest = keyword(src, b"FROM", rest)?;
    let rest = system_view(alloc, src, rest)?;
    let catalog = Catalog::Databases;
    Ok((ScriptItem::SelectCatalog { catalog }, rest))
}

// `SELECT`, behind it.
#[tactic(auto, unfolding(crate::specs::Rows::select))]
fn select<'t>(
    alloc: Global,
    src: &[u8],
    tokens: &'t [Token],
) -> Result<(ScriptItem, &'t [Token]), Stop>
    ensures { Parses (λ x. (x.0, x.1.now)) result (spec.select src.now tokens.now) }
{
    if next_sign(tokens, b'*') {
        select_all(alloc, src, behind(tokens))
    } else {
        select_databases(alloc, src, tokens)
    }
}

#[tactic(auto, unfolding(crate::specs::Rows::rows))]
fn rows<'t>(src: &[u8], tokens: &'t [Token]) -> Result<((u64, u64), &'t [Token]), Stop>
    ensures { Parses (λ x. ((x.0.0, x.0.1), x.1.now)) result (spec.rows src.now tokens.now) }
{
    let rest = keyword(src, b"ROWS", tokens)?;
    let (first, rest) = number(rest)?;
    let rest = sign(b',', rest)?;
    let (count, rest) = number_in(1, u64::MAX, rest)?;
    Ok(((first, count), rest))
}

// `BULK INSERT`, behind BULK.
#[tactic(auto, unfolding(crate::specs::Rows::bulk_insert))]
fn bulk_insert<'t>(
    alloc: Global,
    src: &[u8],
    tokens: &'t [Token],
) -> Result<(ScriptItem, &'t [Token]), Stop>
    ensures { Parses (λ x. (x.0, x.1.now)) result (spec.bulk_insert src.now tokens.now) }
{
    let rest = keyword(src, b"INSERT", tokens)?;
    let (table, rest) = table(alloc, src, rest)?;
    let ((first, count), rest) = rows(src, rest)?;
    let rest = sign(b',', rest)?;
    let (value, rest) = text(alloc, src, rest)?;
    let statement = RowStatement::BulkInsert {
        first,
        count,
        value,
    };
    Ok((ScriptItem::Rows { table, statement }, rest))
}

/// The next token begins a statement on rows.
pub fn begins_row_statement(src: &[u8], tokens: &[Token]) -> bool
    ensures { result ≡ spec.begins_row_statement src.now tokens.now }
{
    next_is(src, tokens, b"INSERT")
        || next_is(src, tokens, b"UPDATE")
        || next_is(src, tokens, b"DELETE")
        || next_is(src, tokens, b"SELECT")
        || next_is(src, tokens, b"BULK")
}

/// A statement on rows, by its first token.
#[tactic(auto, unfolding(crate::specs::Rows::row_statement))]
pub fn row_statement<'t>(
    alloc: Global,
    src: &[u8],
    tokens: &'t [Token],
) -> Result<(ScriptItem, &'t [Token]), Stop>
    ensures { Parses (λ x. (x.0, x.1.now)) result (spec.row_statement src.now tokens.now) }
{
    if next_is(src, tokens, b"INSERT") {
        insert(alloc, src, behind(tokens))
    } else if next_is(src, tokens, b"UPDATE") {
        update(alloc, src, behind(tokens))
    } else if next_is(src, tokens, b"DELETE") {
        delete(alloc, src, behind(tokens))
    } else if next_is(src, tokens, b"SELECT") {
        select(alloc, src, behind(tokens))
    } else if next_is(src, tokens, b"BULK") {
        bulk_insert(alloc, src, behind(tokens))
    } else {
        Err(stuck(tokens))
    }
}
