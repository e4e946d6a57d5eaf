//! The statements on tables and transactions, and those on databases but CREATE DATABASE.

ghost use Rattle.std.specs.Prelude.{◌≡◌};
ghost use Rattle.bk_parse.specs.Parse.{Parses, name, text};
ghost use Rattle.bk_forms.specs.Statements as spec;

use crate::rows::table;
use bk_ids::{RecoveryModel, Text};
use bk_items::{Marking, NamedTransaction, ScriptItem};
use bk_parse::{Stop, behind, fixed, keyword, name, next_is, number_in, sign, stuck, text};
use bk_token::Token;
use std::alloc::Global;

#[tactic(auto, unfolding(crate::specs::Statements::not_null))]
fn not_null<'t>(src: &[u8], tokens: &'t [Token]) -> Result<&'t [Token], Stop>
    ensures { Parses (λ x. x.now) result (spec.not_null src.now tokens.now) }
{
    if next_is(src, tokens, b"NOT") {
        keyword(src, b"NULL", behind(tokens))
    } else {
        Ok(tokens)
    }
}

#[tactic(auto, unfolding(crate::specs::Statements::key_column))]
fn key_column<'t>(alloc: Global, src: &[u8], tokens: &'t [Token]) -> Result<&'t [Token], Stop>
    ensures { Parses (λ x. x.now) result (spec.key_column src.now tokens.now) }
{
    let rest = fixed(alloc, src, "k", tokens)?;
    let rest = keyword(src, b"BIGINT", rest)?;
    let rest = not_null(src, rest)?;
    let rest = keyword(src, b"PRIMARY", rest)?;
    keyword(src, b"KEY", rest)
}

#[tactic(auto, unfolding(crate::specs::Statements::value_column))]
fn value_column<'t>(alloc: Global, src: &[u8], tokens: &'t [Token]) -> Result<&'t [Token], Stop>
    ensures { Parses (λ x. x.now) result (spec.value_column src.now tokens.now) }
{
    let rest = fixed(alloc, src, "v", tokens)?;
    let rest = keyword(src, b"VARCHAR", rest)?;
    let rest = sign(b'(', rest)?;
    let (_, rest) = number_in(112, 112, rest)?;
    let rest = sign(b')', rest)?;
    not_null(src, rest)
}

#[tactic(auto, unfolding(crate::specs::Statements::columns))]
fn columns<'t>(alloc: Global, src: &[u8], tokens: &'t [Token]) -> Result<&'t [Token], Stop>
    ensures { Parses (λ x. x.now) result (spec.columns src.now tokens.now) }
{
    let rest = sign(b'(', tokens)?;
    let rest = key_column(alloc, src, rest)?;
    let rest = sign(b',', rest)?;
    let rest = value_column(alloc, src, rest)?;
    sign(b')', rest)
}

#[tactic(auto, unfolding(crate::specs::Statements::on_group))]
fn on_group<'t>(
    alloc: Global,
    src: &[u8],
    tokens: &'t [Token],
) -> Result<(Option<Text>, &'t [Token]), Stop>
    ensures { Parses (λ x. (x.0, x.1.now)) result (spec.on_group src.now tokens.now) }
{
    if next_is(src, tokens, b"ON") {
        let (group, rest) = name(alloc, src, behind(tokens))?;
        Ok((Some(group), rest))
    } else {
        Ok((None, tokens))
    }
}

/// `CREATE TABLE`, behind these words.
#[tactic(auto, unfolding(crate::specs::Statements::create_table))]
pub fn create_table<'t>(
    alloc: Global,
    src: &[u8],
    tokens: &'t [Token],
) -> Result<(ScriptItem, &'t [Token]), Stop>
    ensures { Parses (λ x. (x.0, x.1.now)) result (spec.create_table src.now tokens.now) }
{
    let (table, rest) = table(alloc, src, tokens)?;
    let rest = columns(alloc, src, rest)?;
    let (group, rest) = on_group(alloc, src, rest)?;
    Ok((ScriptItem::CreateTable { table, group }, rest))
}

fn next_tran(src: &[u8], tokens: &[Token]) -> bool
    ensures { result ≡ spec.next_tran src.now tokens.now }
{
    next_is(src, tokens, b"TRAN") || next_is(src, tokens, b"TRANSACTION")
}

fn described<'t>(
    alloc: Global,
    src: &[u8],
    tokens: &'t [Token],
) -> Result<(Marking, &'t [Token]), Stop>
    ensures { Parses (λ x. (x.0, x.1.now)) result (Ok (spec.described (text src.now tokens.now) tokens.now)) }
{
    match text(alloc, src, tokens) {
        Ok((text, rest)) => Ok((Marking::Described(text), rest)),
        Err(Stop::NoMemory) => Err(Stop::NoMemory),
        Err(Stop::At { .. }) => Ok((Marking::Marked, tokens)),
    }
}

#[tactic(auto, unfolding(crate::specs::Statements::marking))]
fn marking<'t>(
    alloc: Global,
    src: &[u8],
    tokens: &'t [Token],
) -> Result<(Marking, &'t [Token]), Stop>
    ensures { Parses (λ x. (x.0, x.1.now)) result (spec.marking src.now tokens.now) }
{
    if next_is(src, tokens, b"WITH") {
        let rest = keyword(src, b"MARK", behind(tokens))?;
        described(alloc, src, rest)
    } else {
        Ok((Marking::Unmarked, tokens))
    }
}

fn transaction<'t>(
    alloc: Global,
    src: &[u8],
    tokens: &'t [Token],
) -> Result<(ScriptItem, &'t [Token]), Stop>
    ensures { Parses (λ x. (x.0, x.1.now)) result (spec.transaction_by src.now (name src.now tokens.now) tokens.now) }
{
    match name(alloc, src, tokens) {
        Ok((name, rest)) => {
            let (marking, rest) = marking(alloc, src, rest)?;
            let transaction = Some(NamedTransaction { name, marking });
            Ok((ScriptItem::Begin { transaction }, rest))
        }
        Err(Stop::NoMemory) => Err(Stop::NoMemory),
        Err(Stop::At { .. }) => Ok((ScriptItem::Begin { transaction: None }, tokens)),
    }
}

/// `BEGIN TRAN`, behind BEGIN.
#[tactic(auto, unfolding(crate::specs::Statements::begin))]
pub fn begin<'t>(
    alloc: Global,
    src: &[u8],
    tokens: &'t [Token],
) -> Result<(ScriptItem, &'t [Token]), Stop>
    ensures { Parses (λ x. (x.0, x.1.now)) result (spec.begin src.now tokens.now) }
{
    if next_tran(src, tokens) {
        transaction(alloc, src, behind(tokens))
    } else {
        Err(stuck(tokens))
    }
}

/// The tokens behind TRAN or TRANSACTION, if it comes next; else all.
pub fn skip_tran<'t>(src: &[u8], tokens: &'t [Token]) -> &'t [Token]
    ensures { result.now ≡ spec.skip_tran src.now tokens.now }
{
    if next_tran(src, tokens) {
        behind(tokens)
    } else {
        tokens
    }
}

/// `USE`, behind it.
#[tactic(auto, unfolding(crate::specs::Statements::use_database))]
pub fn use_database<'t>(
    alloc: Global,
    src: &[u8],
    tokens: &'t [Token],
) -> Result<(ScriptItem, &'t [Token]), Stop>
    ensures { Parses (λ x. (x.0, x.1.now)) result (spec.use_database src.now tokens.now) }
{
    let (database, rest) = name(alloc, src, tokens)?;
    Ok((ScriptItem::Use { database }, rest))
}

fn model_by<'t>(src: &[u8], tokens: &'t [Token]) -> Result<(RecoveryModel, &'t [Token]), Stop>
    ensures { Parses (λ x. (x.0, x.1.now)) result (spec.model_by src.now tokens.now) }
{
    if next_is(src, tokens, b"FULL") {
        Ok((RecoveryModel::Full, behind(tokens)))
    } else if next_is(src, tokens, b"SIMPLE") {
        Ok((RecoveryModel::Simple, behind(tokens)))
    } else if next_is(src, tokens, b"BULK_LOGGED") {
        Ok((RecoveryModel::BulkLogged, behind(tokens)))
    } else {
        Err(stuck(tokens))
    }
}

/// `ALTER DATABASE`, behind ALTER.
#[tactic(auto, unfolding(crate::specs::Statements::alter))]
pub fn alter<'t>(
    alloc: Global,
    src: &[u8],
    tokens: &'t [Token],
) -> Result<(ScriptItem, &'t [Token]), Stop>
    ensures { Parses (λ x. (x.0, x.1.now)) result (spec.alter src.now tokens.now) }
{
    let rest = keyword(src, b"DATABASE", tokens)?;
    let (database, rest) = name(alloc, src, rest)?;
    let rest = keyword(src, b"SET", rest)?;
    let rest = keyword(src, b"RECOVERY", rest)?;
    let (model, rest) = model_by(src, rest)?;
    Ok((ScriptItem::SetRecovery { database, model }, rest))
}

/// `DROP DATABASE`, behind DROP.
#[tactic(auto, unfolding(crate::specs::Statements::drop_database))]
pub fn drop_database<'t>(
    alloc: Global,
    src: &[u8],
    tokens: &'t [Token],
) -> Result<(ScriptItem, &'t [Token]), Stop>
    ensures { Parses (λ x. (x.0, x.1.now)) result (spec.drop_database src.now tokens.now) }
{
    let rest = keyword(src, b"DATABASE", tokens)?;
    let (database, rest) = name(alloc, src, rest)?;
    Ok((ScriptItem::DropDatabase { database }, rest))
}
