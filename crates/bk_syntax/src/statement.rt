//! A statement or a console line, by its first token.

ghost use Rattle.std.specs.Prelude.{◌≡◌};
ghost use Rattle.bk_parse.specs.Parse.{Parses};
ghost use Rattle.bk_syntax.specs.Statement as spec;

use bk_forms::{
    alter, begin, begins_row_statement, create_database, create_table, drop_database,
    row_statement, skip_tran, use_database,
};
use bk_items::ScriptItem;
use bk_media_forms::{backup, restore};
use bk_parse::{Stop, behind, next_is, number_in, stuck};
use bk_token::{Kind, Token};
use std::alloc::Global;

#[tactic(auto, unfolding(crate::specs::Statement::create))]
fn create<'t>(
    alloc: Global,
    src: &[u8],
    tokens: &'t [Token],
) -> Result<(ScriptItem, &'t [Token]), Stop>
    ensures { Parses (λ x. (x.0, x.1.now)) result (spec.create src.now tokens.now) }
{
    if next_is(src, tokens, b"DATABASE") {
        create_database(alloc, src, behind(tokens))
    } else if next_is(src, tokens, b"TABLE") {
        create_table(alloc, src, behind(tokens))
    } else {
        Err(stuck(tokens))
    }
}

#[tactic(auto, unfolding(crate::specs::Statement::database_statement))]
fn database_statement<'t>(
    alloc: Global,
    src: &[u8],
    tokens: &'t [Token],
) -> Result<(ScriptItem, &'t [Token]), Stop>
    ensures { Parses (λ x. (x.0, x.1.now)) result (spec.database_statement src.now tokens.now) }
{
    if next_is(src, tokens, b"CREATE") {
        create(alloc, src, behind(tokens))
    } else if next_is(src, tokens, b"ALTER") {
        alter(alloc, src, behind(tokens))
    } else if next_is(src, tokens, b"DROP") {
        drop_database(alloc, src, behind(tokens))
    } else if next_is(src, tokens, b"USE") {
        use_database(alloc, src, behind(tokens))
    } else if next_is(src, tokens, b"BACKUP") {
        backup(alloc, src, behind(tokens))
    } else if next_is(src, tokens, b"RESTORE") {
        restore(alloc, src, behind(tokens))
    } else {
        Err(stuck(tokens))
    }
}

#[tactic(auto, unfolding(crate::specs::Statement::transaction_statement))]
fn transaction_statement<'t>(
    alloc: Global,
    src: &[u8],
    tokens: &'t [Token],
) -> Result<(ScriptItem, &'t [Token]), Stop>
    ensures { Parses (λ x. (x.0, x.1.now)) result (spec.transaction_statement src.now tokens.now) }
{
    if next_is(src, tokens, b"BEGIN") {
        begin(alloc, src, behind(tokens))
    } else if next_is(src, tokens, b"COMMIT") {
        Ok((ScriptItem::Commit, skip_tran(src, behind(tokens))))
    } else if next_is(src, tokens, b"ROLLBACK") {
        Ok((ScriptItem::Rollback, skip_tran(src, behind(tokens))))
    } else if next_is(src, tokens, b"CHECKPOINT") {
        Ok((ScriptItem::Checkpoint, behind(tokens)))
    } else {
        database_statement(alloc, src, tokens)
    }
}

#[tactic(auto, unfolding(crate::specs::Statement::statement))]
fn statement_at<'t>(
    alloc: Global,
    src: &[u8],
    tokens: &'t [Token],
) -> Result<(ScriptItem, &'t [Token]), Stop>
    ensures { Parses (λ x. (x.0, x.1.now)) result (spec.statement src.now tokens.now) }
{
    if begins_row_statement(src, tokens) {
        row_statement(alloc, src, tokens)
    } else {
        transaction_statement(alloc, src, tokens)
    }
}

#[tactic(auto, unfolding(crate::specs::Statement::console_line))]
fn console_line<'t>(src: &[u8], tokens: &'t [Token]) -> Result<(ScriptItem, &'t [Token]), Stop>
    ensures { Parses (λ x. (x.0, x.1.now)) result (spec.console_line src.now tokens.now) }
{
    if next_is(src, tokens, b"SESSION") {
        let (number, rest) = number_in(1, 32, behind(tokens))?;
        Ok((ScriptItem::Session { number }, rest))
    } else if next_is(src, tokens, b"STEP") {
        let (count, rest) = number_in(1, u64::MAX, behind(tokens))?;
        Ok((ScriptItem::Step { count }, rest))
    } else if next_is(src, tokens, b"START") {
        Ok((ScriptItem::Start, behind(tokens)))
    } else if next_is(src, tokens, b"WAIT") {
        Ok((ScriptItem::Wait, behind(tokens)))
    } else {
        Err(stuck(tokens))
    }
}

/// The token is a colon that begins a line.
pub fn is_colon(token: &Token) -> bool
    ensures { result ≡ spec.is_colon token.now.kind }
{
    token.kind == Kind::Colon
}

/// The next token is the colon of a console line.
pub fn next_colon(tokens: &[Token]) -> bool
    ensures { result ≡ spec.next_colon tokens.now }
{
    match tokens {
        [token, ..] => is_colon(token),
        [] => false,
    }
}

/// Reads a statement or a console line.
#[tactic(auto, unfolding(crate::specs::Statement::line_or_statement))]
pub fn line_or_statement<'t>(
    alloc: Global,
    src: &[u8],
    tokens: &'t [Token],
) -> Result<(ScriptItem, &'t [Token]), Stop>
    ensures { Parses (λ x. (x.0, x.1.now)) result (spec.line_or_statement src.now tokens.now) }
{
    if next_colon(tokens) {
        console_line(src, behind(tokens))
    } else {
        statement_at(alloc, src, tokens)
    }
}
