//! The statements on media.

ghost use Rattle.std.specs.Prelude.{◌≡◌};
ghost use Rattle.bk_parse.specs.Parse.{Parses};
ghost use Rattle.bk_media_forms.specs.Media as spec;

use crate::backup_options::with_options;
use bk_ids::{Sequence, Text};
use bk_items::{MediumQuery, ScriptItem, UnitName};
use bk_parse::{
    Stop, behind, equal_filled, equal_number, keyword, name, next_is, next_sign, push, stuck,
};
use bk_token::Token;
use std::alloc::Global;

/// `DISK = text`.
#[tactic(auto, unfolding(crate::specs::Media::disk))]
pub fn disk<'t>(alloc: Global, src: &[u8], tokens: &'t [Token]) -> Result<(Text, &'t [Token]), Stop>
    ensures { Parses (λ x. (x.0, x.1.now)) result (spec.disk src.now tokens.now) }
{
    let rest = keyword(src, b"DISK", tokens)?;
    equal_filled(alloc, src, rest)
}

#[tactic(auto, unfolding(crate::specs::Media::unit))]
fn unit<'t>(alloc: Global, src: &[u8], tokens: &'t [Token]) -> Result<(UnitName, &'t [Token]), Stop>
    ensures { Parses (λ x. (x.0, x.1.now)) result (spec.unit src.now tokens.now) }
{
    if next_is(src, tokens, b"FILE") {
        let (name, rest) = equal_filled(alloc, src, behind(tokens))?;
        Ok((UnitName::File(name), rest))
    } else if next_is(src, tokens, b"FILEGROUP") {
        let (name, rest) = equal_filled(alloc, src, behind(tokens))?;
        Ok((UnitName::Group(name), rest))
    } else {
        Err(stuck(tokens))
    }
}

// Units with commas between; each takes a token, so that the tokens bound their number.
#[tactic(auto, unfolding(crate::specs::Media::some_units, crate::specs::Media::units_from))]
fn some_units<'t>(
    alloc: Global,
    src: &[u8],
    tokens: &'t [Token],
) -> Result<(Vec<UnitName>, &'t [Token]), Stop>
    ensures { Parses (λ x. (x.0.items, x.1.now)) result (spec.some_units src.now tokens.now) }
{
    let mut found = Vec::new(alloc);
    let mut rest = tokens;
    let mut left = tokens;
    while let [_, more @ ..] = left {
        let (unit, after) = unit(alloc, src, rest)?;
        push(&mut found, unit)?;
        if !next_sign(after, b',') {
            return Ok((found, after));
        }
        rest = behind(after);
        left = more;
    }
    Err(stuck(rest))
}

/// Units with commas between, or none.
#[tactic(auto, unfolding(crate::specs::Media::units))]
pub fn units<'t>(
    alloc: Global,
    src: &[u8],
    tokens: &'t [Token],
) -> Result<(Vec<UnitName>, &'t [Token]), Stop>
    ensures { Parses (λ x. (x.0.items, x.1.now)) result (spec.units src.now tokens.now) }
{
    if next_is(src, tokens, b"FILE") || next_is(src, tokens, b"FILEGROUP") {
        some_units(alloc, src, tokens)
    } else {
        Ok((Vec::new(alloc), tokens))
    }
}

#[tactic(auto, unfolding(crate::specs::Media::backup_database))]
fn backup_database<'t>(
    alloc: Global,
    src: &[u8],
    tokens: &'t [Token],
) -> Result<(ScriptItem, &'t [Token]), Stop>
    ensures { Parses (λ x. (x.0, x.1.now)) result (spec.backup_database src.now tokens.now) }
{
    let (database, rest) = name(alloc, src, tokens)?;
    let (units, rest) = units(alloc, src, rest)?;
    let rest = keyword(src, b"TO", rest)?;
    let (disk, rest) = disk(alloc, src, rest)?;
    let (options, rest) = with_options(alloc, src, false, rest)?;
    let units = Sequence::new(units);
    let item = ScriptItem::BackupDatabase {
        database,
        units,
        disk,
        options,
    };
    Ok((item, rest))
}

#[tactic(auto, unfolding(crate::specs::Media::backup_log))]
fn backup_log<'t>(
    alloc: Global,
    src: &[u8],
    tokens: &'t [Token],
) -> Result<(ScriptItem, &'t [Token]), Stop>
    ensures { Parses (λ x. (x.0, x.1.now)) result (spec.backup_log src.now tokens.now) }
{
    let (database, rest) = name(alloc, src, tokens)?;
    let rest = keyword(src, b"TO", rest)?;
    let (disk, rest) = disk(alloc, src, rest)?;
    let (options, rest) = with_options(alloc, src, true, rest)?;
    let item = ScriptItem::BackupLog {
        database,
        disk,
        options,
    };
    Ok((item, rest))
}

/// `BACKUP`, behind it.
#[tactic(auto, unfolding(crate::specs::Media::backup))]
pub fn backup<'t>(
    alloc: Global,
    src: &[u8],
    tokens: &'t [Token],
) -> Result<(ScriptItem, &'t [Token]), Stop>
    ensures { Parses (λ x. (x.0, x.1.now)) result (spec.backup src.now tokens.now) }
{
    if next_is(src, tokens, b"DATABASE") {
        backup_database(alloc, src, behind(tokens))
    } else if next_is(src, tokens, b"LOG") {
        backup_log(alloc, src, behind(tokens))
    } else {
        Err(stuck(tokens))
    }
}

#[tactic(auto, unfolding(crate::specs::Media::with_file))]
fn with_file<'t>(src: &[u8], tokens: &'t [Token]) -> Result<(Option<u64>, &'t [Token]), Stop>
    ensures { Parses (λ x. (x.0, x.1.now)) result (spec.with_file src.now tokens.now) }
{
    if next_is(src, tokens, b"WITH") {
        let rest = keyword(src, b"FILE", behind(tokens))?;
        let (file, rest) = equal_number(rest)?;
        Ok((Some(file), rest))
    } else {
        Ok((None, tokens))
    }
}

/// RESTORE HEADERONLY, FILELISTONLY or VERIFYONLY, behind these words.
#[tactic(auto, unfolding(crate::specs::Media::query_medium))]
pub fn query_medium<'t>(
    alloc: Global,
    query: MediumQuery,
    src: &[u8],
    tokens: &'t [Token],
) -> Result<(ScriptItem, &'t [Token]), Stop>
    ensures { Parses (λ x. (x.0, x.1.now)) result (spec.query_medium query src.now tokens.now) }
{
    let rest = keyword(src, b"FROM", tokens)?;
    let (disk, rest) = disk(alloc, src, rest)?;
    let (file, rest) = with_file(src, rest)?;
    Ok((ScriptItem::QueryMedium { query, disk, file }, rest))
}
