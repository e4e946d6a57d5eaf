//! RESTORE.

ghost use Rattle.std.specs.Prelude.{◌≡◌};
ghost use Rattle.bk_parse.specs.Parse.{Parses};
ghost use Rattle.bk_media_forms.specs.Restore as spec;

use crate::media::{disk, query_medium, units};
use crate::pages::pages_of;
use crate::restore_options::with_options;
use bk_ids::{Sequence, Text};
use bk_items::{MediumQuery, RestoredUnits, ScriptItem};
use bk_parse::{Stop, behind, name, next_is, sign, stuck, text};
use bk_token::Token;
use std::alloc::Global;

#[tactic(auto, unfolding(crate::specs::Restore::page_list))]
fn page_list<'t>(
    alloc: Global,
    src: &[u8],
    tokens: &'t [Token],
) -> Result<(RestoredUnits, &'t [Token]), Stop>
    ensures { Parses (λ x. (x.0, x.1.now)) result (spec.page_list src.now tokens.now) }
{
    let equal = sign(b'=', tokens)?;
    let (text, rest) = text(alloc, src, equal)?;
    match pages_of(alloc, text.as_str().as_bytes())? {
        Some(pages) => {
            let pages = Sequence::new(pages);
            Ok((RestoredUnits::Pages { pages }, rest))
        }
        None => Err(stuck(equal)),
    }
}

#[tactic(auto, unfolding(crate::specs::Restore::restored_units))]
fn restored_units<'t>(
    alloc: Global,
    src: &[u8],
    tokens: &'t [Token],
) -> Result<(RestoredUnits, &'t [Token]), Stop>
    ensures { Parses (λ x. (x.0, x.1.now)) result (spec.restored_units src.now tokens.now) }
{
    if next_is(src, tokens, b"PAGE") {
        page_list(alloc, src, behind(tokens))
    } else {
        let (units, rest) = units(alloc, src, tokens)?;
        let units = Sequence::new(units);
        Ok((RestoredUnits::Named { units }, rest))
    }
}

fn lists_units(units: &RestoredUnits) -> bool
    ensures { result ≡ spec.lists_units units.now }
{
    match units {
        RestoredUnits::Named { units } => !units.as_slice().is_empty(),
        RestoredUnits::Pages { .. } => true,
    }
}

#[tactic(auto, unfolding(crate::specs::Restore::origin))]
fn origin<'t>(
    alloc: Global,
    src: &[u8],
    needed: bool,
    tokens: &'t [Token],
) -> Result<(Option<Text>, &'t [Token]), Stop>
    ensures { Parses (λ x. (x.0, x.1.now)) result (spec.origin src.now needed tokens.now) }
{
    if next_is(src, tokens, b"FROM") {
        let (disk, rest) = disk(alloc, src, behind(tokens))?;
        Ok((Some(disk), rest))
    } else if needed {
        Err(stuck(tokens))
    } else {
        Ok((None, tokens))
    }
}

#[tactic(auto, unfolding(crate::specs::Restore::restore_database))]
fn restore_database<'t>(
    alloc: Global,
    src: &[u8],
    tokens: &'t [Token],
) -> Result<(ScriptItem, &'t [Token]), Stop>
    ensures { Parses (λ x. (x.0, x.1.now)) result (spec.restore_database src.now tokens.now) }
{
    let (database, rest) = name(alloc, src, tokens)?;
    let (units, rest) = restored_units(alloc, src, rest)?;
    let (disk, rest) = origin(alloc, src, lists_units(&units), rest)?;
    let (options, rest) = with_options(alloc, src, disk.is_some(), rest)?;
    let item = ScriptItem::RestoreDatabase {
        database,
        units,
        disk,
        options,
    };
    Ok((item, rest))
}

#[tactic(auto, unfolding(crate::specs::Restore::restore_log))]
fn restore_log<'t>(
    alloc: Global,
    src: &[u8],
    tokens: &'t [Token],
) -> Result<(ScriptItem, &'t [Token]), Stop>
    ensures { Parses (λ x. (x.0, x.1.now)) result (spec.restore_log src.now tokens.now) }
{
    let (database, rest) = name(alloc, src, tokens)?;
    let (disk, rest) = origin(alloc, src, false, rest)?;
    let (options, rest) = with_options(alloc, src, disk.is_some(), rest)?;
    let item = ScriptItem::RestoreLog {
        database,
        disk,
        options,
    };
    Ok((item, rest))
}

/// `RESTORE`, behind it.
#[tactic(auto, unfolding(crate::specs::Restore::restore))]
pub fn restore<'t>(
    alloc: Global,
    src: &[u8],
    tokens: &'t [Token],
) -> Result<(ScriptItem, &'t [Token]), Stop>
    ensures { Parses (λ x. (x.0, x.1.now)) result (spec.restore src.now tokens.now) }
{
    if next_is(src, tokens, b"DATABASE") {
        restore_database(alloc, src, behind(tokens))
    } else if next_is(src, tokens, b"LOG") {
        restore_log(alloc, src, behind(tokens))
    } else if next_is(src, tokens, b"HEADERONLY") {
        query_medium(alloc, MediumQuery::Headers, src, behind(tokens))
    } else if next_is(src, tokens, b"FILELISTONLY") {
        query_medium(alloc, MediumQuery::FileList, src, behind(tokens))
    } else if next_is(src, tokens, b"VERIFYONLY") {
        query_medium(alloc, MediumQuery::Verify, src, behind(tokens))
    } else {
        Err(stuck(tokens))
    }
}
