//! CREATE DATABASE.

ghost use Rattle.std.specs.Prelude.{◌≡◌};
ghost use Rattle.bk_parse.specs.Parse.{Parses};
ghost use Rattle.bk_forms.specs.Creating as spec;

use bk_ids::{Sequence, Text};
use bk_items::{NewFile, NewGroup, ScriptItem, Size, SizeUnit};
use bk_parse::{
    Stop, behind, equal_filled, equal_number, filled_text, keyword, name, next_is, next_sign, push,
    sign, skip, stuck,
};
use bk_token::Token;
use std::alloc::Global;

#[tactic(auto, unfolding(crate::specs::Creating::name_or_text))]
fn name_or_text<'t>(
    alloc: Global,
    src: &[u8],
    tokens: &'t [Token],
) -> Result<(Text, &'t [Token]), Stop>
    ensures { Parses (λ x. (x.0, x.1.now)) result (spec.name_or_text src.now tokens.now) }
{
    match name(alloc, src, tokens) {
        Ok(read) => Ok(read),
        Err(Stop::NoMemory) => Err(Stop::NoMemory),
        Err(Stop::At { .. }) => filled_text(alloc, src, tokens),
    }
}

#[tactic(auto, unfolding(crate::specs::Creating::unit_word))]
fn unit_word(src: &[u8], tokens: &[Token]) -> Option<SizeUnit>
    ensures { result ≡ spec.unit_word src.now tokens.now }
{
    if next_is(src, tokens, b"KB") {
        Some(SizeUnit::Kb)
    } else if next_is(src, tokens, b"MB") {
        Some(SizeUnit::Mb)
    } else if next_is(src, tokens, b"GB") {
        Some(SizeUnit::Gb)
    } else if next_is(src, tokens, b"EXTENTS") {
        Some(SizeUnit::Extents)
    } else {
        None
    }
}

#[tactic(auto, unfolding(crate::specs::Creating::size))]
fn size<'t>(src: &[u8], tokens: &'t [Token]) -> Result<(Size, &'t [Token]), Stop>
    ensures { Parses (λ x. (x.0, x.1.now)) result (spec.size src.now tokens.now) }
{
    let (count, rest) = equal_number(tokens)?;
    match unit_word(src, rest) {
        Some(unit) => Ok((
            Size {
                count,
                unit: Some(unit),
            },
            behind(rest),
        )),
        None => Ok((Size { count, unit: None }, rest)),
    }
}

fn next_unit(src: &[u8], tokens: &[Token]) -> bool
    ensures { result ≡ spec.next_unit src.now tokens.now }
{
    next_is(src, tokens, b"KB")
        || next_is(src, tokens, b"MB")
        || next_is(src, tokens, b"GB")
        || next_is(src, tokens, b"EXTENTS")
        || next_is(src, tokens, b"TB")
}

fn skip_unit<'t>(src: &[u8], tokens: &'t [Token]) -> &'t [Token]
    ensures { result.now ≡ spec.skip_unit src.now tokens.now }
{
    if next_unit(src, tokens) {
        behind(tokens)
    } else {
        tokens
    }
}

#[tactic(auto, unfolding(crate::specs::Creating::maximum))]
fn maximum<'t>(src: &[u8], tokens: &'t [Token]) -> Result<&'t [Token], Stop>
    ensures { Parses (λ x. x.now) result (spec.maximum src.now tokens.now) }
{
    if next_sign(tokens, b'=') && next_is(src, behind(tokens), b"UNLIMITED") {
        return Ok(behind(behind(tokens)));
    }
    let (_, rest) = equal_number(tokens)?;
    Ok(skip_unit(src, rest))
}

#[tactic(auto, unfolding(crate::specs::Creating::growth))]
fn growth<'t>(src: &[u8], tokens: &'t [Token]) -> Result<&'t [Token], Stop>
    ensures { Parses (λ x. x.now) result (spec.growth src.now tokens.now) }
{
    let rest = keyword(src, b"FILEGROWTH", tokens)?;
    let (_, rest) = equal_number(rest)?;
    if next_sign(rest, b'%') {
        Ok(behind(rest))
    } else {
        Ok(skip_unit(src, rest))
    }
}

#[tactic(auto, unfolding(crate::specs::Creating::more_growth))]
fn more_growth<'t>(src: &[u8], tokens: &'t [Token]) -> Result<&'t [Token], Stop>
    ensures { Parses (λ x. x.now) result (spec.more_growth src.now tokens.now) }
{
    if next_sign(tokens, b',') {
        growth(src, behind(tokens))
    } else {
        Ok(tokens)
    }
}

#[tactic(auto, unfolding(crate::specs::Creating::maximum_or_growth))]
fn maximum_or_growth<'t>(src: &[u8], tokens: &'t [Token]) -> Result<&'t [Token], Stop>
    ensures { Parses (λ x. x.now) result (spec.maximum_or_growth src.now tokens.now) }
{
    if next_is(src, tokens, b"MAXSIZE") {
        let rest = maximum(src, behind(tokens))?;
        more_growth(src, rest)
    } else {
        growth(src, tokens)
    }
}

#[tactic(auto, unfolding(crate::specs::Creating::more_limits))]
fn more_limits<'t>(src: &[u8], tokens: &'t [Token]) -> Result<&'t [Token], Stop>
    ensures { Parses (λ x. x.now) result (spec.more_limits src.now tokens.now) }
{
    if next_sign(tokens, b',') {
        maximum_or_growth(src, behind(tokens))
    } else {
        Ok(tokens)
    }
}

#[tactic(auto, unfolding(crate::specs::Creating::settings))]
fn settings<'t>(src: &[u8], tokens: &'t [Token]) -> Result<(Option<Size>, &'t [Token]), Stop>
    ensures { Parses (λ x. (x.0, x.1.now)) result (spec.settings src.now tokens.now) }
{
    if next_is(src, tokens, b"SIZE") {
        let (size, rest) = size(src, behind(tokens))?;
        let rest = more_limits(src, rest)?;
        Ok((Some(size), rest))
    } else {
        let rest = maximum_or_growth(src, tokens)?;
        Ok((None, rest))
    }
}

#[tactic(auto, unfolding(crate::specs::Creating::more_settings))]
fn more_settings<'t>(src: &[u8], tokens: &'t [Token]) -> Result<(Option<Size>, &'t [Token]), Stop>
    ensures { Parses (λ x. (x.0, x.1.now)) result (spec.more_settings src.now tokens.now) }
{
    if next_sign(tokens, b',') {
        settings(src, behind(tokens))
    } else {
        Ok((None, tokens))
    }
}

#[tactic(auto, unfolding(crate::specs::Creating::file_name))]
fn file_name<'t>(
    alloc: Global,
    src: &[u8],
    tokens: &'t [Token],
) -> Result<(Text, &'t [Token]), Stop>
    ensures { Parses (λ x. (x.0, x.1.now)) result (spec.file_name src.now tokens.now) }
{
    let rest = sign(b'(', tokens)?;
    let rest = keyword(src, b"NAME", rest)?;
    let rest = sign(b'=', rest)?;
    name_or_text(alloc, src, rest)
}

#[tactic(auto, unfolding(crate::specs::Creating::file))]
fn file<'t>(alloc: Global, src: &[u8], tokens: &'t [Token]) -> Result<(NewFile, &'t [Token]), Stop>
    ensures { Parses (λ x. (x.0, x.1.now)) result (spec.file src.now tokens.now) }
{
    let (name, rest) = file_name(alloc, src, tokens)?;
    let rest = sign(b',', rest)?;
    let rest = keyword(src, b"FILENAME", rest)?;
    let (path, rest) = equal_filled(alloc, src, rest)?;
    let (size, rest) = more_settings(src, rest)?;
    let rest = sign(b')', rest)?;
    Ok((NewFile { name, path, size }, rest))
}

fn next_group(src: &[u8], tokens: &[Token]) -> bool
    ensures { result ≡ spec.next_group src.now tokens.now }
{
    next_sign(tokens, b',') && next_is(src, behind(tokens), b"FILEGROUP")
}

fn next_file(src: &[u8], tokens: &[Token]) -> bool
    ensures { result ≡ spec.next_file src.now tokens.now }
{
    next_sign(tokens, b',') && !next_is(src, behind(tokens), b"FILEGROUP")
}

// Files with commas between; each takes a token, so that the tokens bound their number.
#[tactic(auto, unfolding(crate::specs::Creating::files, crate::specs::Creating::files_from))]
fn files<'t>(
    alloc: Global,
    src: &[u8],
    tokens: &'t [Token],
) -> Result<(Vec<NewFile>, &'t [Token]), Stop>
    ensures { Parses (λ x. (x.0.items, x.1.now)) result (spec.files src.now tokens.now) }
{
    let mut found = Vec::new(alloc);
    let mut rest = tokens;
    let mut left = tokens;
    while let [_, more @ ..] = left {
        let (file, after) = file(alloc, src, rest)?;
        push(&mut found, file)?;
        if !next_file(src, after) {
            return Ok((found, after));
        }
        rest = behind(after);
        left = more;
    }
    Err(stuck(rest))
}

#[tactic(auto, unfolding(crate::specs::Creating::group))]
fn group<'t>(
    alloc: Global,
    src: &[u8],
    tokens: &'t [Token],
) -> Result<(NewGroup, &'t [Token]), Stop>
    ensures { Parses (λ x. (x.0, x.1.now)) result (spec.group src.now tokens.now) }
{
    let rest = keyword(src, b"FILEGROUP", tokens)?;
    let (name, rest) = name(alloc, src, rest)?;
    let (files, rest) = files(alloc, src, rest)?;
    let files = Sequence::new(files);
    Ok((NewGroup { name, files }, rest))
}

// Filegroups, each behind a comma; each takes a token, so that the tokens bound their number.
#[tactic(auto, unfolding(crate::specs::Creating::groups, crate::specs::Creating::groups_from))]
fn groups<'t>(
    alloc: Global,
    src: &[u8],
    tokens: &'t [Token],
) -> Result<(Vec<NewGroup>, &'t [Token]), Stop>
    ensures { Parses (λ x. (x.0.items, x.1.now)) result (spec.groups src.now tokens.now) }
{
    let mut found = Vec::new(alloc);
    let mut rest = tokens;
    let mut left = tokens;
    while let [_, more @ ..] = left {
        if !next_group(src, rest) {
            return Ok((found, rest));
        }
        let (group, after) = group(alloc, src, behind(rest))?;
        push(&mut found, group)?;
        rest = after;
        left = more;
    }
    Ok((found, rest))
}

#[tactic(auto, unfolding(crate::specs::Creating::on_files))]
fn on_files<'t>(
    alloc: Global,
    src: &[u8],
    tokens: &'t [Token],
) -> Result<((Vec<NewFile>, Vec<NewGroup>), &'t [Token]), Stop>
    ensures { Parses (λ x. ((x.0.0.items, x.0.1.items), x.1.now)) result (spec.on_files src.now tokens.now) }
{
    if next_is(src, tokens, b"ON") {
        let rest = skip(src, b"PRIMARY", behind(tokens));
        let (files, rest) = files(alloc, src, rest)?;
        let (groups, rest) = groups(alloc, src, rest)?;
        Ok(((files, groups), rest))
    } else {
        Ok(((Vec::new(alloc), Vec::new(alloc)), tokens))
    }
}

#[tactic(auto, unfolding(crate::specs::Creating::log_on))]
fn log_on<'t>(
    alloc: Global,
    src: &[u8],
    tokens: &'t [Token],
) -> Result<(Option<NewFile>, &'t [Token]), Stop>
    ensures { Parses (λ x. (x.0, x.1.now)) result (spec.log_on src.now tokens.now) }
{
    if next_is(src, tokens, b"LOG") {
        let rest = keyword(src, b"ON", behind(tokens))?;
        let (file, rest) = file(alloc, src, rest)?;
        Ok((Some(file), rest))
    } else {
        Ok((None, tokens))
    }
}

/// `CREATE DATABASE`, behind these words.
#[tactic(auto, unfolding(crate::specs::Creating::create_database))]
pub fn create_database<'t>(
    alloc: Global,
    src: &[u8],
    tokens: &'t [Token],
) -> Result<(ScriptItem, &'t [Token]), Stop>
    ensures { Parses (λ x. (x.0, x.1.now)) result (spec.create_database src.now tokens.now) }
{
    let (database, rest) = name(alloc, src, tokens)?;
    let ((primary, groups), rest) = on_files(alloc, src, rest)?;
    let (log, rest) = log_on(alloc, src, rest)?;
    let item = ScriptItem::CreateDatabase {
        database,
        primary: Sequence::new(primary),
        groups: Sequence::new(groups),
        log,
    };
    Ok((item, rest))
}
