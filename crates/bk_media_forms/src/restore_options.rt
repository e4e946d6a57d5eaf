//! The options of RESTORE.

ghost use Rattle.std.specs.Prelude.{◌≡◌, ◌++◌, ◌∷◌, [], OnOk};
ghost use Rattle.bk_parse.specs.Parse.{Parses};
ghost use Rattle.bk_media_forms.specs.Restore as spec;

use crate::idle::{idle_word, is_marked, no_idle, skip_value, with_mark};
use crate::stops::{at_mark, before_mark, moment};
use bk_ids::Sequence;
use bk_items::{Ending, FileMove, IdleOption, RestoreOptions};
use bk_parse::{
    Stop, behind, equal_filled, equal_number, filled_text, keyword, next_is, next_sign, stuck,
};
use bk_token::Token;
use std::alloc::{AllocError, Global};
use std::mem;

/// An option of RESTORE, by its word.
#[derive(Clone, Copy)]
pub enum RestoreWord {
    File,
    Recovery,
    NoRecovery,
    Standby,
    StopAt,
    StopAtMark,
    StopBeforeMark,
    Replace,
    Partial,
    Move,
    Checksum,
    NoChecksum,
    Idle(IdleOption),
}

#[tactic(auto, unfolding(crate::specs::Restore::ending_word))]
fn ending_word(src: &[u8], tokens: &[Token]) -> Option<RestoreWord>
    ensures { result ≡ spec.ending_word src.now tokens.now }
{
    if next_is(src, tokens, b"FILE") {
        Some(RestoreWord::File)
    } else if next_is(src, tokens, b"RECOVERY") {
        Some(RestoreWord::Recovery)
    } else if next_is(src, tokens, b"NORECOVERY") {
        Some(RestoreWord::NoRecovery)
    } else if next_is(src, tokens, b"STANDBY") {
        Some(RestoreWord::Standby)
    } else {
        None
    }
}

#[tactic(auto, unfolding(crate::specs::Restore::stop_word))]
fn stop_word(src: &[u8], tokens: &[Token]) -> Option<RestoreWord>
    ensures { result ≡ spec.stop_word src.now tokens.now }
{
    if next_is(src, tokens, b"STOPAT") {
        Some(RestoreWord::StopAt)
    } else if next_is(src, tokens, b"STOPATMARK") {
        Some(RestoreWord::StopAtMark)
    } else if next_is(src, tokens, b"STOPBEFOREMARK") {
        Some(RestoreWord::StopBeforeMark)
    } else {
        None
    }
}

#[tactic(auto, unfolding(crate::specs::Restore::change_word))]
fn change_word(src: &[u8], tokens: &[Token]) -> Option<RestoreWord>
    ensures { result ≡ spec.change_word src.now tokens.now }
{
    if next_is(src, tokens, b"REPLACE") {
        Some(RestoreWord::Replace)
    } else if next_is(src, tokens, b"PARTIAL") {
        Some(RestoreWord::Partial)
    } else if next_is(src, tokens, b"MOVE") {
        Some(RestoreWord::Move)
    } else if next_is(src, tokens, b"CHECKSUM") {
        Some(RestoreWord::Checksum)
    } else if next_is(src, tokens, b"NO_CHECKSUM") {
        Some(RestoreWord::NoChecksum)
    } else {
        None
    }
}

fn from_word(src: &[u8], from: bool, tokens: &[Token]) -> Option<RestoreWord>
    ensures { result ≡ spec.from_word src.now from tokens.now }
{
    if !from {
        return None;
    }
    match stop_word(src, tokens) {
        Some(word) => Some(word),
        None => change_word(src, tokens),
    }
}

fn restore_word(src: &[u8], from: bool, tokens: &[Token]) -> Option<RestoreWord>
    ensures { result ≡ spec.restore_word src.now from tokens.now }
{
    if let Some(word) = ending_word(src, tokens) {
        return Some(word);
    }
    match from_word(src, from, tokens) {
        Some(word) => Some(word),
        None => match idle_word(src, tokens) {
            Some(option) => Some(RestoreWord::Idle(option)),
            None => None,
        },
    }
}

#[tactic(auto, unfolding(crate::specs::Restore::joins))]
fn joins(o: &RestoreOptions, word: RestoreWord) -> bool
    ensures { result ≡ spec.joins o.now word }
{
    match word {
        RestoreWord::File => o.file.is_none(),
        RestoreWord::Recovery => o.ending.is_none(),
        RestoreWord::NoRecovery => o.ending.is_none(),
        RestoreWord::Standby => o.ending.is_none(),
        RestoreWord::StopAt => o.stop.is_none(),
        RestoreWord::StopAtMark => o.stop.is_none(),
        RestoreWord::StopBeforeMark => o.stop.is_none(),
        RestoreWord::Replace => !o.replace,
        RestoreWord::Partial => !o.partial,
        RestoreWord::Move => true,
        RestoreWord::Checksum => o.checksum.is_none(),
        RestoreWord::NoChecksum => o.checksum.is_none(),
        RestoreWord::Idle(option) => !is_marked(&o.idle, option),
    }
}

// Each of these takes one more option into those that are there. At an error they are of no further use.
#[tactic(auto, unfolding(crate::specs::Restore::filed))]
fn filed<'t>(o: &mut RestoreOptions, tokens: &'t [Token]) -> Result<&'t [Token], Stop>
    ensures { Parses (λ x. (o.new, x.now)) result (spec.filed o.old tokens.now) }
{
    let (n, rest) = equal_number(tokens)?;
    o.file = Some(n);
    Ok(rest)
}

#[tactic(auto, unfolding(crate::specs::Restore::standing))]
fn standing<'t>(
    alloc: Global,
    src: &[u8],
    o: &mut RestoreOptions,
    tokens: &'t [Token],
) -> Result<&'t [Token], Stop>
    ensures { Parses (λ x. (o.new, x.now)) result (spec.standing src.now o.old tokens.now) }
{
    let (path, rest) = equal_filled(alloc, src, tokens)?;
    o.ending = Some(Ending::Standby { path });
    Ok(rest)
}

#[tactic(auto, unfolding(crate::specs::Restore::stopped_at))]
fn stopped_at<'t>(
    alloc: Global,
    src: &[u8],
    o: &mut RestoreOptions,
    tokens: &'t [Token],
) -> Result<&'t [Token], Stop>
    ensures { Parses (λ x. (o.new, x.now)) result (spec.stopped_at src.now o.old tokens.now) }
{
    let (stop, rest) = moment(alloc, src, tokens)?;
    o.stop = Some(stop);
    Ok(rest)
}

#[tactic(auto, unfolding(crate::specs::Restore::stopped_at_mark))]
fn stopped_at_mark<'t>(
    alloc: Global,
    src: &[u8],
    o: &mut RestoreOptions,
    tokens: &'t [Token],
) -> Result<&'t [Token], Stop>
    ensures { Parses (λ x. (o.new, x.now)) result (spec.stopped_at_mark src.now o.old tokens.now) }
{
    let (stop, rest) = at_mark(alloc, src, tokens)?;
    o.stop = Some(stop);
    Ok(rest)
}

#[tactic(auto, unfolding(crate::specs::Restore::stopped_before))]
fn stopped_before<'t>(
    alloc: Global,
    src: &[u8],
    o: &mut RestoreOptions,
    tokens: &'t [Token],
) -> Result<&'t [Token], Stop>
    ensures { Parses (λ x. (o.new, x.now)) result (spec.stopped_before src.now o.old tokens.now) }
{
    let (stop, rest) = before_mark(alloc, src, tokens)?;
    o.stop = Some(stop);
    Ok(rest)
}

#[tactic(auto, unfolding(crate::specs::Restore::file_move))]
fn file_move<'t>(
    alloc: Global,
    src: &[u8],
    tokens: &'t [Token],
) -> Result<(FileMove, &'t [Token]), Stop>
    ensures { Parses (λ x. (x.0, x.1.now)) result (spec.file_move src.now tokens.now) }
{
    let (name, rest) = filled_text(alloc, src, tokens)?;
    let rest = keyword(src, b"TO", rest)?;
    let (path, rest) = filled_text(alloc, src, rest)?;
    Ok((FileMove { name, path }, rest))
}

// At an error the moves are none.
fn push_move(alloc: Global, moves: &mut Sequence<FileMove>, one: FileMove) -> Result<(), AllocError>
    ensures { OnOk result (moves.new ≡ moves.old ++ one ∷ []) }
{
    let mut list = mem::replace(moves, Sequence::new(Vec::new(alloc))).into_vec();
    list.push(one)?;
    *moves = Sequence::new(list);
    Ok(())
}

#[tactic(auto, unfolding(crate::specs::Restore::moved))]
fn moved<'t>(
    alloc: Global,
    src: &[u8],
    o: &mut RestoreOptions,
    tokens: &'t [Token],
) -> Result<&'t [Token], Stop>
    ensures { Parses (λ x. (o.new, x.now)) result (spec.moved src.now o.old tokens.now) }
{
    let (one, rest) = file_move(alloc, src, tokens)?;
    push_move(alloc, &mut o.moves, one)?;
    Ok(rest)
}

#[tactic(auto, unfolding(crate::specs::Restore::idled))]
fn idled<'t>(
    alloc: Global,
    src: &[u8],
    o: &mut RestoreOptions,
    option: IdleOption,
    tokens: &'t [Token],
) -> Result<&'t [Token], Stop>
    ensures { Parses (λ x. (o.new, x.now)) result (spec.idled src.now o.old option tokens.now) }
{
    let rest = skip_value(alloc, src, option, tokens)?;
    o.idle = with_mark(o.idle, option);
    Ok(rest)
}

// The option with a word that has no value.
#[tactic(auto, unfolding(crate::specs::Restore::switched))]
fn switched(o: &mut RestoreOptions, word: RestoreWord)
    ensures { o.new ≡ spec.switched o.old word }
{
    match word {
        RestoreWord::Recovery => o.ending = Some(Ending::Recovery),
        RestoreWord::NoRecovery => o.ending = Some(Ending::NoRecovery),
        RestoreWord::Replace => o.replace = true,
        RestoreWord::Partial => o.partial = true,
        RestoreWord::Checksum => o.checksum = Some(true),
        RestoreWord::NoChecksum => o.checksum = Some(false),
        _ => {}
    }
}

#[tactic(auto, unfolding(crate::specs::Restore::joined))]
fn joined<'t>(
    alloc: Global,
    src: &[u8],
    o: &mut RestoreOptions,
    word: RestoreWord,
    tokens: &'t [Token],
) -> Result<&'t [Token], Stop>
    ensures { Parses (λ x. (o.new, x.now)) result (spec.joined src.now o.old word tokens.now) }
{
    match word {
        RestoreWord::File => filed(o, tokens),
        RestoreWord::Standby => standing(alloc, src, o, tokens),
        RestoreWord::StopAt => stopped_at(alloc, src, o, tokens),
        RestoreWord::StopAtMark => stopped_at_mark(alloc, src, o, tokens),
        RestoreWord::StopBeforeMark => stopped_before(alloc, src, o, tokens),
        RestoreWord::Move => moved(alloc, src, o, tokens),
        RestoreWord::Idle(option) => idled(alloc, src, o, option, tokens),
        _ => {
            switched(o, word);
            Ok(tokens)
        }
    }
}

#[tactic(auto, unfolding(crate::specs::Restore::one_more))]
fn one_more<'t>(
    alloc: Global,
    src: &[u8],
    from: bool,
    o: &mut RestoreOptions,
    tokens: &'t [Token],
) -> Result<&'t [Token], Stop>
    ensures { Parses (λ x. (o.new, x.now)) result (spec.one_more src.now from o.old tokens.now) }
{
    match restore_word(src, from, tokens) {
        Some(word) => {
            if joins(o, word) {
                joined(alloc, src, o, word, behind(tokens))
            } else {
                Err(stuck(tokens))
            }
        }
        None => Err(stuck(tokens)),
    }
}

fn no_options(alloc: Global) -> RestoreOptions
    ensures { result ≡ spec.no_options }
{
    RestoreOptions {
        file: None,
        ending: None,
        stop: None,
        replace: false,
        partial: false,
        moves: Sequence::new(Vec::new(alloc)),
        checksum: None,
        idle: no_idle(),
    }
}

// Options with commas between; each takes a token, so that the tokens bound their number.
#[tactic(auto, unfolding(crate::specs::Restore::options_from))]
fn options_from<'t>(
    alloc: Global,
    src: &[u8],
    from: bool,
    o: &mut RestoreOptions,
    tokens: &'t [Token],
) -> Result<&'t [Token], Stop>
    ensures { Parses (λ x. (o.new, x.now)) result (spec.options_from src.now from tokens.now o.old tokens.now) }
{
    let mut rest = tokens;
    let mut left = tokens;
    while let [_, more @ ..] = left {
        let after = one_more(alloc, src, from, o, rest)?;
        if !next_sign(after, b',') {
            return Ok(after);
        }
        rest = behind(after);
        left = more;
    }
    Err(stuck(rest))
}

// `options_from` with none before.
#[tactic(auto, unfolding(crate::specs::Restore::options))]
fn options<'t>(
    alloc: Global,
    src: &[u8],
    from: bool,
    tokens: &'t [Token],
) -> Result<(RestoreOptions, &'t [Token]), Stop>
    ensures { Parses (λ x. (x.0, x.1.now)) result (spec.options src.now from tokens.now) }
{
    let mut found = no_options(alloc);
    let rest = options_from(alloc, src, from, &mut found, tokens)?;
    Ok((found, rest))
}

/// `WITH` options of RESTORE, or nothing; `from` says that the RESTORE names a medium.
#[tactic(auto, unfolding(crate::specs::Restore::with_options))]
pub fn with_options<'t>(
    alloc: Global,
    src: &[u8],
    from: bool,
    tokens: &'t [Token],
) -> Result<(RestoreOptions, &'t [Token]), Stop>
    ensures { Parses (λ x. (x.0, x.1.now)) result (spec.with_options src.now from tokens.now) }
{
    if next_is(src, tokens, b"WITH") {
        options(alloc, src, from, behind(tokens))
    } else {
        Ok((no_options(alloc), tokens))
    }
}
