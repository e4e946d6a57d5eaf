//! The options of BACKUP.

ghost use Rattle.std.specs.Prelude.{◌≡◌};
ghost use Rattle.bk_parse.specs.Parse.{Parses};
ghost use Rattle.bk_media_forms.specs.Backup as spec;

use crate::idle::{idle_word, is_marked, no_idle, skip_value, with_mark};
use bk_items::{BackupOptions, IdleOption};
use bk_parse::{Stop, behind, equal_number, equal_text, next_is, next_sign, sign, stuck, text};
use bk_time::read_time;
use bk_token::Token;
use std::alloc::Global;

/// An option of BACKUP, by its word.
#[derive(Clone, Copy)]
pub enum BackupWord {
    Init,
    NoInit,
    Format,
    NoFormat,
    Skip,
    NoSkip,
    Checksum,
    NoChecksum,
    Name,
    ExpireDate,
    RetainDays,
    CopyOnly,
    Differential,
    NoRecovery,
    NoTruncate,
    Idle(IdleOption),
}

/// Reads a text that is a time, in milliseconds since 1970-01-01 00:00:00 UTC.
#[tactic(auto, unfolding(crate::specs::Backup::time))]
pub fn time<'t>(alloc: Global, src: &[u8], tokens: &'t [Token]) -> Result<(u64, &'t [Token]), Stop>
    ensures { Parses (λ x. (x.0, x.1.now)) result (spec.time src.now tokens.now) }
{
    let (text, rest) = text(alloc, src, tokens)?;
    match read_time(text.as_str()) {
        Some(ms) => Ok((ms, rest)),
        None => Err(stuck(tokens)),
    }
}

#[tactic(auto, unfolding(crate::specs::Backup::equal_time))]
fn equal_time<'t>(
    alloc: Global,
    src: &[u8],
    tokens: &'t [Token],
) -> Result<(u64, &'t [Token]), Stop>
    ensures { Parses (λ x. (x.0, x.1.now)) result (spec.equal_time src.now tokens.now) }
{
    time(alloc, src, sign(b'=', tokens)?)
}

#[tactic(auto, unfolding(crate::specs::Backup::medium_word))]
fn medium_word(src: &[u8], tokens: &[Token]) -> Option<BackupWord>
    ensures { result ≡ spec.medium_word src.now tokens.now }
{
    if next_is(src, tokens, b"INIT") {
        Some(BackupWord::Init)
    } else if next_is(src, tokens, b"NOINIT") {
        Some(BackupWord::NoInit)
    } else if next_is(src, tokens, b"FORMAT") {
        Some(BackupWord::Format)
    } else if next_is(src, tokens, b"NOFORMAT") {
        Some(BackupWord::NoFormat)
    } else if next_is(src, tokens, b"SKIP") {
        Some(BackupWord::Skip)
    } else if next_is(src, tokens, b"NOSKIP") {
        Some(BackupWord::NoSkip)
    } else {
        None
    }
}

#[tactic(auto, unfolding(crate::specs::Backup::set_word))]
fn set_word(src: &[u8], log: bool, tokens: &[Token]) -> Option<BackupWord>
    ensures { result ≡ spec.set_word src.now log tokens.now }
{
    if next_is(src, tokens, b"CHECKSUM") {
        Some(BackupWord::Checksum)
    } else if next_is(src, tokens, b"NO_CHECKSUM") {
        Some(BackupWord::NoChecksum)
    } else if next_is(src, tokens, b"COPY_ONLY") {
        Some(BackupWord::CopyOnly)
    } else if !log && next_is(src, tokens, b"DIFFERENTIAL") {
        Some(BackupWord::Differential)
    } else if log && next_is(src, tokens, b"NORECOVERY") {
        Some(BackupWord::NoRecovery)
    } else if log && next_is(src, tokens, b"NO_TRUNCATE") {
        Some(BackupWord::NoTruncate)
    } else {
        None
    }
}

#[tactic(auto, unfolding(crate::specs::Backup::valued_word))]
fn valued_word(src: &[u8], tokens: &[Token]) -> Option<BackupWord>
    ensures { result ≡ spec.valued_word src.now tokens.now }
{
    if next_is(src, tokens, b"NAME") {
        Some(BackupWord::Name)
    } else if next_is(src, tokens, b"EXPIREDATE") {
        Some(BackupWord::ExpireDate)
    } else if next_is(src, tokens, b"RETAINDAYS") {
        Some(BackupWord::RetainDays)
    } else {
        None
    }
}

fn other_word(src: &[u8], tokens: &[Token]) -> Option<BackupWord>
    ensures { result ≡ spec.other_word src.now tokens.now }
{
    match valued_word(src, tokens) {
        Some(word) => Some(word),
        None => match idle_word(src, tokens) {
            Some(option) => Some(BackupWord::Idle(option)),
            None => None,
        },
    }
}

fn backup_word(src: &[u8], log: bool, tokens: &[Token]) -> Option<BackupWord>
    ensures { result ≡ spec.backup_word src.now log tokens.now }
{
    match medium_word(src, tokens) {
        Some(word) => Some(word),
        None => match set_word(src, log, tokens) {
            Some(word) => Some(word),
            None => other_word(src, tokens),
        },
    }
}

fn is_switched(switch: Option<bool>, on: bool) -> bool
    ensures { result ≡ spec.is_switched switch on }
{
    switch == Some(on)
}

#[tactic(auto, unfolding(crate::specs::Backup::joins))]
fn joins(o: &BackupOptions, word: BackupWord) -> bool
    ensures { result ≡ spec.joins o.now word }
{
    match word {
        BackupWord::Init => o.init.is_none(),
        BackupWord::NoInit => o.init.is_none() && !is_switched(o.format, true),
        BackupWord::Format => o.format.is_none() && !is_switched(o.init, false),
        BackupWord::NoFormat => o.format.is_none(),
        BackupWord::Skip => o.skip.is_none(),
        BackupWord::NoSkip => o.skip.is_none(),
        BackupWord::Checksum => o.checksum.is_none(),
        BackupWord::NoChecksum => o.checksum.is_none(),
        BackupWord::Name => o.name.is_none(),
        BackupWord::ExpireDate => o.expire.is_none(),
        BackupWord::RetainDays => o.retain.is_none(),
        BackupWord::CopyOnly => !o.copy_only,
        BackupWord::Differential => !o.differential,
        BackupWord::NoRecovery => !o.no_recovery,
        BackupWord::NoTruncate => !o.no_truncate,
        BackupWord::Idle(option) => !is_marked(&o.idle, option),
    }
}

// Each of these takes one more option into those that are there. At an error they are of no further use.
#[tactic(auto, unfolding(crate::specs::Backup::named))]
fn named<'t>(
    alloc: Global,
    src: &[u8],
    o: &mut BackupOptions,
    tokens: &'t [Token],
) -> Result<&'t [Token], Stop>
    ensures { Parses (λ x. (o.new, x.now)) result (spec.named src.now o.old tokens.now) }
{
    let (name, rest) = equal_text(alloc, src, tokens)?;
    o.name = Some(name);
    Ok(rest)
}

#[tactic(auto, unfolding(crate::specs::Backup::expiring))]
fn expiring<'t>(
    alloc: Global,
    src: &[u8],
    o: &mut BackupOptions,
    tokens: &'t [Token],
) -> Result<&'t [Token], Stop>
    ensures { Parses (λ x. (o.new, x.now)) result (spec.expiring src.now o.old tokens.now) }
{
    let (ms, rest) = equal_time(alloc, src, tokens)?;
    o.expire = Some(ms);
    Ok(rest)
}

#[tactic(auto, unfolding(crate::specs::Backup::retained))]
fn retained<'t>(o: &mut BackupOptions, tokens: &'t [Token]) -> Result<&'t [Token], Stop>
    ensures { Parses (λ x. (o.new, x.now)) result (spec.retained o.old tokens.now) }
{
    let (days, rest) = equal_number(tokens)?;
    o.retain = Some(days);
    Ok(rest)
}

#[tactic(auto, unfolding(crate::specs::Backup::idled))]
fn idled<'t>(
    alloc: Global,
    src: &[u8],
    o: &mut BackupOptions,
    option: IdleOption,
    tokens: &'t [Token],
) -> Result<&'t [Token], Stop>
    ensures { Parses (λ x. (o.new, x.now)) result (spec.idled src.now o.old option tokens.now) }
{
    let rest = skip_value(alloc, src, option, tokens)?;
    o.idle = with_mark(o.idle, option);
    Ok(rest)
}

// The option with a word that has no value.
#[tactic(auto, unfolding(crate::specs::Backup::switched))]
fn switched(o: &mut BackupOptions, word: BackupWord)
    ensures { o.new ≡ spec.switched o.old word }
{
    match word {
        BackupWord::Init => o.init = Some(true),
        BackupWord::NoInit => o.init = Some(false),
        BackupWord::Format => o.format = Some(true),
        BackupWord::NoFormat => o.format = Some(false),
        BackupWord::Skip => o.skip = Some(true),
        BackupWord::NoSkip => o.skip = Some(false),
        BackupWord::Checksum => o.checksum = Some(true),
        BackupWord::NoChecksum => o.checksum = Some(false),
        BackupWord::CopyOnly => o.copy_only = true,
        BackupWord::Differential => o.differential = true,
        BackupWord::NoRecovery => o.no_recovery = true,
        BackupWord::NoTruncate => o.no_truncate = true,
        _ => {}
    }
}

#[tactic(auto, unfolding(crate::specs::Backup::joined))]
fn joined<'t>(
    alloc: Global,
    src: &[u8],
    o: &mut BackupOptions,
    word: BackupWord,
    tokens: &'t [Token],
) -> Result<&'t [Token], Stop>
    ensures { Parses (λ x. (o.new, x.now)) result (spec.joined src.now o.old word tokens.now) }
{
    match word {
        BackupWord::Name => named(alloc, src, o, tokens),
        BackupWord::ExpireDate => expiring(alloc, src, o, tokens),
        BackupWord::RetainDays => retained(o, tokens),
        BackupWord::Idle(option) => idled(alloc, src, o, option, tokens),
        _ => {
            switched(o, word);
            Ok(tokens)
        }
    }
}

#[tactic(auto, unfolding(crate::specs::Backup::one_more))]
fn one_more<'t>(
    alloc: Global,
    src: &[u8],
    log: bool,
    o: &mut BackupOptions,
    tokens: &'t [Token],
) -> Result<&'t [Token], Stop>
    ensures { Parses (λ x. (o.new, x.now)) result (spec.one_more src.now log o.old tokens.now) }
{
    match backup_word(src, log, tokens) {
        Some(word) => {
            if joins(o, word) {
                joined(alloc, src, o, word, behind(tokens))
            } else {
                Err(stuck(tokens))
            }
        }
        None => Err(stuck(tokens)),
    }
}

fn no_options() -> BackupOptions
    ensures { result ≡ spec.no_options }
{
    BackupOptions {
        init: None,
        format: None,
        skip: None,
        checksum: None,
        name: None,
        expire: None,
        retain: None,
        copy_only: false,
        differential: false,
        no_recovery: false,
        no_truncate: false,
        idle: no_idle(),
    }
}

// Options with commas between; each takes a token, so that the tokens bound their number.
#[tactic(auto, unfolding(crate::specs::Backup::options_from))]
fn options_from<'t>(
    alloc: Global,
    src: &[u8],
    log: bool,
    o: &mut BackupOptions,
    tokens: &'t [Token],
) -> Result<&'t [Token], Stop>
    ensures { Parses (λ x. (o.new, x.now)) result (spec.options_from src.now log tokens.now o.old tokens.now) }
{
    let mut rest = tokens;
    let mut left = tokens;
    while let [_, more @ ..] = left {
        let after = one_more(alloc, src, log, o, rest)?;
        if !next_sign(after, b',') {
            return Ok(after);
        }
        rest = behind(after);
        left = more;
    }
    Err(stuck(rest))
}

// `options_from` with none before.
#[tactic(auto, unfolding(crate::specs::Backup::options))]
fn options<'t>(
    alloc: Global,
    src: &[u8],
    log: bool,
    tokens: &'t [Token],
) -> Result<(BackupOptions, &'t [Token]), Stop>
    ensures { Parses (λ x. (x.0, x.1.now)) result (spec.options src.now log tokens.now) }
{
    let mut found = no_options();
    let rest = options_from(alloc, src, log, &mut found, tokens)?;
    Ok((found, rest))
}

/// `WITH` options of BACKUP, or nothing; `log` says that the log is backed up.
#[tactic(auto, unfolding(crate::specs::Backup::with_options))]
pub fn with_options<'t>(
    alloc: Global,
    src: &[u8],
    log: bool,
    tokens: &'t [Token],
) -> Result<(BackupOptions, &'t [Token]), Stop>
    ensures { Parses (λ x. (x.0, x.1.now)) result (spec.with_options src.now log tokens.now) }
{
    if next_is(src, tokens, b"WITH") {
        options(alloc, src, log, behind(tokens))
    } else {
        Ok((no_options(), tokens))
    }
}
