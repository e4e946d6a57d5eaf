//! Options without effect, in BACKUP and RESTORE.

ghost use Rattle.std.specs.Prelude.{◌≡◌};
ghost use Rattle.bk_parse.specs.Parse.{Parses};
ghost use Rattle.bk_media_forms.specs.Idle as spec;

use bk_items::{IdleOption, IdleOptions};
use bk_parse::{Stop, equal_number, equal_text, next_is, next_sign};
use bk_token::Token;
use std::alloc::Global;

#[tactic(auto, unfolding(crate::specs::Idle::bare_word))]
fn bare_word(src: &[u8], tokens: &[Token]) -> Option<IdleOption>
    ensures { result ≡ spec.bare_word src.now tokens.now }
{
    if next_is(src, tokens, b"REWIND") {
        Some(IdleOption::Rewind)
    } else if next_is(src, tokens, b"NOREWIND") {
        Some(IdleOption::NoRewind)
    } else if next_is(src, tokens, b"UNLOAD") {
        Some(IdleOption::Unload)
    } else if next_is(src, tokens, b"NOUNLOAD") {
        Some(IdleOption::NoUnload)
    } else if next_is(src, tokens, b"STOP_ON_ERROR") {
        Some(IdleOption::StopOnError)
    } else if next_is(src, tokens, b"NO_COMPRESSION") {
        Some(IdleOption::NoCompression)
    } else {
        None
    }
}

#[tactic(auto, unfolding(crate::specs::Idle::text_word))]
fn text_word(src: &[u8], tokens: &[Token]) -> Option<IdleOption>
    ensures { result ≡ spec.text_word src.now tokens.now }
{
    if next_is(src, tokens, b"DESCRIPTION") {
        Some(IdleOption::Description)
    } else if next_is(src, tokens, b"MEDIANAME") {
        Some(IdleOption::MediaName)
    } else if next_is(src, tokens, b"MEDIADESCRIPTION") {
        Some(IdleOption::MediaDescription)
    } else {
        None
    }
}

#[tactic(auto, unfolding(crate::specs::Idle::number_word))]
fn number_word(src: &[u8], tokens: &[Token]) -> Option<IdleOption>
    ensures { result ≡ spec.number_word src.now tokens.now }
{
    if next_is(src, tokens, b"STATS") {
        Some(IdleOption::Stats)
    } else if next_is(src, tokens, b"BUFFERCOUNT") {
        Some(IdleOption::BufferCount)
    } else if next_is(src, tokens, b"MAXTRANSFERSIZE") {
        Some(IdleOption::MaxTransferSize)
    } else if next_is(src, tokens, b"BLOCKSIZE") {
        Some(IdleOption::BlockSize)
    } else {
        None
    }
}

/// The option without effect that comes next, by its word.
pub fn idle_word(src: &[u8], tokens: &[Token]) -> Option<IdleOption>
    ensures { result ≡ spec.idle_word src.now tokens.now }
{
    bare_word(src, tokens)
        .or_else(|| text_word(src, tokens))
        .or_else(|| number_word(src, tokens))
}

/// The option is there already.
pub fn is_marked(o: &IdleOptions, option: IdleOption) -> bool
    ensures { result ≡ spec.is_marked o.now option }
{
    match option {
        IdleOption::Stats => o.stats,
        IdleOption::Rewind => o.rewind,
        IdleOption::NoRewind => o.no_rewind,
        IdleOption::Unload => o.unload,
        IdleOption::NoUnload => o.no_unload,
        IdleOption::Description => o.description,
        IdleOption::MediaName => o.media_name,
        IdleOption::MediaDescription => o.media_description,
        IdleOption::BufferCount => o.buffer_count,
        IdleOption::MaxTransferSize => o.max_transfer_size,
        IdleOption::BlockSize => o.block_size,
        IdleOption::StopOnError => o.stop_on_error,
        IdleOption::NoCompression => o.no_compression,
    }
}

/// The options with one more.
#[tactic(auto, unfolding(crate::specs::Idle::with_mark))]
pub fn with_mark(o: IdleOptions, option: IdleOption) -> IdleOptions
    ensures { result ≡ spec.with_mark o option }
{
    let mut o = o;
    match option {
        IdleOption::Stats => o.stats = true,
        IdleOption::Rewind => o.rewind = true,
        IdleOption::NoRewind => o.no_rewind = true,
        IdleOption::Unload => o.unload = true,
        IdleOption::NoUnload => o.no_unload = true,
        IdleOption::Description => o.description = true,
        IdleOption::MediaName => o.media_name = true,
        IdleOption::MediaDescription => o.media_description = true,
        IdleOption::BufferCount => o.buffer_count = true,
        IdleOption::MaxTransferSize => o.max_transfer_size = true,
        IdleOption::BlockSize => o.block_size = true,
        IdleOption::StopOnError => o.stop_on_error = true,
        IdleOption::NoCompression => o.no_compression = true,
    }
    o
}

/// No option without effect.
pub fn no_idle() -> IdleOptions
    ensures { result ≡ spec.no_idle }
{
    IdleOptions {
        stats: false,
        rewind: false,
        no_rewind: false,
        unload: false,
        no_unload: false,
        description: false,
        media_name: false,
        media_description: false,
        buffer_count: false,
        max_transfer_size: false,
        block_size: false,
        stop_on_error: false,
        no_compression: false,
    }
}

#[tactic(auto, unfolding(crate::specs::Idle::skip_text))]
fn skip_text<'t>(alloc: Global, src: &[u8], tokens: &'t [Token]) -> Result<&'t [Token], Stop>
    ensures { Parses (λ x. x.now) result (spec.skip_text src.now tokens.now) }
{
    let (_, rest) = equal_text(alloc, src, tokens)?;
    Ok(rest)
}

#[tactic(auto, unfolding(crate::specs::Idle::skip_number))]
fn skip_number<'t>(tokens: &'t [Token]) -> Result<&'t [Token], Stop>
    ensures { Parses (λ x. x.now) result (spec.skip_number tokens.now) }
{
    let (_, rest) = equal_number(tokens)?;
    Ok(rest)
}

#[tactic(auto, unfolding(crate::specs::Idle::skip_share))]
fn skip_share<'t>(tokens: &'t [Token]) -> Result<&'t [Token], Stop>
    ensures { Parses (λ x. x.now) result (spec.skip_share tokens.now) }
{
    if next_sign(tokens, b'=') {
        skip_number(tokens)
    } else {
        Ok(tokens)
    }
}

/// Reads the value of an option without effect, if it has one, behind its word.
#[tactic(auto, unfolding(crate::specs::Idle::skip_value))]
pub fn skip_value<'t>(
    alloc: Global,
    src: &[u8],
    option: IdleOption,
    tokens: &'t [Token],
) -> Result<&'t [Token], Stop>
    ensures { Parses (λ x. x.now) result (spec.skip_value src.now option tokens.now) }
{
    match option {
        IdleOption::Stats => skip_share(tokens),
        IdleOption::Description => skip_text(alloc, src, tokens),
        IdleOption::MediaName => skip_text(alloc, src, tokens),
        IdleOption::MediaDescription => skip_text(alloc, src, tokens),
        IdleOption::BufferCount => skip_number(tokens),
        IdleOption::MaxTransferSize => skip_number(tokens),
        IdleOption::BlockSize => skip_number(tokens),
        _ => Ok(tokens),
    }
}
