//! Where a restore stops.

ghost use Rattle.std.specs.Prelude.{◌≡◌};
ghost use Rattle.bk_parse.specs.Parse.{Parses};
ghost use Rattle.bk_media_forms.specs.Stops as spec;

use crate::backup_options::time;
use crate::pages::lsn_of;
use bk_ids::Text;
use bk_items::{StopMark, Stopping};
use bk_parse::{Stop, behind, equal_text, next_is, sign, stuck, text};
use bk_time::read_time;
use bk_token::Token;
use std::alloc::Global;

fn mark_of(text: Text) -> StopMark
    ensures { result ≡ spec.mark_of text }
{
    let lsn = lsn_of(text.as_str().as_bytes());
    StopMark { text, lsn }
}

#[tactic(auto, unfolding(crate::specs::Stops::after_time))]
fn after_time<'t>(
    alloc: Global,
    src: &[u8],
    tokens: &'t [Token],
) -> Result<(Option<u64>, &'t [Token]), Stop>
    ensures { Parses (λ x. (x.0, x.1.now)) result (spec.after_time src.now tokens.now) }
{
    if next_is(src, tokens, b"AFTER") {
        let (ms, rest) = time(alloc, src, behind(tokens))?;
        Ok((Some(ms), rest))
    } else {
        Ok((None, tokens))
    }
}

#[tactic(auto, unfolding(crate::specs::Stops::mark))]
fn mark<'t>(
    alloc: Global,
    src: &[u8],
    tokens: &'t [Token],
) -> Result<((StopMark, Option<u64>), &'t [Token]), Stop>
    ensures { Parses (λ x. ((x.0.0, x.0.1), x.1.now)) result (spec.mark src.now tokens.now) }
{
    let (text, rest) = equal_text(alloc, src, tokens)?;
    let (after, rest) = after_time(alloc, src, rest)?;
    Ok(((mark_of(text), after), rest))
}

/// `= text` behind STOPAT, where the text is a time.
#[tactic(auto, unfolding(crate::specs::Stops::moment))]
pub fn moment<'t>(
    alloc: Global,
    src: &[u8],
    tokens: &'t [Token],
) -> Result<(Stopping, &'t [Token]), Stop>
    ensures { Parses (λ x. (x.0, x.1.now)) result (spec.moment src.now tokens.now) }
{
    let equal = sign(b'=', tokens)?;
    let (text, rest) = text(alloc, src, equal)?;
    match read_time(text.as_str()) {
        Some(time) => Ok((Stopping::At { text, time }, rest)),
        None => Err(stuck(equal)),
    }
}

/// `= mark AFTER time` behind STOPATMARK.
#[tactic(auto, unfolding(crate::specs::Stops::at_mark))]
pub fn at_mark<'t>(
    alloc: Global,
    src: &[u8],
    tokens: &'t [Token],
) -> Result<(Stopping, &'t [Token]), Stop>
    ensures { Parses (λ x. (x.0, x.1.now)) result (spec.at_mark src.now tokens.now) }
{
    let ((mark, after), rest) = mark(alloc, src, tokens)?;
    Ok((Stopping::AtMark { mark, after }, rest))
}

/// `= mark AFTER time` behind STOPBEFOREMARK.
#[tactic(auto, unfolding(crate::specs::Stops::before_mark))]
pub fn before_mark<'t>(
    alloc: Global,
    src: &[u8],
    tokens: &'t [Token],
) -> Result<(Stopping, &'t [Token]), Stop>
    ensures { Parses (λ x. (x.0, x.1.now)) result (spec.before_mark src.now tokens.now) }
{
    let ((mark, after), rest) = mark(alloc, src, tokens)?;
    Ok((Stopping::BeforeMark { mark, after }, rest))
}
