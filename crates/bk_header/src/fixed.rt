//! The fields of one length.

ghost use Rattle.std.specs.Prelude.{◌≡◌};
ghost use Rattle.bk_bytes.specs.Codec.{Gives};
ghost use Rattle.bk_header.specs.Reading.{version_form, kind_form, what_form, range_form, base_form, times_form, fixed_form};

use bk_bytes::{split_u8, split_u16, split_u64};
use bk_fields::{split_guid, split_model};
use bk_ids::{Guid, Lsn, RecoveryModel};
use bk_world::{Base, SetKind};

/// What a set is.
#[derive(Clone, Copy, Debug)]
pub struct What {
    pub kind: SetKind,
    pub model: RecoveryModel,
    pub flags: u8,
}

/// The log records that it holds.
#[derive(Clone, Copy, Debug)]
pub struct Range {
    pub first: Lsn,
    pub checkpoint: Lsn,
    pub last: Lsn,
    pub database_backup: Lsn,
}

#[derive(Clone, Copy, Debug)]
pub struct Times {
    pub start: u64,
    pub finish: u64,
    pub expiry: u64,
}

/// The fields of one length, as they are read.
#[derive(Clone, Copy, Debug)]
pub struct Fixed {
    pub what: What,
    pub set: Guid,
    pub family: Guid,
    pub range: Range,
    pub base: Base,
    pub times: Times,
}

#[tactic(auto, unfolding(crate::specs::Reading::version_form))]
fn split_version(bytes: &[u8]) -> Option<((), &[u8])>
    ensures { Gives (λ x. (tt, x.1.now)) result (version_form.reading bytes.now) }
{
    let (version, rest) = split_u16(bytes)?;
    if version != 1 {
        return None;
    }
    Some(((), rest))
}

#[tactic(auto, unfolding(crate::specs::Reading::kind_form))]
fn split_kind(bytes: &[u8]) -> Option<(SetKind, &[u8])>
    ensures { Gives (λ x. (x.0, x.1.now)) result (kind_form.reading bytes.now) }
{
    let (kind, rest) = split_u8(bytes)?;
    match kind {
        1 => Some((SetKind::Full, rest)),
        2 => Some((SetKind::Log, rest)),
        4 => Some((SetKind::File, rest)),
        5 => Some((SetKind::Differential, rest)),
        _ => None,
    }
}

#[tactic(auto, unfolding(crate::specs::Reading::what_form))]
fn split_what(bytes: &[u8]) -> Option<(What, &[u8])>
    ensures { Gives (λ x. (x.0, x.1.now)) result (what_form.reading bytes.now) }
{
    let (_version, rest) = split_version(bytes)?;
    let (kind, rest) = split_kind(rest)?;
    let (model, rest) = split_model(rest)?;
    let (flags, rest) = split_u8(rest)?;
    if flags >= 64 {
        return None;
    }
    Some((What { kind, model, flags }, rest))
}

#[tactic(auto, unfolding(crate::specs::Reading::range_form))]
fn split_range(bytes: &[u8]) -> Option<(Range, &[u8])>
    ensures { Gives (λ x. (x.0, x.1.now)) result (range_form.reading bytes.now) }
{
    let (first, rest) = split_u64(bytes)?;
    let (checkpoint, rest) = split_u64(rest)?;
    let (last, rest) = split_u64(rest)?;
    let (database_backup, rest) = split_u64(rest)?;
    let range = Range {
        first,
        checkpoint,
        last,
        database_backup,
    };
    Some((range, rest))
}

#[tactic(auto, unfolding(crate::specs::Reading::base_form))]
fn split_base(bytes: &[u8]) -> Option<(Base, &[u8])>
    ensures { Gives (λ x. (x.0, x.1.now)) result (base_form.reading bytes.now) }
{
    let (set, rest) = split_guid(bytes)?;
    let (lsn, rest) = split_u64(rest)?;
    Some((Base { set, lsn }, rest))
}

#[tactic(auto, unfolding(crate::specs::Reading::times_form))]
fn split_times(bytes: &[u8]) -> Option<(Times, &[u8])>
    ensures { Gives (λ x. (x.0, x.1.now)) result (times_form.reading bytes.now) }
{
    let (start, rest) = split_u64(bytes)?;
    let (finish, rest) = split_u64(rest)?;
    let (expiry, rest) = split_u64(rest)?;
    let times = Times {
        start,
        finish,
        expiry,
    };
    Some((times, rest))
}

/// The fields of one length at the front of `bytes`, and the rest.
#[tactic(auto, unfolding(crate::specs::Reading::fixed_form))]
pub fn split_fixed(bytes: &[u8]) -> Option<(Fixed, &[u8])>
    ensures { Gives (λ x. (x.0, x.1.now)) result (fixed_form.reading bytes.now) }
{
    let (what, rest) = split_what(bytes)?;
    let (set, rest) = split_guid(rest)?;
    let (family, rest) = split_guid(rest)?;
    let (range, rest) = split_range(rest)?;
    let (base, rest) = split_base(rest)?;
    let (times, rest) = split_times(rest)?;
    let fixed = Fixed {
        what,
        set,
        family,
        range,
        base,
        times,
    };
    Some((fixed, rest))
}
