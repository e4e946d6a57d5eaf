//! Reading what is kept of a database's log and units in a note.

ghost use Rattle.bk_bytes.specs.Codec.{Gives, counted, string, times};
ghost use Rattle.bk_points.specs.Points.{base_form, flags_form, id_form, log_points_form, points_form, state_form, status_form, unit_form};
ghost use Rattle.bk_reading.specs.Reading.{Reads};

use crate::points::{LogPoints, Points};
use bk_bytes::{split_str, split_u8, split_u16, split_u32, split_u64};
use bk_fields::split_guid;
use bk_ids::{Sequence, Text, UnitId};
use bk_reading::Unread;
use bk_world::{Base, State, Status, Unit};
use std::alloc::Global;

#[tactic(auto, unfolding(crate::specs::Points::flags_form))]
fn split_flags(bytes: &[u8]) -> Option<((bool, bool), &[u8])>
    ensures { Gives (λ x. (x.0, x.1.now)) result (flags_form.reading bytes.now) }
{
    let (flags, rest) = split_u8(bytes)?;
    match flags {
        0 => Some(((false, false), rest)),
        1 => Some(((true, false), rest)),
        2 => Some(((false, true), rest)),
        3 => Some(((true, true), rest)),
        _ => None,
    }
}

#[tactic(auto, unfolding(crate::specs::Points::log_points_form))]
fn split_log_points(bytes: &[u8]) -> Option<(LogPoints, &[u8])>
    ensures { Gives (λ x. (x.0, x.1.now)) result (log_points_form.reading bytes.now) }
{
    let (next_checkpoint, rest) = split_u64(bytes)?;
    let (next_kept, rest) = split_u64(rest)?;
    let (archive, rest) = split_u64(rest)?;
    let (kept, rest) = split_u64(rest)?;
    let (checkpoint, rest) = split_u64(rest)?;
    let ((chain, began), rest) = split_flags(rest)?;
    let log = LogPoints {
        next_checkpoint,
        next_kept,
        archive,
        kept,
        checkpoint,
        chain,
        began,
    };
    Some((log, rest))
}

#[tactic(auto, unfolding(crate::specs::Points::base_form))]
fn split_base(bytes: &[u8]) -> Option<(Option<Base>, &[u8])>
    ensures { Gives (λ x. (x.0, x.1.now)) result (base_form.reading bytes.now) }
{
    let (kind, rest) = split_u8(bytes)?;
    match kind {
        0 => Some((None, rest)),
        1 => {
            let (set, rest) = split_guid(rest)?;
            let (lsn, rest) = split_u64(rest)?;
            Some((Some(Base { set, lsn }), rest))
        }
        _ => None,
    }
}

#[tactic(auto, unfolding(crate::specs::Points::id_form))]
fn split_id(bytes: &[u8]) -> Option<(UnitId, &[u8])>
    ensures { Gives (λ x. (x.0, x.1.now)) result (id_form.reading bytes.now) }
{
    let (kind, rest) = split_u8(bytes)?;
    match kind {
        0 => {
            let (file, rest) = split_u16(rest)?;
            Some((UnitId::File(file), rest))
        }
        1 => {
            let (file, rest) = split_u16(rest)?;
            let (page, rest) = split_u32(rest)?;
            Some((UnitId::Page(file, page), rest))
        }
        _ => None,
    }
}

#[tactic(auto, unfolding(crate::specs::Points::state_form))]
fn split_state(bytes: &[u8]) -> Option<(State, &[u8])>
    ensures { Gives (λ x. (x.0, x.1.now)) result (state_form.reading bytes.now) }
{
    let (kind, rest) = split_u8(bytes)?;
    match kind {
        0 => Some((State::Online, rest)),
        1 => Some((State::Offline, rest)),
        2 => Some((State::Bad, rest)),
        3 => {
            let (base, rest) = split_base(rest)?;
            let (redo, rest) = split_u64(rest)?;
            Some((State::Restoring { base, redo }, rest))
        }
        _ => None,
    }
}

#[tactic(auto, unfolding(crate::specs::Points::unit_form))]
fn split_unit(bytes: &[u8]) -> Option<(Unit, &[u8])>
    ensures { Gives (λ x. (x.0, x.1.now)) result (unit_form.reading bytes.now) }
{
    let (id, rest) = split_id(bytes)?;
    let (state, rest) = split_state(rest)?;
    Some((Unit { id, state }, rest))
}

fn read_path(alloc: Global, bytes: &[u8]) -> Result<(Text, &[u8]), Unread>
    ensures { Reads (λ x. (x.0, x.1.now)) result ((string 1 100).reading bytes.now) }
{
    let Some((text, rest)) = split_str(bytes, 1, 100) else {
        return Err(Unread::Unspelled);
    };
    let text = String::from_str(alloc, text)?;
    Ok((Text::new(text), rest))
}

#[tactic(auto, unfolding(crate::specs::Points::status_form))]
fn read_status(alloc: Global, bytes: &[u8]) -> Result<(Status, &[u8]), Unread>
    ensures { Reads (λ x. (x.0, x.1.now)) result (status_form.reading bytes.now) }
{
    let Some((kind, rest)) = split_u8(bytes) else {
        return Err(Unread::Unspelled);
    };
    match kind {
        0 => Ok((Status::Online, rest)),
        1 => Ok((Status::Down, rest)),
        2 => {
            let (path, rest) = read_path(alloc, rest)?;
            Ok((Status::Standby(path), rest))
        }
        _ => Err(Unread::Unspelled),
    }
}

fn read_so_many(alloc: Global, count: u16, bytes: &[u8]) -> Result<(Vec<Unit>, &[u8]), Unread>
    ensures { Reads (λ x. (x.0.items, x.1.now)) result ((times unit_form count).reading bytes.now) }
{
    let mut units = Vec::new(alloc);
    let mut rest = bytes;
    for _ in 0..count {
        let Some((unit, after)) = split_unit(rest) else {
            return Err(Unread::Unspelled);
        };
        units.push(unit)?;
        rest = after;
    }
    Ok((units, rest))
}

#[tactic(auto, unfolding(bk_bytes::specs::Codec::list_at))]
fn read_units(alloc: Global, bytes: &[u8]) -> Result<(Sequence<Unit>, &[u8]), Unread>
    ensures { Reads (λ x. (x.0, x.1.now)) result ((counted 2 unit_form).reading bytes.now) }
{
    let Some((count, rest)) = split_u16(bytes) else {
        return Err(Unread::Unspelled);
    };
    let (units, rest) = read_so_many(alloc, count, rest)?;
    Ok((Sequence::new(units), rest))
}

/// What is kept of a database's log and units at the front of `bytes`, and the rest. `Unspelled` is answered exactly where nothing of the kind is spelled there.
#[tactic(auto, unfolding(crate::specs::Points::points_form))]
pub fn read_points(alloc: Global, bytes: &[u8]) -> Result<(Points, &[u8]), Unread>
    ensures { Reads (λ x. (x.0, x.1.now)) result (points_form.reading bytes.now) }
{
    let Some((log, rest)) = split_log_points(bytes) else {
        return Err(Unread::Unspelled);
    };
    let Some((base, rest)) = split_base(rest) else {
        return Err(Unread::Unspelled);
    };
    let (status, rest) = read_status(alloc, rest)?;
    let (units, rest) = read_units(alloc, rest)?;
    let points = Points {
        next_checkpoint: log.next_checkpoint,
        next_kept: log.next_kept,
        archive: log.archive,
        kept: log.kept,
        checkpoint: log.checkpoint,
        chain: log.chain,
        began: log.began,
        base,
        status,
        units,
    };
    Ok((points, rest))
}
