//! Reading a record from the front of bytes.

ghost use Rattle.std.specs.Prelude.{◌≡◌, ◌<◌, ◌≤◌, length, MatchOption};
ghost use Rattle.bk_record.specs.Spelling.{IsUnspelled, BeginsWith};
ghost use Rattle.bk_bytes.specs.Codec.{Gives, number_at, counted};
ghost use Rattle.bk_record.specs.Reading.{place_form, image_form, extent_form, mark_form, database_at, table_at, write_at, commit_at, compensation_at, checkpoint_at, stamp_at, model_at, bulk_at, recovery_at, body_at, inside_form, record_form};
ghost use Rattle.bk_record.specs.View.{body_of, mark_of, place_of, record_of};
ghost use Rattle.bk_record.specs.Extents.{extents_shown};

use crate::extents::Extents;
use crate::view::{BodyRef, MarkRef, PlaceRef, RecRef};
use bk_bytes::{
    Cell, split_run, split_str, split_u8, split_u16, split_u32, split_u64, split_zeros,
};
use bk_fields::{split_guid, split_model};

// The record at the front of `bytes` and the bytes after it, or `None` where no record is spelled there.
pub(crate) fn split_record(bytes: &[u8]) -> Option<(RecRef<'_>, &[u8])>
    ensures { MatchOption result (IsUnspelled bytes.now) (λ x. BeginsWith bytes.now (record_of x.0) x.1.now) }
{
    split_framed(bytes)
}

// The same, as it is read.
#[tactic(auto, unfolding(crate::specs::Reading::record_form, bk_bytes::specs::Codec::framed_at))]
fn split_framed(bytes: &[u8]) -> Option<(RecRef<'_>, &[u8])>
    ensures { Gives (λ x. (record_of x.0, x.1.now)) result (record_form.reading bytes.now) }
{
    let (size, rest) = split_u32(bytes)?;
    if size < 4 {
        return None;
    }
    let (inside, rest) = split_run(rest, (size - 4) as usize)?;
    let (record, left) = split_inside(inside)?;
    if !left.is_empty() {
        return None;
    }
    Some((record, rest))
}

// The record after its length.
#[tactic(auto, unfolding(crate::specs::Reading::inside_form))]
fn split_inside(bytes: &[u8]) -> Option<(RecRef<'_>, &[u8])>
    ensures { Gives (λ x. (record_of x.0, x.1.now)) result (inside_form.reading bytes.now) }
{
    let (kind, rest) = split_u8(bytes)?;
    let rest = split_zeros(rest, 3)?;
    let (lsn, rest) = split_u64(rest)?;
    let (begin, rest) = split_u64(rest)?;
    let (body, rest) = split_body(kind, rest)?;
    Some((RecRef { lsn, begin, body }, rest))
}

#[tactic(auto, unfolding(crate::specs::Reading::body_at))]
fn split_body(kind: u8, bytes: &[u8]) -> Option<(BodyRef<'_>, &[u8])>
    ensures { Gives (λ x. (body_of x.0, x.1.now)) result (body_at kind bytes.now) }
{
    match kind {
        1 => split_database(bytes),
        2 => split_table(bytes),
        3 => Some((BodyRef::Begin, bytes)),
        4 => split_write(bytes),
        5 => split_commit(bytes),
        6 => Some((BodyRef::RollbackEnd, bytes)),
        7 => split_compensation(bytes),
        8 => split_checkpoint(bytes),
        9 => split_stamp(bytes),
        10 => split_model_change(bytes),
        11 => split_bulk(bytes),
        12 => split_recovery(bytes),
        _ => None,
    }
}

#[tactic(auto, unfolding(crate::specs::Reading::database_at))]
fn split_database(bytes: &[u8]) -> Option<(BodyRef<'_>, &[u8])>
    ensures { Gives (λ x. (body_of x.0, x.1.now)) result (database_at bytes.now) }
{
    let (time, rest) = split_u64(bytes)?;
    let (family, rest) = split_guid(rest)?;
    let (branch, rest) = split_guid(rest)?;
    let body = BodyRef::Database {
        time,
        family,
        branch,
    };
    Some((body, rest))
}

#[tactic(auto, unfolding(crate::specs::Reading::table_at))]
fn split_table(bytes: &[u8]) -> Option<(BodyRef<'_>, &[u8])>
    ensures { Gives (λ x. (body_of x.0, x.1.now)) result (table_at bytes.now) }
{
    let (time, rest) = split_u64(bytes)?;
    let (number, rest) = split_u32(rest)?;
    let (name, rest) = split_str(rest, 1, 64)?;
    let (group, rest) = split_u8(rest)?;
    let body = BodyRef::Table {
        time,
        number,
        name,
        group,
    };
    Some((body, rest))
}

#[tactic(auto, unfolding(crate::specs::Reading::write_at))]
fn split_write(bytes: &[u8]) -> Option<(BodyRef<'_>, &[u8])>
    ensures { Gives (λ x. (body_of x.0, x.1.now)) result (write_at bytes.now) }
{
    let (place, rest) = split_place(bytes)?;
    let (before, rest) = split_image(rest)?;
    let (after, rest) = split_image(rest)?;
    let body = BodyRef::Write {
        place,
        before,
        after,
    };
    Some((body, rest))
}

#[tactic(auto, unfolding(crate::specs::Reading::commit_at))]
fn split_commit(bytes: &[u8]) -> Option<(BodyRef<'_>, &[u8])>
    ensures { Gives (λ x. (body_of x.0, x.1.now)) result (commit_at bytes.now) }
{
    let (time, rest) = split_u64(bytes)?;
    let (mark, rest) = split_mark(rest)?;
    Some((BodyRef::Commit { time, mark }, rest))
}

#[tactic(auto, unfolding(crate::specs::Reading::compensation_at))]
fn split_compensation(bytes: &[u8]) -> Option<(BodyRef<'_>, &[u8])>
    ensures { Gives (λ x. (body_of x.0, x.1.now)) result (compensation_at bytes.now) }
{
    let (place, rest) = split_place(bytes)?;
    let (cell, rest) = split_image(rest)?;
    let (undone, rest) = split_u64(rest)?;
    let body = BodyRef::Compensation {
        place,
        cell,
        undone,
    };
    Some((body, rest))
}

#[tactic(auto, unfolding(crate::specs::Reading::checkpoint_at))]
fn split_checkpoint(bytes: &[u8]) -> Option<(BodyRef<'_>, &[u8])>
    ensures { Gives (λ x. (body_of x.0, x.1.now)) result (checkpoint_at bytes.now) }
{
    let (time, rest) = split_u64(bytes)?;
    Some((BodyRef::Checkpoint { time }, rest))
}

#[tactic(auto, unfolding(crate::specs::Reading::stamp_at))]
fn split_stamp(bytes: &[u8]) -> Option<(BodyRef<'_>, &[u8])>
    ensures { Gives (λ x. (body_of x.0, x.1.now)) result (stamp_at bytes.now) }
{
    let (time, rest) = split_u64(bytes)?;
    let (set, rest) = split_guid(rest)?;
    Some((BodyRef::Stamp { time, set }, rest))
}

#[tactic(auto, unfolding(crate::specs::Reading::model_at))]
fn split_model_change(bytes: &[u8]) -> Option<(BodyRef<'_>, &[u8])>
    ensures { Gives (λ x. (body_of x.0, x.1.now)) result (model_at bytes.now) }
{
    let (time, rest) = split_u64(bytes)?;
    let (model, rest) = split_model(rest)?;
    Some((BodyRef::Model { time, model }, rest))
}

#[tactic(auto, unfolding(crate::specs::Reading::bulk_at))]
fn split_bulk(bytes: &[u8]) -> Option<(BodyRef<'_>, &[u8])>
    ensures { Gives (λ x. (body_of x.0, x.1.now)) result (bulk_at bytes.now) }
{
    let (table, rest) = split_u32(bytes)?;
    let (first, rest) = split_u64(rest)?;
    let (count, rest) = split_u32(rest)?;
    let (value, rest) = split_str(rest, 0, 112)?;
    let (extents, rest) = split_extents(rest)?;
    let body = BodyRef::Bulk {
        table,
        first,
        count,
        value,
        extents,
    };
    Some((body, rest))
}

#[tactic(auto, unfolding(crate::specs::Reading::recovery_at))]
fn split_recovery(bytes: &[u8]) -> Option<(BodyRef<'_>, &[u8])>
    ensures { Gives (λ x. (body_of x.0, x.1.now)) result (recovery_at bytes.now) }
{
    let (branch, rest) = split_guid(bytes)?;
    Some((BodyRef::Recovery { branch }, rest))
}

#[tactic(auto, unfolding(crate::specs::Reading::place_form))]
fn split_place(bytes: &[u8]) -> Option<(PlaceRef, &[u8])>
    ensures { Gives (λ x. (place_of x.0, x.1.now)) result (place_form.reading bytes.now) }
{
    let (file, rest) = split_u16(bytes)?;
    let (page, rest) = split_u32(rest)?;
    let (slot, rest) = split_u16(rest)?;
    if slot >= 63 {
        return None;
    }
    Some((PlaceRef { file, page, slot }, rest))
}

// The 128 bytes of a cell.
#[tactic(auto, unfolding(crate::specs::Reading::image_form))]
fn split_image(bytes: &[u8]) -> Option<(&[u8; 128], &[u8])>
    ensures { Gives (λ x. (record { bytes = x.0.now }, x.1.now)) result (image_form.reading bytes.now) }
{
    let (image, rest) = bytes.split_first_chunk::<128>()?;
    let _cell = Cell::read(image)?;
    Some((image, rest))
}

#[tactic(auto, unfolding(crate::specs::Reading::mark_form))]
pub(crate) fn split_mark(bytes: &[u8]) -> Option<(Option<MarkRef<'_>>, &[u8])>
    ensures { Gives (λ x. (mark_of x.0, x.1.now)) result (mark_form.reading bytes.now) }
{
    let (name, rest) = split_str(bytes, 0, 64)?;
    let (text, rest) = split_str(rest, 0, 65535)?;
    if !name.is_empty() {
        let description = if text.is_empty() { None } else { Some(text) };
        return Some((Some(MarkRef { name, description }), rest));
    }
    if !text.is_empty() {
        return None;
    }
    Some((None, rest))
}

fn split_extents(bytes: &[u8]) -> Option<(Extents<'_>, &[u8])>
    ensures { Gives (λ x. (extents_shown x.0, x.1.now)) result ((counted 4 extent_form).reading bytes.now) }
{
    let (count, rest) = split_u32(bytes)?;
    let (bytes, rest) = split_run(rest, 6 * count as usize)?;
    Some((Extents::over(bytes), rest))
}
