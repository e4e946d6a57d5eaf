//! Writing a record, into a vector with room for it.

ghost use Rattle.std.specs.Prelude.{◌≡◌, ◌+◌, ◌*◌, ◌^◌, ◌<◌, ◌≤◌, ◌++◌, length, OnOk, OnErr, vec_len, vec_capacity};
ghost use Rattle.std.specs.List.{flat_map, AllByRecursion};
ghost use Rattle.bk_bytes.specs.Codec.{IsString};
ghost use Rattle.bk_bytes.specs.Cell.{IsCell};
ghost use Rattle.bk_bytes.specs.Field.{bytes_of};
ghost use Rattle.bk_fields.specs.Guids.{guid_bytes, IsGuid};
ghost use Rattle.bk_fields.specs.Models.{model_bytes};
ghost use Rattle.bk_record.specs.Lengths.{mark_length, body_length};
ghost use Rattle.bk_record.specs.Spelling.{text_bytes, place_bytes, extent_bytes, description_of, mark_bytes, body_bytes, kind_of, inside, spelling, IsPlace, IsExtent, IsDescription, IsMark, IsBody, IsRecord, KeepsLimits};

use crate::lengths::spelled_len;
use bk_ids::{
    Body, CellImage, Description, ExtentId, Guid, Lsn, Mark, Name, Place, Rec, RecoveryModel, Value,
};
use std::alloc::{AllocError, Global};

// Adds bytes for which there is room.
fn add(out: &mut Vec<u8>, bytes: &[u8])
    requires { vec_len out.old + length bytes.now ≤ vec_capacity out.old }
    ensures items { out.new.items ≡ out.old.items ++ bytes.now }
    ensures len { vec_len out.new ≡ vec_len out.old + length bytes.now }
    ensures room { vec_capacity out.old ≤ vec_capacity out.new }
{
    match out.extend_from_slice(bytes) {
        Ok(()) => {}
        Err(_) => unreachable!(),
    }
}

// Adds a byte for which there is room.
#[tactic(auto, unfolding(bk_bytes::specs::Field::bytes_of))]
fn add_u8(out: &mut Vec<u8>, n: u8)
    requires { vec_len out.old + 1 ≤ vec_capacity out.old }
    ensures items { out.new.items ≡ out.old.items ++ bytes_of 1 n }
    ensures len { vec_len out.new ≡ vec_len out.old + 1 }
    ensures room { vec_capacity out.old ≤ vec_capacity out.new }
{
    match out.push(n) {
        Ok(()) => {}
        Err(_) => unreachable!(),
    }
}

// Adds the 2 bytes of a number, for which there is room; so below for 4, 8 and 16.
#[tactic(auto, unfolding(bk_bytes::specs::Field::bytes_of))]
fn add_u16(out: &mut Vec<u8>, n: u16)
    requires { vec_len out.old + 2 ≤ vec_capacity out.old }
    ensures items { out.new.items ≡ out.old.items ++ bytes_of 2 n }
    ensures len { vec_len out.new ≡ vec_len out.old + 2 }
    ensures room { vec_capacity out.old ≤ vec_capacity out.new }
{
    add(out, &n.to_le_bytes());
}

#[tactic(auto, unfolding(bk_bytes::specs::Field::bytes_of))]
fn add_u32(out: &mut Vec<u8>, n: u32)
    requires { vec_len out.old + 4 ≤ vec_capacity out.old }
    ensures items { out.new.items ≡ out.old.items ++ bytes_of 4 n }
    ensures len { vec_len out.new ≡ vec_len out.old + 4 }
    ensures room { vec_capacity out.old ≤ vec_capacity out.new }
{
    add(out, &n.to_le_bytes());
}

#[tactic(auto, unfolding(bk_bytes::specs::Field::bytes_of))]
fn add_u64(out: &mut Vec<u8>, n: u64)
    requires { vec_len out.old + 8 ≤ vec_capacity out.old }
    ensures items { out.new.items ≡ out.old.items ++ bytes_of 8 n }
    ensures len { vec_len out.new ≡ vec_len out.old + 8 }
    ensures room { vec_capacity out.old ≤ vec_capacity out.new }
{
    add(out, &n.to_le_bytes());
}

#[tactic(auto, unfolding(bk_bytes::specs::Field::bytes_of))]
fn add_u128(out: &mut Vec<u8>, n: u128)
    requires { vec_len out.old + 16 ≤ vec_capacity out.old }
    ensures items { out.new.items ≡ out.old.items ++ bytes_of 16 n }
    ensures len { vec_len out.new ≡ vec_len out.old + 16 }
    ensures room { vec_capacity out.old ≤ vec_capacity out.new }
{
    add(out, &n.to_le_bytes());
}

// The first number that the lower half of a GUID can't hold.
const HALF: u128 = 1 << 64;

fn add_guid(out: &mut Vec<u8>, guid: Guid)
    requires { vec_len out.old + 16 ≤ vec_capacity out.old }
    ensures items { out.new.items ≡ out.old.items ++ guid_bytes guid }
    ensures len { vec_len out.new ≡ vec_len out.old + 16 }
    ensures room { vec_capacity out.old ≤ vec_capacity out.new }
    ensures fits { IsGuid guid }
{
    add_u128(out, u128::from(guid.high) * HALF + u128::from(guid.low));
}

fn add_model(out: &mut Vec<u8>, model: RecoveryModel)
    requires { vec_len out.old + 1 ≤ vec_capacity out.old }
    ensures items { out.new.items ≡ out.old.items ++ model_bytes model }
    ensures len { vec_len out.new ≡ vec_len out.old + 1 }
    ensures room { vec_capacity out.old ≤ vec_capacity out.new }
{
    let number = match model {
        RecoveryModel::Simple => 0,
        RecoveryModel::Full => 1,
        RecoveryModel::BulkLogged => 2,
    };
    add_u8(out, number);
}

// Adds a text of less than 2^16 bytes: its length in 2 bytes, and its bytes.
fn add_text(out: &mut Vec<u8>, text: &[u8])
    requires short { length text.now < 2 ^ 16 }
    requires room { vec_len out.old + 2 + length text.now ≤ vec_capacity out.old }
    ensures items { out.new.items ≡ out.old.items ++ text_bytes text.now }
    ensures len { vec_len out.new ≡ vec_len out.old + 2 + length text.now }
    ensures room { vec_capacity out.old ≤ vec_capacity out.new }
{
    add_u16(out, text.len() as u16);
    add(out, text);
}

fn add_name(out: &mut Vec<u8>, name: &Name)
    requires { vec_len out.old + 2 + length name.now ≤ vec_capacity out.old }
    ensures items { out.new.items ≡ out.old.items ++ text_bytes name.now }
    ensures len { vec_len out.new ≡ vec_len out.old + 2 + length name.now }
    ensures room { vec_capacity out.old ≤ vec_capacity out.new }
    ensures fits { IsString 1 64 name.now }
{
    let text = name.as_str();
    add_text(out, text.as_bytes());
}

fn add_value(out: &mut Vec<u8>, value: &Value)
    requires { vec_len out.old + 2 + length value.now ≤ vec_capacity out.old }
    ensures items { out.new.items ≡ out.old.items ++ text_bytes value.now }
    ensures len { vec_len out.new ≡ vec_len out.old + 2 + length value.now }
    ensures room { vec_capacity out.old ≤ vec_capacity out.new }
    ensures fits { IsString 0 112 value.now }
{
    let text = value.as_str();
    add_text(out, text.as_bytes());
}

fn add_place(out: &mut Vec<u8>, place: &Place)
    requires { vec_len out.old + 8 ≤ vec_capacity out.old }
    ensures items { out.new.items ≡ out.old.items ++ place_bytes place.now }
    ensures len { vec_len out.new ≡ vec_len out.old + 8 }
    ensures room { vec_capacity out.old ≤ vec_capacity out.new }
    ensures fits { IsPlace place.now }
{
    add_u16(out, place.file);
    add_u32(out, place.page);
    add_u16(out, place.slot.get());
}

fn add_image(out: &mut Vec<u8>, image: &CellImage)
    requires { vec_len out.old + 128 ≤ vec_capacity out.old }
    ensures items { out.new.items ≡ out.old.items ++ image.now.bytes }
    ensures len { vec_len out.new ≡ vec_len out.old + 128 }
    ensures room { vec_capacity out.old ≤ vec_capacity out.new }
{
    add(out, &image.bytes);
}

fn add_extents(out: &mut Vec<u8>, extents: &[ExtentId])
    requires few { length extents.now < 2 ^ 32 }
    requires room { vec_len out.old + 4 + 6 * length extents.now ≤ vec_capacity out.old }
    ensures items { out.new.items ≡ out.old.items ++ (bytes_of 4 (length extents.now) ++ flat_map extent_bytes extents.now) }
    ensures len { vec_len out.new ≡ vec_len out.old + 4 + 6 * length extents.now }
    ensures room { vec_capacity out.old ≤ vec_capacity out.new }
    ensures fits { AllByRecursion IsExtent extents.now }
{
    add_u32(out, extents.len() as u32);
    for extent in extents {
        add_u16(out, extent.file);
        add_u32(out, extent.extent);
    }
}

fn add_text_of(out: &mut Vec<u8>, description: &Description)
    requires { vec_len out.old + 2 + length description.now ≤ vec_capacity out.old }
    ensures items { out.new.items ≡ out.old.items ++ text_bytes description.now }
    ensures len { vec_len out.new ≡ vec_len out.old + 2 + length description.now }
    ensures room { vec_capacity out.old ≤ vec_capacity out.new }
    ensures fits { IsString 1 65535 description.now }
{
    let text = description.as_str();
    add_text(out, text.as_bytes());
}

fn add_description(out: &mut Vec<u8>, description: &Option<Description>)
    requires { vec_len out.old + 2 + length (description_of description.now) ≤ vec_capacity out.old }
    ensures items { out.new.items ≡ out.old.items ++ text_bytes (description_of description.now) }
    ensures len { vec_len out.new ≡ vec_len out.old + 2 + length (description_of description.now) }
    ensures room { vec_capacity out.old ≤ vec_capacity out.new }
    ensures fits { IsDescription description.now }
{
    match description {
        None => add_text(out, &[]),
        Some(text) => add_text_of(out, text),
    }
}

fn add_mark(out: &mut Vec<u8>, mark: &Option<Mark>)
    requires { vec_len out.old + mark_length mark.now ≤ vec_capacity out.old }
    ensures items { out.new.items ≡ out.old.items ++ mark_bytes mark.now }
    ensures len { vec_len out.new ≡ vec_len out.old + mark_length mark.now }
    ensures room { vec_capacity out.old ≤ vec_capacity out.new }
    ensures fits { IsMark mark.now }
{
    match mark {
        None => {
            add_text(out, &[]);
            add_text(out, &[]);
        }
        Some(mark) => {
            add_name(out, &mark.name);
            add_description(out, &mark.description);
        }
    }
}

fn add_database(out: &mut Vec<u8>, time: u64, family: Guid, branch: Guid)
    requires { vec_len out.old + 40 ≤ vec_capacity out.old }
    ensures items { out.new.items ≡ out.old.items ++ body_bytes (Body.Database time family branch) }
    ensures len { vec_len out.new ≡ vec_len out.old + 40 }
    ensures room { vec_capacity out.old ≤ vec_capacity out.new }
    ensures fits { IsBody (Body.Database time family branch) }
{
    add_u64(out, time);
    add_guid(out, family);
    add_guid(out, branch);
}

fn add_table(out: &mut Vec<u8>, time: u64, number: u32, name: &Name, group: u8)
    requires { vec_len out.old + 15 + length name.now ≤ vec_capacity out.old }
    ensures items { out.new.items ≡ out.old.items ++ body_bytes (Body.Table time number name.now group) }
    ensures len { vec_len out.new ≡ vec_len out.old + 15 + length name.now }
    ensures room { vec_capacity out.old ≤ vec_capacity out.new }
    ensures fits { IsBody (Body.Table time number name.now group) }
{
    add_u64(out, time);
    add_u32(out, number);
    add_name(out, name);
    add_u8(out, group);
}

fn add_write(out: &mut Vec<u8>, place: &Place, before: &CellImage, after: &CellImage)
    requires before { IsCell before.now.bytes }
    requires after { IsCell after.now.bytes }
    requires room { vec_len out.old + 264 ≤ vec_capacity out.old }
    ensures items { out.new.items ≡ out.old.items ++ body_bytes (Body.Write place.now before.now after.now) }
    ensures len { vec_len out.new ≡ vec_len out.old + 264 }
    ensures room { vec_capacity out.old ≤ vec_capacity out.new }
    ensures fits { IsBody (Body.Write place.now before.now after.now) }
{
    add_place(out, place);
    add_image(out, before);
    add_image(out, after);
}

fn add_commit(out: &mut Vec<u8>, time: u64, mark: &Option<Mark>)
    requires { vec_len out.old + 8 + mark_length mark.now ≤ vec_capacity out.old }
    ensures items { out.new.items ≡ out.old.items ++ body_bytes (Body.Commit time mark.now) }
    ensures len { vec_len out.new ≡ vec_len out.old + 8 + mark_length mark.now }
    ensures room { vec_capacity out.old ≤ vec_capacity out.new }
    ensures fits { IsBody (Body.Commit time mark.now) }
{
    add_u64(out, time);
    add_mark(out, mark);
}

fn add_compensation(out: &mut Vec<u8>, place: &Place, cell: &CellImage, undone: Lsn)
    requires cell { IsCell cell.now.bytes }
    requires room { vec_len out.old + 144 ≤ vec_capacity out.old }
    ensures items { out.new.items ≡ out.old.items ++ body_bytes (Body.Compensation place.now cell.now undone) }
    ensures len { vec_len out.new ≡ vec_len out.old + 144 }
    ensures room { vec_capacity out.old ≤ vec_capacity out.new }
    ensures fits { IsBody (Body.Compensation place.now cell.now undone) }
{
    add_place(out, place);
    add_image(out, cell);
    add_u64(out, undone);
}

fn add_stamp(out: &mut Vec<u8>, time: u64, set: Guid)
    requires { vec_len out.old + 24 ≤ vec_capacity out.old }
    ensures items { out.new.items ≡ out.old.items ++ body_bytes (Body.Stamp time set) }
    ensures len { vec_len out.new ≡ vec_len out.old + 24 }
    ensures room { vec_capacity out.old ≤ vec_capacity out.new }
    ensures fits { IsBody (Body.Stamp time set) }
{
    add_u64(out, time);
    add_guid(out, set);
}

fn add_model_change(out: &mut Vec<u8>, time: u64, model: RecoveryModel)
    requires { vec_len out.old + 9 ≤ vec_capacity out.old }
    ensures items { out.new.items ≡ out.old.items ++ body_bytes (Body.Model time model) }
    ensures len { vec_len out.new ≡ vec_len out.old + 9 }
    ensures room { vec_capacity out.old ≤ vec_capacity out.new }
    ensures fits { IsBody (Body.Model time model) }
{
    add_u64(out, time);
    add_model(out, model);
}

fn add_bulk(
    out: &mut Vec<u8>,
    table: u32,
    first: u64,
    count: u32,
    value: &Value,
    extents: &[ExtentId],
)
    requires extents { length extents.now < 2 ^ 32 }
    requires room { vec_len out.old + 22 + length value.now + 6 * length extents.now ≤ vec_capacity out.old }
    ensures items { out.new.items ≡ out.old.items ++ body_bytes (Body.Bulk table first count value.now extents.now) }
    ensures len { vec_len out.new ≡ vec_len out.old + 22 + length value.now + 6 * length extents.now }
    ensures room { vec_capacity out.old ≤ vec_capacity out.new }
    ensures fits { IsBody (Body.Bulk table first count value.now extents.now) }
{
    add_u32(out, table);
    add_u64(out, first);
    add_u32(out, count);
    add_value(out, value);
    add_extents(out, extents);
}

fn add_body(out: &mut Vec<u8>, body: &Body)
    requires limits { KeepsLimits body.now }
    requires room { vec_len out.old + body_length body.now ≤ vec_capacity out.old }
    ensures items { out.new.items ≡ out.old.items ++ body_bytes body.now }
    ensures len { vec_len out.new ≡ vec_len out.old + body_length body.now }
    ensures room { vec_capacity out.old ≤ vec_capacity out.new }
    ensures fits { IsBody body.now }
{
    match body {
        Body::Database {
            time,
            family,
            branch,
        } => add_database(out, *time, *family, *branch),
        Body::Table {
            time,
            number,
            name,
            group,
        } => add_table(out, *time, *number, name, *group),
        Body::Begin => {}
        Body::Write {
            place,
            before,
            after,
        } => add_write(out, place, before, after),
        Body::Commit { time, mark } => add_commit(out, *time, mark),
        Body::RollbackEnd => {}
        Body::Compensation {
            place,
            cell,
            undone,
        } => add_compensation(out, place, cell, *undone),
        Body::Checkpoint { time } => add_u64(out, *time),
        Body::Stamp { time, set } => add_stamp(out, *time, *set),
        Body::Model { time, model } => add_model_change(out, *time, *model),
        Body::Bulk {
            table,
            first,
            count,
            value,
            extents,
        } => add_bulk(out, *table, *first, *count, value, extents.as_slice()),
        Body::Recovery { branch } => add_guid(out, *branch),
    }
}

fn kind(body: &Body) -> u8
    ensures { result ≡ kind_of body.now }
{
    match body {
        Body::Database { .. } => 1,
        Body::Table { .. } => 2,
        Body::Begin => 3,
        Body::Write { .. } => 4,
        Body::Commit { .. } => 5,
        Body::RollbackEnd => 6,
        Body::Compensation { .. } => 7,
        Body::Checkpoint { .. } => 8,
        Body::Stamp { .. } => 9,
        Body::Model { .. } => 10,
        Body::Bulk { .. } => 11,
        Body::Recovery { .. } => 12,
    }
}

// What follows the length of a record.
fn add_inside(out: &mut Vec<u8>, r: &Rec)
    requires limits { KeepsLimits r.now.body }
    requires room { vec_len out.old + 20 + body_length r.now.body ≤ vec_capacity out.old }
    ensures items { out.new.items ≡ out.old.items ++ inside r.now }
    ensures len { vec_len out.new ≡ vec_len out.old + 20 + body_length r.now.body }
    ensures room { vec_capacity out.old ≤ vec_capacity out.new }
    ensures fits { IsRecord r.now }
{
    add_u8(out, kind(&r.body));
    add(out, &[0; 3]);
    add_u64(out, r.lsn);
    add_u64(out, r.begin);
    add_body(out, &r.body);
}

/// Appends the spelling of a record, for which there is room. Takes no memory.
pub fn encode_reserved(r: &Rec, out: &mut Vec<u8>)
    requires limits { KeepsLimits r.now.body }
    requires room { vec_len out.old + length (spelling r.now) ≤ vec_capacity out.old }
    ensures items { out.new.items ≡ out.old.items ++ spelling r.now }
    ensures fits { IsRecord r.now }
    ensures len { vec_len out.new ≡ vec_len out.old + length (spelling r.now) }
    ensures room { vec_capacity out.old ≤ vec_capacity out.new }
{
    let len = spelled_len(r);
    add_u32(out, len as u32);
    add_inside(out, r);
}

/// Appends the spelling of a record. Where there is no memory, `out` stays as it was.
pub fn encode(alloc: Global, r: &Rec, out: &mut Vec<u8>) -> Result<(), AllocError>
    requires { KeepsLimits r.now.body }
    ensures ok { OnOk result (out.new.items ≡ out.old.items ++ spelling r.now) }
    ensures fits { OnOk result (IsRecord r.now) }
    ensures err { OnErr result (out.new.items ≡ out.old.items) }
{
    let mut whole = Vec::with_capacity(alloc, spelled_len(r))?;
    encode_reserved(r, &mut whole);
    out.extend_from_slice(&whole)
}
