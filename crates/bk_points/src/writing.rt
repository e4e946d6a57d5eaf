//! Writing what is kept of a database's log and units in a note.

ghost use Rattle.std.specs.Prelude.{◌≡◌, ◌^◌, ◌<◌, ◌≤◌, [], ◌++◌, length, Some, IfOk, OnOk};
ghost use Rattle.std.specs.List.{AllByRecursion};
ghost use Rattle.bk_bytes.specs.Codec.{IsString};
ghost use Rattle.bk_bytes.specs.Field.{bytes_of};
ghost use Rattle.bk_points.specs.Points.{IsBase, IsId, IsLogPoints, IsPoints, IsState, IsStatus, IsUnit, KeepsPoints, KeepsStatus, base_bytes, flags_number, id_bytes, log_points_bytes, log_points_of, points_bytes, points_form, state_bytes, status_bytes, unit_bytes, units_bytes};

use crate::points::Points;
use bk_bytes::{append_text, append_u8, append_u16, append_u32, append_u64};
use bk_fields::append_guid;
use bk_ids::{Lsn, Text, UnitId};
use bk_world::{Base, State, Status, Unit};
use std::alloc::{AllocError, Global};

fn flags(chain: bool, began: bool) -> u8
    ensures { result ≡ flags_number chain began }
{
    u8::from(chain) + 2 * u8::from(began)
}

fn append_log_points(out: &mut Vec<u8>, points: &Points) -> Result<(), AllocError>
    ensures ok { OnOk result (out.new.items ≡ out.old.items ++ log_points_bytes (log_points_of points.now)) }
    ensures fits { OnOk result (IsLogPoints (log_points_of points.now)) }
{
    append_u64(out, points.next_checkpoint)?;
    append_u64(out, points.next_kept)?;
    append_u64(out, points.archive)?;
    append_u64(out, points.kept)?;
    append_u64(out, points.checkpoint)?;
    append_u8(out, flags(points.chain, points.began))
}

fn append_base(out: &mut Vec<u8>, base: Option<Base>) -> Result<(), AllocError>
    ensures ok { OnOk result (out.new.items ≡ out.old.items ++ base_bytes base) }
    ensures fits { OnOk result (IsBase base) }
{
    match base {
        Some(base) => {
            append_u8(out, 1)?;
            append_guid(out, base.set)?;
            append_u64(out, base.lsn)
        }
        None => append_u8(out, 0),
    }
}

fn append_standby(out: &mut Vec<u8>, path: &Text) -> Result<(), AllocError>
    requires some { 1 ≤ length path.now }
    requires short { length path.now ≤ 100 }
    ensures ok { OnOk result (out.new.items ≡ out.old.items ++ (bytes_of 1 2 ++ (bytes_of 2 (length path.now) ++ path.now))) }
    ensures fits { OnOk result (IsString 1 100 path.now) }
{
    append_u8(out, 2)?;
    let text = path.as_str();
    append_text(out, text.as_bytes())
}

fn append_status(out: &mut Vec<u8>, status: &Status) -> Result<(), AllocError>
    requires { KeepsStatus status.now }
    ensures ok { OnOk result (out.new.items ≡ out.old.items ++ status_bytes status.now) }
    ensures fits { OnOk result (IsStatus status.now) }
{
    match status {
        Status::Online => append_u8(out, 0),
        Status::Down => append_u8(out, 1),
        Status::Standby(path) => append_standby(out, path),
    }
}

fn append_id(out: &mut Vec<u8>, id: UnitId) -> Result<(), AllocError>
    ensures ok { OnOk result (out.new.items ≡ out.old.items ++ id_bytes id) }
    ensures fits { OnOk result (IsId id) }
{
    match id {
        UnitId::File(file) => {
            append_u8(out, 0)?;
            append_u16(out, file)
        }
        UnitId::Page(file, page) => {
            append_u8(out, 1)?;
            append_u16(out, file)?;
            append_u32(out, page)
        }
    }
}

fn append_restoring(out: &mut Vec<u8>, base: Option<Base>, redo: Lsn) -> Result<(), AllocError>
    ensures ok { OnOk result (out.new.items ≡ out.old.items ++ (bytes_of 1 3 ++ (base_bytes base ++ bytes_of 8 redo))) }
    ensures fits { OnOk result (IsBase base × (redo < 2 ^ 64)) }
{
    append_u8(out, 3)?;
    append_base(out, base)?;
    append_u64(out, redo)
}

fn append_state(out: &mut Vec<u8>, state: State) -> Result<(), AllocError>
    ensures ok { OnOk result (out.new.items ≡ out.old.items ++ state_bytes state) }
    ensures fits { OnOk result (IsState state) }
{
    match state {
        State::Online => append_u8(out, 0),
        State::Offline => append_u8(out, 1),
        State::Bad => append_u8(out, 2),
        State::Restoring { base, redo } => append_restoring(out, base, redo),
    }
}

fn append_unit(out: &mut Vec<u8>, unit: Unit) -> Result<(), AllocError>
    ensures ok { OnOk result (out.new.items ≡ out.old.items ++ unit_bytes unit) }
    ensures fits { OnOk result (IsUnit unit) }
{
    append_id(out, unit.id)?;
    append_state(out, unit.state)
}

fn append_units(out: &mut Vec<u8>, units: &[Unit]) -> Result<(), AllocError>
    requires { length units.now ≤ 256 }
    ensures ok { OnOk result (out.new.items ≡ out.old.items ++ units_bytes units.now) }
    ensures fits { OnOk result (AllByRecursion IsUnit units.now) }
{
    append_u16(out, units.len() as u16)?;
    for unit in units {
        append_unit(out, *unit)?;
    }
    Ok(())
}

fn append_points(out: &mut Vec<u8>, points: &Points) -> Result<(), AllocError>
    requires { KeepsPoints points.now }
    ensures ok { OnOk result (out.new.items ≡ out.old.items ++ points_bytes points.now) }
    ensures fits { OnOk result (IsPoints points.now) }
{
    append_log_points(out, points)?;
    append_base(out, points.base)?;
    append_status(out, &points.status)?;
    append_units(out, points.units.as_slice())
}

/// The bytes of what is kept of a database's log and units: at most 256 units, and a standby file whose path has 1 to 100 bytes. There are at most 10,667 of them.
pub fn spell_points(alloc: Global, points: &Points) -> Result<Vec<u8>, AllocError>
    requires { KeepsPoints points.now }
    ensures bytes { IfOk result (λ bytes. bytes.items ≡ points_bytes points.now) }
    ensures read { IfOk result (λ bytes. points_form.reading bytes.items ≡ Some (points.now, [])) }
    ensures fits { IfOk result (λ bytes. IsPoints points.now) }
    ensures short { IfOk result (λ bytes. length bytes.items ≤ 10667) }
{
    let mut bytes = Vec::new(alloc);
    append_points(&mut bytes, points)?;
    Ok(bytes)
}
