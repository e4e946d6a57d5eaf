//! The front of a set: its header, the tables, and the number of its extents.

ghost use Rattle.std.specs.Prelude.{◌≡◌, ◌≤◌, length, OnOk, IfOk};
ghost use Rattle.std.specs.List.{AllByRecursion};
ghost use Rattle.bk_header.specs.Conditions.{IsHeader, KeepsConditions};
ghost use Rattle.bk_header.specs.Reading.{header_form};
ghost use Rattle.bk_reading.specs.Reading.{Reads};
ghost use Rattle.bk_body.specs.Conditions.{IsTable};
ghost use Rattle.bk_body.specs.Reading.{front_form};
ghost use Rattle.bk_body.specs.Spelling.{front_bytes};

use crate::tables::{append_tables, read_tables};
use bk_bytes::{append_u32, split_u32};
use bk_header::{decode, encode};
use bk_ids::Sequence;
use bk_reading::Unread;
use bk_world::{Header, TableSpec};
use std::alloc::{AllocError, Global};

/// What stands before the extents of a set.
#[derive(Debug, Drop)]
pub struct Front {
    pub header: Header,
    /// The tables of the database.
    pub tables: Sequence<TableSpec>,
    /// How many extents follow.
    pub extents: u32,
}

/// The bytes of a front.
#[tactic(auto, unfolding(crate::specs::Spelling::front_bytes))]
pub fn spell_front(
    alloc: Global,
    header: &Header,
    tables: &[TableSpec],
    extents: u32,
) -> Result<Vec<u8>, AllocError>
    requires keeps { KeepsConditions header.now }
    requires few { length tables.now ≤ 64 }
    ensures bytes { IfOk result (λ bytes. bytes.items ≡ front_bytes header.now tables.now extents) }
    ensures header { OnOk result (IsHeader header.now) }
    ensures tables { OnOk result (AllByRecursion IsTable tables.now) }
{
    let mut bytes = Vec::new(alloc);
    encode(alloc, header, &mut bytes)?;
    append_tables(&mut bytes, tables)?;
    append_u32(&mut bytes, extents)?;
    Ok(bytes)
}

fn read_header(alloc: Global, bytes: &[u8]) -> Result<(Header, &[u8]), Unread>
    ensures { Reads (λ x. (x.0, x.1.now)) result (header_form.reading bytes.now) }
{
    match decode(alloc, bytes)? {
        Some((header, size)) => Ok((header, &bytes[size..])),
        None => Err(Unread::Unspelled),
    }
}

/// The front at the front of bytes, and what follows it.
#[tactic(auto, unfolding(crate::specs::Reading::front_form))]
pub fn read_front(alloc: Global, bytes: &[u8]) -> Result<(Front, &[u8]), Unread>
    ensures { Reads (λ x. ((x.0.header, (x.0.tables, x.0.extents)), x.1.now)) result (front_form.reading bytes.now) }
{
    let (header, rest) = read_header(alloc, bytes)?;
    let (tables, rest) = read_tables(alloc, rest)?;
    let Some((extents, rest)) = split_u32(rest) else {
        return Err(Unread::Unspelled);
    };
    let front = Front {
        header,
        tables,
        extents,
    };
    Ok((front, rest))
}
