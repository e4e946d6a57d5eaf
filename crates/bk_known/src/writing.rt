//! Writing what is kept of a database in a note.

ghost use Rattle.std.specs.Prelude.{◌≡◌, ◌≤◌, ◌+◌, ◌++◌, length, IfOk, OnOk};
ghost use Rattle.std.specs.List.{AllByRecursion};
ghost use Rattle.bk_fields.specs.Guids.{IsGuid, guid_bytes};
ghost use Rattle.bk_header.specs.Reading.{IsBranch};
ghost use Rattle.bk_header.specs.Spelling.{branch_bytes};
ghost use Rattle.bk_known.specs.Known.{IsAsOf, IsDatabase, IsKnown, IsTable, KeepsKnown, Tells, as_of_bytes, database_bytes, known_bytes, path_bytes, table_bytes, tables_bytes};
ghost use Rattle.bk_storage.specs.Storage.{KeepsStorage};

use crate::known::{AsOf, DatabaseSpec, Known};
use bk_bytes::{append_u8, append_u16, append_u32, append_u64};
use bk_fields::{append_guid, append_model};
use bk_ids::{Branch, Guid};
use bk_storage::{append_name, append_storage};
use bk_world::TableSpec;
use std::alloc::{AllocError, Global};

fn append_family(out: &mut Vec<u8>, family: Guid) -> Result<(), AllocError>
    ensures ok { OnOk result (out.new.items ≡ out.old.items ++ guid_bytes family) }
    ensures fits { OnOk result (IsGuid family) }
{
    append_guid(out, family)
}

fn append_branch(out: &mut Vec<u8>, branch: Branch) -> Result<(), AllocError>
    ensures ok { OnOk result (out.new.items ≡ out.old.items ++ branch_bytes branch) }
    ensures fits { OnOk result (IsBranch branch) }
{
    append_guid(out, branch.guid)?;
    append_u64(out, branch.start)
}

fn append_path(out: &mut Vec<u8>, path: &[Branch]) -> Result<(), AllocError>
    requires { length path.now ≤ 64 }
    ensures ok { OnOk result (out.new.items ≡ out.old.items ++ path_bytes path.now) }
    ensures fits { OnOk result (AllByRecursion IsBranch path.now) }
{
    append_u16(out, path.len() as u16)?;
    for branch in path {
        append_branch(out, *branch)?;
    }
    Ok(())
}

fn append_table(out: &mut Vec<u8>, table: &TableSpec) -> Result<(), AllocError>
    ensures ok { OnOk result (out.new.items ≡ out.old.items ++ table_bytes table.now) }
    ensures fits { OnOk result (IsTable table.now) }
{
    append_u32(out, table.number)?;
    append_name(out, &table.name)?;
    append_u8(out, table.group)
}

fn append_tables(out: &mut Vec<u8>, tables: &[TableSpec]) -> Result<(), AllocError>
    requires { length tables.now ≤ 64 }
    ensures ok { OnOk result (out.new.items ≡ out.old.items ++ tables_bytes tables.now) }
    ensures fits { OnOk result (AllByRecursion IsTable tables.now) }
{
    append_u16(out, tables.len() as u16)?;
    for table in tables {
        append_table(out, table)?;
    }
    Ok(())
}

fn append_database(out: &mut Vec<u8>, spec: &DatabaseSpec) -> Result<(), AllocError>
    requires short { length spec.now.path ≤ 64 }
    requires storage { KeepsStorage spec.now.storage }
    ensures ok { OnOk result (out.new.items ≡ out.old.items ++ database_bytes spec.now) }
    ensures fits { OnOk result (IsDatabase spec.now) }
{
    append_name(out, &spec.name)?;
    append_family(out, spec.family)?;
    append_path(out, spec.path.as_slice())?;
    append_storage(out, &spec.storage)
}

fn append_as_of(out: &mut Vec<u8>, as_of: &AsOf) -> Result<(), AllocError>
    requires few { length as_of.now.tables ≤ 64 }
    ensures ok { OnOk result (out.new.items ≡ out.old.items ++ as_of_bytes as_of.now) }
    ensures fits { OnOk result (IsAsOf as_of.now) }
{
    append_u64(out, as_of.from)?;
    append_tables(out, as_of.tables.as_slice())?;
    append_model(out, as_of.model)?;
    append_u64(out, as_of.time)
}

fn append_known(out: &mut Vec<u8>, known: &Known) -> Result<(), AllocError>
    requires { KeepsKnown known.now }
    ensures ok { OnOk result (out.new.items ≡ out.old.items ++ known_bytes known.now) }
    ensures fits { OnOk result (IsKnown known.now) }
{
    append_database(out, &known.spec)?;
    append_as_of(out, &known.as_of)
}

/// The bytes of a note: what is kept of a database, with at most 8 groups, 16 data files, 64 branches and 64 tables, and the note of the layer above behind it. The first
/// part has at most 9,728 bytes.
pub fn spell_known(alloc: Global, known: &Known, note: &[u8]) -> Result<Vec<u8>, AllocError>
    requires { KeepsKnown known.now }
    ensures bytes { IfOk result (λ bytes. bytes.items ≡ known_bytes known.now ++ note.now) }
    ensures tells { IfOk result (λ bytes. Tells bytes.items known.now note.now) }
    ensures fits { IfOk result (λ bytes. IsKnown known.now) }
    ensures short { IfOk result (λ bytes. length bytes.items ≤ 9728 + length note.now) }
{
    let mut bytes = Vec::new(alloc);
    append_known(&mut bytes, known)?;
    bytes.extend_from_slice(note)?;
    Ok(bytes)
}
