// What is known of the set that takes a database's place.
ghost use Rattle.std.specs.Prelude.{◌≡◌, IfOk, OnOk};
ghost use Rattle.bk_executing.specs.Restoring.{known_in, spec_in};
ghost use Rattle.bk_known.specs.Known.{IsKnown, KeepsKnown};
ghost use Rattle.bk_media_plans.specs.RestorePlans.{KeepsSet};

use crate::copies::storage_of;
use bk_ids::Name;
use bk_known::{AsOf, DatabaseSpec, Known, spell_known};
use bk_store::copy_tables;
use bk_world::{Header, TableSpec};
use std::alloc::{AllocError, Global};

// The description of a set's database under this name.
fn spec_of(alloc: Global, name: &Name, header: &Header) -> Result<DatabaseSpec, AllocError>
    ensures { IfOk result (λ spec. spec ≡ spec_in name.now header.now) }
{
    let storage = storage_of(alloc, header)?;
    Ok(DatabaseSpec {
        name: name.copy(alloc)?,
        family: header.family,
        path: header.path.copy(alloc)?,
        storage,
    })
}

// What is known of a set's database under this name, as of the set's end.
fn known_of(
    alloc: Global,
    name: &Name,
    header: &Header,
    tables: &[TableSpec],
) -> Result<Known, AllocError>
    ensures { IfOk result (λ known. known ≡ known_in name.now header.now tables.now) }
{
    let tables = copy_tables(alloc, tables)?;
    let spec = spec_of(alloc, name, header)?;
    let as_of = AsOf {
        from: header.last,
        tables,
        model: header.model,
        time: header.finish,
    };
    Ok(Known { spec, as_of })
}

// Whether memory suffices to spell what is known: it has a spelling.
fn spell(alloc: Global, known: &Known) -> Result<(), AllocError>
    requires { KeepsKnown known.now }
    ensures { OnOk result (IsKnown known.now) }
{
    spell_known(alloc, known, &[])?;
    Ok(())
}

/// What is known under this name of the database of a set with this header and these tables, as of the set's end, which has room in a note.
pub(crate) fn known_set(
    alloc: Global,
    name: &Name,
    header: &Header,
    tables: &[TableSpec],
) -> Result<Known, AllocError>
    requires { KeepsSet header.now tables.now }
    ensures known { IfOk result (λ known. known ≡ known_in name.now header.now tables.now) }
    ensures keeps { IfOk result KeepsKnown }
    ensures spelled { IfOk result IsKnown }
{
    let known = known_of(alloc, name, header, tables)?;
    spell(alloc, &known)?;
    Ok(known)
}
