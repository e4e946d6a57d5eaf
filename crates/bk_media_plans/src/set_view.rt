//! A set of a medium, as it is read for a restore.

ghost use Rattle.std.specs.Prelude.{◌≡◌, true, IfOk};
ghost use Rattle.bk_machine.specs.statements.Restore as restore;
ghost use Rattle.bk_media_plans.specs.Found.{Found, IsFit, KeepsFound, under};

use bk_header::{encode, keeps};
use bk_record::Records;
use bk_world::{Header, TableSpec};
use std::alloc::{AllocError, Global};
use std::marker::Model;

// How many tables a database has at most.
const MOST_TABLES: usize = 64;

/// A set of a medium: its header, the tables of its database, and its log.
#[derive(Drop)]
pub struct SetView<'a> {
    pub header: &'a Header,
    pub tables: &'a [TableSpec],
    pub log: &'a Records,
}

impl<'a> Model for SetView<'a> {
    ghost Value = { Found };

    ghost view = { λ f. record { header = f.header.now; tables = f.tables.now; log = f.log.now } };
}

/// Whether a set keeps under this header what every set keeps; the header has a spelling then. The error comes where memory is wanting.
pub(crate) fn is_fit(alloc: Global, header: &Header, set: &SetView<'_>) -> Result<bool, AllocError>
    ensures fit { IfOk result (λ is. is ≡ true → IsFit (under header.now set.now)) }
    ensures found { IfOk result (λ is. KeepsFound (under header.now set.now) → is ≡ true) }
{
    if !keeps(header) || set.tables.len() > MOST_TABLES {
        return Ok(false);
    }
    let mut bytes = Vec::new(alloc);
    encode(alloc, header, &mut bytes)?;
    Ok(true)
}

/// The position of the set that `FILE` chooses, from 1 on: the first one where there is no `FILE`. A medium has none at 0.
pub fn position_of(file: Option<u64>) -> u64
    ensures { result ≡ restore.position_of file }
{
    file.unwrap_or(1)
}
