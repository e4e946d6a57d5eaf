//! What a log shows.

ghost use Rattle.std.specs.Prelude.{◌≡◌, IfOk, []};
ghost use Rattle.bk_groups.specs.Groups.{AreFiles};

use crate::rows::Rows;
use bk_groups::Groups;
use bk_ids::{Lsn, Place, RecoveryModel, Value};
use bk_world::{FileSpec, TableSpec};
use std::alloc::{AllocError, Global};

/// A write that is pending: of a transaction that no record ends, and not undone. Where the row isn't there, its value is
/// none.
pub struct Written {
    pub lsn: Lsn,
    /// The number of its transaction's first record.
    pub begin: Lsn,
    pub place: Place,
    pub table: u32,
    pub key: u64,
    pub before: Option<Value>,
    pub value: Option<Value>,
}

impl Drop for Written {
    fn drop(self) {
        let Written {
            lsn: _,
            begin: _,
            place: _,
            table: _,
            key: _,
            before: _,
            value: _,
        } = self;
    }
}

/// What the log of a database shows: its tables, the committed rows, the place of each row, the writes that are
/// pending, the recovery model, the last time (milliseconds since 1970-01-01 00:00:00 UTC), and the number that the next
/// record gets.
pub struct Shown {
    pub(crate) alloc: Global,
    pub(crate) tables: Vec<TableSpec>,
    pub(crate) rows: Rows,
    pub(crate) written: Vec<Written>,
    pub(crate) groups: Groups,
    pub(crate) model: RecoveryModel,
    pub(crate) time: u64,
    pub(crate) end: Lsn,
}

impl Drop for Shown {
    fn drop(self) {
        let Shown {
            alloc: _,
            tables: _,
            rows: _,
            written: _,
            groups: _,
            model: _,
            time: _,
            end: _,
        } = self;
    }
}

impl Shown {
    ghost use Rattle.bk_shown.specs.Shown.{Shows};

    /// What a log without records shows, in these files: numbered 1, 2, .. in their order, each with at most 4,096
    /// extents.
    pub fn new(alloc: Global, files: &[FileSpec]) -> Result<Shown, AllocError>
        requires { AreFiles files.now }
        ensures { IfOk result (λ shown. Shows files.now [] shown) }
    {
        Ok(Shown {
            alloc,
            tables: Vec::new(alloc),
            rows: Rows::new(alloc),
            written: Vec::new(alloc),
            groups: Groups::new(alloc, files)?,
            model: RecoveryModel::Full,
            time: 0,
            end: 1,
        })
    }

    /// What nothing is known of but the number that its next record gets.
    pub fn ended(alloc: Global, end: Lsn) -> Result<Shown, AllocError>
        ensures { IfOk result (λ shown. shown.«end» ≡ «end») }
    {
        let mut shown = Shown::new(alloc, &[])?;
        shown.end = end;
        Ok(shown)
    }
}
