//! Log records whose cells and texts are slices of the bytes that they were read from.

use crate::extents::Extents;
use bk_ids::{Guid, Lsn, Place, RecoveryModel, Slot};

/// A log record over borrowed bytes. Its fields are those of `bk_ids::Rec`.
#[derive(Clone, Copy, Debug, PartialEq, Eq)]
pub struct RecRef<'a> {
    pub lsn: Lsn,
    pub begin: Lsn,
    pub body: BodyRef<'a>,
}

/// The place of a cell as a record spells it. Its fields are those of `bk_ids::Place`; the slot is below 63 in each record
/// that is read.
#[derive(Clone, Copy, Debug, PartialEq, Eq)]
pub struct PlaceRef {
    pub file: u16,
    pub page: u32,
    pub slot: u16,
}

impl PlaceRef {
    ghost use Rattle.std.specs.Prelude.{◌≡◌, ◌≤◌, MatchOption};
    ghost use Rattle.bk_record.specs.View.{place_of};

    /// The place, or `None` exactly where the slot isn't below 63.
    pub fn place(self) -> Option<Place>
        ensures { MatchOption result (63 ≤ self.slot) (λ place. place ≡ place_of self) }
    {
        let slot = Slot::new(self.slot)?;
        Some(Place {
            file: self.file,
            page: self.page,
            slot,
        })
    }
}

/// The mark of a transaction, over borrowed bytes.
#[derive(Clone, Copy, Debug, PartialEq, Eq)]
pub struct MarkRef<'a> {
    pub name: &'a str,
    pub description: Option<&'a str>,
}

/// What a log record tells, over borrowed bytes. Its variants are those of `bk_ids::Body`.
#[derive(Clone, Copy, Debug, PartialEq, Eq)]
pub enum BodyRef<'a> {
    Database {
        time: u64,
        family: Guid,
        branch: Guid,
    },
    Table {
        time: u64,
        number: u32,
        name: &'a str,
        group: u8,
    },
    Begin,
    Write {
        place: PlaceRef,
        before: &'a [u8; 128],
        after: &'a [u8; 128],
    },
    Commit {
        time: u64,
        mark: Option<MarkRef<'a>>,
    },
    RollbackEnd,
    Compensation {
        place: PlaceRef,
        cell: &'a [u8; 128],
        undone: Lsn,
    },
    Checkpoint {
        time: u64,
    },
    Stamp {
        time: u64,
        set: Guid,
    },
    Model {
        time: u64,
        model: RecoveryModel,
    },
    Bulk {
        table: u32,
        first: u64,
        count: u32,
        value: &'a str,
        extents: Extents<'a>,
    },
    Recovery {
        branch: Guid,
    },
}
