use crate::description::Description;
use crate::guid::Guid;
use crate::name::Name;
use crate::path::Lsn;
use crate::sequence::Sequence;
use crate::slot::Slot;
use crate::value::Value;

/// The place of a cell: its file from 1, its page there, and its slot on the page.
#[derive(Clone, Copy, Debug, PartialEq, Eq, PartialOrd, Ord)]
pub struct Place {
    pub file: u16,
    pub page: u32,
    pub slot: Slot,
}

/// An extent of a data file, counted from 1.
#[derive(Clone, Copy, Debug, PartialEq, Eq, PartialOrd, Ord)]
pub struct ExtentId {
    pub file: u16,
    pub extent: u32,
}

/// The 128 bytes of a cell.
#[derive(Clone, Copy, Debug, PartialEq, Eq)]
pub struct CellImage {
    pub bytes: [u8; 128],
}

/// How much a database logs, and whether its log can be backed up.
#[derive(Clone, Copy, Debug, PartialEq, Eq)]
pub enum RecoveryModel {
    /// The log isn't backed up.
    Simple,
    /// Every change is logged in full.
    Full,
    /// Bulk loads may be logged minimally.
    BulkLogged,
}

/// The mark of a transaction: its name, and the text after it where there is one.
#[derive(Debug)]
pub struct Mark {
    pub name: Name,
    pub description: Option<Description>,
}

impl Drop for Mark {
    fn drop(self) {
        let Mark {
            name: _,
            description: _,
        } = self;
    }
}

/// A log record: its number, the number of the first record of its transaction or 0, and what it tells.
#[derive(Debug)]
pub struct Rec {
    pub lsn: Lsn,
    pub begin: Lsn,
    pub body: Body,
}

impl Drop for Rec {
    fn drop(self) {
        let Rec {
            lsn: _,
            begin: _,
            body: _,
        } = self;
    }
}

/// What a log record tells. Times are milliseconds since 1970-01-01 00:00:00 UTC.
#[derive(Debug, Drop)]
pub enum Body {
    /// A database was made.
    Database {
        time: u64,
        family: Guid,
        branch: Guid,
    },
    /// A table was made in a filegroup, counted from 0.
    Table {
        time: u64,
        number: u32,
        name: Name,
        group: u8,
    },
    /// A transaction began.
    Begin,
    /// It wrote a cell.
    Write {
        place: Place,
        before: CellImage,
        after: CellImage,
    },
    /// It was committed.
    Commit {
        time: u64,
        mark: Option<Mark>,
    },
    /// It was rolled back, and all its writes are undone.
    RollbackEnd,
    /// A write of it was undone.
    Compensation {
        place: Place,
        cell: CellImage,
        undone: Lsn,
    },
    /// A checkpoint.
    Checkpoint {
        time: u64,
    },
    /// A backup set was finished.
    Stamp {
        time: u64,
        set: Guid,
    },
    /// The recovery model was set.
    Model {
        time: u64,
        model: RecoveryModel,
    },
    /// Rows with rising keys and one value were loaded into extents.
    Bulk {
        table: u32,
        first: u64,
        count: u32,
        value: Value,
        extents: Sequence<ExtentId>,
    },
    /// The database was recovered, and this branch began.
    Recovery {
        branch: Guid,
    },
}
