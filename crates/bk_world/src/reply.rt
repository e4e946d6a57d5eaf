use crate::database::Storage;
use crate::header::Header;
use crate::msdb::{BackupRow, MarkRow, RestoreRow};
use crate::rule::Rule;
use bk_ids::{Lsn, Sequence, Value};

/// What is listed, a line of columns each.
#[derive(Debug, Drop)]
pub enum Listing {
    /// Sets of a medium, each with its position from 1.
    Sets { sets: Sequence<(u64, Header)> },
    /// The data files and the log of the database of a set.
    Files { storage: Storage },
    /// The rows of backupset.
    Backups { rows: Sequence<BackupRow> },
    /// The rows of restorehistory.
    Restores { rows: Sequence<RestoreRow> },
    /// The rows of logmarkhistory.
    Marks { rows: Sequence<MarkRow> },
}

/// What is answered to a statement.
#[derive(Debug, Drop)]
pub enum Reply {
    /// It is done.
    Done,
    /// Nothing is answered.
    Nothing,
    /// It changed this many rows.
    Counted {
        rows: u64,
    },
    /// The rows that it selected, by rising key.
    Selected {
        rows: Sequence<(u64, Value)>,
    },
    /// A backup set was made: its position on the medium from 1, the first log record that it holds, its checkpoint, and
    /// one more than the last record.
    SetMade {
        position: u32,
        first: Lsn,
        checkpoint: Lsn,
        last: Lsn,
    },
    /// A backup was started.
    JobStarted,
    /// The set at this position can be read.
    Valid {
        position: u64,
    },
    /// What was asked for.
    Listed {
        listing: Listing,
    },
    /// The database was recovered, and shows what was committed below this number.
    Recovered {
        at: Lsn,
    },
    /// It was refused, and changed nothing.
    Refused {
        rule: Rule,
    },
}
