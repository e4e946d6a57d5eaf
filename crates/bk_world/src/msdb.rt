use crate::header::{Header, SetKind};
use bk_ids::{Guid, Lsn, Mark, Name, Text};

/// A row of backupset: a finished backup.
#[derive(Debug)]
pub struct BackupRow {
    /// The position of its set on the medium, from 1.
    pub position: u32,
    pub header: Header,
}

impl Drop for BackupRow {
    fn drop(self) {
        let BackupRow {
            position: _,
            header: _,
        } = self;
    }
}

/// What a row of restorehistory says was restored.
#[derive(Clone, Copy, Debug, PartialEq, Eq)]
pub enum RestoreKind {
    /// A set of this kind.
    Set(SetKind),
    /// Files or filegroups.
    Files,
    /// Pages.
    Pages,
}

/// A row of restorehistory: an accepted RESTORE from a medium.
#[derive(Debug)]
pub struct RestoreRow {
    /// Milliseconds since 1970-01-01 00:00:00 UTC.
    pub time: u64,
    pub database: Name,
    pub set: Guid,
    pub kind: RestoreKind,
    /// Whether REPLACE was given.
    pub replace: bool,
    /// Whether RECOVERY was the ending asked for.
    pub recovery: bool,
    /// The text of its stop option.
    pub stop: Option<Text>,
}

impl Drop for RestoreRow {
    fn drop(self) {
        let RestoreRow {
            time: _,
            database: _,
            set: _,
            kind: _,
            replace: _,
            recovery: _,
            stop: _,
        } = self;
    }
}

/// A row of logmarkhistory: a marked commit.
#[derive(Debug)]
pub struct MarkRow {
    pub database: Name,
    pub mark: Mark,
    /// The number of its commit record.
    pub lsn: Lsn,
    /// Milliseconds since 1970-01-01 00:00:00 UTC.
    pub time: u64,
}

impl Drop for MarkRow {
    fn drop(self) {
        let MarkRow {
            database: _,
            mark: _,
            lsn: _,
            time: _,
        } = self;
    }
}
