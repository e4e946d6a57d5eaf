use crate::database::{Base, FileSpec};
use bk_ids::{Guid, Lsn, Name, Path, RecoveryModel, Sequence, Text};

/// What a backup set holds.
#[derive(Clone, Copy, Debug, PartialEq, Eq)]
pub enum SetKind {
    /// All data extents.
    Full,
    /// The log alone, and bulk-loaded extents.
    Log,
    /// The extents of some files.
    File,
    /// The extents that changed since the base.
    Differential,
}

/// A data file as a set's header names it.
#[derive(Debug)]
pub struct HeaderFile {
    pub spec: FileSpec,
    /// Whether its extents are in the set.
    pub in_set: bool,
}

impl Drop for HeaderFile {
    fn drop(self) {
        let HeaderFile { spec: _, in_set: _ } = self;
    }
}

/// The header of a backup set. Times are milliseconds since 1970-01-01 00:00:00 UTC.
#[derive(Debug)]
pub struct Header {
    /// The version of its layout, from 1.
    pub version: u16,
    pub kind: SetKind,
    /// The recovery model of the database at the backup.
    pub model: RecoveryModel,
    pub copy_only: bool,
    /// Whether a minimal bulk load was committed in its log.
    pub bulk: bool,
    /// Whether it is the first log set of a chain.
    pub begins_chain: bool,
    /// Whether CHECKSUM was asked for.
    pub checksums: bool,
    pub set: Guid,
    pub family: Guid,
    /// The first log record that it holds.
    pub first: Lsn,
    /// The checkpoint at its start; in a log set, the latest one.
    pub checkpoint: Lsn,
    /// One more than the last log record that it holds.
    pub last: Lsn,
    /// The checkpoint of the differential base before this backup, or 0.
    pub database_backup: Lsn,
    pub base: Option<Base>,
    pub start: u64,
    pub finish: u64,
    pub expiry: Option<u64>,
    /// The database's name.
    pub database: Name,
    /// The set's name, empty for none.
    pub name: Text,
    /// The recovery path of the database at the backup.
    pub path: Path,
    /// The filegroups, PRIMARY first.
    pub groups: Sequence<Name>,
    /// The data files, by number.
    pub files: Sequence<HeaderFile>,
    pub log_name: Name,
    pub log_path: Text,
}

impl Drop for Header {
    fn drop(self) {
        let Header {
            version: _,
            kind: _,
            model: _,
            copy_only: _,
            bulk: _,
            begins_chain: _,
            checksums: _,
            set: _,
            family: _,
            first: _,
            checkpoint: _,
            last: _,
            database_backup: _,
            base: _,
            start: _,
            finish: _,
            expiry: _,
            database: _,
            name: _,
            path: _,
            groups: _,
            files: _,
            log_name: _,
            log_path: _,
        } = self;
    }
}
