use bk_ids::{Guid, Lsn, Name, Sequence, Text, UnitId};

/// A data file of a database.
#[derive(Debug)]
pub struct FileSpec {
    /// Its number, from 1 in the order of CREATE DATABASE.
    pub number: u16,
    /// Its filegroup, from 0.
    pub group: u8,
    /// Its size in data extents of 64 KB.
    pub extents: u32,
    /// Its logical name.
    pub name: Name,
    /// Its path, 1 to 100 bytes.
    pub path: Text,
}

impl Drop for FileSpec {
    fn drop(self) {
        let FileSpec {
            number: _,
            group: _,
            extents: _,
            name: _,
            path: _,
        } = self;
    }
}

/// A table of a database.
#[derive(Debug)]
pub struct TableSpec {
    /// Its number, which no other table of the database has.
    pub number: u32,
    /// Its name.
    pub name: Name,
    /// Its filegroup, from 0.
    pub group: u8,
}

impl Drop for TableSpec {
    fn drop(self) {
        let TableSpec {
            number: _,
            name: _,
            group: _,
        } = self;
    }
}

/// The filegroups, data files and log file of a database.
#[derive(Debug)]
pub struct Storage {
    /// PRIMARY first.
    pub groups: Sequence<Name>,
    /// By number.
    pub files: Sequence<FileSpec>,
    pub log_name: Name,
    /// The path of its log, 1 to 100 bytes.
    pub log_path: Text,
}

impl Drop for Storage {
    fn drop(self) {
        let Storage {
            groups: _,
            files: _,
            log_name: _,
            log_path: _,
        } = self;
    }
}

/// A database as CREATE DATABASE makes it.
#[derive(Debug, Drop)]
pub struct Creation {
    pub name: Name,
    pub family: Guid,
    /// Its first branch.
    pub branch: Guid,
    /// When it was made, in milliseconds since 1970-01-01 00:00:00 UTC.
    pub time: u64,
    pub storage: Storage,
}

/// What a differential is based on: a full set, and its checkpoint.
#[derive(Clone, Copy, Debug, PartialEq, Eq)]
pub struct Base {
    pub set: Guid,
    pub lsn: Lsn,
}

/// Whether a database can be used.
#[derive(Debug, Drop)]
pub enum Status {
    /// It can be read and written.
    Online,
    /// It can be read, and its undone cells lie in this standby file.
    Standby(Text),
    /// It is being restored, or its restore was interrupted.
    Down,
}

/// What may be done with a unit of restore.
#[derive(Clone, Copy, Debug, PartialEq, Eq)]
pub enum State {
    /// It is in use.
    Online,
    /// It wasn't restored since a partial restore.
    Offline,
    /// It is lost or suspect, or its restore was interrupted.
    Bad,
    /// It was restored, and is as of `redo`.
    Restoring { base: Option<Base>, redo: Lsn },
}

/// A unit of restore and its state.
#[derive(Clone, Copy, Debug, PartialEq, Eq)]
pub struct Unit {
    pub id: UnitId,
    pub state: State,
}
