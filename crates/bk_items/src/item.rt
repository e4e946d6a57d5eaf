//! The items of a script.

use crate::options::{BackupOptions, RestoreOptions};
use crate::rows::RowStatement;
use bk_ids::{RecoveryModel, Sequence, Text};

/// A named set of system rows.
#[derive(Clone, Copy, Debug, PartialEq, Eq)]
pub enum Catalog {
    BackupSet,
    RestoreHistory,
    LogMarkHistory,
    Databases,
}

/// How a transaction is marked.
#[derive(Debug, Drop)]
pub enum Marking {
    Unmarked,
    Marked,
    Described(Text),
}

/// The name of a transaction, and how it is marked.
#[derive(Debug)]
pub struct NamedTransaction {
    pub name: Text,
    pub marking: Marking,
}

impl Drop for NamedTransaction {
    fn drop(self) {
        let NamedTransaction {
            name: _,
            marking: _,
        } = self;
    }
}

/// What the size of a file is counted in.
#[derive(Clone, Copy, Debug, PartialEq, Eq)]
pub enum SizeUnit {
    Kb,
    Mb,
    Gb,
    Extents,
}

/// The size of a file, as it is written.
#[derive(Clone, Copy, Debug, PartialEq, Eq)]
pub struct Size {
    pub count: u64,
    pub unit: Option<SizeUnit>,
}

/// A file of a new database.
#[derive(Debug)]
pub struct NewFile {
    pub name: Text,
    pub path: Text,
    pub size: Option<Size>,
}

impl Drop for NewFile {
    fn drop(self) {
        let NewFile {
            name: _,
            path: _,
            size: _,
        } = self;
    }
}

/// A filegroup of a new database, with its files.
#[derive(Debug)]
pub struct NewGroup {
    pub name: Text,
    pub files: Sequence<NewFile>,
}

impl Drop for NewGroup {
    fn drop(self) {
        let NewGroup { name: _, files: _ } = self;
    }
}

/// A file or a filegroup, by its name.
#[derive(Debug, Drop)]
pub enum UnitName {
    File(Text),
    Group(Text),
}

/// A page of a data file, as it is written.
#[derive(Clone, Copy, Debug, PartialEq, Eq)]
pub struct PageName {
    /// The number of the file
    pub file: u64,
    /// The number of the page in it
    pub page: u64,
}

/// The units that a RESTORE lists: files and filegroups, or pages. The list of files and filegroups may be empty.
#[derive(Debug, Drop)]
pub enum RestoredUnits {
    Named { units: Sequence<UnitName> },
    Pages { pages: Sequence<PageName> },
}

/// What is asked of a medium.
#[derive(Clone, Copy, Debug, PartialEq, Eq)]
pub enum MediumQuery {
    Headers,
    FileList,
    Verify,
}

/// One item of a script: a statement, a console line, or what is neither.
#[derive(Debug, Drop)]
pub enum ScriptItem {
    /// `CREATE DATABASE database`, with the files of PRIMARY and of other filegroups, and the log
    CreateDatabase {
        database: Text,
        primary: Sequence<NewFile>,
        groups: Sequence<NewGroup>,
        log: Option<NewFile>,
    },
    /// `BACKUP DATABASE database`, or these units of it, `TO DISK = disk`
    BackupDatabase {
        database: Text,
        units: Sequence<UnitName>,
        disk: Text,
        options: BackupOptions,
    },
    /// `BACKUP LOG database TO DISK = disk`
    BackupLog {
        database: Text,
        disk: Text,
        options: BackupOptions,
    },
    /// `RESTORE DATABASE database`, or these units of it, `FROM DISK = disk` or without
    RestoreDatabase {
        database: Text,
        units: RestoredUnits,
        disk: Option<Text>,
        options: RestoreOptions,
    },
    /// `RESTORE LOG database FROM DISK = disk` or without
    RestoreLog {
        database: Text,
        disk: Option<Text>,
        options: RestoreOptions,
    },
    /// RESTORE HEADERONLY, FILELISTONLY or VERIFYONLY `FROM DISK = disk`, of one set or not
    QueryMedium {
        query: MediumQuery,
        disk: Text,
        file: Option<u64>,
    },
    /// `CREATE TABLE table (k BIGINT PRIMARY KEY, v VARCHAR(112))`, with `ON group` or without
    CreateTable {
        table: Text,
        group: Option<Text>,
    },
    /// A statement on the rows of a table
    Rows {
        table: Text,
        statement: RowStatement,
    },
    /// `BEGIN TRAN`, with a name or without
    Begin {
        transaction: Option<NamedTransaction>,
    },
    /// `COMMIT`
    Commit,
    /// `ROLLBACK`
    Rollback,
    /// `CHECKPOINT`
    Checkpoint,
    /// `USE database`
    Use {
        database: Text,
    },
    /// `ALTER DATABASE database SET RECOVERY model`
    SetRecovery {
        database: Text,
        model: RecoveryModel,
    },
    /// `DROP DATABASE database`
    DropDatabase {
        database: Text,
    },
    /// A SELECT of system rows
    SelectCatalog {
        catalog: Catalog,
    },
    /// `:session number`
    Session {
        number: u64,
    },
    /// `:start`
    Start,
    /// `:step count`
    Step {
        count: u64,
    },
    /// `:wait`
    Wait,
    /// Where no statement can go on, the line of the token there
    Syntax {
        line: u32,
    },
    /// A statement with a length above its limit
    TooLong,
}

/// An item with the line of its first token, from 1. All lines from 4,294,967,295 on count as that one.
#[derive(Debug, Drop)]
pub struct ScriptEntry {
    pub item: ScriptItem,
    pub line: u32,
}
