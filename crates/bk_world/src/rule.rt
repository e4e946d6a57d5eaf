ghost use Rattle.std.specs.Prelude.{◌≡◌, IfOk};
ghost use Rattle.std.specs.String.{string_bytes};
ghost use Rattle.bk_world.specs.declared.rule.Rule.TheVariants.{SetDamaged, OtherFamily};
ghost use Rattle.bk_world.specs.Text.{limit_text, rule_text, status_text};

use bk_ids::{Digest, Guid, Lsn, Text};
use std::alloc::{AllocError, Global};

/// A limit that a statement would pass.
#[derive(Clone, Copy, Debug, PartialEq, Eq)]
pub enum Limit {
    /// There are 16 databases.
    Databases,
    /// The database would have more than 16 data files.
    Files,
    /// The database would have more than 8 filegroups.
    Groups,
    /// The data files of the database would have more than 4,096 extents in all.
    Extents,
    /// The database has 64 tables.
    Tables,
    /// The key is above 9223372036854775807.
    Key,
    /// The transaction has 1,024 writes.
    Writes,
    /// The medium has 65,535 sets.
    Sets,
    /// Log records or GUIDs are used up, but for those that what is never refused may need.
    Lsn,
}

impl Limit {
    /// Its word in a refusal.
    pub fn text(self) -> &'static str
        ensures { result.now ≡ limit_text self }
    {
        match self {
            Limit::Databases => "DATABASES",
            Limit::Files => "FILES",
            Limit::Groups => "GROUPS",
            Limit::Extents => "EXTENTS",
            Limit::Tables => "TABLES",
            Limit::Key => "KEY",
            Limit::Writes => "WRITES",
            Limit::Sets => "SETS",
            Limit::Lsn => "LSN",
        }
    }
}

/// The status of a database that isn't online, as a refusal says it.
#[derive(Clone, Copy, Debug, PartialEq, Eq)]
pub enum StatusWord {
    /// Some of it was restored, and it waits for more or for its recovery.
    Restoring,
    /// It can be read alone.
    Standby,
    /// A restore of it was cut short.
    Interrupted,
}

impl StatusWord {
    /// The word itself.
    pub fn text(self) -> &'static str
        ensures { result.now ≡ status_text self }
    {
        match self {
            StatusWord::Restoring => "RESTORING",
            StatusWord::Standby => "STANDBY",
            StatusWord::Interrupted => "INTERRUPTED",
        }
    }
}

/// Why a statement was refused: the first rule that it breaks, with the values that were compared.
#[derive(Debug, Drop)]
pub enum Rule {
    /// No statement can go on at the token on this line, or at the end of the script, whose last line it is.
    Syntax { line: u32 },
    /// The statement has more than 65,536 bytes, a name of more than 64 bytes, or a path of more than 100.
    TooLong,
    /// The name is no database's, or the session has no current database.
    NoSuchDatabase,
    /// There is a database of this name, or the name is one that the server keeps for itself.
    DatabaseExists,
    /// The database can't be used.
    NotOnline { status: StatusWord },
    /// The current database has no table of this name.
    NoSuchTable,
    /// The current database has a table of this name.
    TableExists,
    /// The current database has no filegroup of this name.
    NoSuchGroup,
    /// The table has a row with this key.
    DuplicateKey { key: u64 },
    /// The value has so many bytes, more than 112.
    ValueTooLong { bytes: u64 },
    /// An open transaction of this session wrote the row.
    Locked { session: u8 },
    /// The files of the table's filegroup, whose name this is, have no room for the row.
    GroupFull { group: Text },
    /// The session has an open transaction.
    InTransaction,
    /// The session has no open transaction.
    NoTransaction,
    /// A backup of the database runs.
    JobRunning,
    /// No backup of the session's current database runs.
    NoJob,
    /// There is no file at the medium's path.
    MediaMissing,
    /// The file is no medium, or what stands at the position is no backup set.
    NotMedia,
    /// The medium has no set at this position, but so many sets.
    NoSuchSet { position: u64, count: u64 },
    /// The set's digest isn't that of its bytes.
    SetDamaged { stored: Digest, found: Digest },
    /// This session, and none of a lesser number, has an open transaction in the database.
    DatabaseInUse { session: u8 },
    /// The set is of another family of databases.
    OtherFamily { database: Guid, set: Guid },
    /// Log records from `archive` to below `end` weren't backed up, and would be lost.
    TailNotBackedUp { archive: Lsn, end: Lsn },
    /// The set doesn't name this file.
    UnitNotInSet { unit: Text },
    /// The recovery path has 64 branches, and can take no more.
    PathFull,
    /// A data file of another database has this path, or two data files of the database would have it; or two of its data files or filegroups would have this name.
    FileInUse { what: Text },
    /// The statement would pass a limit.
    LimitReached { which: Limit },
    /// This program doesn't know the statement on this line yet.
    NotBuilt { line: u32 },
}

impl Rule {
    /// Its number, its name and its values, joined by single blanks.
    pub fn text(&self, alloc: Global) -> Result<String, AllocError>
        ensures { IfOk result (λ text. string_bytes text ≡ rule_text self.now) }
    {
        match self {
            Rule::Syntax { line } => format!(in alloc; "1 Syntax {line}"),
            Rule::TooLong => String::from_str(alloc, "2 TooLong"),
            Rule::NoSuchDatabase => String::from_str(alloc, "3 NoSuchDatabase"),
            Rule::DatabaseExists => String::from_str(alloc, "4 DatabaseExists"),
            Rule::NotOnline { status } => {
                let status = status.text();
                format!(in alloc; "5 NotOnline {status}")
            }
            Rule::NoSuchTable => String::from_str(alloc, "7 NoSuchTable"),
            Rule::TableExists => String::from_str(alloc, "8 TableExists"),
            Rule::NoSuchGroup => String::from_str(alloc, "9 NoSuchGroup"),
            Rule::DuplicateKey { key } => format!(in alloc; "10 DuplicateKey {key}"),
            Rule::ValueTooLong { bytes } => format!(in alloc; "11 ValueTooLong {bytes}"),
            Rule::Locked { session } => format!(in alloc; "12 Locked {session}"),
            Rule::GroupFull { group } => {
                let group = group.as_str();
                format!(in alloc; "13 GroupFull {group}")
            }
            Rule::InTransaction => String::from_str(alloc, "16 InTransaction"),
            Rule::NoTransaction => String::from_str(alloc, "17 NoTransaction"),
            Rule::JobRunning => String::from_str(alloc, "23 JobRunning"),
            Rule::NoJob => String::from_str(alloc, "24 NoJob"),
            Rule::MediaMissing => String::from_str(alloc, "30 MediaMissing"),
            Rule::NotMedia => String::from_str(alloc, "31 NotMedia"),
            Rule::NoSuchSet { position, count } => {
                format!(in alloc; "32 NoSuchSet {position} {count}")
            }
            Rule::SetDamaged { stored, found } => damaged_text(alloc, *stored, *found),
            Rule::DatabaseInUse { session } => { format!(in alloc; "35 DatabaseInUse {session}") }
            Rule::OtherFamily { database, set } => family_text(alloc, *database, *set),
            Rule::TailNotBackedUp { archive, end } => {
                format!(in alloc; "37 TailNotBackedUp {archive} {end}")
            }
            Rule::UnitNotInSet { unit } => {
                let unit = unit.as_str();
                format!(in alloc; "48 UnitNotInSet {unit}")
            }
            Rule::PathFull => String::from_str(alloc, "52 PathFull 64"),
            Rule::FileInUse { what } => {
                let what = what.as_str();
                format!(in alloc; "53 FileInUse {what}")
            }
            Rule::LimitReached { which } => {
                let which = which.text();
                format!(in alloc; "54 LimitReached {which}")
            }
            Rule::NotBuilt { line } => format!(in alloc; "99 NotBuilt {line}"),
        }
    }
}

fn damaged_text(alloc: Global, stored: Digest, found: Digest) -> Result<String, AllocError>
    ensures { IfOk result (λ text. string_bytes text ≡ rule_text (SetDamaged stored found)) }
{
    let stored_text = stored.text(alloc)?;
    let found_text = found.text(alloc)?;
    format!(in alloc; "33 SetDamaged {stored_text} {found_text}")
}

fn family_text(alloc: Global, database: Guid, set: Guid) -> Result<String, AllocError>
    ensures { IfOk result (λ text. string_bytes text ≡ rule_text (OtherFamily database set)) }
{
    let database_text = database.text(alloc)?;
    let set_text = set.text(alloc)?;
    format!(in alloc; "36 OtherFamily {database_text} {set_text}")
}
