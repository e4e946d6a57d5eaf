//! What an instance keeps in memory.

use bk_ids::{Guid, Lsn, Name, Path, Sequence, Text};
use bk_machine::Job;
use bk_shown::Shown;
use bk_world::{Base, FileSpec, Open, Status, Unit};

/// A database, with what its log shows.
pub struct Database {
    pub name: Name,
    pub family: Guid,
    /// PRIMARY first.
    pub groups: Sequence<Name>,
    /// By number.
    pub files: Sequence<FileSpec>,
    pub log_name: Name,
    pub log_path: Text,
    pub path: Path,
    /// Where its next log backup begins.
    pub archive: Lsn,
    /// The least number that the live log still holds.
    pub kept: Lsn,
    /// Its latest checkpoint.
    pub checkpoint: Lsn,
    /// Whether its log can be backed up.
    pub chain: bool,
    /// Whether a log backup began the chain.
    pub began: bool,
    /// What a differential would be based on.
    pub base: Option<Base>,
    pub status: Status,
    pub units: Sequence<Unit>,
    /// The backup of it that runs beside the sessions.
    pub job: Option<Job>,
    /// What is open in it, in the order in which it began.
    pub transactions: Sequence<Open>,
    /// What its log shows, up to its end.
    pub shown: Shown,
}

impl Drop for Database {
    fn drop(self) {
        let Database {
            name: _,
            family: _,
            groups: _,
            files: _,
            log_name: _,
            log_path: _,
            path: _,
            archive: _,
            kept: _,
            checkpoint: _,
            chain: _,
            began: _,
            base: _,
            status: _,
            units: _,
            job: _,
            transactions: _,
            shown: _,
        } = self;
    }
}

/// A session of which there is something to say.
pub struct Session {
    /// Its number, from 1.
    pub number: u8,
    /// The name of its current database, as it was asked for.
    pub current: Option<Text>,
    /// Whether its next backup only starts.
    pub starts: bool,
}

impl Drop for Session {
    fn drop(self) {
        let Session {
            number: _,
            current: _,
            starts: _,
        } = self;
    }
}

/// What an instance keeps in memory.
pub struct Kept {
    /// The instance's number, from 1.
    pub number: u64,
    /// The low number of the GUID that it draws next.
    pub counter: u64,
    /// The current session, from 1.
    pub session: u8,
    /// The sessions in which a database was named, or none is any more, or of whose next backup it was said whether it only starts.
    pub sessions: Vec<Session>,
    /// Its databases, in the order in which they were made.
    pub databases: Vec<Database>,
}

impl Drop for Kept {
    fn drop(self) {
        let Kept {
            number: _,
            counter: _,
            session: _,
            sessions: _,
            databases: _,
        } = self;
    }
}
