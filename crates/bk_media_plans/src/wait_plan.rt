//! What `:wait` comes to.

use bk_ids::{Name, Rec, Sequence, Text};
use bk_world::{BackupRow, Header, Open, Reply, Rule};

/// How the backup of a database ends that ran beside the sessions.
#[derive(Drop)]
pub struct Finish {
    /// The name of its database.
    pub name: Name,
    /// The path of its medium, of 1 to 100 bytes.
    pub path: Text,
    /// What is open in the database, and stays open.
    pub transactions: Sequence<Open>,
    /// The stamp of its set, as the record that the database says at its end.
    pub records: Sequence<Rec>,
    /// The header of its set.
    pub header: Header,
    /// That header, on which the database is based.
    pub base: Header,
    /// The set's row of backupset, with that header too.
    pub row: BackupRow,
    pub reply: Reply,
}

/// What `:wait` comes to.
#[derive(Drop)]
pub enum WaitPlan {
    /// It is refused by this rule, the first that it breaks, and does nothing.
    Refused { rule: Rule },
    /// The backup of the current database ends so: the rest of its set is copied, the stamp is said, the set is sealed behind those on its
    /// medium, its row comes to backupset, and the database is based on it.
    Finishes { finish: Finish },
}
