use bk_ids::{Guid, Lsn, Name, Path, RecoveryModel, Sequence};
use bk_world::{Storage, TableSpec};

/// A database's name, its family, the path that it is on, and where it lies.
#[derive(Debug)]
pub struct DatabaseSpec {
    pub name: Name,
    /// What its backups have in common.
    pub family: Guid,
    /// Its branches, the oldest first.
    pub path: Path,
    pub storage: Storage,
}

impl Drop for DatabaseSpec {
    fn drop(self) {
        let DatabaseSpec {
            name: _,
            family: _,
            path: _,
            storage: _,
        } = self;
    }
}

/// What the log records below a number say.
#[derive(Debug)]
pub struct AsOf {
    /// That number.
    pub from: Lsn,
    /// The tables that were made, in their order.
    pub tables: Sequence<TableSpec>,
    pub model: RecoveryModel,
    /// The last time, in milliseconds since 1970-01-01 00:00:00 UTC; 0 where no record carries one.
    pub time: u64,
}

impl Drop for AsOf {
    fn drop(self) {
        let AsOf {
            from: _,
            tables: _,
            model: _,
            time: _,
        } = self;
    }
}

/// What a database's note holds before that of the layer above.
#[derive(Debug)]
pub struct Known {
    pub spec: DatabaseSpec,
    pub as_of: AsOf,
}

impl Drop for Known {
    fn drop(self) {
        let Known { spec: _, as_of: _ } = self;
    }
}
