use bk_ids::{Lsn, Sequence};
use bk_world::{Base, Status, Unit};

/// The points of a database's log, and its units of restore.
#[derive(Debug)]
pub struct Points {
    /// The number of the checkpoint that is said next, or 0: once its record is in the log, it is the latest one.
    pub next_checkpoint: Lsn,
    /// The least number that the live log still holds then.
    pub next_kept: Lsn,
    /// Where its next log backup begins.
    pub archive: Lsn,
    /// The least number that its live log still holds.
    pub kept: Lsn,
    /// Its latest checkpoint.
    pub checkpoint: Lsn,
    /// Whether its log can be backed up.
    pub chain: bool,
    /// Whether a log backup began the chain.
    pub began: bool,
    /// What a differential would be based on.
    pub base: Option<Base>,
    /// Whether it can be used.
    pub status: Status,
    /// Its units of restore, by file, then page.
    pub units: Sequence<Unit>,
}

impl Drop for Points {
    fn drop(self) {
        let Points {
            next_checkpoint: _,
            next_kept: _,
            archive: _,
            kept: _,
            checkpoint: _,
            chain: _,
            began: _,
            base: _,
            status: _,
            units: _,
        } = self;
    }
}

// The points of a log, without what the database is based on and how it can be used.
#[derive(Clone, Copy)]
pub(crate) struct LogPoints {
    pub next_checkpoint: Lsn,
    pub next_kept: Lsn,
    pub archive: Lsn,
    pub kept: Lsn,
    pub checkpoint: Lsn,
    pub chain: bool,
    pub began: bool,
}
