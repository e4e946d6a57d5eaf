use bk_world::{BackupRow, MarkRow, RestoreRow};

/// A row of one of the tables of msdb.
#[derive(Debug, Drop)]
pub enum HistoryRow {
    /// Of backupset.
    Backup(BackupRow),
    /// Of restorehistory.
    Restore(RestoreRow),
    /// Of logmarkhistory.
    Mark(MarkRow),
}
