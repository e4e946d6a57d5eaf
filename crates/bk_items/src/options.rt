//! The options of BACKUP and RESTORE.

use bk_ids::{Sequence, Text};

/// An option that is read and has no effect.
#[derive(Clone, Copy, Debug, PartialEq, Eq)]
pub enum IdleOption {
    Stats,
    Rewind,
    NoRewind,
    Unload,
    NoUnload,
    Description,
    MediaName,
    MediaDescription,
    BufferCount,
    MaxTransferSize,
    BlockSize,
    StopOnError,
    NoCompression,
}

/// Which options without effect are there.
#[derive(Clone, Copy, Debug, PartialEq, Eq)]
pub struct IdleOptions {
    pub stats: bool,
    pub rewind: bool,
    pub no_rewind: bool,
    pub unload: bool,
    pub no_unload: bool,
    pub description: bool,
    pub media_name: bool,
    pub media_description: bool,
    pub buffer_count: bool,
    pub max_transfer_size: bool,
    pub block_size: bool,
    pub stop_on_error: bool,
    pub no_compression: bool,
}

/// The options of a BACKUP. What is not there is None or false.
#[derive(Debug)]
pub struct BackupOptions {
    /// INIT, or NOINIT
    pub init: Option<bool>,
    /// FORMAT, or NOFORMAT
    pub format: Option<bool>,
    /// SKIP, or NOSKIP
    pub skip: Option<bool>,
    /// CHECKSUM, or NO_CHECKSUM
    pub checksum: Option<bool>,
    pub name: Option<Text>,
    /// EXPIREDATE, in milliseconds since 1970-01-01 00:00:00 UTC
    pub expire: Option<u64>,
    /// RETAINDAYS, in days
    pub retain: Option<u64>,
    pub copy_only: bool,
    pub differential: bool,
    pub no_recovery: bool,
    pub no_truncate: bool,
    pub idle: IdleOptions,
}

impl Drop for BackupOptions {
    fn drop(self) {
        let BackupOptions {
            init: _,
            format: _,
            skip: _,
            checksum: _,
            name: _,
            expire: _,
            retain: _,
            copy_only: _,
            differential: _,
            no_recovery: _,
            no_truncate: _,
            idle: _,
        } = self;
    }
}

/// A mark at which a restore stops: its text, and the log sequence number that it says where it is `lsn:` and a number up
/// to 2^62.
#[derive(Debug)]
pub struct StopMark {
    pub text: Text,
    pub lsn: Option<u64>,
}

impl Drop for StopMark {
    fn drop(self) {
        let StopMark { text: _, lsn: _ } = self;
    }
}

/// Where a restore stops. Times are in milliseconds since 1970-01-01 00:00:00 UTC.
#[derive(Debug, Drop)]
pub enum Stopping {
    /// `STOPAT = text`, with the time that the text says
    At { text: Text, time: u64 },
    /// `STOPATMARK = mark AFTER time`
    AtMark { mark: StopMark, after: Option<u64> },
    /// `STOPBEFOREMARK = mark AFTER time`
    BeforeMark { mark: StopMark, after: Option<u64> },
}

/// How a restore leaves the database.
#[derive(Debug, Drop)]
pub enum Ending {
    Recovery,
    NoRecovery,
    /// `STANDBY = path`
    Standby { path: Text },
}

/// `MOVE name TO path`
#[derive(Debug)]
pub struct FileMove {
    pub name: Text,
    pub path: Text,
}

impl Drop for FileMove {
    fn drop(self) {
        let FileMove { name: _, path: _ } = self;
    }
}

/// The options of a RESTORE. What is not there is None, false or empty.
#[derive(Debug)]
pub struct RestoreOptions {
    /// `FILE = n`
    pub file: Option<u64>,
    pub ending: Option<Ending>,
    pub stop: Option<Stopping>,
    pub replace: bool,
    pub partial: bool,
    pub moves: Sequence<FileMove>,
    /// CHECKSUM, or NO_CHECKSUM
    pub checksum: Option<bool>,
    pub idle: IdleOptions,
}

impl Drop for RestoreOptions {
    fn drop(self) {
        let RestoreOptions {
            file: _,
            ending: _,
            stop: _,
            replace: _,
            partial: _,
            moves: _,
            checksum: _,
            idle: _,
        } = self;
    }
}
