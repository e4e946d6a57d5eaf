//! The rows of the tables in memory.

ghost use Rattle.std.specs.Prelude.{◌≡◌, OnOk, OnErr};
ghost use Rattle.bk_msdb.specs.Msdb.{with_blob};
ghost use Rattle.bk_msdb.specs.Rows as rows;
ghost use Rattle.bk_msdb.specs.Rows.{no_rows, with_row};

use crate::reading::read_row;
use bk_ids::Sequence;
use bk_machine::HistoryRow;
use bk_reading::Unread;
use bk_world::{BackupRow, MarkRow, RestoreRow};
use std::alloc::{AllocError, Global};
use std::marker::Model;

/// The rows of the tables, each in order, which contracts see as lists.
#[derive(Drop)]
pub struct Tables {
    backups: Vec<BackupRow>,
    restores: Vec<RestoreRow>,
    marks: Vec<MarkRow>,
}

impl Model for Tables {
    ghost Value = { rows.Tables };

    ghost view = { λ t. record { backups = t.backups.items; restores = t.restores.items; marks = t.marks.items } };
}

impl Tables {
    /// Tables without rows.
    pub fn new(alloc: Global) -> Tables
        ensures { result ≡ no_rows }
    {
        Tables {
            backups: Vec::new(alloc),
            restores: Vec::new(alloc),
            marks: Vec::new(alloc),
        }
    }

    /// The rows of backupset, in order.
    pub fn into_backups(self) -> Sequence<BackupRow>
        ensures { result ≡ self.backups }
    {
        let Tables { backups, .. } = self;
        Sequence::new(backups)
    }

    /// The rows of restorehistory, in order.
    pub fn into_restores(self) -> Sequence<RestoreRow>
        ensures { result ≡ self.restores }
    {
        let Tables { restores, .. } = self;
        Sequence::new(restores)
    }

    /// The rows of logmarkhistory, in order.
    pub fn into_marks(self) -> Sequence<MarkRow>
        ensures { result ≡ self.marks }
    {
        let Tables { marks, .. } = self;
        Sequence::new(marks)
    }

    /// Puts a row behind those of its table. `AllocError` leaves the tables as they were.
    pub fn push(&mut self, row: HistoryRow) -> Result<(), AllocError>
        ensures ok { OnOk result (self.new ≡ with_row self.old row) }
        ensures err { OnErr result (self.new ≡ self.old) }
    {
        match row {
            HistoryRow::Backup(row) => self.backups.push(row)?,
            HistoryRow::Restore(row) => self.restores.push(row)?,
            HistoryRow::Mark(row) => self.marks.push(row)?,
        }
        Ok(())
    }

    /// Puts the row that a blob spells behind those of its table, if it spells one.
    pub fn read(&mut self, alloc: Global, blob: &[u8]) -> Result<(), AllocError>
        ensures { OnOk result (self.new ≡ with_blob self.old blob.now) }
    {
        match read_row(alloc, blob) {
            Ok(row) => self.push(row),
            Err(Unread::Unspelled) => Ok(()),
            Err(Unread::NoMemory) => Err(AllocError),
        }
    }
}
