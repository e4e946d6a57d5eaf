//! What an instance keeps of its databases, seen from where it is kept.

ghost use Rattle.bk_kept.specs.declared.kept.Database.{Database};
ghost use Rattle.bk_kept.specs.declared.kept.Kept.{Kept};

use crate::kept::Session;
use bk_ids::{Guid, Lsn, Name, Path, Sequence, Text};
use bk_machine::Job;
use bk_shown::Shown;
use bk_world::{Base, FileSpec, Open, Status, Unit};
use std::marker::Model;

/// A database, with what its log shows, seen from where it is kept.
#[derive(Drop)]
pub struct DatabaseView<'a> {
    pub name: &'a Name,
    pub family: Guid,
    /// PRIMARY first.
    pub groups: &'a Sequence<Name>,
    /// By number.
    pub files: &'a Sequence<FileSpec>,
    pub log_name: &'a Name,
    pub log_path: &'a Text,
    pub path: &'a Path,
    /// Where its next log backup begins.
    pub archive: Lsn,
    /// The least number that the live log still holds.
    pub kept: Lsn,
    /// Its latest checkpoint.
    pub checkpoint: Lsn,
    /// Whether its log can be backed up.
    pub chain: bool,
    /// Whether a log backup began the chain.
    pub began: bool,
    /// What a differential would be based on.
    pub base: Option<Base>,
    pub status: &'a Status,
    pub units: &'a Sequence<Unit>,
    /// The backup of it that runs beside the sessions.
    pub job: &'a Option<Job>,
    /// What is open in it, in the order in which it began.
    pub transactions: &'a Sequence<Open>,
    /// What its log shows, up to its end.
    pub shown: &'a Shown,
}

impl<'a> Model for DatabaseView<'a> {
    ghost Value = { Database };

    ghost view = { λ d. record {
      name = d.name.now;
      family = d.family;
      groups = d.groups.now;
      files = d.files.now;
      log_name = d.log_name.now;
      log_path = d.log_path.now;
      path = d.path.now;
      archive = d.archive;
      kept = d.kept;
      checkpoint = d.checkpoint;
      chain = d.chain;
      began = d.began;
      base = d.base;
      status = d.status.now;
      units = d.units.now;
      job = d.job.now;
      transactions = d.transactions.now;
      shown = d.shown.now;
    } };
}

/// What an instance keeps, seen from where it is kept: over this its statements are planned.
#[derive(Drop)]
pub struct InstanceView<'a> {
    /// The instance's number, from 1.
    pub number: u64,
    /// The low number of the GUID that it draws next.
    pub counter: u64,
    /// The current session, from 1.
    pub session: u8,
    /// The sessions in which a database was named, or none is any more, or of whose next backup it was said whether it only starts.
    pub sessions: &'a Vec<Session>,
    /// Its databases, in the order in which they were made.
    pub databases: Vec<DatabaseView<'a>>,
}

impl<'a> Model for InstanceView<'a> {
    ghost Value = { Kept };

    ghost view = { λ k. record { number = k.number; counter = k.counter; session = k.session; sessions = k.sessions.now; databases = k.databases } };
}
