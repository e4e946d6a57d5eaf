//! A set that was opened on a medium.
ghost use Rattle.std.specs.Prelude.{◌≡◌, ◌<◌, ◌+◌, ◌*◌, ◌^◌};
ghost use Rattle.bk_volume.specs.Stored.{Stored, log_place};

use crate::staging::EXTENT_BYTES;
use bk_body::Front;
use bk_world::{Header, TableSpec};
use std::marker::Model;

/// A set that was opened on a medium: its header, its tables, and where its extents and its log lie in the medium's file.
#[derive(Drop)]
pub struct StoredSet {
    pub(crate) front: Front,
    pub(crate) at: u64,
    pub(crate) log: u64,
}

impl Model for StoredSet {
    ghost Value = { Stored };

    ghost view = { λ s. record { header = s.front.header; tables = s.front.tables; extents = s.front.extents; log = s.log; at = s.at } };

    ghost invariant = { λ s. s.at + 65542 * s.front.extents + 8 + s.log < 2 ^ 64 };
}

impl StoredSet {
    /// Its header.
    pub fn header(&self) -> &Header
        ensures { result.now ≡ self.now.header }
    {
        &self.front.header
    }

    /// Its header, for the set itself. It takes no memory.
    pub fn into_header(self) -> Header
        ensures { result ≡ self.header }
    {
        let StoredSet { front, .. } = self;
        let Front { header, .. } = front;
        header
    }

    /// The tables of its database.
    pub fn tables(&self) -> &[TableSpec]
        ensures { result.now ≡ self.now.tables }
    {
        self.front.tables.as_slice()
    }

    /// How many extents it has.
    pub fn extents(&self) -> u32
        ensures { result ≡ self.now.extents }
    {
        self.front.extents
    }

    /// How many bytes of log it has.
    pub fn log_len(&self) -> u64
        ensures { result ≡ self.now.log }
    {
        self.log
    }

    // Where the extent of this index begins in the medium's file.
    pub(crate) fn extent_place(&self, i: u32) -> u64
        requires { i < self.now.extents }
        ensures place { result ≡ self.now.at + 65542 * i }
        ensures small { result + 65542 < 2 ^ 64 }
    {
        self.at + EXTENT_BYTES * u64::from(i)
    }

    // Where the log begins in the medium's file.
    pub(crate) fn log_place(&self) -> u64
        ensures place { result ≡ log_place self.now }
        ensures small { result + self.now.log < 2 ^ 64 }
    {
        self.at + EXTENT_BYTES * u64::from(self.front.extents) + 8
    }
}
