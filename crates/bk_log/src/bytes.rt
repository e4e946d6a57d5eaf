// The bytes of the records that a log holds.
ghost use Rattle.std.specs.Prelude.{◌≡◌, ◌≤◌, ◌++◌, ℕ, List, length, drop, vec_len, OnOk, OnErr};
ghost use Rattle.std.specs.List.{flat_map, AllByRecursion};
ghost use Rattle.bk_ids.specs.declared.record.Rec.{Rec as LogRecord};
ghost use Rattle.bk_record.specs.Spelling.{spelling, IsRecord, KeepsLimits};

use crate::places::place_of;
use bk_ids::Rec;
use bk_record::encode;
use std::alloc::{AllocError, Global};
use std::marker::Model;

/// The bytes of the records that a log holds, from its kept point on. Those of older ones, which the first segment may still have,
/// stand before them and aren't seen.
pub struct LogBytes {
    all: Vec<u8>,
    start: usize,
}

impl Drop for LogBytes {
    fn drop(self) {
        let LogBytes { all: _, start: _ } = self;
    }
}

impl Model for LogBytes {
    ghost Value = { List ℕ };

    ghost view = { λ b. drop b.start b.all.items };

    ghost invariant = { λ b. b.start ≤ vec_len b.all };
}

impl LogBytes {
    // The bytes behind so many records.
    pub fn behind(all: Vec<u8>, count: u64) -> LogBytes
        ensures { (rs : List LogRecord) → all.items ≡ flat_map spelling rs → AllByRecursion IsRecord rs → count ≤ length rs → result ≡ flat_map spelling (drop count rs) }
    {
        let start = place_of(&all, count);
        LogBytes { all, start }
    }

    /// The bytes.
    pub fn as_slice(&self) -> &[u8]
        ensures { result.now ≡ self.now }
    {
        &self.all[self.start..]
    }

    /// Adds the bytes of a record. Where there is no memory nothing is added.
    pub fn append(&mut self, alloc: Global, r: &Rec) -> Result<(), AllocError>
        requires { KeepsLimits r.now.body }
        ensures more { OnOk result (self.new ≡ self.old ++ spelling r.now) }
        ensures fits { OnOk result (IsRecord r.now) }
        ensures err { OnErr result (self.new ≡ self.old) }
    {
        encode(alloc, r, &mut self.all)
    }
}
