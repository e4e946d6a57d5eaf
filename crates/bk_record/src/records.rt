//! Log records that stand whole.

ghost use Rattle.std.specs.Prelude.{List, None};
ghost use Rattle.bk_ids.specs.declared.record.Rec.{Rec};
ghost use Rattle.bk_record.specs.Log.{IsLog};
ghost use Rattle.bk_record.specs.Records.{records_from};

use crate::check::check_log;
use crate::reading::split_record;
use crate::walk::BadRecord;
use crate::writing::encode;
use bk_ids::{Lsn, Rec};
use std::alloc::{AllocError, Global};
use std::marker::Model;

/// Whole log records, spelled one after the other. Contracts see their bytes.
#[derive(Debug)]
pub struct Records {
    bytes: Vec<u8>,
}

impl Drop for Records {
    fn drop(self) {
        let Records { bytes: _ } = self;
    }
}

impl Model for Records {
    ghost use Rattle.std.specs.Prelude.{List, ℕ};
    ghost use Rattle.bk_record.specs.Records.{AreRecords};

    ghost Value = { List ℕ };

    ghost view = { λ records. records.bytes.items };

    ghost invariant = { λ records. AreRecords records.bytes.items };
}

// The bytes from the first record on whose number isn't below this one.
fn rest_from(log: &[u8], lsn: Lsn) -> &[u8]
    ensures { (records : List Rec) → IsLog log.now records None → IsLog result.now (records_from lsn records) None }
{
    let mut rest = log;
    loop {
        match split_record(rest) {
            Some((record, after)) if record.lsn < lsn => rest = after,
            _ => return rest,
        }
    }
}

impl Records {
    ghost use Rattle.std.specs.Prelude.{◌≡◌, ◌↔◌, ◌++◌, [], List, Some, None, MatchResult, IsTrue, OnOk, OnErr, IfOk};
    ghost use Rattle.bk_ids.specs.declared.record.Rec.{Rec};
    ghost use Rattle.bk_record.specs.Log.{IsLog};
    ghost use Rattle.bk_record.specs.Spelling.{spelling, IsRecord, KeepsLimits};
    ghost use Rattle.bk_record.specs.Records.{AreRecords, records_from, records_in};

    /// No records. It takes no memory.
    pub fn none(alloc: Global) -> Self
        ensures { result ≡ [] }
    {
        Records {
            bytes: Vec::new(alloc),
        }
    }

    /// The records that these bytes are, or where the first place is at which none is spelled.
    pub fn new(bytes: Vec<u8>) -> Result<Self, BadRecord>
        ensures { MatchResult result (λ r. (r ≡ bytes.items) × AreRecords bytes.items) (λ e. (records : List Rec) × IsLog bytes.items records (Some e.at)) }
    {
        check_log(bytes.as_slice())?;
        Ok(Records { bytes })
    }

    /// A copy of the records that all of these bytes are, or `None` where they aren't whole records.
    pub fn read(alloc: Global, bytes: &[u8]) -> Result<Option<Self>, AllocError>
        ensures { IfOk result (λ read. read ≡ records_in bytes.now) }
    {
        match check_log(bytes) {
            Ok(()) => {
                let bytes = bytes.to_vec(alloc)?;
                Ok(Some(Records { bytes }))
            }
            Err(_) => Ok(None),
        }
    }

    /// Records of their own with the same bytes.
    pub fn copy(&self, alloc: Global) -> Result<Self, AllocError>
        ensures { IfOk result (λ copy. copy ≡ self.now) }
    {
        let bytes = self.bytes.to_vec(alloc)?;
        Ok(Records { bytes })
    }

    /// Adds a record behind the others. Where there is no memory they stay as they were.
    pub fn push(&mut self, alloc: Global, r: &Rec) -> Result<(), AllocError>
        requires { KeepsLimits r.now.body }
        ensures ok { OnOk result (self.new ≡ self.old ++ spelling r.now) }
        ensures fits { OnOk result (IsRecord r.now) }
        ensures err { OnErr result (self.new ≡ self.old) }
    {
        encode(alloc, r, &mut self.bytes)
    }

    /// Adds records behind the others. Where there is no memory they stay as they were.
    pub fn append(&mut self, more: &Records) -> Result<(), AllocError>
        ensures ok { OnOk result (self.new ≡ self.old ++ more.now) }
        ensures err { OnErr result (self.new ≡ self.old) }
    {
        self.bytes.extend_from_slice(&more.bytes)?;
        Ok(())
    }

    /// Records of their own: those from the first one on whose number isn't below `lsn`.
    pub fn from(&self, alloc: Global, lsn: Lsn) -> Result<Self, AllocError>
        ensures { IfOk result (λ rest. (records : List Rec) → IsLog self.now records None → IsLog rest (records_from lsn records) None) }
    {
        let bytes = rest_from(&self.bytes, lsn).to_vec(alloc)?;
        Ok(Records { bytes })
    }

    /// Whether there are none.
    pub fn is_empty(&self) -> bool
        ensures { IsTrue result ↔ (self.now ≡ []) }
    {
        self.bytes.is_empty()
    }

    /// Their bytes.
    pub fn as_slice(&self) -> &[u8]
        ensures bytes { result.now ≡ self.now }
        ensures whole { AreRecords self.now }
    {
        &self.bytes
    }
}
