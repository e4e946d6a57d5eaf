//! Walking over the records of a log.

ghost use Rattle.std.specs.Prelude.{◌≡◌, ◌≤◌, length, drop};
ghost use Rattle.std.specs.Iterator.{at_most};
ghost use Rattle.bk_record.specs.Log.{Left, IsNext};

use crate::reading::split_record;
use crate::view::RecRef;
use std::marker::Model;
use thiserror::Error;

/// No record is spelled at this place, in bytes from the log's start.
#[derive(Clone, Copy, Debug, PartialEq, Eq, Error)]
#[error("no log record is spelled at byte {at}")]
pub struct BadRecord {
    pub at: usize,
}

/// A walk over the records of a log. Contracts see the bytes that are left, and their place.
#[derive(Debug, Drop)]
pub struct LogCursor<'a> {
    bytes: &'a [u8],
    at: usize,
}

impl<'a> Model for LogCursor<'a> {
    ghost Value = { Left };

    ghost view = { λ cursor. record { bytes = drop cursor.at cursor.bytes.now; at = cursor.at } };

    ghost invariant = { λ cursor. cursor.at ≤ length cursor.bytes.now };
}

/// A walk over the records of these bytes, from their start.
pub fn cursor(bytes: &[u8]) -> LogCursor<'_>
    ensures { result ≡ record { bytes = bytes.now; at = 0 } }
{
    LogCursor { bytes, at: 0 }
}

impl<'a> Iterator for LogCursor<'a> {
    type Item = Result<RecRef<'a>, BadRecord>;

    ghost next_gives = { IsNext };

    ghost remaining = { λ left. at_most (length left.bytes) };

    /// The next record, or `None` exactly at the end. Where bytes are left and no record is spelled, it
    /// is an error, and the walk is at its end from then on.
    fn next(&mut self) -> Option<Result<RecRef<'a>, BadRecord>> {
        let rest = &self.bytes[self.at..];
        if rest.is_empty() {
            return None;
        }
        match split_record(rest) {
            Some((record, after)) => {
                self.at = self.bytes.len() - after.len();
                Some(Ok(record))
            }
            None => {
                let at = self.at;
                self.bytes = &self.bytes[..at];
                Some(Err(BadRecord { at }))
            }
        }
    }
}
