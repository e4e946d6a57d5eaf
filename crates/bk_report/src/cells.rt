//! Cells of lines.

ghost use Rattle.std.specs.Prelude.{◌≡◌, IfOk};
ghost use Rattle.std.specs.String.{string_bytes};
ghost use Rattle.bk_report.specs.Cells as spec;
ghost use Rattle.bk_report.specs.Times.{time_text};

use bk_ids::Text;
use std::alloc::{AllocError, Global};

// The last millisecond of 9999.
const LATEST: u64 = 253_402_300_799_999;

/// What stands where there is nothing.
pub const NULL: &str = "NULL";

/// 1 where it is set, else 0.
pub fn flag(is_set: bool) -> &'static str
    ensures { result.now ≡ spec.flag is_set }
{
    if is_set { "1" } else { "0" }
}

/// A text, or NULL where it is empty.
pub fn text_or_null(text: &str) -> &str
    ensures { result.now ≡ spec.text_or_null text.now }
{
    if text.is_empty() { NULL } else { text }
}

/// A text that may be missing.
pub fn maybe_text(text: &Option<Text>) -> &str
    ensures { result.now ≡ spec.maybe_text text.now }
{
    match text {
        Some(text) => text.as_str(),
        None => NULL,
    }
}

/// The text of a time in milliseconds since 1970-01-01 00:00:00 UTC; one above the last of 9999 is that one.
pub fn time(alloc: Global, ms: u64) -> Result<String, AllocError>
    ensures { IfOk result (λ text. string_bytes text ≡ time_text ms) }
{
    bk_time::time_text(alloc, ms.min(LATEST))
}

/// A time that may be missing.
pub fn maybe_time(alloc: Global, ms: Option<u64>) -> Result<String, AllocError>
    ensures { IfOk result (λ text. string_bytes text ≡ spec.maybe_time ms) }
{
    match ms {
        Some(ms) => time(alloc, ms),
        None => String::from_str(alloc, NULL),
    }
}
