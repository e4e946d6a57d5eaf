//! How many bytes a record's spelling has.

ghost use Rattle.std.specs.Prelude.{◌≡◌, ◌+◌, ◌*◌, ◌^◌, ◌<◌, ◌≤◌, length};
ghost use Rattle.bk_record.specs.Lengths.{mark_length, body_length};
ghost use Rattle.bk_record.specs.Spelling.{spelling, description_of, KeepsLimits};

use bk_ids::{Body, Description, ExtentId, Mark, Rec, Value};

fn description_len(description: &Option<Description>) -> usize
    ensures len { result ≡ length (description_of description.now) }
    ensures short { result < 2 ^ 16 }
{
    match description {
        None => 0,
        Some(text) => text.as_str().len(),
    }
}

fn mark_len(mark: &Option<Mark>) -> usize
    ensures len { result ≡ mark_length mark.now }
    ensures short { result < 2 ^ 17 }
{
    match mark {
        None => 4,
        Some(mark) => 4 + mark.name.as_str().len() + description_len(&mark.description),
    }
}

fn bulk_len(value: &Value, extents: &[ExtentId]) -> usize
    requires { 46 + length value.now + 6 * length extents.now < 2 ^ 32 }
    ensures { result ≡ 22 + length value.now + 6 * length extents.now }
{
    22 + value.as_str().len() + 6 * extents.len()
}

fn body_len(body: &Body) -> usize
    requires { KeepsLimits body.now }
    ensures len { result ≡ body_length body.now }
    ensures short { 24 + result < 2 ^ 32 }
{
    match body {
        Body::Database { .. } => 40,
        Body::Table { name, .. } => 15 + name.as_str().len(),
        Body::Begin => 0,
        Body::Write { .. } => 264,
        Body::Commit { mark, .. } => 8 + mark_len(mark),
        Body::RollbackEnd => 0,
        Body::Compensation { .. } => 144,
        Body::Checkpoint { .. } => 8,
        Body::Stamp { .. } => 24,
        Body::Model { .. } => 9,
        Body::Bulk { value, extents, .. } => bulk_len(value, extents.as_slice()),
        Body::Recovery { .. } => 16,
    }
}

/// How many bytes the spelling of a record has, less than 2^32.
pub fn spelled_len(r: &Rec) -> usize
    requires { KeepsLimits r.now.body }
    ensures len { result ≡ length (spelling r.now) }
    ensures short { result < 2 ^ 32 }
{
    24 + body_len(&r.body)
}
