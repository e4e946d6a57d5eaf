// The names of a log's files.
ghost use Rattle.std.specs.Prelude.{◌≡◌, string_bytes, IfOk};
ghost use Rattle.bk_segments.specs.Files.{control_file, segment_file};

use std::alloc::{AllocError, Global};

/// The control file of this database.
pub fn control_name(alloc: Global, db: u32) -> Result<String, AllocError>
    ensures { IfOk result (λ name. string_bytes name ≡ control_file db) }
{
    format!(in alloc; "c-{db}")
}

// The segment of this number.
pub fn segment_name(alloc: Global, db: u32, n: u64) -> Result<String, AllocError>
    ensures { IfOk result (λ name. string_bytes name ≡ segment_file db n) }
{
    format!(in alloc; "g-{db}-{n}")
}
