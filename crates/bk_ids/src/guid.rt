ghost use Rattle.std.specs.Prelude.{◌≡◌, IfOk};
ghost use Rattle.std.specs.String.{string_bytes};
ghost use Rattle.bk_ids.specs.Guid.{guid_text};

use std::alloc::{AllocError, Global};
use uuid::Uuid;

/// The identity of a family of databases, of a branch of its recovery path, or of a backup set.
#[derive(Clone, Copy, Debug, PartialEq, Eq, PartialOrd, Ord, Hash)]
pub struct Guid {
    /// The number of the instance that drew it.
    pub high: u64,
    /// How many it had drawn by then, this one included.
    pub low: u64,
}

impl Guid {
    /// Its 36 bytes of text: hyphenated, in lower case.
    pub fn text(&self, alloc: Global) -> Result<String, AllocError>
        ensures { IfOk result (λ text. string_bytes text ≡ guid_text self.now) }
    {
        Uuid::from_u64_pair(self.high, self.low).to_string(alloc)
    }
}
