ghost use Rattle.std.specs.Prelude.{◌≡◌, IfOk};
ghost use Rattle.std.specs.String.{string_bytes};
ghost use Rattle.bk_ids.specs.Digest.{digest_text};

use std::alloc::{AllocError, Global};

/// A SHA-256 digest.
#[derive(Clone, Copy, Debug, PartialEq, Eq)]
pub struct Digest {
    pub bytes: [u8; 32],
}

impl Digest {
    /// Its 64 hexadecimal digits, in lower case.
    pub fn text(&self, alloc: Global) -> Result<String, AllocError>
        ensures { IfOk result (λ text. string_bytes text ≡ digest_text self.now) }
    {
        hex::encode(alloc, &self.bytes)
    }
}
