//! Names.

ghost use Rattle.std.specs.Prelude.{IfOk};
ghost use Rattle.bk_bytes.specs.Codec.{Gives, string};

use bk_bytes::split_str;
use bk_ids::{Name, NameError};
use std::alloc::{AllocError, Global};

/// The name of 1 to 64 bytes behind its length in 2 bytes and the rest, or `None` where the bytes don't begin with one.
pub fn read_name(alloc: Global, bytes: &[u8]) -> Result<Option<(Name, &[u8])>, AllocError>
    ensures { IfOk result (λ read. Gives (λ x. (x.0, x.1.now)) read ((string 1 64).reading bytes.now)) }
{
    let Some((text, rest)) = split_str(bytes, 1, 64) else {
        return Ok(None);
    };
    match Name::new(alloc, text) {
        Ok(name) => Ok(Some((name, rest))),
        Err(NameError::NoMemory) => Err(AllocError),
        Err(NameError::TooLong { .. }) => Ok(None),
    }
}
