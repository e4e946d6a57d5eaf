//! GUIDs, as one number of 128 bits.

ghost use Rattle.std.specs.Prelude.{◌≡◌, ◌++◌, OnOk, OnErr};
ghost use Rattle.bk_ids.specs.declared.guid.Guid.{Guid};
ghost use Rattle.bk_bytes.specs.Codec.{Gives, IsCodec};
ghost use Rattle.bk_fields.specs.Guids.{guid_bytes, guid_form};

use bk_bytes::{append_u128, split_u128};
use bk_ids::Guid;
use std::alloc::AllocError;

// The first number that the lower half can't hold.
const HALF: u128 = 1 << 64;

/// The GUID in the first 16 bytes and the rest, or `None` where there are fewer.
#[tactic(auto, unfolding(crate::specs::Guids::guid_form))]
pub fn split_guid(bytes: &[u8]) -> Option<(Guid, &[u8])>
    ensures { Gives (λ x. (x.0, x.1.now)) result (guid_form.reading bytes.now) }
{
    let (number, rest) = split_u128(bytes)?;
    let guid = Guid {
        high: (number / HALF) as u64,
        low: (number % HALF) as u64,
    };
    Some((guid, rest))
}

/// Appends the 16 bytes of a GUID. Where there is no memory, `out` stays as it was.
pub fn append_guid(out: &mut Vec<u8>, guid: Guid) -> Result<(), AllocError>
    ensures ok { OnOk result (out.new.items ≡ out.old.items ++ guid_bytes guid) }
    ensures err { OnErr result (out.new.items ≡ out.old.items) }
{
    append_u128(out, u128::from(guid.high) * HALF + u128::from(guid.low))
}

/// What is read as a GUID is spelled so, and what is spelled so is read, whatever follows.
pub fn guid_law()
    ensures { IsCodec Guid guid_form }
{}
