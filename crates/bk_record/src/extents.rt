ghost use Rattle.std.specs.Prelude.{◌≡◌, length};
ghost use Rattle.std.specs.Iterator.{YieldsFirst, item_count};

use bk_bytes::{split_u16, split_u32};
use bk_ids::ExtentId;

/// The extents of a bulk load over borrowed bytes, 6 bytes each: an iterator over them, in their order.
#[derive(Clone, Copy, Debug, PartialEq, Eq)]
pub struct Extents<'a> {
    bytes: &'a [u8],
}

impl<'a> Extents<'a> {
    ghost use Rattle.bk_record.specs.Extents.{extents_of, extents_shown};

    // The extents of these bytes.
    pub(crate) fn over(bytes: &'a [u8]) -> Self
        ensures { extents_shown result ≡ extents_of bytes.now }
    {
        Extents { bytes }
    }

    /// How many there are.
    pub fn len(&self) -> usize
        ensures { result ≡ length (extents_shown self.now) }
    {
        self.bytes.len() / 6
    }
}

impl Iterator for Extents<'_> {
    type Item = ExtentId;

    ghost use Rattle.bk_record.specs.Extents.{extents_shown};

    ghost next_gives = { YieldsFirst extents_shown };

    ghost remaining = { item_count extents_shown };

    fn next(&mut self) -> Option<ExtentId> {
        let (file, rest) = split_u16(self.bytes)?;
        let (extent, rest) = split_u32(rest)?;
        self.bytes = rest;
        Some(ExtentId { file, extent })
    }
}
