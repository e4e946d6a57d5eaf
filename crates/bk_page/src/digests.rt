//! The digests of many pages.

ghost use Rattle.std.specs.Prelude.{◌≡◌, IfOk, map};
ghost use Rattle.bk_page.specs.Page.{page_digest};

use crate::digest::digest_of;
use bk_frames::{Frames, Page};
use rayon::prelude::*;
use std::alloc::{AllocError, Global};
use std::thread::Threads;

/// The digest of each page, in their order, from as many threads as there are processors.
pub fn page_digests<R: Threads + Sync>(
    rt: &R,
    alloc: Global,
    pages: &Frames,
) -> Result<Vec<[u8; 32]>, AllocError>
    ensures { IfOk result (λ digests. digests.items ≡ map page_digest pages.now) }
{
    pages
        .as_slice()
        .par_iter()
        .map(
            |page: &Page| -> [u8; 32]
                ensures { result ≡ page_digest page.now }
            { digest_of(page) },
        )
        .collect(rt, alloc)
}
