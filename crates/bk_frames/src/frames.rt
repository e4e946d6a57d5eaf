ghost use Rattle.std.specs.Prelude.{◌≡◌, ◌≢◌, ◌<◌, ◌≤◌, ◌++◌, Some, IfOk, length, replicate, slice_get, take, drop};
ghost use Rattle.std.specs.Borrow.{sem};
ghost use Rattle.bk_frames.specs.Pages.{zeroed_page};

use crate::block::Block;
use crate::frames_mut::{FramesMut, lend_page, lend_pair, lend_parts};
use std::alloc::{AllocError, Global};
use std::marker::Model;

/// The size of a page, in bytes.
pub const PAGE_BYTES: usize = 8192;

/// The bytes of a page.
pub type Page = [u8; 8192];

/// A fixed number of pages in one block of memory. Contracts see the list of them, each as its bytes.
pub struct Frames {
    block: Block<Global>,
    alloc: Global,
}

impl Model for Frames {
    ghost use Rattle.std.specs.Prelude.{ℕ, List};

    ghost Value = { List (List ℕ) };

    ghost view = { λ frames. frames.block.pages };
}

impl Drop for Frames {
    fn drop(self) {
        let Frames { block, alloc } = self;
        block.free(&alloc);
    }
}

impl Frames {
    ghost use Rattle.bk_frames.specs.Lending.{LendsPage, LendsPages, LendsPair, LendsParts};

    /// So many pages of zeros.
    pub fn new(alloc: Global, n: usize) -> Result<Frames, AllocError>
        ensures { IfOk result (λ frames. frames ≡ replicate n zeroed_page) }
    {
        let block = Block::zeroed(&alloc, n)?;
        Ok(Frames { block, alloc })
    }

    /// How many pages there are.
    pub fn len(&self) -> usize
        ensures { result ≡ length self.now }
    {
        self.block.len()
    }

    /// The page at a place below `len`.
    pub fn page(&self, i: usize) -> &Page
        requires { i < length self.now }
        ensures { slice_get self.now i ≡ Some result.now }
    {
        &self.block.as_slice()[i]
    }

    /// All pages.
    pub fn as_slice(&self) -> &[Page]
        ensures { result.now ≡ self.now }
    {
        self.block.as_slice()
    }

    /// The page at a place below `len`, to be written. All others stay as they are.
    pub fn page_mut(&mut self, i: usize) -> &mut Page
        requires { i < length self.old }
        ensures* writes_back { sem 𝓛 (LendsPage self.entry i result) }
        ensures value { slice_get self.old i ≡ Some result.now }
    {
        lend_page(self.as_mut_slice(), i)
    }

    /// All pages, to be written.
    pub fn as_mut_slice(&mut self) -> &mut [Page]
        ensures* writes_back { sem 𝓛 (LendsPages self.entry result) }
        ensures value { result.now ≡ self.old }
    {
        self.block.as_mut_slice()
    }

    /// The pages at two places below `len`, to be written. The places differ, and all other pages stay as they are. A caller's proof
    /// applies this by hand.
    pub fn pair_mut(&mut self, i: usize, j: usize) -> (&mut Page, &mut Page)
        requires first { i < length self.old }
        requires second { j < length self.old }
        requires apart { i ≢ j }
        ensures* writes_back { sem 𝓛 (LendsPair self.entry i j result) }
        ensures first { slice_get self.old i ≡ Some result.0.now }
        ensures second { slice_get self.old j ≡ Some result.1.now }
    {
        lend_pair(self.as_mut_slice(), i, j)
    }

    /// The pages below a place and those from it on, to be written. The place is at most `len`. The frames then have the pages of
    /// the one as they were left, and then those of the other. A caller's proof applies this by hand; of `as_mut_slice` and std's
    /// `split_at_mut` it learns as much by itself.
    pub fn split_at_mut(&mut self, mid: usize) -> (FramesMut<'_>, FramesMut<'_>)
        requires { mid ≤ length self.old }
        ensures* writes_back { sem 𝓛 (LendsParts self.entry result) }
        ensures front { result.0.pages.now ≡ take mid self.old }
        ensures back { result.1.pages.now ≡ drop mid self.old }
    {
        let (front, back) = lend_parts(self.as_mut_slice(), mid);
        (FramesMut { pages: front }, FramesMut { pages: back })
    }
}
