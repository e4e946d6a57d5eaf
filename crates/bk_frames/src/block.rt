// One block of memory for pages. It is all that the frames own, and the one place where they use raw memory.
ghost use Rattle.std.specs.Prelude.{◌≡◌, ℕ, ◌+◌, ◌*◌, ◌^◌, ◌<◌, ◌≤◌, List, [], ◌∷◌, ◌++◌, length, replicate, IfOk};
ghost use Rattle.std.specs.Borrow.{sem};
ghost use Rattle.bk_frames.specs.Blocks.{block_owns, block_lends};
ghost use Rattle.bk_frames.specs.Pages.{zeroed_page};

use crate::frames::Page;
use std::alloc::{AllocError, Allocator};
use std::marker::{Model, PhantomData};
use std::mem::{align_of, size_of};
use std::slice;

// The most pages that a block may have: they take fewer than 2 ^ 63 bytes.
const MOST: usize = 0x3_ffff_ffff_ffff;

// Memory for `room` pages at `at`, of which the first `count` are written. It goes back to the allocator by `free` alone, so whoever
// owns a block has to free it.
pub(crate) struct Block<A: Allocator> {
    at: *mut Page,
    count: usize,
    room: usize,
    by: PhantomData<*const A>,
    pub(crate) ghost alloc: { A },
    pub(crate) ghost pages: { List (List ℕ) },
    ghost counted: { (count ≡ length pages) × (count ≤ room) × (room * 8192 < 2 ^ 63) },
}

impl<A: Allocator> Model for Block<A> {
    ghost also_owns = { λ b. block_owns (A.dealloc_token b.alloc) b.at b.room b.pages };

    ghost also_shares = { λ b _ κ. block_lends b.at b.pages κ };
}

unsafe impl<A: Allocator + Send> Send for Block<A> {}

// A `&` to a block reaches its pages, and not the allocator.
unsafe impl<A: Allocator> Sync for Block<A> {}

impl<A: Allocator> Block<A> {
    ghost use Rattle.bk_frames.specs.Lent.{LendsBlock};

    // Memory for so many pages, with none written.
    fn reserve(alloc: &A, room: usize) -> Result<Block<A>, AllocError>
        requires { room * 8192 < 2 ^ 63 }
        ensures { IfOk result (λ b. (b.alloc ≡ alloc.now) × (b.room ≡ room) × (b.pages ≡ [])) }
    {
        match alloc.allocate(room * size_of::<Page>(), align_of::<Page>()) {
            Ok(memory) => {
                let at = memory as *mut Page;
                let by = PhantomData;
                Ok(Block {
                    at,
                    count: 0,
                    room,
                    by,
                })
            }
            Err(error) => Err(error),
        }
    }

    // Writes the page after the last.
    fn push(&mut self, page: Page)
        requires { length self.old.pages < self.old.room }
        ensures { (self.new.alloc ≡ self.old.alloc) × (self.new.room ≡ self.old.room) × (self.new.pages ≡ self.old.pages ++ page ∷ []) }
    {
        let count = self.count;
        unsafe { self.at.add(count).write(page) }
        self.count = count + 1;
    }

    // So many pages of zeros.
    pub(crate) fn zeroed(alloc: &A, room: usize) -> Result<Block<A>, AllocError>
        ensures { IfOk result (λ b. (b.alloc ≡ alloc.now) × (b.pages ≡ replicate room zeroed_page)) }
    {
        if MOST < room {
            return Err(AllocError);
        }
        let mut block = match Block::reserve(alloc, room) {
            Ok(block) => block,
            Err(error) => return Err(error),
        };
        while block.len() < room {
            block.push([0; 8192]);
        }
        Ok(block)
    }

    // Gives the memory back.
    pub(crate) fn free(self, alloc: &A)
        requires { self.alloc ≡ alloc.now }
    {
        let Block {
            at,
            count: _,
            room,
            by: _,
        } = self;
        unsafe { alloc.deallocate(at as *mut u8, room * size_of::<Page>(), align_of::<Page>()) }
    }

    pub(crate) fn len(&self) -> usize
        ensures { result ≡ length self.now.pages }
    {
        self.count
    }

    pub(crate) fn as_slice(&self) -> &[Page]
        ensures { result.now ≡ self.now.pages }
    {
        unsafe { slice::from_raw_parts(self.at, self.count) }
    }

    pub(crate) fn as_mut_slice(&mut self) -> &mut [Page]
        ensures* writes_back { sem 𝓛 (LendsBlock A.row A.Allocator self.entry result) }
        ensures value { result.now ≡ self.old.pages }
    {
        unsafe { slice::from_raw_parts_mut(self.at, self.count) }
    }
}
