//! The pages of a database that lie in memory.

ghost use Rattle.std.specs.Prelude.{◌≡◌, ◌<◌, ℕ, None, Some, false, true, length, replicate, slice_get, slice_set, All, IfOk, MatchOption, IsTrue, ◌↔◌};
ghost use Rattle.std.specs.Borrow.{sem};
ghost use Rattle.bk_frames.specs.Pages.{zeroed_page};
ghost use Rattle.bk_pool.specs.Pool.{IsIn, IsAbsent, IsFound, IsFull, Claims, Claimed};
ghost use Rattle.bk_pool.specs.Sound.{HoldsPage, Leads, Notes, page_eq, without};
ghost use Rattle.std.specs.HashMap.{get};

use crate::claim::Claim;
use crate::clock::{first_clean, sweep};
use bk_frames::{Frames, Page};
use std::alloc::{AllocError, Global};
use std::collections::HashMap;
use std::marker::Model;

/// A fixed number of frames, and which page of which file lies in each, if one does. A page lies in one frame at most.
/// A frame is dirty where its page was changed and isn't written yet.
pub struct Pool {
    frames: Frames,
    pages: Vec<Option<(u16, u32)>>,
    dirty: Vec<bool>,
    // which frames were used since the hand passed them
    used: Vec<bool>,
    hand: usize,
    // the frame of each page, but where there was once no memory for one
    index: HashMap<(u16, u32), usize>,
    is_whole: bool,
}

impl Drop for Pool {
    fn drop(self) {
        let Pool {
            frames: _,
            pages: _,
            dirty: _,
            used: _,
            hand: _,
            index: _,
            is_whole: _,
        } = self;
    }
}

impl Model for Pool {
    ghost use Rattle.std.specs.HashMap.{get};
    ghost use Rattle.bk_pool.specs.Pool.{Pool as Kept};
    ghost use Rattle.bk_pool.specs.Sound.{IsSound, page_eq};

    ghost Value = { Kept };

    ghost view = { λ pool. record { frames = pool.frames; pages = pool.pages.items; dirty = pool.dirty.items } };

    ghost invariant = { λ pool. IsSound pool.pages.items pool.dirty.items pool.used.items (get page_eq pool.index) pool.is_whole };
}

impl Pool {
    ghost use Rattle.bk_pool.specs.Lending.{LendsFrames};

    /// A pool of so many frames, in none of which a page lies.
    pub fn new(alloc: Global, frames: usize) -> Result<Pool, AllocError>
        ensures frames { IfOk result (λ pool. pool.frames ≡ replicate frames zeroed_page) }
        ensures pages { IfOk result (λ pool. pool.pages ≡ replicate frames None) }
        ensures dirty { IfOk result (λ pool. pool.dirty ≡ replicate frames false) }
    {
        Ok(Pool {
            frames: Frames::new(alloc, frames)?,
            pages: no_pages(alloc, frames)?,
            dirty: no_marks(alloc, frames)?,
            used: no_marks(alloc, frames)?,
            hand: 0,
            index: HashMap::with_capacity(alloc, frames)?,
            is_whole: true,
        })
    }

    /// How many frames there are.
    pub fn len(&self) -> usize
        ensures { result ≡ length self.now.pages }
    {
        self.pages.len()
    }

    /// The frame in which a page lies, or `None` where it lies in none. It counts as used.
    pub fn find(&mut self, file: u16, page: u32) -> Option<usize>
        ensures found { MatchOption result (IsAbsent self.old.pages file page) (IsFound self.old.pages file page) }
        ensures same { self.new ≡ self.old }
    {
        let i = self.place(file, page)?;
        self.used[i] = true;
        Some(i)
    }

    /// The frame in which a page lies, and in no other, or `None` where it lies in none. It doesn't count as used.
    #[tactic(auto, using(crate::proofs::Sounds::found_alone))]
    pub fn place(&self, file: u16, page: u32) -> Option<usize>
        ensures found { MatchOption result (IsAbsent self.now.pages file page) (IsFound self.now.pages file page) }
    {
        if self.is_whole {
            look(&self.index, &self.pages, file, page)
        } else {
            walk(&self.pages, file, page)
        }
    }

    /// Claims a frame that isn't dirty for a page that lies in none. Where every frame is dirty, nothing changes. There is at
    /// least one frame.
    pub fn claim(&mut self, file: u16, page: u32) -> Claim
        requires frames { 0 < length self.old.pages }
        requires absent { IsAbsent self.old.pages file page }
        ensures { Claimed self.old self.new file page result }
    {
        match self.choose() {
            Some(i) => {
                self.put(i, file, page);
                Claim::Free(i)
            }
            None => self.first_spill(),
        }
    }

    // A frame that isn't dirty, mostly one that wasn't used for long.
    fn choose(&mut self) -> Option<usize>
        ensures clean { MatchOption result (All (λ is_dirty. is_dirty ≡ true) self.old.dirty) (λ i. slice_get self.old.dirty i ≡ Some false) }
        ensures same { self.new ≡ self.old }
    {
        let n = self.dirty.len();
        if let Some(i) = sweep(&self.dirty, &mut self.used, self.hand, n) {
            return Some(i);
        }
        if let Some(i) = sweep(&self.dirty, &mut self.used, 0, n) {
            return Some(i);
        }
        first_clean(&self.dirty)
    }

    /// Puts a page that lies in no frame in one below `len` that isn't dirty, in place of what lay there. The frame's bytes stay.
    pub fn put(&mut self, i: usize, file: u16, page: u32)
        requires clean { slice_get self.old.dirty i ≡ Some false }
        requires absent { IsAbsent self.old.pages file page }
        ensures { Claims self.old self.new file page i }
    {
        let is_noted = note(&mut self.index, self.pages[i], (file, page), i);
        self.is_whole = self.is_whole & is_noted;
        self.pages[i] = Some((file, page));
        self.used[i] = true;
        self.hand = i + 1;
    }

    // The page of the first frame, where every frame is dirty.
    fn first_spill(&self) -> Claim
        requires frames { 0 < length self.now.pages }
        requires every { All (λ is_dirty. is_dirty ≡ true) self.now.dirty }
        ensures { Claimed self.now self.now 0 0 result }
    {
        match self.pages[0] {
            Some((file, page)) => Claim::Spill(0, file, page),
            None => unreachable!(),
        }
    }

    /// The frames. What is written there doesn't make them dirty.
    pub fn frames(&mut self) -> &mut Frames
        ensures* writes_back { sem 𝓛 (LendsFrames self.entry result) }
        ensures value { result.now ≡ self.old.frames }
    {
        &mut self.frames
    }

    /// The bytes of a frame, of which there are as many as pages may lie.
    pub fn frame(&self, i: usize) -> &Page
        requires { i < length self.now.frames }
        ensures { slice_get self.now.frames i ≡ Some result.now }
    {
        self.frames.page(i)
    }

    /// The file and number of the page that lies in a frame below `len`, if one does.
    pub fn page(&self, i: usize) -> Option<(u16, u32)>
        requires { i < length self.now.pages }
        ensures { slice_get self.now.pages i ≡ Some result }
    {
        self.pages[i]
    }

    /// Whether a frame below `len` is dirty.
    pub fn is_dirty(&self, i: usize) -> bool
        requires { i < length self.now.pages }
        ensures { slice_get self.now.dirty i ≡ Some result }
    {
        self.dirty[i]
    }

    /// Makes a frame dirty in which a page lies.
    pub fn dirty(&mut self, i: usize)
        requires { HoldsPage self.old.pages i }
        ensures { self.new ≡ record self.old { dirty = slice_set self.old.dirty i true } }
    {
        self.dirty[i] = true;
        self.used[i] = true;
    }

    /// Makes all frames clean.
    pub fn clean(&mut self)
        ensures { self.new ≡ record self.old { dirty = replicate (length self.old.dirty) false } }
    {
        self.dirty.fill(false);
    }
}

// So many frames without a page.
fn no_pages(alloc: Global, frames: usize) -> Result<Vec<Option<(u16, u32)>>, AllocError>
    ensures { IfOk result (λ pages. pages.items ≡ replicate frames None) }
{
    Vec::from_elem(alloc, None, frames)
}

// So many frames without a mark.
fn no_marks(alloc: Global, frames: usize) -> Result<Vec<bool>, AllocError>
    ensures { IfOk result (λ marks. marks.items ≡ replicate frames false) }
{
    Vec::from_elem(alloc, false, frames)
}

// Takes a page that goes, if one does, out of the index.
fn forget(index: &mut HashMap<(u16, u32), usize>, old: Option<(u16, u32)>)
    ensures { (q : ℕ × ℕ) → get page_eq index.new q ≡ without (get page_eq index.old) old q }
{
    if let Some(old) = old {
        index.remove(&old);
    }
}

// Notes the frame of a page in place of one that goes. Answers whether there was memory for that.
fn note(
    index: &mut HashMap<(u16, u32), usize>,
    old: Option<(u16, u32)>,
    page: (u16, u32),
    i: usize,
) -> bool
    ensures { IsTrue result → Notes (get page_eq index.old) (get page_eq index.new) old page i }
{
    forget(index, old);
    index.insert(page, i).is_ok()
}

// The frame in which a page lies, by the index, which leads to all pages.
#[tactic(auto, using(crate::proofs::Sounds::nowhere))]
fn look(
    index: &HashMap<(u16, u32), usize>,
    pages: &[Option<(u16, u32)>],
    file: u16,
    page: u32,
) -> Option<usize>
    requires { Leads (get page_eq index.now) pages.now }
    ensures { MatchOption result (IsAbsent pages.now file page) (λ i. IsIn pages.now i file page) }
{
    match noted(index, file, page) {
        Some(i) if lies_in(pages, i, file, page) => Some(i),
        _ => None,
    }
}

// What the index holds for a page.
fn noted(index: &HashMap<(u16, u32), usize>, file: u16, page: u32) -> Option<usize>
    ensures { result ≡ get page_eq index.now (file, page) }
{
    index.get(&(file, page)).copied()
}

// Whether a page lies in a frame.
fn lies_in(pages: &[Option<(u16, u32)>], i: usize, file: u16, page: u32) -> bool
    ensures { IsTrue result ↔ IsIn pages.now i file page }
{
    match pages.get(i) {
        Some(Some((f, p))) => *f == file && *p == page,
        _ => false,
    }
}

// The first frame in which a page lies, by a walk over all of them.
fn walk(pages: &[Option<(u16, u32)>], file: u16, page: u32) -> Option<usize>
    ensures { MatchOption result (IsAbsent pages.now file page) (λ i. IsIn pages.now i file page) }
{
    for i in 0..pages.len() {
        if lies_in(pages, i, file, page) {
            return Some(i);
        }
    }
    None
}
