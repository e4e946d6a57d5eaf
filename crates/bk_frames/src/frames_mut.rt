ghost use Rattle.std.specs.Prelude.{◌≡◌, ◌≢◌, ◌<◌, ◌≤◌, ◌++◌, Some, length, slice_get, slice_set, take, drop};
ghost use Rattle.std.specs.Borrow.{sem, Lends, LendsBoth, Array, u8};
ghost use Rattle.bk_frames.specs.Lending.{LendsPageOfPart, LendsPagesOfPart, LendsPartsOfPart};
ghost use Rattle.bk_frames.specs.Pages.{with_pair};

use crate::frames::Page;

/// Some of the pages of a `Frames`, lent to be written.
///
/// What a caller writes by the field `pages` its own proof learns by itself. The clauses `writes_back` below say the same of
/// `page_mut`, `as_mut_slice` and `split_at_mut`, but a proof has to apply them by hand: `put` of `page_cases` does.
#[derive(Drop)]
pub struct FramesMut<'a> {
    /// They as a slice.
    pub pages: &'a mut [Page],
}

impl<'a> FramesMut<'a> {
    /// How many pages there are.
    pub fn len(&self) -> usize
        ensures { result ≡ length self.now.pages.now }
    {
        self.pages.len()
    }

    /// The page at a place below `len`.
    pub fn page(&self, i: usize) -> &Page
        requires { i < length self.now.pages.now }
        ensures { slice_get self.now.pages.now i ≡ Some result.now }
    {
        let pages = &*self.pages;
        &pages[i]
    }

    /// The page at a place below `len`, to be written. The part then has it as it was left, and all others as they were.
    pub fn page_mut(&mut self, i: usize) -> &mut Page
        requires { i < length self.old.pages.now }
        ensures* writes_back { sem 𝓛 (LendsPageOfPart self.entry i result) }
        ensures value { slice_get self.old.pages.now i ≡ Some result.now }
    {
        lend_page(self.as_mut_slice(), i)
    }

    /// All pages, to be written. The part then has them as they were left.
    pub fn as_mut_slice(&mut self) -> &mut [Page]
        ensures* writes_back { sem 𝓛 (LendsPagesOfPart self.entry result) }
        ensures value { result.now ≡ self.old.pages.now }
    {
        &mut *self.pages
    }

    /// The pages below a place and those from it on, to be written. The place is at most `len`. The part then has the pages of the
    /// one as they were left, and then those of the other.
    pub fn split_at_mut(&mut self, mid: usize) -> (FramesMut<'_>, FramesMut<'_>)
        requires { mid ≤ length self.old.pages.now }
        ensures* writes_back { sem 𝓛 (LendsPartsOfPart self.entry result) }
        ensures front { result.0.pages.now ≡ take mid self.old.pages.now }
        ensures back { result.1.pages.now ≡ drop mid self.old.pages.now }
    {
        let (front, back) = lend_parts(self.as_mut_slice(), mid);
        (FramesMut { pages: front }, FramesMut { pages: back })
    }
}

// The page at a place.
pub(crate) fn lend_page(pages: &mut [Page], i: usize) -> &mut Page
    requires { i < length pages.old }
    ensures* writes_back { sem 𝓛 (Lends (Array (Array u8 0) 0) (Array u8 0) pages.entry result (slice_set pages.old i)) }
    ensures value { slice_get pages.old i ≡ Some result.now }
{
    &mut pages[i]
}

// The pages below a place and those from it on.
pub(crate) fn lend_parts(pages: &mut [Page], mid: usize) -> (&mut [Page], &mut [Page])
    requires { mid ≤ length pages.old }
    ensures* writes_back { sem 𝓛 (LendsBoth (Array (Array u8 0) 0) (Array (Array u8 0) 0) (Array (Array u8 0) 0) pages.entry result ◌++◌) }
    ensures front { result.0.now ≡ take mid pages.old }
    ensures back { result.1.now ≡ drop mid pages.old }
{
    pages.split_at_mut(mid)
}

// The pages at two places.
pub(crate) fn lend_pair(pages: &mut [Page], i: usize, j: usize) -> (&mut Page, &mut Page)
    requires first { i < length pages.old }
    requires second { j < length pages.old }
    requires apart { i ≢ j }
    ensures* writes_back { sem 𝓛 (LendsBoth (Array (Array u8 0) 0) (Array u8 0) (Array u8 0) pages.entry result (with_pair pages.old i j)) }
    ensures first { slice_get pages.old i ≡ Some result.0.now }
    ensures second { slice_get pages.old j ≡ Some result.1.now }
{
    if i < j {
        let (front, back) = pages.split_at_mut(j);
        (&mut front[i], &mut back[0])
    } else {
        let (front, back) = pages.split_at_mut(i);
        (&mut back[0], &mut front[j])
    }
}
