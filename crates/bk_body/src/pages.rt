//! The pages of an extent.

ghost use Rattle.std.specs.Prelude.{◌≡◌, ◌≤◌, ◌<◌, ◌+◌, ◌*◌, ◌^◌, length};
ghost use Rattle.bk_page.specs.Page.{part};
ghost use Rattle.bk_body.specs.Reading as reading;

use bk_page::{Page, check, page_file, page_number};

/// The bytes of a page.
const PAGE_BYTES: usize = 8192;

// Whether a page is the one of this file and number, and stores its own digest.
fn is_page_of(file: u16, number: u32, page: &Page) -> bool
    ensures { result ≡ reading.is_page_of file number page.now }
{
    page_file(page) == file && page_number(page) == number && check(page).is_ok()
}

// One of the eight pages of an extent.
fn page_in(bytes: &[u8], j: usize) -> &Page
    requires size { length bytes.now ≡ 65536 }
    requires there { j < 8 }
    ensures { result.now ≡ part bytes.now (8192 * j) 8192 }
{
    match bytes[PAGE_BYTES * j..].first_chunk() {
        Some(page) => page,
        None => unreachable!(),
    }
}

// Whether one of the eight pages of an extent, from 0, is the one of its file and number.
fn has_page(file: u16, first: u32, bytes: &[u8], j: u32) -> bool
    requires size { length bytes.now ≡ 65536 }
    requires there { j < 8 }
    requires small { first + 8 ≤ 2 ^ 32 }
    ensures { result ≡ reading.is_page_of file (first + j) (part bytes.now (8192 * j) 8192) }
{
    is_page_of(file, first + j, page_in(bytes, j as usize))
}

/// Whether the bytes of an extent are eight pages of this file, from this page on, each with its digest.
pub fn are_pages(file: u16, first: u32, bytes: &[u8]) -> bool
    requires size { length bytes.now ≡ 65536 }
    requires small { first + 8 ≤ 2 ^ 32 }
    ensures { result ≡ reading.are_pages file first bytes.now }
{
    for j in 0..8 {
        if !has_page(file, first, bytes, j) {
            return false;
        }
    }
    true
}
