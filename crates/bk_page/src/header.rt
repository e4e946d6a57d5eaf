//! The fields of a page's header.

ghost use Rattle.std.specs.Prelude.{◌≡◌};
ghost use Rattle.bk_page.specs.Page.{lsn_of, number_of_page, file_of, with_lsn, fresh_page};

use crate::digest::seal_digest;
use bk_bytes::{get_u16, get_u32, get_u64, put_u16, put_u32, put_u64};
use bk_frames::Page;
use bk_ids::Lsn;

/// The number of the last log record that changed the page, or 0 where none has.
pub fn page_lsn(page: &Page) -> Lsn
    ensures { result ≡ lsn_of page.now }
{
    match get_u64(page, 0) {
        Some(lsn) => lsn,
        None => unreachable!(),
    }
}

/// The page's number in its file.
pub fn page_number(page: &Page) -> u32
    ensures { result ≡ number_of_page page.now }
{
    match get_u32(page, 8) {
        Some(number) => number,
        None => unreachable!(),
    }
}

/// The number of the page's file.
pub fn page_file(page: &Page) -> u16
    ensures { result ≡ file_of page.now }
{
    match get_u16(page, 12) {
        Some(file) => file,
        None => unreachable!(),
    }
}

/// Writes the page's LSN, and leaves all other bytes: the digest too, which is sealed afterwards.
pub fn set_page_lsn(page: &mut Page, lsn: Lsn)
    ensures { page.new ≡ with_lsn page.old lsn }
{
    put_u64(page, 0, lsn);
}

/// Makes the page that of a file and number before any log record: its LSN is 0, its cells are free, and its
/// digest is sealed.
#[tactic(auto, unfolding(crate::specs::Page::fresh_page))]
pub fn format_page(page: &mut Page, file: u16, number: u32)
    ensures { page.new ≡ fresh_page file number }
{
    *page = [0; 8192];
    put_u32(page, 8, number);
    put_u16(page, 12, file);
    seal_digest(page);
}
