// The bytes of an entry of a batch.
ghost use Rattle.std.specs.Prelude.{◌≡◌, length};
ghost use Rattle.bk_bytes.specs.Field.{with_field};
ghost use Rattle.bk_side.specs.Pages.{entry_of};

use bk_bytes::{get_u16, get_u32, put_u16, put_u32};
use bk_frames::Page;

/// How many bytes an entry has: its file, its page's number and the page.
pub const ENTRY_BYTES: u64 = 8198;

// The entry of a page.
pub fn spell_entry(file: u16, page: u32, bytes: &Page) -> [u8; 8198]
    ensures entry { entry_of result ≡ ((file, page), bytes.now) }
    ensures size { length result ≡ 8198 }
{
    let mut entry = [0u8; 8198];
    put_u16(&mut entry, 0, file);
    put_u32(&mut entry, 2, page);
    put_page(&mut entry, bytes);
    entry
}

// Puts a page behind the first six bytes.
fn put_page(entry: &mut [u8], bytes: &[u8])
    requires size { length entry.old ≡ 8198 }
    requires whole { length bytes.now ≡ 8192 }
    ensures { entry.new ≡ with_field entry.old 6 bytes.now }
{
    entry[6..8198].copy_from_slice(bytes);
}

// The file and the page of an entry.
#[tactic(auto, unfolding(crate::specs::Pages::entry_of))]
pub fn place_of(entry: &[u8; 8198]) -> (u16, u32)
    ensures { (result.0, result.1) ≡ (entry_of entry.now).0 }
{
    match (get_u16(entry, 0), get_u32(entry, 2)) {
        (Some(file), Some(page)) => (file, page),
        _ => unreachable!(),
    }
}

// The bytes of an entry's page.
#[tactic(auto, unfolding(crate::specs::Pages::entry_of))]
pub fn page_bytes(entry: &[u8; 8198]) -> &[u8]
    ensures page { result.now ≡ (entry_of entry.now).1 }
    ensures size { length result.now ≡ 8192 }
{
    &entry[6..]
}
