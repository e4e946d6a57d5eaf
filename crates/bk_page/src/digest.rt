//! The digest of a page, which tells damage.

ghost use Rattle.std.specs.Prelude.{◌≡◌, ◌≢◌, MatchResult};
ghost use Rattle.bk_page.specs.Page.{digest_field, page_digest, sealed};

use bk_frames::Page;
use sha2::{Digest, Sha256};
use thiserror::Error;

/// A page is damaged: the digest that it stores isn't that of its bytes.
#[derive(Clone, Copy, Debug, PartialEq, Eq, Error)]
#[error("the page's digest isn't that of its bytes")]
pub struct Mismatch {
    /// The digest that the page stores.
    pub stored: [u8; 32],
    /// The digest of its bytes.
    pub found: [u8; 32],
}

/// Writes the digest of the page into it, and leaves all other bytes.
pub fn seal_digest(page: &mut Page)
    ensures { page.new ≡ sealed page.old }
{
    let digest = digest_of(page);
    page[32..64].copy_from_slice(&digest);
}

/// Whether the page stores the digest of its bytes.
pub fn check(page: &Page) -> Result<(), Mismatch>
    ensures { MatchResult result
        (λ done. digest_field page.now ≡ page_digest page.now)
        (λ error. (error.stored ≡ digest_field page.now) × (error.found ≡ page_digest page.now) × (error.stored ≢ error.found)) }
{
    let stored = stored_digest(page);
    let found = digest_of(page);
    if stored != found {
        return Err(Mismatch { stored, found });
    }
    Ok(())
}

fn stored_digest(page: &Page) -> [u8; 32]
    ensures { result ≡ digest_field page.now }
{
    match page[32..].first_chunk() {
        Some(stored) => *stored,
        None => unreachable!(),
    }
}

// The digest of the page with zeros in place of the one that it stores.
pub(crate) fn digest_of(page: &Page) -> [u8; 32]
    ensures { result ≡ page_digest page.now }
{
    let mut hasher = Sha256::new();
    hasher.update(&page[..32]);
    hasher.update(&[0; 32]);
    hasher.update(&page[64..]);
    hasher.finalize()
}
