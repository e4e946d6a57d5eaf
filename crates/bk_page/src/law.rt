//! What the changes of a page leave as it was.

ghost use Rattle.std.specs.Prelude.{◌≡◌, ◌<◌, ◌^◌, ℕ, List, length};
ghost use Rattle.bk_page.specs.Page.{page_digest, with_lsn, with_cell, sealed, fresh_page};
ghost use Rattle.bk_page.specs.Changes.{WritesCell, WritesLsn, Seals, IsFresh};

/// A cell, the LSN or the digest is written alone, and a page that was sealed stores its own digest.
pub fn page_law()
    ensures cell { (page image : List ℕ) (slot : ℕ) → length page ≡ 8192 → length image ≡ 128 → slot < 63 → WritesCell page (with_cell page slot image) slot image }
    ensures lsn { (page : List ℕ) (lsn : ℕ) → length page ≡ 8192 → lsn < 2 ^ 64 → WritesLsn page (with_lsn page lsn) lsn }
    ensures sealed { (page : List ℕ) → length page ≡ 8192 → Seals page (sealed page) }
    ensures fresh { (file number : ℕ) → file < 2 ^ 16 → number < 2 ^ 32 → IsFresh (fresh_page file number) file number }
{}
