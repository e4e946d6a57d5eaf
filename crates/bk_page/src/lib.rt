//! Pages of data files: a header and 63 cells.
#![tactic(auto)]

mod cells;
mod digest;
mod digests;
mod header;
mod law;

pub use bk_bytes::Cell;
pub use bk_frames::{Frames, Page};
pub use cells::{read_cell, write_cell};
pub use digest::{Mismatch, check, seal_digest};
pub use digests::page_digests;
pub use header::{format_page, page_file, page_lsn, page_number, set_page_lsn};
pub use law::page_law;
