//! The cells of rows, as log records hold them.
#![tactic(auto)]

mod images;

pub use images::{free_image, image_of, row_image};
