//! Numbers and texts as bytes, and the parts from which larger spellings are made.
//!
//! Every number is stored with its lowest byte first.
#![tactic(auto)]

mod append;
mod cell;
mod codec;
mod field;
mod split;

pub use append::{append_text, append_u8, append_u16, append_u32, append_u64, append_u128};
pub use cell::Cell;
pub use codec::codec_law;
pub use field::{
    field_law, get_u16, get_u32, get_u64, get_u128, put_u16, put_u32, put_u64, put_u128,
};
pub use split::{
    split_run, split_str, split_text, split_u8, split_u16, split_u32, split_u64, split_u128,
    split_zeros,
};
