// Items as a reader gives them, one by one.
use crate::items::add_entry;
use bk_syntax::Reader;
use std::alloc::{AllocError, Global};

/// A line for each item, as the reader comes to it: its line in the script, and what it is.
pub fn add_read(alloc: Global, src: &[u8], out: &mut String) -> Result<(), AllocError> {
    let mut reader = Reader::new(alloc);
    while let Some(entry) = reader.next(alloc, src)? {
        let done = add_entry(out, &entry);
        drop(entry);
        done?;
    }
    Ok(())
}
