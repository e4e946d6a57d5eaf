// Headers of backup sets.
use bk_header::{decode, encode, keeps};
use bk_world::Header;
use std::alloc::{AllocError, Global};

// Whether a header is spelled as these bytes.
fn show_spelling(
    alloc: Global,
    header: &Header,
    bytes: &[u8],
    out: &mut String,
) -> Result<(), AllocError> {
    if !keeps(header) {
        return out.push_str("breaks its conditions\n");
    }
    let mut again = Vec::new(alloc);
    encode(alloc, header, &mut again)?;
    if again.as_slice() == bytes {
        out.push_str("spelled so\n")
    } else {
        out.push_str("spelled otherwise\n")
    }
}

// A header, how many bytes it has, and whether they spell it.
fn show_header(
    alloc: Global,
    header: &Header,
    bytes: &[u8],
    out: &mut String,
) -> Result<(), AllocError> {
    writeln!(out, "{header:?}\n{} bytes", bytes.len())?;
    show_spelling(alloc, header, bytes, out)
}

/// The header at the front of bytes.
pub fn show(alloc: Global, bytes: &[u8], out: &mut String) -> Result<(), AllocError> {
    match decode(alloc, bytes)? {
        Some((header, size)) => {
            let spelling = bytes.get(..size).unwrap_or(&[]);
            let done = show_header(alloc, &header, spelling, out);
            drop(header);
            done
        }
        None => out.push_str("none\n"),
    }
}
