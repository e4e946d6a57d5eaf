// Names, texts, GUIDs, digests and times.
use crate::words::{number, word};
use bk_ids::{Digest, Guid, Name, Text};
use bk_time::{read_time, time_text};
use std::alloc::{AllocError, Global};

// 9999-12-31 23:59:59.999, the last time that has a text.
const LAST: u64 = 253_402_300_799_999;

/// Commands on words alone, and `digest` on the bytes.
pub fn show(
    alloc: Global,
    words: &[&str],
    bytes: &[u8],
    out: &mut String,
) -> Result<(), AllocError> {
    match word(words, 0) {
        "name" => show_name(alloc, word(words, 1), out),
        "same" => show_same(alloc, word(words, 1), word(words, 2), out),
        "text" => show_text(alloc, word(words, 1), out),
        "guid" => show_guid(alloc, words, out),
        "digest" => show_digest(alloc, bytes, out),
        _ => show_time_text(alloc, number(words, 1), out),
    }
}

// The copy of a name, or why the word is none.
fn show_name(alloc: Global, word: &str, out: &mut String) -> Result<(), AllocError> {
    if word.is_empty() {
        return out.push_str("no name\n");
    }
    match Name::new(alloc, word) {
        Ok(name) => {
            let copy = name.copy(alloc)?;
            writeln!(out, "{}", copy.as_str())
        }
        Err(error) => writeln!(out, "{error}"),
    }
}

// Whether two names are the same.
fn show_same(alloc: Global, one: &str, other: &str, out: &mut String) -> Result<(), AllocError> {
    if one.is_empty() || other.is_empty() {
        return out.push_str("no name\n");
    }
    match (Name::new(alloc, one), Name::new(alloc, other)) {
        (Ok(one), Ok(other)) => writeln!(out, "{}", one.same(&other)),
        _ => out.push_str("no name\n"),
    }
}

// The copy of a text.
fn show_text(alloc: Global, word: &str, out: &mut String) -> Result<(), AllocError> {
    let text = Text::new(String::from_str(alloc, word)?);
    let copy = text.copy(alloc)?;
    writeln!(out, "{}", copy.as_str())
}

// The text of the GUID whose two halves the words spell.
fn show_guid(alloc: Global, words: &[&str], out: &mut String) -> Result<(), AllocError> {
    let (high, low) = (number(words, 1), number(words, 2));
    let text = Guid { high, low }.text(alloc)?;
    writeln!(out, "{text}")
}

// The text of the digest with these 32 bytes.
fn show_digest(alloc: Global, bytes: &[u8], out: &mut String) -> Result<(), AllocError> {
    let Ok(bytes) = <[u8; 32]>::try_from(bytes) else {
        return out.push_str("no digest\n");
    };
    let text = Digest { bytes }.text(alloc)?;
    writeln!(out, "{text}")
}

/// What a text means as a time.
pub fn show_time(text: &str, out: &mut String) -> Result<(), AllocError> {
    match read_time(text) {
        Some(ms) => writeln!(out, "{ms}"),
        None => out.push_str("no time\n"),
    }
}

// The text of so many milliseconds.
fn show_time_text(alloc: Global, ms: u64, out: &mut String) -> Result<(), AllocError> {
    let text = time_text(alloc, ms.min(LAST))?;
    writeln!(out, "{text}")
}
