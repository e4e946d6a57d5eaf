// Pieces of lines, and words that are there or not.
use bk_ids::Text;
use std::alloc::AllocError;

/// Adds pieces, one behind the other.
pub fn add_pieces(out: &mut String, pieces: &[&str]) -> Result<(), AllocError> {
    for piece in pieces {
        out.push_str(piece)?;
    }
    Ok(())
}

/// Adds a word, and behind a blank a name.
pub fn add_name(out: &mut String, word: &str, name: &Text) -> Result<(), AllocError> {
    add_pieces(out, &[word, " ", name.as_str()])
}

/// Adds a word, and behind a blank a text in quotes.
pub fn add_text(out: &mut String, word: &str, text: &Text) -> Result<(), AllocError> {
    add_pieces(out, &[word, " '", text.as_str(), "'"])
}

/// Adds a number behind a blank.
pub fn add_count(out: &mut String, count: u64) -> Result<(), AllocError> {
    write!(out, " {count}")
}

fn add_word(out: &mut String, word: &str) -> Result<(), AllocError> {
    out.push(' ')?;
    out.push_str(word)
}

/// Adds those of the words that are there, each behind a blank.
pub fn add_words(out: &mut String, words: &[(&str, bool)]) -> Result<(), AllocError> {
    for (word, is_there) in words {
        if *is_there {
            add_word(out, word)?;
        }
    }
    Ok(())
}

/// Adds one of two words behind a blank, or none.
pub fn add_switch(
    out: &mut String,
    on: &str,
    off: &str,
    switch: Option<bool>,
) -> Result<(), AllocError> {
    match switch {
        Some(true) => add_word(out, on),
        Some(false) => add_word(out, off),
        None => Ok(()),
    }
}

/// Adds a word, and behind a blank a number.
pub fn add_counted(out: &mut String, word: &str, count: u64) -> Result<(), AllocError> {
    out.push_str(word)?;
    add_count(out, count)
}

/// Adds the word and the number, each behind a blank, if it is there.
pub fn add_number(out: &mut String, word: &str, number: Option<u64>) -> Result<(), AllocError> {
    match number {
        Some(number) => {
            out.push(' ')?;
            add_counted(out, word, number)
        }
        None => Ok(()),
    }
}
