// The words of a command line, and what they ask for.

use crate::with_clap;
use bk_console::{WordsError, words};
use std::alloc::{AllocError, Global};

/// The words of a line, in which `''` is the empty one.
pub fn line_of(alloc: Global, text: &str) -> Result<Vec<String>, AllocError> {
    let mut line = Vec::new(alloc);
    for word in text.split_whitespace() {
        let word = if word == "''" { "" } else { word };
        line.push(String::from_str(alloc, word)?)?;
    }
    Ok(line)
}

// The directory, whether to stop at a refusal, and the instance's number that words ask for, or `usage`.
fn asked(alloc: Global, line: &[String]) -> Result<String, AllocError> {
    match words(alloc, line) {
        Ok(options) => {
            let (dir, stop, instance) = (options.dir.as_str(), options.stop, options.instance);
            format!(in alloc; "{dir} {stop} {instance}\n")
        }
        Err(WordsError::Usage) => String::from_str(alloc, "usage\n"),
        Err(WordsError::NoMemory) => Err(AllocError),
    }
}

/// Answers the directory, whether to stop at a refusal, and the instance's number that words ask for, or `usage`.
pub fn show_words(alloc: Global, text: &str, out: &mut String) -> Result<(), AllocError> {
    let line = line_of(alloc, text)?;
    let asked = asked(alloc, &line)?;
    out.push_str(&asked)
}

/// The same, and behind it what clap reads in the words, where that is something else.
pub fn show_with_clap(alloc: Global, text: &str, out: &mut String) -> Result<(), AllocError> {
    let line = line_of(alloc, text)?;
    let asked = asked(alloc, &line)?;
    let read = with_clap::asked(alloc, &line)?;
    out.push_str(&asked)?;
    if read.as_str() == asked.as_str() {
        return Ok(());
    }
    out.push_str(&read)
}
