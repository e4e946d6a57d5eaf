// Tokens as lines.
use crate::words::add_pieces;
use bk_token::{Kind, Token, bytes_of, is_plain, is_reserved, name_of, text_of, tokens};
use std::alloc::{AllocError, Global};

fn word_of(kind: Kind) -> &'static str {
    match kind {
        Kind::Word => "word",
        Kind::Quoted => "quoted",
        Kind::Text => "text",
        Kind::Number(_) => "number",
        Kind::Sign(_) => "sign",
        Kind::Go => "go",
        Kind::Colon => "colon",
        Kind::Bad => "bad",
    }
}

/// A line for each token: its kind, the places of its first byte and behind its last, and its line.
pub fn add_tokens(alloc: Global, src: &[u8], out: &mut String) -> Result<(), AllocError> {
    for token in &tokens(alloc, src)? {
        let word = word_of(token.kind);
        writeln!(out, "{word} {}-{}/{}", token.start, token.end, token.line)?;
    }
    Ok(())
}

fn add_said_by(
    alloc: Global,
    src: &[u8],
    token: &Token,
    out: &mut String,
) -> Result<(), AllocError> {
    if let Some(name) = name_of(alloc, src, token)? {
        add_pieces(out, &["name ", name.as_str(), "\n"])?;
    }
    if let Some(text) = text_of(alloc, src, token)? {
        add_pieces(out, &["text ", text.as_str(), "\n"])?;
    }
    if is_reserved(bytes_of(src, token)) {
        out.push_str("reserved\n")?;
    }
    Ok(())
}

/// A line for each token that is a name, a text or a reserved word, with what it says.
pub fn add_said(alloc: Global, src: &[u8], out: &mut String) -> Result<(), AllocError> {
    for token in &tokens(alloc, src)? {
        add_said_by(alloc, src, token, out)?;
    }
    Ok(())
}

/// Whether only blanks stand between the tokens.
pub fn add_plain(alloc: Global, src: &[u8], out: &mut String) -> Result<(), AllocError> {
    let found = tokens(alloc, src)?;
    writeln!(out, "{}", is_plain(src, &found))
}
