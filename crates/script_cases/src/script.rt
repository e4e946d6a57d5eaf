// The bytes of a script, from the way in which a case writes them.
use std::alloc::{AllocError, Global};

// What the next byte is a part of.
#[derive(Clone, Copy)]
enum State {
    Plain,
    // Behind a backslash
    Escape,
    // Behind `\x`
    High,
    // Behind `\x` and a digit of this value
    Low(u8),
}

fn digit(byte: u8) -> u8 {
    match byte {
        b'0'..=b'9' => byte - b'0',
        b'a'..=b'f' => byte - b'a' + 10,
        _ => 0,
    }
}

fn escaped(byte: u8) -> u8 {
    match byte {
        b'n' => b'\n',
        b'r' => b'\r',
        b't' => b'\t',
        _ => byte,
    }
}

// What comes behind the byte, and the byte that the script has here, if any.
fn step(state: State, byte: u8) -> (State, Option<u8>) {
    match (state, byte) {
        (State::Plain, b'\\') => (State::Escape, None),
        (State::Plain, _) => (State::Plain, Some(byte)),
        (State::Escape, b'x') => (State::High, None),
        (State::Escape, _) => (State::Plain, Some(escaped(byte))),
        (State::High, _) => (State::Low(digit(byte)), None),
        (State::Low(high), _) => (State::Plain, Some(high << 4 | digit(byte))),
    }
}

fn add_run(found: &mut Vec<u8>, run: usize) -> Result<(), AllocError> {
    for _ in 0..run {
        found.push(b'a')?;
    }
    Ok(())
}

// Adds what the script has at the byte, and gives what comes behind it.
fn take(state: State, byte: u8, run: usize, found: &mut Vec<u8>) -> Result<State, AllocError> {
    if let (State::Plain, b'~') = (state, byte) {
        add_run(found, run)?;
        return Ok(State::Plain);
    }
    let (next, byte) = step(state, byte);
    if let Some(byte) = byte {
        found.push(byte)?;
    }
    Ok(next)
}

/// The script that the text writes: `~` stands for so many `a`, and `\n`, `\r`, `\t`, `\\` and `\x` with two digits for one byte.
pub fn read_script(alloc: Global, text: &str, run: usize) -> Result<Vec<u8>, AllocError> {
    let mut found = Vec::new(alloc);
    let mut state = State::Plain;
    for byte in text.bytes() {
        state = take(state, byte, run, &mut found)?;
    }
    Ok(found)
}
