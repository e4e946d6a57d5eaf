// Control files.
ghost use Rattle.std.specs.Prelude.{◌≡◌, ◌≤◌, false, length, IfOk};

use crate::words::{bytes, show, word};
use bk_control::{Control, ControlError};
use std::alloc::{AllocError, Global};
use trials::Untold;

// The bytes, or none where they are more than a control has room for.
fn short(bytes: &[u8]) -> &[u8]
    ensures { length result.now ≤ 65536 }
{
    if bytes.len() <= 65_536 { bytes } else { &[] }
}

// `make BYTES`, `put BYTES`, or nothing.
fn call(alloc: Global, device: &mut Untold, words: &[&str]) -> Result<Control, ControlError>
    ensures { IfOk result (λ c. c.failed ≡ false) }
{
    let name = word(words, 1);
    let content = bytes(alloc, word(words, 3))?;
    if word(words, 2) == "make" {
        return Control::make(alloc, device, name, short(&content));
    }
    let mut control = Control::load(alloc, device, name)?;
    if word(words, 2) == "put" {
        control.put(device, short(&content))?;
    }
    Ok(control)
}

pub(crate) fn run(
    alloc: Global,
    device: &mut Untold,
    words: &[&str],
    out: &mut String,
) -> Result<(), AllocError> {
    match call(alloc, device, words) {
        Ok(control) => show(alloc, control.get(), out),
        Err(error) => write!(out, "{error}"),
    }
}
