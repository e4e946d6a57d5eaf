// Gate files.
ghost use Rattle.std.specs.Prelude.{◌≡◌, None, false, IfOk, OnOk};

use crate::words::{bytes, show, word};
use bk_device::Device;
use bk_gate::{Gate, GateError};
use std::alloc::{AllocError, Global};
use trials::Untold;

// Seals a blob of two parts.
fn seal(
    alloc: Global,
    device: &mut Untold,
    gate: &mut Gate,
    words: &[&str],
) -> Result<(), GateError>
    requires fit { gate.old.failed ≡ false }
    requires none { gate.old.begun ≡ None }
    ensures fit { OnOk result (gate.new.failed ≡ false) }
{
    let (first, second) = (bytes(alloc, word(words, 3))?, bytes(alloc, word(words, 4))?);
    gate.reserve(1)?;
    gate.begin();
    gate.add(device, &first)?;
    gate.add(device, &second)?;
    gate.seal_reserved(device)?;
    Ok(())
}

// Seals a blob that is given whole.
fn append(
    alloc: Global,
    device: &mut Untold,
    gate: &mut Gate,
    words: &[&str],
) -> Result<(), GateError>
    requires fit { gate.old.failed ≡ false }
    requires none { gate.old.begun ≡ None }
    ensures fit { OnOk result (gate.new.failed ≡ false) }
{
    let blob = bytes(alloc, word(words, 3))?;
    gate.reserve(1)?;
    gate.append_reserved(device, &blob)?;
    Ok(())
}

// `make`, `seal PART PART`, `append BLOB`, `clear`, or nothing.
fn call(alloc: Global, device: &mut Untold, words: &[&str]) -> Result<Gate, GateError>
    ensures { IfOk result (λ g. g.failed ≡ false) }
{
    if word(words, 2) == "make" {
        return Gate::make(alloc, device, word(words, 1));
    }
    let mut gate = Gate::load(alloc, device, word(words, 1))?;
    match word(words, 2) {
        "seal" => seal(alloc, device, &mut gate, words)?,
        "append" => append(alloc, device, &mut gate, words)?,
        "clear" => gate.clear(device)?,
        _ => {}
    }
    Ok(gate)
}

// A blob: its place and its bytes.
fn show_blob(
    alloc: Global,
    device: &mut Untold,
    name: &str,
    span: (u64, u64),
    out: &mut String,
) -> Result<(), AllocError> {
    let (at, len) = span;
    let mut blob = vec![in alloc; 0u8; len as usize]?;
    write!(out, " {at}:")?;
    match device.read(name, at, &mut blob) {
        Ok(_) => show(alloc, &blob, out),
        Err(error) => write!(out, "{error}"),
    }
}

// How many blobs there are, and each one.
fn show_all(
    alloc: Global,
    device: &mut Untold,
    gate: &Gate,
    out: &mut String,
) -> Result<(), AllocError>
    requires { gate.now.failed ≡ false }
{
    write!(out, "{}", gate.count())?;
    for i in 0..gate.count() {
        show_blob(alloc, device, gate.name(), gate.span(i), out)?;
    }
    Ok(())
}

pub(crate) fn run(
    alloc: Global,
    device: &mut Untold,
    words: &[&str],
    out: &mut String,
) -> Result<(), AllocError> {
    match call(alloc, device, words) {
        Ok(gate) => show_all(alloc, &mut device.copy()?, &gate, out),
        Err(error) => write!(out, "{error}"),
    }
}
