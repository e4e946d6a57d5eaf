// Writing the facts of a note.
ghost use Rattle.std.specs.Prelude.{◌≡◌, ◌≤◌, ◌<◌, ◌^◌, ◌+◌, ◌++◌, length, IfOk, OnOk};
ghost use Rattle.std.specs.List.{All, AllByRecursion, flat_map};
ghost use Rattle.bk_bytes.specs.Codec.{IsString};
ghost use Rattle.bk_bytes.specs.Field.{bytes_of};
ghost use Rattle.bk_facts.specs.Facts.{HasPath, IsDataFile, Notes, facts_bytes, file_bytes};

use crate::facts::{DataFile, Facts};
use bk_bytes::{append_text, append_u16, append_u32, append_u64};
use std::alloc::{AllocError, Global};

fn append_file(out: &mut Vec<u8>, file: &DataFile) -> Result<(), AllocError>
    requires { HasPath file.now }
    ensures ok { OnOk result (out.new.items ≡ out.old.items ++ file_bytes file.now) }
    ensures fits { OnOk result (IsDataFile file.now) }
{
    append_u32(out, file.pages)?;
    let path = file.path.as_str();
    append_text(out, path.as_bytes())
}

fn append_files(out: &mut Vec<u8>, files: &[DataFile]) -> Result<(), AllocError>
    requires few { length files.now < 2 ^ 16 }
    requires paths { All HasPath files.now }
    ensures ok { OnOk result (out.new.items ≡ out.old.items ++ (bytes_of 2 (length files.now) ++ flat_map file_bytes files.now)) }
    ensures fits { OnOk result (AllByRecursion IsDataFile files.now) }
{
    append_u16(out, files.len() as u16)?;
    for file in files {
        append_file(out, file)?;
    }
    Ok(())
}

/// The bytes of a note: these facts, of fewer than 2^16 data files, and the note of the layer above behind them.
pub fn spell_note(alloc: Global, facts: &Facts, note: &[u8]) -> Result<Vec<u8>, AllocError>
    requires few { length facts.now.files < 2 ^ 16 }
    requires paths { All HasPath facts.now.files }
    ensures bytes { IfOk result (λ bytes. bytes.items ≡ facts_bytes facts.now ++ note.now) }
    ensures notes { IfOk result (λ bytes. Notes bytes.items facts.now note.now) }
{
    let mut bytes = Vec::new(alloc);
    append_u64(&mut bytes, facts.checkpoint)?;
    append_files(&mut bytes, facts.files.as_slice())?;
    bytes.extend_from_slice(note)?;
    Ok(bytes)
}
