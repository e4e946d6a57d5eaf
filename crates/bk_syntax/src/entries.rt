//! The items of a script.

ghost use Rattle.std.specs.Prelude.{IfOk};
ghost use Rattle.bk_syntax.specs.Items as spec;

use crate::reader::Reader;
use bk_items::ScriptEntry;
use bk_parse::push;
use bk_token::one_token_list;
use std::alloc::{AllocError, Global};

/// The items of a script: each statement and console line with the line of its first token; where no statement can go on,
/// Syntax with the line there; and TooLong where a length in a statement is above its limit. It fails only where memory
/// runs out.
pub fn items(alloc: Global, src: &[u8]) -> Result<Vec<ScriptEntry>, AllocError>
    ensures { IfOk result (λ v. spec.AreItems src.now v.items) }
{
    one_token_list();
    let mut reader = Reader::new(alloc);
    let mut found = Vec::new(alloc);
    while let Some(entry) = reader.next(alloc, src)? {
        push(&mut found, entry)?;
    }
    Ok(found)
}
