//! Marks of their own.

ghost use Rattle.std.specs.Prelude.{◌≡◌, ◌<◌, ◌≤◌, ◌++◌, length, IfOk, IfSome, OnOk, option_map};
ghost use Rattle.bk_bytes.specs.Codec.{Gives, IsString};
ghost use Rattle.bk_record.specs.Reading.{mark_form};
ghost use Rattle.bk_record.specs.Spelling.{IsMark, mark_bytes, text_bytes};
ghost use Rattle.bk_record.specs.View.{mark_of};

use crate::reading::split_mark;
use crate::view::MarkRef;
use bk_bytes::append_text;
use bk_ids::{Description, Mark, Name};
use std::alloc::{AllocError, Global};

// The name that a text of 1 to 64 bytes spells.
fn own_name(alloc: Global, text: &str) -> Result<Name, AllocError>
    requires some { 0 < length text.now }
    requires short { length text.now ≤ 64 }
    ensures { IfOk result (λ name. name ≡ text.now) }
{
    match Name::new(alloc, text) {
        Ok(name) => Ok(name),
        // 1 to 64 bytes: memory alone was wanting
        Err(_) => Err(AllocError),
    }
}

fn own_description(alloc: Global, text: Option<&str>) -> Result<Option<Description>, AllocError>
    requires { IfSome text (λ t. (0 < length t.now) × (length t.now ≤ 65535)) }
    ensures { IfOk result (λ own. own ≡ option_map (λ t. t.now) text.entry) }
{
    match text {
        Some(text) => Ok(Some(Description::new(alloc, text)?)),
        None => Ok(None),
    }
}

fn own_mark(alloc: Global, mark: Option<MarkRef<'_>>) -> Result<Option<Mark>, AllocError>
    requires { IsMark (mark_of mark) }
    ensures { IfOk result (λ own. own ≡ mark_of mark.entry) }
{
    let Some(mark) = mark else {
        return Ok(None);
    };
    let name = own_name(alloc, mark.name)?;
    let description = own_description(alloc, mark.description)?;
    Ok(Some(Mark { name, description }))
}

/// The mark at the front of bytes, or none where two empty texts stand there, and the rest of the bytes; `None` where no mark is
/// spelled so.
pub fn read_mark(alloc: Global, bytes: &[u8]) -> Result<Option<(Option<Mark>, &[u8])>, AllocError>
    ensures { IfOk result (λ read. Gives (λ x. (x.0, x.1.now)) read (mark_form.reading bytes.now)) }
{
    let Some((mark, rest)) = split_mark(bytes) else {
        return Ok(None);
    };
    let mark = own_mark(alloc, mark)?;
    Ok(Some((mark, rest)))
}

fn append_name(out: &mut Vec<u8>, name: &Name) -> Result<(), AllocError>
    ensures ok { OnOk result (out.new.items ≡ out.old.items ++ text_bytes name.now) }
    ensures fits { OnOk result (IsString 1 64 name.now) }
{
    let text = name.as_str();
    append_text(out, text.as_bytes())
}

fn append_description(out: &mut Vec<u8>, text: &Description) -> Result<(), AllocError>
    ensures ok { OnOk result (out.new.items ≡ out.old.items ++ text_bytes text.now) }
    ensures fits { OnOk result (IsString 1 65535 text.now) }
{
    let text = text.as_str();
    append_text(out, text.as_bytes())
}

/// Appends the spelling of a mark: its name and its description, empty texts where there is none.
pub fn append_mark(out: &mut Vec<u8>, mark: &Option<Mark>) -> Result<(), AllocError>
    ensures ok { OnOk result (out.new.items ≡ out.old.items ++ mark_bytes mark.now) }
    ensures fits { OnOk result (IsMark mark.now) }
{
    match mark {
        None => {
            append_text(out, &[])?;
            append_text(out, &[])
        }
        Some(mark) => {
            append_name(out, &mark.name)?;
            match &mark.description {
                None => append_text(out, &[]),
                Some(text) => append_description(out, text),
            }
        }
    }
}
