// Reading the facts in a note.
ghost use Rattle.bk_bytes.specs.Codec.{counted, times};
ghost use Rattle.bk_facts.specs.Facts.{facts_form, file_form};
ghost use Rattle.bk_reading.specs.Reading.{Reads};

use crate::facts::{DataFile, Facts};
use bk_bytes::{split_str, split_u16, split_u32, split_u64};
use bk_ids::{Sequence, Text};
use bk_reading::Unread;
use std::alloc::Global;

#[tactic(auto, unfolding(crate::specs::Facts::file_form))]
fn read_file(alloc: Global, bytes: &[u8]) -> Result<(DataFile, &[u8]), Unread>
    ensures { Reads (λ x. (x.0, x.1.now)) result (file_form.reading bytes.now) }
{
    let Some((pages, rest)) = split_u32(bytes) else {
        return Err(Unread::Unspelled);
    };
    let Some((path, rest)) = split_str(rest, 1, 100) else {
        return Err(Unread::Unspelled);
    };
    let path = Text::new(String::from_str(alloc, path)?);
    Ok((DataFile { path, pages }, rest))
}

fn read_so_many(alloc: Global, count: u16, bytes: &[u8]) -> Result<(Vec<DataFile>, &[u8]), Unread>
    ensures { Reads (λ x. (x.0.items, x.1.now)) result ((times file_form count).reading bytes.now) }
{
    let mut files = Vec::new(alloc);
    let mut rest = bytes;
    for _ in 0..count {
        let (file, after) = read_file(alloc, rest)?;
        files.push(file)?;
        rest = after;
    }
    Ok((files, rest))
}

#[tactic(auto, unfolding(bk_bytes::specs::Codec::list_at))]
fn read_files(alloc: Global, bytes: &[u8]) -> Result<(Sequence<DataFile>, &[u8]), Unread>
    ensures { Reads (λ x. (x.0, x.1.now)) result ((counted 2 file_form).reading bytes.now) }
{
    let Some((count, rest)) = split_u16(bytes) else {
        return Err(Unread::Unspelled);
    };
    let (files, rest) = read_so_many(alloc, count, rest)?;
    Ok((Sequence::new(files), rest))
}

/// The facts at the front of a note, and the note of the layer above behind them. `Unspelled` is answered exactly where none are spelled there.
#[tactic(auto, unfolding(crate::specs::Facts::facts_form))]
pub fn read_facts(alloc: Global, bytes: &[u8]) -> Result<(Facts, &[u8]), Unread>
    ensures { Reads (λ x. (x.0, x.1.now)) result (facts_form.reading bytes.now) }
{
    let Some((checkpoint, rest)) = split_u64(bytes) else {
        return Err(Unread::Unspelled);
    };
    let (files, rest) = read_files(alloc, rest)?;
    Ok((Facts { checkpoint, files }, rest))
}
