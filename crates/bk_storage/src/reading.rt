//! Reading the filegroups, data files and log of a database.

ghost use Rattle.std.specs.Prelude.{◌≡◌};
ghost use Rattle.bk_bytes.specs.Codec.{counted, string, times};
ghost use Rattle.bk_reading.specs.Reading.{Reads};
ghost use Rattle.bk_storage.specs.Storage.{spec_form, storage_form};

use bk_bytes::{split_str, split_u8, split_u16, split_u32};
use bk_ids::{Name, Sequence, Text};
use bk_reading::Unread;
use bk_world::{FileSpec, Storage};
use std::alloc::Global;

/// The name at the front of `bytes`, and the rest; `Unspelled` exactly where none is spelled there.
pub fn read_name(alloc: Global, bytes: &[u8]) -> Result<(Name, &[u8]), Unread>
    ensures { Reads (λ x. (x.0, x.1.now)) result ((string 1 64).reading bytes.now) }
{
    match bk_fields::read_name(alloc, bytes)? {
        Some(read) => Ok(read),
        None => Err(Unread::Unspelled),
    }
}

fn read_path(alloc: Global, bytes: &[u8]) -> Result<(Text, &[u8]), Unread>
    ensures { Reads (λ x. (x.0, x.1.now)) result ((string 1 100).reading bytes.now) }
{
    let Some((text, rest)) = split_str(bytes, 1, 100) else {
        return Err(Unread::Unspelled);
    };
    let text = String::from_str(alloc, text)?;
    Ok((Text::new(text), rest))
}

#[tactic(auto, unfolding(crate::specs::Storage::spec_form))]
fn read_spec(alloc: Global, bytes: &[u8]) -> Result<(FileSpec, &[u8]), Unread>
    ensures { Reads (λ x. (x.0, x.1.now)) result (spec_form.reading bytes.now) }
{
    let Some((number, rest)) = split_u16(bytes) else {
        return Err(Unread::Unspelled);
    };
    let Some((group, rest)) = split_u8(rest) else {
        return Err(Unread::Unspelled);
    };
    let Some((extents, rest)) = split_u32(rest) else {
        return Err(Unread::Unspelled);
    };
    let (name, rest) = read_name(alloc, rest)?;
    let (path, rest) = read_path(alloc, rest)?;
    let spec = FileSpec {
        number,
        group,
        extents,
        name,
        path,
    };
    Ok((spec, rest))
}

fn read_names(alloc: Global, count: u8, bytes: &[u8]) -> Result<(Vec<Name>, &[u8]), Unread>
    ensures { Reads (λ x. (x.0.items, x.1.now)) result ((times (string 1 64) count).reading bytes.now) }
{
    let mut names = Vec::new(alloc);
    let mut rest = bytes;
    for _ in 0..count {
        let (name, after) = read_name(alloc, rest)?;
        names.push(name)?;
        rest = after;
    }
    Ok((names, rest))
}

fn read_specs(alloc: Global, count: u16, bytes: &[u8]) -> Result<(Vec<FileSpec>, &[u8]), Unread>
    ensures { Reads (λ x. (x.0.items, x.1.now)) result ((times spec_form count).reading bytes.now) }
{
    let mut specs = Vec::new(alloc);
    let mut rest = bytes;
    for _ in 0..count {
        let (spec, after) = read_spec(alloc, rest)?;
        specs.push(spec)?;
        rest = after;
    }
    Ok((specs, rest))
}

#[tactic(auto, unfolding(bk_bytes::specs::Codec::list_at))]
fn read_groups(alloc: Global, bytes: &[u8]) -> Result<(Sequence<Name>, &[u8]), Unread>
    ensures { Reads (λ x. (x.0, x.1.now)) result ((counted 1 (string 1 64)).reading bytes.now) }
{
    let Some((count, rest)) = split_u8(bytes) else {
        return Err(Unread::Unspelled);
    };
    let (names, rest) = read_names(alloc, count, rest)?;
    Ok((Sequence::new(names), rest))
}

#[tactic(auto, unfolding(bk_bytes::specs::Codec::list_at))]
fn read_files(alloc: Global, bytes: &[u8]) -> Result<(Sequence<FileSpec>, &[u8]), Unread>
    ensures { Reads (λ x. (x.0, x.1.now)) result ((counted 2 spec_form).reading bytes.now) }
{
    let Some((count, rest)) = split_u16(bytes) else {
        return Err(Unread::Unspelled);
    };
    let (specs, rest) = read_specs(alloc, count, rest)?;
    Ok((Sequence::new(specs), rest))
}

/// The filegroups, data files and log at the front of `bytes`, and the rest; `Unspelled` exactly where none are spelled there.
#[tactic(auto, unfolding(crate::specs::Storage::storage_form))]
pub fn read_storage(alloc: Global, bytes: &[u8]) -> Result<(Storage, &[u8]), Unread>
    ensures { Reads (λ x. (x.0, x.1.now)) result (storage_form.reading bytes.now) }
{
    let (groups, rest) = read_groups(alloc, bytes)?;
    let (files, rest) = read_files(alloc, rest)?;
    let (log_name, rest) = read_name(alloc, rest)?;
    let (log_path, rest) = read_path(alloc, rest)?;
    let storage = Storage {
        groups,
        files,
        log_name,
        log_path,
    };
    Ok((storage, rest))
}
