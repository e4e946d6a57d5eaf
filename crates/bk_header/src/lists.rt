//! The lists and texts.

ghost use Rattle.std.specs.Prelude.{◌≡◌, ◌<◌, ◌≤◌, length};
ghost use Rattle.bk_bytes.specs.Codec.{Gives, string, times, counted};
ghost use Rattle.bk_header.specs.Reading.{in_set_form, branch_form, file_form, lists_form};
ghost use Rattle.bk_reading.specs.Reading.{Reads};

use bk_bytes::{split_str, split_u8, split_u16, split_u32, split_u64};
use bk_fields::split_guid;
use bk_ids::{Branch, Name, Path, Sequence, Text};
use bk_reading::Unread;
use bk_world::{FileSpec, HeaderFile};
use std::alloc::Global;

/// The lists and texts of a header, as they are read.
#[derive(Debug, Drop)]
pub struct Lists {
    pub database: Name,
    pub name: Text,
    pub path: Path,
    pub groups: Sequence<Name>,
    pub files: Sequence<HeaderFile>,
    pub log_name: Name,
    pub log_path: Text,
}

fn read_name(alloc: Global, bytes: &[u8]) -> Result<(Name, &[u8]), Unread>
    ensures { Reads (λ x. (x.0, x.1.now)) result ((string 1 64).reading bytes.now) }
{
    match bk_fields::read_name(alloc, bytes)? {
        Some(read) => Ok(read),
        None => Err(Unread::Unspelled),
    }
}

fn read_text(
    alloc: Global,
    bytes: &[u8],
    least: usize,
    most: usize,
) -> Result<(Text, &[u8]), Unread>
    ensures { Reads (λ x. (x.0, x.1.now)) result ((string least most).reading bytes.now) }
{
    let Some((text, rest)) = split_str(bytes, least, most) else {
        return Err(Unread::Unspelled);
    };
    let text = String::from_str(alloc, text)?;
    Ok((Text::new(text), rest))
}

#[tactic(auto, unfolding(crate::specs::Reading::in_set_form))]
fn split_in_set(bytes: &[u8]) -> Option<(bool, &[u8])>
    ensures { Gives (λ x. (x.0, x.1.now)) result (in_set_form.reading bytes.now) }
{
    let (number, rest) = split_u8(bytes)?;
    match number {
        0 => Some((false, rest)),
        1 => Some((true, rest)),
        _ => None,
    }
}

#[tactic(auto, unfolding(crate::specs::Reading::branch_form))]
fn split_branch(bytes: &[u8]) -> Option<(Branch, &[u8])>
    ensures { Gives (λ x. (x.0, x.1.now)) result (branch_form.reading bytes.now) }
{
    let (guid, rest) = split_guid(bytes)?;
    let (start, rest) = split_u64(rest)?;
    Some((Branch { guid, start }, rest))
}

#[tactic(auto, unfolding(crate::specs::Reading::file_form))]
fn read_file(alloc: Global, bytes: &[u8]) -> Result<(HeaderFile, &[u8]), Unread>
    ensures { Reads (λ x. (x.0, x.1.now)) result (file_form.reading bytes.now) }
{
    let Some((number, rest)) = split_u16(bytes) else {
        return Err(Unread::Unspelled);
    };
    let Some((group, rest)) = split_u8(rest) else {
        return Err(Unread::Unspelled);
    };
    let Some((extents, rest)) = split_u32(rest) else {
        return Err(Unread::Unspelled);
    };
    let Some((in_set, rest)) = split_in_set(rest) else {
        return Err(Unread::Unspelled);
    };
    let (name, rest) = read_name(alloc, rest)?;
    let (path, rest) = read_text(alloc, rest, 1, 100)?;
    let spec = FileSpec {
        number,
        group,
        extents,
        name,
        path,
    };
    Ok((HeaderFile { spec, in_set }, rest))
}

fn read_branches(alloc: Global, count: u16, bytes: &[u8]) -> Result<(Vec<Branch>, &[u8]), Unread>
    ensures { Reads (λ x. (x.0.items, x.1.now)) result ((times branch_form count).reading bytes.now) }
{
    let mut branches = Vec::new(alloc);
    let mut rest = bytes;
    for _ in 0..count {
        let Some((branch, after)) = split_branch(rest) else {
            return Err(Unread::Unspelled);
        };
        branches.push(branch)?;
        rest = after;
    }
    Ok((branches, rest))
}

fn read_names(alloc: Global, count: u8, bytes: &[u8]) -> Result<(Vec<Name>, &[u8]), Unread>
    ensures { Reads (λ x. (x.0.items, x.1.now)) result ((times (string 1 64) count).reading bytes.now) }
{
    let mut names = Vec::new(alloc);
    let mut rest = bytes;
    for _ in 0..count {
        let (name, after) = read_name(alloc, rest)?;
        names.push(name)?;
        rest = after;
    }
    Ok((names, rest))
}

fn read_files(alloc: Global, count: u16, bytes: &[u8]) -> Result<(Vec<HeaderFile>, &[u8]), Unread>
    ensures { Reads (λ x. (x.0.items, x.1.now)) result ((times file_form count).reading bytes.now) }
{
    let mut files = Vec::new(alloc);
    let mut rest = bytes;
    for _ in 0..count {
        let (file, after) = read_file(alloc, rest)?;
        files.push(file)?;
        rest = after;
    }
    Ok((files, rest))
}

#[tactic(auto, unfolding(bk_bytes::specs::Codec::list_at))]
fn read_path(alloc: Global, bytes: &[u8]) -> Result<(Path, &[u8]), Unread>
    ensures { Reads (λ x. (x.0, x.1.now)) result ((counted 2 branch_form).reading bytes.now) }
{
    let Some((count, rest)) = split_u16(bytes) else {
        return Err(Unread::Unspelled);
    };
    let (branches, rest) = read_branches(alloc, count, rest)?;
    Ok((Path::new(branches), rest))
}

#[tactic(auto, unfolding(bk_bytes::specs::Codec::list_at))]
fn read_groups(alloc: Global, bytes: &[u8]) -> Result<(Sequence<Name>, &[u8]), Unread>
    ensures { Reads (λ x. (x.0, x.1.now)) result ((counted 1 (string 1 64)).reading bytes.now) }
{
    let Some((count, rest)) = split_u8(bytes) else {
        return Err(Unread::Unspelled);
    };
    let (names, rest) = read_names(alloc, count, rest)?;
    Ok((Sequence::new(names), rest))
}

#[tactic(auto, unfolding(bk_bytes::specs::Codec::list_at))]
fn read_all_files(alloc: Global, bytes: &[u8]) -> Result<(Sequence<HeaderFile>, &[u8]), Unread>
    ensures { Reads (λ x. (x.0, x.1.now)) result ((counted 2 file_form).reading bytes.now) }
{
    let Some((count, rest)) = split_u16(bytes) else {
        return Err(Unread::Unspelled);
    };
    let (files, rest) = read_files(alloc, count, rest)?;
    Ok((Sequence::new(files), rest))
}

/// The lists and texts at the front of `bytes`, and the rest.
#[tactic(auto, unfolding(crate::specs::Reading::lists_form))]
pub fn read_lists(alloc: Global, bytes: &[u8]) -> Result<(Lists, &[u8]), Unread>
    ensures { Reads (λ x. (x.0, x.1.now)) result (lists_form.reading bytes.now) }
{
    let (database, rest) = read_name(alloc, bytes)?;
    let (name, rest) = read_text(alloc, rest, 0, 65535)?;
    let (path, rest) = read_path(alloc, rest)?;
    let (groups, rest) = read_groups(alloc, rest)?;
    let (files, rest) = read_all_files(alloc, rest)?;
    let (log_name, rest) = read_name(alloc, rest)?;
    let (log_path, rest) = read_text(alloc, rest, 1, 100)?;
    let lists = Lists {
        database,
        name,
        path,
        groups,
        files,
        log_name,
        log_path,
    };
    Ok((lists, rest))
}
