//! A header from its parts, where they keep the conditions.

ghost use Rattle.std.specs.Prelude.{◌≡◌, ◌<◌, ◌≤◌, ◌==◌, nat_lt, nat_le, length};
ghost use Rattle.std.specs.List.{list_all};
ghost use Rattle.bk_bytes.specs.Codec.{Gives};
ghost use Rattle.bk_header.specs.Conditions.{total_extents};
ghost use Rattle.bk_header.specs.Reading.{bit, base_in, expiry_in, is_range, has_its_base, starts_rise, is_path, are_numbered, are_files, keeps_order, keeps_limits, header_from};

use crate::fixed::{Fixed, Range};
use crate::lists::Lists;
use bk_ids::{Branch, Lsn};
use bk_world::{Base, Header, HeaderFile, SetKind};

/// 9999-12-31 23:59:59.999 in milliseconds since 1970-01-01 00:00:00.
pub(crate) const LAST_TIME: u64 = 253_402_300_799_999;

fn is_set(flags: u8, worth: u8) -> bool
    requires { 0 < worth }
    ensures { result ≡ bit flags worth }
{
    flags / worth % 2 == 1
}

// The outer `None` is no header, the inner one no base.
fn base_of(there: bool, base: Base) -> Option<Option<Base>>
    ensures { result ≡ base_in there base }
{
    if there {
        return Some(Some(base));
    }
    if base.set.high == 0 && base.set.low == 0 && base.lsn == 0 {
        Some(None)
    } else {
        None
    }
}

fn expiry_of(there: bool, time: u64) -> Option<Option<u64>>
    ensures { result ≡ expiry_in there time }
{
    if there {
        return if time <= LAST_TIME {
            Some(Some(time))
        } else {
            None
        };
    }
    if time == 0 { Some(None) } else { None }
}

pub(crate) fn is_in_order(kind: SetKind, range: Range) -> bool
    ensures { result ≡ is_range kind range.first range.checkpoint range.last }
{
    match kind {
        SetKind::Log => range.first < range.last,
        SetKind::Full | SetKind::File | SetKind::Differential => {
            range.first <= range.checkpoint && range.checkpoint < range.last
        }
    }
}

pub(crate) fn has_base(kind: SetKind, base: Option<Base>) -> bool
    ensures { result ≡ has_its_base kind base }
{
    match kind {
        SetKind::Differential => base.is_some(),
        SetKind::Full | SetKind::Log | SetKind::File => true,
    }
}

fn rise_from_one(path: &[Branch]) -> bool
    ensures { result ≡ starts_rise 1 path.now }
{
    let mut least = 1;
    for branch in path {
        if branch.start < least {
            return false;
        }
        least = branch.start;
    }
    true
}

fn are_below(path: &[Branch], last: Lsn) -> bool
    ensures { result ≡ list_all (λ b. nat_lt b.start last) path.now }
{
    path.iter().all(|branch| branch.start < last)
}

pub(crate) fn is_recovery_path(path: &[Branch], last: Lsn) -> bool
    ensures { result ≡ is_path last path.now }
{
    let Some((first, others)) = path.split_first() else {
        return false;
    };
    first.start == 1 && rise_from_one(others) && are_below(path, last) && path.len() <= 64
}

fn count_from_one(files: &[HeaderFile]) -> bool
    requires { length files.now ≤ 16 }
    ensures { result ≡ are_numbered 1 files.now }
{
    let mut number = 1u16;
    for file in files {
        if file.spec.number != number {
            return false;
        }
        number += 1;
    }
    true
}

fn have_groups(files: &[HeaderFile], groups: usize) -> bool
    ensures { result ≡ list_all (λ file. nat_lt file.spec.group groups) files.now }
{
    files
        .iter()
        .all(|file| usize::from(file.spec.group) < groups)
}

fn extents(files: &[HeaderFile]) -> u64
    requires { length files.now ≤ 16 }
    ensures { result ≡ total_extents files.now }
{
    files.iter().map(|file| u64::from(file.spec.extents)).sum()
}

pub(crate) fn are_data_files(files: &[HeaderFile], groups: usize) -> bool
    ensures { result ≡ are_files groups files.now }
{
    !files.is_empty()
        && files.len() <= 16
        && count_from_one(files)
        && have_groups(files, groups)
        && extents(files) <= 4096
}

fn in_order(fixed: &Fixed, base: Option<Base>) -> bool
    ensures { result ≡ keeps_order fixed.now base }
{
    is_in_order(fixed.what.kind, fixed.range)
        && has_base(fixed.what.kind, base)
        && fixed.times.start <= LAST_TIME
        && fixed.times.finish <= LAST_TIME
}

fn within_limits(last: Lsn, lists: &Lists) -> bool
    ensures { result ≡ keeps_limits last lists.now }
{
    let groups = lists.groups.as_slice().len();
    is_recovery_path(lists.path.as_slice(), last)
        && 0 < groups
        && groups <= 8
        && are_data_files(lists.files.as_slice(), groups)
}

/// The header of these parts, or `None` where they don't keep the conditions.
#[tactic(auto, unfolding(crate::specs::Reading::header_from, crate::specs::Reading::header_of))]
pub fn make(fixed: Fixed, lists: Lists) -> Option<Header>
    ensures { result ≡ header_from fixed lists }
{
    let base = base_of(is_set(fixed.what.flags, 16), fixed.base)?;
    let expiry = expiry_of(is_set(fixed.what.flags, 32), fixed.times.expiry)?;
    if !in_order(&fixed, base) || !within_limits(fixed.range.last, &lists) {
        return None;
    }
    Some(Header {
        version: 1,
        kind: fixed.what.kind,
        model: fixed.what.model,
        copy_only: is_set(fixed.what.flags, 1),
        bulk: is_set(fixed.what.flags, 2),
        begins_chain: is_set(fixed.what.flags, 4),
        checksums: is_set(fixed.what.flags, 8),
        set: fixed.set,
        family: fixed.family,
        first: fixed.range.first,
        checkpoint: fixed.range.checkpoint,
        last: fixed.range.last,
        database_backup: fixed.range.database_backup,
        base,
        start: fixed.times.start,
        finish: fixed.times.finish,
        expiry,
        database: lists.database,
        name: lists.name,
        path: lists.path,
        groups: lists.groups,
        files: lists.files,
        log_name: lists.log_name,
        log_path: lists.log_path,
    })
}
