//! Commands on filegroups.

ghost use Rattle.std.specs.Prelude.{◌≡◌, ◌≤◌, IfOk};
ghost use Rattle.bk_groups.specs.Groups.{AreFiles};

use crate::words::{number, word};
use bk_groups::Groups;
use bk_ids::{Name, Place, Slot, Text};
use bk_world::FileSpec;
use std::alloc::{AllocError, Global};

pub(crate) fn answer_groups(
    alloc: Global,
    groups: &mut Groups,
    command: &str,
    out: &mut String,
) -> Result<(), AllocError> {
    match word(command, 1) {
        "new" => *groups = groups_of(alloc, command)?,
        "table" => return add_table(groups, command, out),
        "is-free" => return show_free(groups, command, out),
        "fill" | "put" | "free" | "find" => return answer_row(groups, command, out),
        _ => return out.push_str("no such command\n"),
    }
    Ok(())
}

fn groups_of(alloc: Global, command: &str) -> Result<Groups, AllocError> {
    let files = files_of(alloc, command)?;
    Groups::new(alloc, &files)
}

/// Two files, each of a filegroup, with so many extents.
pub(crate) fn files_of(alloc: Global, command: &str) -> Result<Vec<FileSpec>, AllocError>
    ensures { IfOk result (λ files. AreFiles files.items) }
{
    let mut files = Vec::new(alloc);
    files.push(file(alloc, 1, word(command, 2), word(command, 3))?)?;
    files.push(file(alloc, 2, word(command, 4), word(command, 5))?)?;
    Ok(files)
}

// The file of this number, of a filegroup and with so many extents, at most 4,096.
fn file(alloc: Global, number: u16, group: &str, extents: &str) -> Result<FileSpec, AllocError>
    ensures number { IfOk result (λ file. file.number ≡ number) }
    ensures extents { IfOk result (λ file. file.extents ≤ 4096) }
{
    let extents: u32 = extents.parse().unwrap_or(0);
    Ok(FileSpec {
        number,
        group: group.parse().unwrap_or(0),
        extents: extents.min(4096),
        name: Name::new(alloc, "S").map_err(|_| AllocError)?,
        path: Text::new(String::from_str(alloc, "s")?),
    })
}

fn add_table(groups: &mut Groups, command: &str, out: &mut String) -> Result<(), AllocError> {
    let table = word(command, 2).parse().unwrap_or(0);
    if groups.group(table).is_some() {
        return out.push_str("there is such a table\n");
    }
    groups.add_table(table, word(command, 3).parse().unwrap_or(0))
}

// The place that a command names by its file, page and slot, if it is one of a cell.
fn place_in(command: &str, i: usize) -> Option<Place>
    requires { i ≤ 4 }
{
    let slot = Slot::new(word(command, i + 2).parse().unwrap_or(0))?;
    Some(Place {
        file: word(command, i).parse().unwrap_or(0),
        page: word(command, i + 1).parse().unwrap_or(0),
        slot,
    })
}

fn show_free(groups: &Groups, command: &str, out: &mut String) -> Result<(), AllocError> {
    match place_in(command, 2) {
        Some(at) if groups.is_free(&at) => out.push_str("free\n"),
        _ => out.push_str("not free\n"),
    }
}

fn answer_row(groups: &mut Groups, command: &str, out: &mut String) -> Result<(), AllocError> {
    let table = word(command, 2).parse().unwrap_or(0);
    let key = number(command, 3);
    match word(command, 1) {
        "fill" => fill(groups, table, key, number(command, 4), out),
        "put" => put(groups, table, key, place_in(command, 4), out),
        "free" => free(groups, table, key, out),
        _ => show_place(groups.find(table, key), out),
    }
}

// Gives a place to each row of a table with a key from one on and below another, until that is refused.
fn fill(
    groups: &mut Groups,
    table: u32,
    from: u64,
    to: u64,
    out: &mut String,
) -> Result<(), AllocError> {
    for key in from..to {
        if groups.group(table).is_none() || groups.find(table, key).is_some() {
            return writeln!(out, "key {key}: no such table, or a place already");
        }
        if let Err(error) = groups.place(table, key) {
            return writeln!(out, "key {key}: {error}");
        }
    }
    Ok(())
}

fn put(
    groups: &mut Groups,
    table: u32,
    key: u64,
    at: Option<Place>,
    out: &mut String,
) -> Result<(), AllocError> {
    match at {
        Some(at) if groups.find(table, key).is_none() && groups.is_free(&at) => {
            groups.put(table, key, &at)
        }
        _ => out.push_str("has a place, or isn't free\n"),
    }
}

fn free(groups: &mut Groups, table: u32, key: u64, out: &mut String) -> Result<(), AllocError> {
    if groups.find(table, key).is_none() {
        return out.push_str("no place\n");
    }
    groups.free(table, key);
    Ok(())
}

pub(crate) fn show_place(at: Option<Place>, out: &mut String) -> Result<(), AllocError> {
    match at {
        Some(at) => {
            let slot = at.slot.get();
            writeln!(out, "file {} page {} slot {slot}", at.file, at.page)
        }
        None => out.push_str("no place\n"),
    }
}
