//! What is listed.

ghost use Rattle.std.specs.Prelude.{◌≡◌, ◌++◌, IfOk, OnOk, OnErr, flat_map};
ghost use Rattle.std.specs.String.{string_bytes};
ghost use Rattle.bk_report.specs.Files.{file_lines};
ghost use Rattle.bk_report.specs.Histories.{mark_line};
ghost use Rattle.bk_report.specs.Listing.{backup_lines, listing_text, restore_lines, set_line};

use crate::files::push_files;
use crate::histories::{push_mark, push_restore};
use crate::sets::{push_backup, push_header};
use bk_world::{BackupRow, Header, Listing, MarkRow, RestoreRow, Storage};
use std::alloc::{AllocError, Global};

fn sets_text(alloc: Global, sets: &[(u64, Header)]) -> Result<String, AllocError>
    ensures { IfOk result (λ text. string_bytes text ≡ flat_map set_line sets.now) }
{
    let mut text = String::new(alloc);
    for (position, header) in sets {
        push_header(alloc, &mut text, *position, header)?;
    }
    Ok(text)
}

fn files_text(alloc: Global, storage: &Storage) -> Result<String, AllocError>
    ensures { IfOk result (λ text. string_bytes text ≡ file_lines storage.now) }
{
    let mut text = String::new(alloc);
    push_files(alloc, &mut text, storage)?;
    Ok(text)
}

fn backups_text(alloc: Global, rows: &[BackupRow]) -> Result<String, AllocError>
    ensures { IfOk result (λ text. string_bytes text ≡ backup_lines 1 rows.now) }
{
    let mut text = String::new(alloc);
    for (i, row) in rows.iter().enumerate() {
        push_backup(alloc, &mut text, i as u64 + 1, row)?;
    }
    Ok(text)
}

fn restores_text(alloc: Global, rows: &[RestoreRow]) -> Result<String, AllocError>
    ensures { IfOk result (λ text. string_bytes text ≡ restore_lines 1 rows.now) }
{
    let mut text = String::new(alloc);
    for (i, row) in rows.iter().enumerate() {
        push_restore(alloc, &mut text, i as u64 + 1, row)?;
    }
    Ok(text)
}

fn marks_text(alloc: Global, rows: &[MarkRow]) -> Result<String, AllocError>
    ensures { IfOk result (λ text. string_bytes text ≡ flat_map mark_line rows.now) }
{
    let mut text = String::new(alloc);
    for row in rows {
        push_mark(alloc, &mut text, row)?;
    }
    Ok(text)
}

#[tactic(auto, unfolding(crate::specs::Listing::listing_text))]
fn lines(alloc: Global, listing: &Listing) -> Result<String, AllocError>
    ensures { IfOk result (λ text. string_bytes text ≡ listing_text listing.now) }
{
    match listing {
        Listing::Sets { sets } => sets_text(alloc, sets.as_slice()),
        Listing::Files { storage } => files_text(alloc, storage),
        Listing::Backups { rows } => backups_text(alloc, rows.as_slice()),
        Listing::Restores { rows } => restores_text(alloc, rows.as_slice()),
        Listing::Marks { rows } => marks_text(alloc, rows.as_slice()),
    }
}

/// Adds the lines of a listing, one for each of its rows; rows of backupset and restorehistory are numbered from 1. Where memory
/// is wanting, the text is as it was.
pub fn push_listing(alloc: Global, text: &mut String, listing: &Listing) -> Result<(), AllocError>
    ensures ok { OnOk result (string_bytes text.new ≡ string_bytes text.old ++ listing_text listing.now) }
    ensures err { OnErr result (string_bytes text.new ≡ string_bytes text.old) }
{
    let lines = lines(alloc, listing)?;
    text.push_str(&lines)
}
