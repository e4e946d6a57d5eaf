//! Backup sets.

ghost use Rattle.std.specs.Prelude.{◌≡◌, ◌++◌, IfOk, OnOk, OnErr};
ghost use Rattle.std.specs.String.{string_bytes};
ghost use Rattle.bk_report.specs.Sets.{header_line, backup_line};
ghost use Rattle.bk_report.specs.Sets as spec;

use crate::cells::{NULL, flag, maybe_time, text_or_null, time};
use bk_ids::{Branch, Lsn, RecoveryModel};
use bk_world::{BackupRow, Base, Header, SetKind};
use std::alloc::{AllocError, Global};

fn type_number(kind: SetKind) -> &'static str
    ensures { result.now ≡ spec.type_number kind }
{
    match kind {
        SetKind::Full => "1",
        SetKind::Log => "2",
        SetKind::File => "4",
        SetKind::Differential => "5",
    }
}

/// The type of a set, as the tables of msdb have it.
pub fn type_letter(kind: SetKind) -> &'static str
    ensures { result.now ≡ spec.type_letter kind }
{
    match kind {
        SetKind::Full => "D",
        SetKind::Log => "L",
        SetKind::File => "F",
        SetKind::Differential => "I",
    }
}

fn model_word(model: RecoveryModel) -> &'static str
    ensures { result.now ≡ spec.model_word model }
{
    match model {
        RecoveryModel::Simple => "SIMPLE",
        RecoveryModel::Full => "FULL",
        RecoveryModel::BulkLogged => "BULK-LOGGED",
    }
}

fn set_cells(
    alloc: Global,
    kind: &str,
    position: u64,
    header: &Header,
) -> Result<String, AllocError>
    ensures { IfOk result (λ text. string_bytes text ≡ spec.set_cells kind.now position header.now) }
{
    let database = header.database.as_str();
    let name = text_or_null(header.name.as_str());
    let set = header.set.text(alloc)?;
    let family = header.family.text(alloc)?;
    format!(in alloc; "{position}\t{kind}\t{database}\t{name}\t{set}\t{family}")
}

fn named_base(kind: SetKind, base: Option<Base>) -> Option<Base>
    ensures { result ≡ spec.named_base kind base }
{
    match kind {
        SetKind::Differential => base,
        SetKind::Full | SetKind::Log | SetKind::File => None,
    }
}

fn base_cells(alloc: Global, base: Option<Base>) -> Result<String, AllocError>
    ensures { IfOk result (λ text. string_bytes text ≡ spec.base_cells base) }
{
    match base {
        Some(Base { set, lsn }) => {
            let set = set.text(alloc)?;
            format!(in alloc; "{lsn}\t{set}")
        }
        None => String::from_str(alloc, "NULL\tNULL"),
    }
}

fn log_cells(alloc: Global, header: &Header) -> Result<String, AllocError>
    ensures { IfOk result (λ text. string_bytes text ≡ spec.log_cells header.now) }
{
    let first = header.first;
    let last = header.last;
    let checkpoint = header.checkpoint;
    let database_backup = header.database_backup;
    let base = base_cells(alloc, named_base(header.kind, header.base))?;
    format!(in alloc; "{first}\t{last}\t{checkpoint}\t{database_backup}\t{base}")
}

// The branch of a path at a number: the last that starts there or below.
fn fork_at(path: &[Branch], n: Lsn) -> Option<Branch>
    ensures { result ≡ spec.fork_at path.now n }
{
    let mut found = None;
    for branch in path {
        if branch.start <= n {
            found = Some(*branch);
        }
    }
    found
}

fn first_at(kind: SetKind, first: Lsn, last: Lsn) -> Lsn
    ensures { result ≡ spec.first_at kind first last }
{
    match kind {
        SetKind::Log => first.saturating_sub(1).max(1),
        SetKind::Full | SetKind::File | SetKind::Differential => last.saturating_sub(1),
    }
}

fn fork_guid(alloc: Global, fork: Option<Branch>) -> Result<String, AllocError>
    ensures { IfOk result (λ text. string_bytes text ≡ spec.fork_guid fork) }
{
    match fork {
        Some(branch) => branch.guid.text(alloc),
        None => String::from_str(alloc, NULL),
    }
}

fn fork_point(
    alloc: Global,
    first: Option<Branch>,
    last: Option<Branch>,
) -> Result<String, AllocError>
    ensures { IfOk result (λ text. string_bytes text ≡ spec.fork_point first last) }
{
    match (first, last) {
        (Some(first), Some(Branch { guid, start })) if first.guid != guid => format!(in alloc;
            "{start}"
        ),
        _ => String::from_str(alloc, NULL),
    }
}

fn fork_cells(alloc: Global, header: &Header) -> Result<String, AllocError>
    ensures { IfOk result (λ text. string_bytes text ≡ spec.fork_cells header.now) }
{
    let path = header.path.as_slice();
    let first = fork_at(path, first_at(header.kind, header.first, header.last));
    let last = fork_at(path, header.last.saturating_sub(1));
    let first_guid = fork_guid(alloc, first)?;
    let last_guid = fork_guid(alloc, last)?;
    let point = fork_point(alloc, first, last)?;
    format!(in alloc; "{first_guid}\t{last_guid}\t{point}")
}

fn flag_cells(alloc: Global, header: &Header) -> Result<String, AllocError>
    ensures { IfOk result (λ text. string_bytes text ≡ spec.flag_cells header.now) }
{
    let model = model_word(header.model);
    let bulk = flag(header.bulk);
    let copy_only = flag(header.copy_only);
    let begins_chain = flag(header.begins_chain);
    let checksums = flag(header.checksums);
    format!(in alloc; "{model}\t{bulk}\t{copy_only}\t{begins_chain}\t{checksums}")
}

fn date_cells(alloc: Global, header: &Header) -> Result<String, AllocError>
    ensures { IfOk result (λ text. string_bytes text ≡ spec.date_cells header.now) }
{
    let start = time(alloc, header.start)?;
    let finish = time(alloc, header.finish)?;
    let expiry = maybe_time(alloc, header.expiry)?;
    format!(in alloc; "{start}\t{finish}\t{expiry}")
}

fn columns(alloc: Global, kind: &str, position: u64, header: &Header) -> Result<String, AllocError>
    ensures { IfOk result (λ text. string_bytes text ≡ spec.columns kind.now position header.now) }
{
    let set = set_cells(alloc, kind, position, header)?;
    let log = log_cells(alloc, header)?;
    let forks = fork_cells(alloc, header)?;
    let flags = flag_cells(alloc, header)?;
    let dates = date_cells(alloc, header)?;
    format!(in alloc; "{set}\t{log}\t{forks}\t{flags}\t{dates}")
}

/// Adds the line of RESTORE HEADERONLY for the set at a position. Where memory is wanting, the text is as it was.
pub fn push_header(
    alloc: Global,
    text: &mut String,
    position: u64,
    header: &Header,
) -> Result<(), AllocError>
    ensures ok { OnOk result (string_bytes text.new ≡ string_bytes text.old ++ header_line position header.now) }
    ensures err { OnErr result (string_bytes text.new ≡ string_bytes text.old) }
{
    let columns = columns(alloc, type_number(header.kind), position, header)?;
    text.push_str(&format!(in alloc; "{columns}\n")?)
}

/// Adds a row of backupset, by its number in the table from 1. Where memory is wanting, the text is as it was.
pub fn push_backup(
    alloc: Global,
    text: &mut String,
    id: u64,
    row: &BackupRow,
) -> Result<(), AllocError>
    ensures ok { OnOk result (string_bytes text.new ≡ string_bytes text.old ++ backup_line id row.now) }
    ensures err { OnErr result (string_bytes text.new ≡ string_bytes text.old) }
{
    let kind = type_letter(row.header.kind);
    let columns = columns(alloc, kind, u64::from(row.position), &row.header)?;
    text.push_str(&format!(in alloc; "{id}\t{columns}\n")?)
}
