// The log of a database.
ghost use Rattle.std.specs.Prelude.{◌≡◌, false, IfOk, OnOk};
ghost use Rattle.bk_record.specs.Spelling.{KeepsLimits};

use crate::words::{bytes, number, number32, show, word};
use bk_ids::{Body, Rec};
use bk_log::{Log, LogError};
use bk_record::spelled_len;
use std::alloc::{AllocError, Global};
use trials::Untold;

// A record of a checkpoint.
fn checkpoint(lsn: u64) -> Rec
    ensures lsn { result.lsn ≡ lsn }
    ensures limits { KeepsLimits result.body }
{
    Rec {
        lsn,
        begin: 0,
        body: Body::Checkpoint { time: lsn },
    }
}

// Adds so many records of checkpoints.
fn add(log: &mut Log, count: u64) -> Result<(), AllocError>
    requires { log.old.failed ≡ false }
    ensures { log.new.failed ≡ false }
{
    'records: for _ in 0..count {
        let lsn = log.end();
        if lsn == u64::MAX {
            return Ok(());
        }
        log.append(&checkpoint(lsn))?;
    }
    Ok(())
}

// Adds a record for which room was made, and makes it durable by a flush for which room was made.
fn add_reserved(device: &mut Untold, log: &mut Log) -> Result<(), LogError>
    requires { log.old.failed ≡ false }
    ensures { OnOk result (log.new.failed ≡ false) }
{
    let record = checkpoint(log.end());
    if record.lsn == u64::MAX || log.spare_bytes() < spelled_len(&record) {
        return Ok(());
    }
    log.append_reserved(&record);
    if log.spare_flushes() > 0 {
        log.flush_reserved(device)?;
    }
    Ok(())
}

// Makes at most 32,768 bytes the note.
fn set_note(device: &mut Untold, log: &mut Log, note: &[u8]) -> Result<(), LogError>
    requires { log.old.failed ≡ false }
    ensures { OnOk result (log.new.failed ≡ false) }
{
    if note.len() <= 32_768 {
        log.set_note(device, note)?;
    }
    Ok(())
}

// Cuts the log at a number, where that is allowed.
fn truncate(device: &mut Untold, log: &mut Log, to: u64) -> Result<(), LogError>
    requires { log.old.failed ≡ false }
    ensures { OnOk result (log.new.failed ≡ false) }
{
    if log.kept() <= to && to <= log.stored() {
        log.truncate(device, to)?;
    }
    Ok(())
}

// `add COUNT`, which flushes too, `reserve BYTES`, which then adds a record, `note BYTES`, `truncate LSN`, or nothing.
fn call(alloc: Global, device: &mut Untold, log: &mut Log, words: &[&str]) -> Result<(), LogError>
    requires { log.old.failed ≡ false }
    ensures { OnOk result (log.new.failed ≡ false) }
{
    match word(words, 2) {
        "add" => {
            add(log, number(words, 3))?;
            log.flush(alloc, device)
        }
        "reserve" => {
            log.reserve(number(words, 3) as usize, 1)?;
            add_reserved(device, log)
        }
        "note" => set_note(device, log, &bytes(alloc, word(words, 3))?),
        "truncate" => truncate(device, log, number(words, 3)),
        _ => Ok(()),
    }
}

// Those, or `make LSN`.
fn opened(alloc: Global, device: &mut Untold, words: &[&str]) -> Result<Log, LogError>
    ensures { IfOk result (λ l. l.failed ≡ false) }
{
    let db = number32(words, 1);
    if word(words, 2) == "make" {
        return Log::make(alloc, device, db, number(words, 3));
    }
    let mut log = Log::load(alloc, device, db)?;
    call(alloc, device, &mut log, words)?;
    Ok(log)
}

// The kept point, the number of the next record, the note, and the bytes of the records from the kept point on.
fn show_all(
    alloc: Global,
    device: &mut Untold,
    log: &Log,
    out: &mut String,
) -> Result<(), AllocError>
    requires { log.now.failed ≡ false }
{
    let (kept, stored) = (log.kept(), log.stored());
    write!(out, "{kept} {} ", log.end())?;
    show(alloc, log.note(), out)?;
    if stored < kept {
        return out.push_str(" none");
    }
    match log.bytes(alloc, device, kept, stored) {
        Ok(bytes) => {
            out.push_str(" ")?;
            show(alloc, &bytes, out)
        }
        Err(error) => write!(out, " {error}"),
    }
}

// Those, or `remove`.
pub(crate) fn run(
    alloc: Global,
    device: &mut Untold,
    words: &[&str],
    out: &mut String,
) -> Result<(), AllocError> {
    if word(words, 2) == "remove" {
        return match Log::remove(alloc, device, number32(words, 1)) {
            Ok(()) => out.push_str("removed"),
            Err(error) => write!(out, "{error}"),
        };
    }
    match opened(alloc, device, words) {
        Ok(log) => show_all(alloc, &mut device.copy()?, &log, out),
        Err(error) => write!(out, "{error}"),
    }
}
