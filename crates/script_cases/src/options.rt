// The options of BACKUP and RESTORE.
use crate::words::{add_count, add_name, add_number, add_pieces, add_switch, add_text, add_words};
use bk_items::{BackupOptions, Ending, FileMove, IdleOptions, RestoreOptions, StopMark, Stopping};
use std::alloc::AllocError;

fn add_idle(out: &mut String, o: &IdleOptions) -> Result<(), AllocError> {
    let words = [
        ("stats", o.stats),
        ("rewind", o.rewind),
        ("norewind", o.no_rewind),
        ("unload", o.unload),
        ("nounload", o.no_unload),
        ("description", o.description),
        ("medianame", o.media_name),
        ("mediadescription", o.media_description),
        ("buffercount", o.buffer_count),
        ("maxtransfersize", o.max_transfer_size),
        ("blocksize", o.block_size),
        ("stop_on_error", o.stop_on_error),
        ("no_compression", o.no_compression),
    ];
    add_words(out, &words)
}

fn add_kinds(out: &mut String, o: &BackupOptions) -> Result<(), AllocError> {
    let words = [
        ("copy_only", o.copy_only),
        ("differential", o.differential),
        ("norecovery", o.no_recovery),
        ("no_truncate", o.no_truncate),
    ];
    add_words(out, &words)
}

fn add_valued(out: &mut String, o: &BackupOptions) -> Result<(), AllocError> {
    if let Some(name) = &o.name {
        add_text(out, " name", name)?;
    }
    add_number(out, "expire", o.expire)?;
    add_number(out, "retain", o.retain)
}

fn add_switches(out: &mut String, o: &BackupOptions) -> Result<(), AllocError> {
    add_switch(out, "init", "noinit", o.init)?;
    add_switch(out, "format", "noformat", o.format)?;
    add_switch(out, "skip", "noskip", o.skip)?;
    add_switch(out, "checksum", "no_checksum", o.checksum)
}

/// Adds the options of a BACKUP, each behind a blank.
pub fn add_backup_options(out: &mut String, o: &BackupOptions) -> Result<(), AllocError> {
    add_switches(out, o)?;
    add_kinds(out, o)?;
    add_valued(out, o)?;
    add_idle(out, &o.idle)
}

fn add_ending(out: &mut String, ending: &Option<Ending>) -> Result<(), AllocError> {
    match ending {
        Some(Ending::Recovery) => out.push_str(" recovery"),
        Some(Ending::NoRecovery) => out.push_str(" norecovery"),
        Some(Ending::Standby { path }) => add_name(out, " standby", path),
        None => Ok(()),
    }
}

fn add_mark(
    out: &mut String,
    place: &str,
    mark: &StopMark,
    after: Option<u64>,
) -> Result<(), AllocError> {
    add_pieces(out, &[" ", place, " mark '", mark.text.as_str(), "'"])?;
    add_number(out, "lsn", mark.lsn)?;
    add_number(out, "after", after)
}

fn add_stop(out: &mut String, stop: &Option<Stopping>) -> Result<(), AllocError> {
    match stop {
        Some(Stopping::At { text, time }) => {
            add_text(out, " at", text)?;
            add_count(out, *time)
        }
        Some(Stopping::AtMark { mark, after }) => add_mark(out, "at", mark, *after),
        Some(Stopping::BeforeMark { mark, after }) => add_mark(out, "before", mark, *after),
        None => Ok(()),
    }
}

fn add_moves(out: &mut String, moves: &[FileMove]) -> Result<(), AllocError> {
    for one in moves {
        add_pieces(
            out,
            &[" move ", one.name.as_str(), " to ", one.path.as_str()],
        )?;
    }
    Ok(())
}

fn add_changes(out: &mut String, o: &RestoreOptions) -> Result<(), AllocError> {
    add_words(out, &[("replace", o.replace), ("partial", o.partial)])?;
    add_moves(out, o.moves.as_slice())?;
    add_switch(out, "checksum", "no_checksum", o.checksum)
}

/// Adds the options of a RESTORE, each behind a blank.
pub fn add_restore_options(out: &mut String, o: &RestoreOptions) -> Result<(), AllocError> {
    add_number(out, "set", o.file)?;
    add_ending(out, &o.ending)?;
    add_stop(out, &o.stop)?;
    add_changes(out, o)?;
    add_idle(out, &o.idle)
}
