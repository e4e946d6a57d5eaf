// The command line as clap reads it.

use clap::error::ErrorKind;
use clap::{Arg, ArgAction, Command, Error};
use std::alloc::{AllocError, Global};

fn command<'a>(alloc: Global) -> Result<Command<'a>, AllocError> {
    Command::new(alloc, "sqlbak")
        .no_binary_name(true)
        .arg(Arg::new(alloc, "dir").required(true))?
        .arg(
            Arg::new(alloc, "stop")
                .short('b')
                .action(ArgAction::SetTrue),
        )?
        .arg(Arg::new(alloc, "instance").long("instance"))
}

fn read(alloc: Global, line: &[String]) -> Result<String, Error> {
    let matches = command(alloc)?.try_get_matches_from(line)?;
    let dir = matches.get_str("dir").unwrap_or("");
    let stop = matches.get_flag("stop");
    let instance = matches.get_str("instance").unwrap_or("1");
    Ok(format!(in alloc; "{dir} {stop} {instance}\n")?)
}

/// The directory, whether to stop at a refusal, and the instance's number that clap reads in words, or `usage`.
pub fn asked(alloc: Global, line: &[String]) -> Result<String, AllocError> {
    match read(alloc, line) {
        Ok(text) => Ok(text),
        Err(error) if error.kind() == ErrorKind::OutOfMemory => Err(AllocError),
        Err(_) => String::from_str(alloc, "usage\n"),
    }
}
