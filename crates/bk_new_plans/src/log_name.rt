//! The name and the path of a new database's log.

ghost use Rattle.std.specs.Prelude.{◌≡◌, ◌≤◌, true, length, IfOk};
ghost use Rattle.std.specs.String.{string_bytes};
ghost use Rattle.bk_machine.specs.statements.CreateDatabase as create;
ghost use Rattle.bk_machine.specs.statements.CreateDatabase.{default_log, text_front};

use bk_ids::{Name, Text};
use bk_items::NewFile;
use bk_plans::name_in;
use std::alloc::{AllocError, Global};

// The longest front of a text that has at most 60 bytes and ends between characters.
fn front(text: &str) -> &str
    ensures front { result.now ≡ text_front 60 text.now }
    ensures short { length result.now ≤ 60 }
{
    if text.len() <= 60 {
        text
    } else {
        &text[..text.floor_char_boundary(60)]
    }
}

// What a log is called where it isn't named: 4 to 64 bytes.
fn log_name(alloc: Global, database: &Text) -> Result<Text, AllocError>
    ensures { IfOk result (λ name. name ≡ default_log database.now) }
{
    let front = front(database.as_str());
    let name = format!(in alloc; "{front}_log")?;
    Ok(Text::new(name))
}

// The name and the path of the log where it isn't named.
fn default_names(alloc: Global, database: &Text) -> Result<(Name, Text), AllocError>
    ensures { IfOk result (λ log. (log.0 ≡ default_log database.now) × (log.1 ≡ default_log database.now)) }
{
    let path = log_name(alloc, database)?;
    Ok((name_in(alloc, &path)?, path))
}

// The name and the path of the log of a new database.
pub(crate) fn log_names(
    alloc: Global,
    database: &Text,
    log: &Option<NewFile>,
) -> Result<(Name, Text), AllocError>
    requires { create.is_named_log log.now ≡ true }
    ensures { IfOk result (λ names. (names.0 ≡ create.new_log_name database.now log.now) × (names.1 ≡ create.new_log_path database.now log.now)) }
{
    match log {
        Some(log) => Ok((name_in(alloc, &log.name)?, log.path.copy(alloc)?)),
        None => default_names(alloc, database),
    }
}
