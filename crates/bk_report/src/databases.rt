//! The databases of an instance.

ghost use Rattle.std.specs.Prelude.{◌≡◌, ◌++◌, OnOk, OnErr};
ghost use Rattle.std.specs.String.{string_bytes};
ghost use Rattle.bk_report.specs.Databases.{database_line};
ghost use Rattle.bk_report.specs.Databases as spec;

use bk_ids::Name;
use bk_world::StatusWord;
use std::alloc::{AllocError, Global};

fn state_word(status: Option<StatusWord>) -> &'static str
    ensures { result.now ≡ spec.state_word status }
{
    match status {
        Some(status) => status.text(),
        None => "ONLINE",
    }
}

/// Adds a row of sys.databases: a database with the word of its status, none where it is online. Where memory is wanting, the
/// text is as it was.
pub fn push_database(
    alloc: Global,
    text: &mut String,
    name: &Name,
    status: Option<StatusWord>,
) -> Result<(), AllocError>
    ensures ok { OnOk result (string_bytes text.new ≡ string_bytes text.old ++ database_line name.now status) }
    ensures err { OnErr result (string_bytes text.new ≡ string_bytes text.old) }
{
    let name = name.as_str();
    let status = state_word(status);
    text.push_str(&format!(in alloc; "{name}\t{status}\n")?)
}
