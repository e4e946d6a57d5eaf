// The text of a reply.
ghost use Rattle.std.specs.Prelude.{◌≡◌, ◌++◌, IfOk, OnOk, flat_map};
ghost use Rattle.std.specs.String.{string_bytes};
ghost use Rattle.bk_report.specs.Listing.{listing_text};
ghost use Rattle.bk_world.specs.declared.reply.Reply.TheVariants.{Selected, SetMade, Listed, Refused};
ghost use Rattle.bk_world.specs.Text.{reply_text, row_text};

use bk_ids::{Lsn, Value};
use bk_report::push_listing;
use bk_world::{Listing, Reply, Rule};
use std::alloc::{AllocError, Global};

/// The bytes of a reply, each line ended by a line feed; none where nothing is answered.
pub fn text(alloc: Global, reply: &Reply) -> Result<String, AllocError>
    ensures { IfOk result (λ text. string_bytes text ≡ reply_text listing_text reply.now) }
{
    match reply {
        Reply::Done => String::from_str(alloc, "Done.\n"),
        Reply::Nothing => Ok(String::new(alloc)),
        Reply::Counted { rows } => format!(in alloc; "({rows} rows)\n"),
        Reply::Selected { rows } => table_text(alloc, rows.as_slice()),
        Reply::SetMade {
            position,
            first,
            checkpoint,
            last,
        } => set_text(alloc, *position, *first, *checkpoint, *last),
        Reply::JobStarted => String::from_str(alloc, "Job started.\n"),
        Reply::Valid { position } => format!(in alloc; "Set {position} is valid.\n"),
        Reply::Listed { listing } => listed_text(alloc, listing),
        Reply::Recovered { at } => format!(in alloc; "Recovered at {at}.\n"),
        Reply::Refused { rule } => refusal_text(alloc, rule),
    }
}

// A backup set that was made.
fn set_text(
    alloc: Global,
    position: u32,
    first: Lsn,
    checkpoint: Lsn,
    last: Lsn,
) -> Result<String, AllocError>
    ensures { IfOk result (λ text. string_bytes text ≡ reply_text listing_text (SetMade position first checkpoint last)) }
{
    format!(in alloc; "Set {position}: first {first}, checkpoint {checkpoint}, last {last}.\n")
}

// What was asked for.
fn listed_text(alloc: Global, listing: &Listing) -> Result<String, AllocError>
    ensures { IfOk result (λ text. string_bytes text ≡ reply_text listing_text (Listed listing.now)) }
{
    let mut text = String::new(alloc);
    push_listing(alloc, &mut text, listing)?;
    Ok(text)
}

// The first rule that was broken.
fn refusal_text(alloc: Global, rule: &Rule) -> Result<String, AllocError>
    ensures { IfOk result (λ text. string_bytes text ≡ reply_text listing_text (Refused rule.now)) }
{
    let rule = rule.text(alloc)?;
    format!(in alloc; "Refused {rule}\n")
}

// Each row, and how many they are.
fn table_text(alloc: Global, rows: &[(u64, Value)]) -> Result<String, AllocError>
    ensures { IfOk result (λ text. string_bytes text ≡ reply_text listing_text (Selected rows.now)) }
{
    let mut text = rows_text(alloc, rows)?;
    let count = rows.len();
    text.push_str(&format!(in alloc; "({count} rows)\n")?)?;
    Ok(text)
}

// The rows, one a line.
fn rows_text(alloc: Global, rows: &[(u64, Value)]) -> Result<String, AllocError>
    ensures { IfOk result (λ text. string_bytes text ≡ flat_map row_text rows.now) }
{
    let mut text = String::new(alloc);
    for (key, value) in rows {
        add_row(alloc, &mut text, *key, value)?;
    }
    Ok(text)
}

// One row more.
fn add_row(alloc: Global, text: &mut String, key: u64, value: &Value) -> Result<(), AllocError>
    ensures { OnOk result (string_bytes text.new ≡ string_bytes text.old ++ row_text (key, value.now)) }
{
    text.push_str(&format!(in alloc; "{key}\t")?)?;
    text.push_str(value.as_str())?;
    text.push_str("\n")
}
