// SELECT of the tables of msdb.
ghost use Rattle.std.specs.Prelude.{◌≡◌, IfErr, IfOk, IsErrOf};
ghost use Rattle.bk_device.specs.Calls.{ChangesNothing};
ghost use Rattle.bk_device.specs.Counts.{HasCause};
ghost use Rattle.bk_device.specs.Troubles.{IsPassing};
ghost use Rattle.bk_engine.specs.Rows.{rows_in};
ghost use Rattle.bk_executing.specs.Listing.{listed};
ghost use Rattle.bk_machine.specs.Checks.{or_refuse};
ghost use Rattle.bk_machine.specs.World.{World};
ghost use Rattle.bk_machine.specs.statements.Catalog.{check_catalog, rows_of};
ghost use Rattle.bk_msdb.specs.Msdb.{Shows};
ghost use Rattle.bk_world.specs.declared.rule.Rule.TheVariants.{NotBuilt};

use bk_device::{Device, Trouble};
use bk_items::Catalog;
use bk_msdb::{Tables, read_rows};
use bk_world::{Listing, Reply, Rule};
use std::alloc::Global;

// The rows of a table, if it is one of msdb's.
fn listing_of(tables: Tables, catalog: Catalog) -> Option<Listing>
    ensures { (w : World) → rows_in w ≡ tables → result ≡ rows_of w catalog }
{
    match catalog {
        Catalog::BackupSet => Some(Listing::Backups {
            rows: tables.into_backups(),
        }),
        Catalog::RestoreHistory => Some(Listing::Restores {
            rows: tables.into_restores(),
        }),
        Catalog::LogMarkHistory => Some(Listing::Marks {
            rows: tables.into_marks(),
        }),
        Catalog::Databases => None,
    }
}

// What is replied: the rows, or that it isn't built.
fn reply_with(listing: Option<Listing>, line: u32) -> Reply
    ensures { result ≡ listed (or_refuse listing (NotBuilt line)) }
{
    match listing {
        Some(listing) => Reply::Listed { listing },
        None => Reply::Refused {
            rule: Rule::NotBuilt { line },
        },
    }
}

/// What is answered to a SELECT of system rows on this line. Changes nothing.
pub(crate) fn list<D: Device>(
    alloc: Global,
    dev: &mut D,
    line: u32,
    catalog: Catalog,
) -> Result<Reply, Trouble>
    ensures replies { D.tells → (w : World) → Shows (D.disk dev.old).files (rows_in w) → IfOk result (λ answer. answer ≡ listed (check_catalog w line catalog)) }
    ensures effect { D.tells → ChangesNothing (D.disk dev.old) (D.disk dev.new) }
    ensures trouble { IfErr result IsPassing }
    ensures cause { HasCause D.disk_faults D.tell_faults dev.old dev.new (IsErrOf result Trouble.Fault) }
{
    let tables = read_rows(alloc, dev)?;
    let listing = listing_of(tables, catalog);
    Ok(reply_with(listing, line))
}
