// RESTORE HEADERONLY, FILELISTONLY and VERIFYONLY.
ghost use Rattle.std.specs.Prelude.{◌≡◌, None, IfErr, IfOk, IsErrOf};
ghost use Rattle.bk_archive.specs.Media.{KeepsMedia};
ghost use Rattle.bk_device.specs.Calls.{ChangesNothing};
ghost use Rattle.bk_device.specs.Counts.{HasCause};
ghost use Rattle.bk_device.specs.Troubles.{IsPassing};
ghost use Rattle.bk_executing.specs.Querying.{replied};
ghost use Rattle.bk_items.specs.declared.item.MediumQuery.TheVariants as query;
ghost use Rattle.bk_machine.specs.Sound.{storage_in};
ghost use Rattle.bk_machine.specs.World.{World};
ghost use Rattle.bk_machine.specs.statements.Query.{answer_of, check_query};
ghost use Rattle.bk_world.specs.declared.reply.Listing.TheVariants as listing;
ghost use Rattle.bk_world.specs.declared.reply.Reply.TheVariants as reply;
ghost use Rattle.bk_world.specs.Medium.{medium_at};

use crate::copies::storage_of;
use bk_archive::{OpenedSet, list_sets, open_set};
use bk_device::{Device, Trouble};
use bk_ids::Text;
use bk_items::MediumQuery;
use bk_media_plans::position_of;
use bk_plans::is_path;
use bk_world::{Listing, Reply, Rule};
use std::alloc::{AllocError, Global};

// The headers of the sets of a medium: of all, or of the one that `file` chooses.
fn list_headers<D: Device>(
    alloc: Global,
    dev: &mut D,
    path: &str,
    file: Option<u64>,
) -> Result<Reply, Trouble>
    ensures replies { D.tells → (w : World) → KeepsMedia w None (D.disk dev.old).files → IfOk result (λ answer. answer ≡ replied (answer_of (medium_at w.media path.now) file query.Headers)) }
    ensures effect { D.tells → ChangesNothing (D.disk dev.old) (D.disk dev.new) }
    ensures trouble { IfErr result IsPassing }
    ensures cause { HasCause D.disk_faults D.tell_faults dev.old dev.new (IsErrOf result Trouble.Fault) }
{
    match list_sets(alloc, dev, path, file)? {
        Ok(sets) => Ok(Reply::Listed {
            listing: Listing::Sets { sets },
        }),
        Err(rule) => Ok(Reply::Refused { rule }),
    }
}

// The files of the database of a set that was opened.
fn files_in(alloc: Global, opened: &OpenedSet) -> Result<Reply, AllocError>
    ensures { IfOk result (λ answer. answer ≡ reply.Listed (listing.Files (storage_in opened.now.set.header))) }
{
    let storage = storage_of(alloc, opened.set.header())?;
    Ok(Reply::Listed {
        listing: Listing::Files { storage },
    })
}

// The files of the database of the set of a medium that `file` chooses.
fn list_files<D: Device>(
    alloc: Global,
    dev: &mut D,
    path: &str,
    file: Option<u64>,
) -> Result<Reply, Trouble>
    ensures replies { D.tells → (w : World) → KeepsMedia w None (D.disk dev.old).files → IfOk result (λ answer. answer ≡ replied (answer_of (medium_at w.media path.now) file query.FileList)) }
    ensures effect { D.tells → ChangesNothing (D.disk dev.old) (D.disk dev.new) }
    ensures trouble { IfErr result IsPassing }
    ensures cause { HasCause D.disk_faults D.tell_faults dev.old dev.new (IsErrOf result Trouble.Fault) }
{
    match open_set(alloc, dev, path, position_of(file))? {
        Ok(opened) => {
            let listed = files_in(alloc, &opened);
            drop(opened);
            Ok(listed?)
        }
        Err(rule) => Ok(Reply::Refused { rule }),
    }
}

// Whether the set of a medium that `file` chooses can be read.
fn verify<D: Device>(
    alloc: Global,
    dev: &mut D,
    path: &str,
    file: Option<u64>,
) -> Result<Reply, Trouble>
    ensures replies { D.tells → (w : World) → KeepsMedia w None (D.disk dev.old).files → IfOk result (λ answer. answer ≡ replied (answer_of (medium_at w.media path.now) file query.Verify)) }
    ensures effect { D.tells → ChangesNothing (D.disk dev.old) (D.disk dev.new) }
    ensures trouble { IfErr result IsPassing }
    ensures cause { HasCause D.disk_faults D.tell_faults dev.old dev.new (IsErrOf result Trouble.Fault) }
{
    let position = position_of(file);
    match open_set(alloc, dev, path, position)? {
        Ok(_opened) => Ok(Reply::Valid { position }),
        Err(rule) => Ok(Reply::Refused { rule }),
    }
}

/// What is answered to HEADERONLY, FILELISTONLY or VERIFYONLY on this line, of the sets of the medium at `disk` or of the one that `file` chooses. Changes nothing.
pub(crate) fn answer<D: Device>(
    alloc: Global,
    dev: &mut D,
    line: u32,
    query: MediumQuery,
    disk: &Text,
    file: Option<u64>,
) -> Result<Reply, Trouble>
    ensures replies { D.tells → (w : World) → KeepsMedia w None (D.disk dev.old).files → IfOk result (λ answer. answer ≡ replied (check_query w line query disk.now file)) }
    ensures effect { D.tells → ChangesNothing (D.disk dev.old) (D.disk dev.new) }
    ensures trouble { IfErr result IsPassing }
    ensures cause { HasCause D.disk_faults D.tell_faults dev.old dev.new (IsErrOf result Trouble.Fault) }
{
    let path = disk.as_str();
    if !is_path(path) {
        return Ok(Reply::Refused {
            rule: Rule::NotBuilt { line },
        });
    }
    match query {
        MediumQuery::Headers => list_headers(alloc, dev, path, file),
        MediumQuery::FileList => list_files(alloc, dev, path, file),
        MediumQuery::Verify => verify(alloc, dev, path, file),
    }
}
