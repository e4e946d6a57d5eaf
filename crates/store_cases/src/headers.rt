// The header of a full set of a database.
use bk_ids::{Guid, Lsn, Sequence, Text};
use bk_kept::{copy_file, copy_groups};
use bk_store::Store;
use bk_world::{FileSpec, Header, HeaderFile, SetKind};
use std::alloc::{AllocError, Global};

// The set of all databases here.
const SET: Guid = Guid { high: 9, low: 1 };

fn files_of(alloc: Global, files: &[FileSpec]) -> Result<Sequence<HeaderFile>, AllocError> {
    let mut all = Vec::new(alloc);
    for file in files {
        all.push(HeaderFile {
            spec: copy_file(alloc, file)?,
            in_set: true,
        })?;
    }
    Ok(Sequence::new(all))
}

/// The header of a set that begins with this checkpoint and ends at the database's end. It holds all of the live log.
pub(crate) fn header_of(
    alloc: Global,
    store: &Store,
    checkpoint: Lsn,
) -> Result<Header, AllocError> {
    let spec = store.spec();
    let groups = copy_groups(alloc, spec.storage.groups.as_slice())?;
    let files = files_of(alloc, spec.storage.files.as_slice())?;
    Ok(Header {
        version: 1,
        kind: SetKind::Full,
        model: store.shown().model(),
        copy_only: false,
        bulk: false,
        begins_chain: false,
        checksums: false,
        set: SET,
        family: spec.family,
        first: store.kept(),
        checkpoint,
        last: store.end(),
        database_backup: 0,
        base: None,
        start: 0,
        finish: store.shown().time(),
        expiry: None,
        database: spec.name.copy(alloc)?,
        name: Text::new(String::new(alloc)),
        path: spec.path.copy(alloc)?,
        groups,
        files,
        log_name: spec.storage.log_name.copy(alloc)?,
        log_path: spec.storage.log_path.copy(alloc)?,
    })
}
