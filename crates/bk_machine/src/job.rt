ghost use Rattle.std.specs.Prelude.{◌≡◌, drop, IfOk};

use bk_ids::{ExtentId, Guid, Lsn, Sequence, Text};
use bk_world::SetKind;
use std::alloc::{AllocError, Global};

/// A backup that runs beside the sessions, until a crash or the end of the run drops it. Times are milliseconds since
/// 1970-01-01 00:00:00 UTC.
#[derive(Debug)]
pub struct Job {
    /// The set that it makes.
    pub set: Guid,
    pub kind: SetKind,
    /// The numbers of the data files that it copies.
    pub files: Sequence<u16>,
    pub copy_only: bool,
    /// Whether CHECKSUM was asked for.
    pub checksums: bool,
    /// The set's name, empty for none.
    pub name: Text,
    /// Until when the set isn't to be written over.
    pub expiry: Option<u64>,
    pub start: u64,
    /// The path of its medium, of 1 to 100 bytes.
    pub medium: Text,
    /// The first log record that the set will hold.
    pub first: Lsn,
    /// The checkpoint at its start.
    pub checkpoint: Lsn,
    /// The data extents that aren't copied yet, in their order.
    pub left: Sequence<ExtentId>,
}

impl Drop for Job {
    fn drop(self) {
        let Job {
            set: _,
            kind: _,
            files: _,
            copy_only: _,
            checksums: _,
            name: _,
            expiry: _,
            start: _,
            medium: _,
            first: _,
            checkpoint: _,
            left: _,
        } = self;
    }
}

// Numbers of their own.
fn copy_numbers(alloc: Global, numbers: &[u16]) -> Result<Sequence<u16>, AllocError>
    ensures { IfOk result (λ copy. copy ≡ numbers.now) }
{
    let mut copy = Vec::new(alloc);
    for number in numbers {
        copy.push(*number)?;
    }
    Ok(Sequence::new(copy))
}

// Extents of their own.
fn copy_extents(alloc: Global, extents: &[ExtentId]) -> Result<Sequence<ExtentId>, AllocError>
    ensures { IfOk result (λ copy. copy ≡ extents.now) }
{
    let mut copy = Vec::new(alloc);
    for extent in extents {
        copy.push(*extent)?;
    }
    Ok(Sequence::new(copy))
}

// The extents behind so many, none where there are no more.
fn behind(extents: &[ExtentId], count: u64) -> &[ExtentId]
    ensures { result.now ≡ drop count extents.now }
{
    if count < extents.len() as u64 {
        &extents[count as usize..]
    } else {
        &[]
    }
}

impl Job {
    /// One of its own that is like this one.
    pub fn copy(&self, alloc: Global) -> Result<Self, AllocError>
        ensures { IfOk result (λ copy. copy ≡ self.now) }
    {
        self.copy_after(alloc, 0)
    }

    /// One of its own that is like this one once so many more of the extents that are left are copied.
    pub fn copy_after(&self, alloc: Global, count: u64) -> Result<Self, AllocError>
        ensures { IfOk result (λ copy. copy ≡ record self.now { left = drop count self.now.left }) }
    {
        Ok(Job {
            set: self.set,
            kind: self.kind,
            files: copy_numbers(alloc, self.files.as_slice())?,
            copy_only: self.copy_only,
            checksums: self.checksums,
            name: self.name.copy(alloc)?,
            expiry: self.expiry,
            start: self.start,
            medium: self.medium.copy(alloc)?,
            first: self.first,
            checkpoint: self.checkpoint,
            left: copy_extents(alloc, behind(self.left.as_slice(), count))?,
        })
    }
}
