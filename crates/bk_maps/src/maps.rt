//! The change maps.

ghost use Rattle.std.specs.Prelude.{◌≡◌, ◌≤◌, ◌↔◌, ◌+◌, IfOk, IsTrue, All, length};
ghost use Rattle.bk_maps.specs.Marks.{IsMarkFrom};
ghost use Rattle.bk_maps.specs.Maps.{HasExtent, new_maps, with_lsn, marks_of, InDifferential, InBulk};

use crate::file_marks::{FileMarks, Marks};
use bk_ids::Lsn;
use std::alloc::{AllocError, Global};
use std::marker::Model;

/// For each extent of a database's files the greatest page LSN and the greatest LSN of a bulk load that were set for it,
/// and the LSNs with which they are compared. Only `new` takes memory.
#[derive(Drop)]
pub struct Maps {
    files: Vec<FileMarks>,
    base: Lsn,
    archive: Lsn,
}

impl Model for Maps {
    ghost use Rattle.bk_maps.specs.Maps.{ChangeMaps};

    ghost Value = { ChangeMaps };

    ghost view = { λ maps. record { base = maps.base; archive = maps.archive; files = maps.files.items } };
}

impl Maps {
    /// The maps of files with so many extents, the file 1 first. No LSN was set, and both LSNs for comparison are 1.
    pub fn new(alloc: Global, extents: &[u32]) -> Result<Self, AllocError>
        ensures { IfOk result (λ maps. maps ≡ new_maps extents.now) }
    {
        let mut files = Vec::new(alloc);
        for n in extents {
            files.push(FileMarks::new(alloc, *n)?)?;
        }
        Ok(Maps {
            files,
            base: 1,
            archive: 1,
        })
    }

    /// Whether the maps have an extent. Files and extents count from 1.
    pub fn has_extent(&self, file: u16, extent: u32) -> bool
        ensures { IsTrue result ↔ HasExtent self.now file extent }
    {
        if file == 0 || extent == 0 || self.files.len() < usize::from(file) {
            return false;
        }
        extent as usize <= self.files[usize::from(file) - 1].len()
    }

    /// Notes that a page of an extent got an LSN, and whether that is the LSN of a bulk load. Files and extents count
    /// from 1.
    pub fn set(&mut self, file: u16, extent: u32, lsn: Lsn, bulk: bool)
        requires { HasExtent self.old file extent }
        ensures { self.new ≡ with_lsn self.old file extent lsn bulk }
    {
        let extent = extent as usize - 1;
        self.files[usize::from(file) - 1].raise(extent, lsn, bulk);
    }

    /// Whether the differential map holds an extent: a page LSN at or above the differential base was set for it.
    pub fn differential(&self, file: u16, extent: u32) -> bool
        requires { HasExtent self.now file extent }
        ensures { IsTrue result ↔ InDifferential self.now file extent }
    {
        is_from(self.base, self.marks(file, extent).page)
    }

    /// Whether the bulk map holds an extent: the LSN of a bulk load at or above the archive point was set for it.
    pub fn bulk(&self, file: u16, extent: u32) -> bool
        requires { HasExtent self.now file extent }
        ensures { IsTrue result ↔ InBulk self.now file extent }
    {
        is_from(self.archive, self.marks(file, extent).bulk)
    }

    /// Sets the differential base, with which page LSNs are compared from now on.
    pub fn rebase(&mut self, base: Lsn)
        ensures { self.new ≡ record self.old { base = base } }
    {
        self.base = base;
    }

    /// Sets the archive point, with which the LSNs of bulk loads are compared from now on.
    pub fn clear_bulk(&mut self, archive: Lsn)
        ensures { self.new ≡ record self.old { archive = archive } }
    {
        self.archive = archive;
    }

    fn marks(&self, file: u16, extent: u32) -> Marks
        requires { HasExtent self.now file extent }
        ensures { result ≡ marks_of self.now file extent }
    {
        self.files[usize::from(file) - 1].get(extent as usize - 1)
    }
}

// Whether there is a mark at or above an LSN.
fn is_from(from: Lsn, mark: Option<Lsn>) -> bool
    ensures { IsTrue result ↔ IsMarkFrom from mark }
{
    match mark {
        Some(lsn) => from <= lsn,
        None => false,
    }
}
