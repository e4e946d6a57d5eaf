//! The marks of the extents of one file.

ghost use Rattle.std.specs.Prelude.{◌≡◌, ◌<◌, ◌^◌, IfOk, length, replicate, slice_set, slice_index_or, Option};
ghost use Rattle.bk_maps.specs.Marks.{unmarked, raised, raised_mark};

use bk_ids::Lsn;
use std::alloc::{AllocError, Global};
use std::marker::Model;

/// The greatest LSNs that were set for an extent.
#[derive(Clone, Copy, Debug, PartialEq, Eq)]
pub struct Marks {
    /// The greatest page LSN.
    pub page: Option<Lsn>,
    /// The greatest LSN of a bulk load.
    pub bulk: Option<Lsn>,
}

/// The marks of the extents of one file, in their order.
#[derive(Drop)]
pub(crate) struct FileMarks {
    extents: Vec<Marks>,
}

impl Model for FileMarks {
    ghost use Rattle.std.specs.Prelude.{List};
    ghost use Rattle.bk_maps.specs.declared.file_marks.Marks.{Marks};

    ghost Value = { List Marks };

    ghost view = { λ file. file.extents.items };
}

impl FileMarks {
    /// The marks of so many extents for which nothing was set.
    pub fn new(alloc: Global, extents: u32) -> Result<Self, AllocError>
        ensures { IfOk result (λ file. file ≡ replicate extents unmarked) }
    {
        let none = Marks {
            page: None,
            bulk: None,
        };
        Ok(FileMarks {
            extents: Vec::from_elem(alloc, none, extents as usize)?,
        })
    }

    /// How many extents there are.
    pub fn len(&self) -> usize
        ensures { result ≡ length self.now }
    {
        self.extents.len()
    }

    /// The marks of an extent, counted from 0.
    pub fn get(&self, extent: usize) -> Marks
        requires { extent < length self.now }
        ensures { result ≡ slice_index_or self.now extent unmarked }
    {
        self.extents[extent]
    }

    /// Sets a page LSN for an extent, counted from 0, and says whether it is that of a bulk load.
    pub fn raise(&mut self, extent: usize, lsn: Lsn, bulk: bool)
        requires { extent < length self.old }
        ensures { self.new ≡ slice_set self.old extent (raised (slice_index_or self.old extent unmarked) lsn bulk) }
    {
        let marks = self.extents[extent];
        let raised_bulk = if bulk {
            greater(marks.bulk, lsn)
        } else {
            marks.bulk
        };
        self.extents[extent] = Marks {
            page: greater(marks.page, lsn),
            bulk: raised_bulk,
        };
    }
}

fn greater(mark: Option<Lsn>, lsn: Lsn) -> Option<Lsn>
    ensures { result ≡ raised_mark mark lsn }
{
    match mark {
        Some(old) => Some(old.max(lsn)),
        None => Some(lsn),
    }
}
