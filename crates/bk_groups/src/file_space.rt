//! The extents and cells of one data file.

ghost use Rattle.std.specs.Prelude.{◌≡◌, ℕ, ◌+◌, ◌*◌, ◌<◌, ◌≤◌, Bool, false, not, ◌↔◌, IfOk, IsTrue, MatchOption, length, replicate, count_by};
ghost use Rattle.bk_groups.specs.Bits.{bit_of};
ghost use Rattle.bk_groups.specs.FileSpace.{HoldsCell, WritesBit, free_bit, with_touched};

use crate::free_cells::FreeCells;
use bk_ids::Slot;
use std::alloc::{AllocError, Global};
use std::marker::Model;

/// A data file of a filegroup: its free cells, and which of its extents were touched.
#[derive(Drop)]
pub(crate) struct FileSpace {
    group: u8,
    touched: Vec<bool>,
    free: FreeCells,
}

impl Model for FileSpace {
    ghost use Rattle.bk_groups.specs.FileSpace.{FileSpace as Space, IsFileSpace};

    ghost Value = { Space };

    ghost view = { λ space. record { group = space.group; touched = space.touched.items; free = space.free } };

    ghost invariant = { λ space. IsFileSpace (record { group = space.group; touched = space.touched.items; free = space.free }) };
}

impl FileSpace {
    /// A file of so many extents. Its cells are all free, and none of its extents was touched.
    pub fn new(alloc: Global, group: u8, extents: u32) -> Result<Self, AllocError>
        requires { extents ≤ 4096 }
        ensures group { IfOk result (λ space. space.group ≡ group) }
        ensures touched { IfOk result (λ space. space.touched ≡ replicate extents false) }
        ensures free { IfOk result (λ space. (page slot : ℕ) → HoldsCell space page slot → free_bit space page slot ≡ 1) }
    {
        let cells = 504 * extents as usize;
        let mut free = FreeCells::new(alloc, cells)?;
        free_all(&mut free, cells);
        Ok(FileSpace {
            group,
            touched: Vec::from_elem(alloc, false, extents as usize)?,
            free,
        })
    }

    /// Its filegroup.
    pub fn group(&self) -> u8
        ensures { result ≡ self.now.group }
    {
        self.group
    }

    /// How many extents it has.
    pub fn extents(&self) -> usize
        ensures { result ≡ length self.now.touched }
    {
        self.touched.len()
    }

    /// The page and slot of the first free cell, or `None` where no cell is free.
    pub fn first(&self) -> Option<(u32, Slot)>
        ensures { MatchOption result
            ((page slot : ℕ) → free_bit self.now page slot ≡ 0)
            (λ found. HoldsCell self.now found.0 found.1 × (free_bit self.now found.0 found.1 ≡ 1)) }
    {
        let _room = &self.touched;
        let cell = self.free.first()?;
        Some((8 + (cell / 63) as u32, Slot::of_cell(cell)))
    }

    /// Whether there is a cell at a page and slot, and it is free.
    pub fn is_free(&self, page: u32, slot: Slot) -> bool
        ensures { IsTrue result ↔ (HoldsCell self.now page slot × (free_bit self.now page slot ≡ 1)) }
    {
        let slot = slot.get();
        if page < 8 || 8 + 8 * self.touched.len() <= page as usize {
            return false;
        }
        self.free
            .contains((page as usize - 8) * 63 + usize::from(slot))
    }

    /// Takes a free cell.
    pub fn take(&mut self, page: u32, slot: Slot)
        requires cell { HoldsCell self.old page slot }
        requires free { free_bit self.old page slot ≡ 1 }
        ensures { WritesBit self.old self.new page slot 0 }
    {
        self.free
            .remove((page as usize - 8) * 63 + usize::from(slot.get()));
    }

    /// Makes a cell free.
    pub fn give_back(&mut self, page: u32, slot: Slot)
        requires { HoldsCell self.old page slot }
        ensures { WritesBit self.old self.new page slot 1 }
    {
        self.free
            .insert((page as usize - 8) * 63 + usize::from(slot.get()));
    }

    /// Notes that an extent was touched. Extents count from 1.
    pub fn touch(&mut self, extent: u32)
        requires first { 1 ≤ extent }
        requires last { extent ≤ length self.old.touched }
        ensures { self.new ≡ with_touched self.old extent }
    {
        self.touched[extent as usize - 1] = true;
    }

    /// How many extents were never touched.
    pub fn untouched(&self) -> u32
        ensures count { result ≡ count_by (λ touched. not touched) self.now.touched }
        ensures small { result ≤ 4096 }
    {
        self.touched.iter().filter(|touched| !**touched).count() as u32
    }
}

fn free_all(free: &mut FreeCells, cells: usize)
    requires room { cells ≤ 64 * length free.old }
    requires none { (cell : ℕ) → bit_of free.old cell ≡ 0 }
    ensures len { length free.new ≡ length free.old }
    ensures free { (cell : ℕ) → cell < cells → bit_of free.new cell ≡ 1 }
    ensures within { (cell : ℕ) → bit_of free.new cell ≡ 1 → cell < cells }
{
    for cell in 0..cells {
        free.insert(cell);
    }
}
